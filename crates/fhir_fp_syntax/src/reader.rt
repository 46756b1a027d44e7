//! From tokens to an expression.

ghost use Rattle.std.specs.Prelude.{◌≡◌, ◌<◌, ◌≤◌, ◌+◌, ◌-◌, length, drop, IfOk, IfSome, string_bytes};
ghost use Rattle.std.specs.Option.{option_map};
ghost use Rattle.fhir_fp_syntax.specs.Answers.{Gives};
ghost use Rattle.fhir_fp_syntax.specs.Views.{word_of, words_of};
ghost use Rattle.fhir_fp_syntax.specs.Expression.{expression_of};
ghost use Rattle.fhir_fp_syntax.specs.Words.{name_of, next_of, is_open, is_close, is_close_bracket, is_dot, term_of, term_of_mark, with_argument};
ghost use Rattle.fhir_fp_syntax.specs.Reading.{expression_in};
ghost use Rattle.fhir_fp_syntax.specs.Parsing.{behind, argument_at, type_argument_at, calls_at, is_deep, primary_at, member_at, tested_at, tail_at, inner_at, at_level, called_at, expression_at, type_at, qualified_at, type_named};

use crate::expr::{Expr, Filter, Operator, TypeTest};
use crate::lexer::tokens_in;
use crate::literal::text_in;
use crate::token::{Given, Mark, Next, Stop, Token};
use crate::words::{
    function_of, given_of, is_close, is_close_bracket, is_dot, is_open, is_system_type, looseness,
    name_of, next_of,
};
use std::alloc::Global;

// How deep parentheses and brackets may stand in one another.
const MAX_NESTING: usize = 64;

// How loosely `implies` binds, the loosest operator.
const LOOSEST: usize = 9;

fn behind_open<'t, 'a>(tokens: &'t [Token<'a>]) -> Option<&'t [Token<'a>]>
    ensures value { behind is_open (words_of tokens.now) ≡ option_map (λ s. words_of s.now) result }
{
    let [t, rest @ ..] = tokens else {
        return None;
    };
    if is_open(t) { Some(rest) } else { None }
}

fn behind_dot<'t, 'a>(tokens: &'t [Token<'a>]) -> Option<&'t [Token<'a>]>
    ensures value { behind is_dot (words_of tokens.now) ≡ option_map (λ s. words_of s.now) result }
    ensures shorter { IfSome result (λ x. length x.now < length tokens.now) }
{
    let [t, rest @ ..] = tokens else {
        return None;
    };
    if is_dot(t) { Some(rest) } else { None }
}

fn behind_close<'t, 'a>(tokens: &'t [Token<'a>]) -> Result<&'t [Token<'a>], Stop>
    ensures value { Gives (λ s. words_of s.now) result (behind is_close (words_of tokens.now)) }
    ensures shorter { IfOk result (λ x. length x.now < length tokens.now) }
{
    let [t, rest @ ..] = tokens else {
        return Err(Stop::Unread);
    };
    if is_close(t) {
        Ok(rest)
    } else {
        Err(Stop::Unread)
    }
}

fn behind_close_bracket<'t, 'a>(tokens: &'t [Token<'a>]) -> Result<&'t [Token<'a>], Stop>
    ensures value { Gives (λ s. words_of s.now) result (behind is_close_bracket (words_of tokens.now)) }
    ensures shorter { IfOk result (λ x. length x.now < length tokens.now) }
{
    let [t, rest @ ..] = tokens else {
        return Err(Stop::Unread);
    };
    if is_close_bracket(t) {
        Ok(rest)
    } else {
        Err(Stop::Unread)
    }
}

fn behind_first<'t, 'a>(tokens: &'t [Token<'a>]) -> &'t [Token<'a>]
    requires { 0 < length tokens.now }
    ensures { result.now ≡ drop 1 tokens.now }
{
    &tokens[1..]
}

fn name(token: &Token, alloc: Global) -> Result<String, Stop>
    ensures { Gives string_bytes result (name_of (word_of token.now)) }
{
    match name_of(token) {
        Some(name) => Ok(String::from_str(alloc, name)?),
        None => Err(Stop::Unread),
    }
}

// A token that is an expression.
fn term_of(alloc: Global, token: &Token) -> Result<Expr, Stop>
    ensures { Gives expression_of result (term_of (word_of token.now)) }
{
    match token {
        Token::Name(name) => Ok(Expr::Name(String::from_str(alloc, name)?)),
        Token::Text(literal) => Ok(Expr::Text(text_in(alloc, literal)?)),
        Token::Number(number) => Ok(Expr::Number(String::from_str(alloc, number)?)),
        Token::Mark(mark) => term_of_mark(alloc, *mark),
    }
}

fn term_of_mark(alloc: Global, mark: Mark) -> Result<Expr, Stop>
    ensures { Gives expression_of result (term_of_mark mark) }
{
    match mark {
        Mark::Braces => Ok(Expr::Empty),
        Mark::True => Ok(Expr::Boolean(true)),
        Mark::False => Ok(Expr::Boolean(false)),
        Mark::This => Ok(Expr::This),
        Mark::Resource => Ok(Expr::Resource),
        Mark::Context => Ok(Expr::Context),
        Mark::As => Ok(Expr::Name(String::from_str(alloc, "as")?)),
        Mark::Contains => Ok(Expr::Name(String::from_str(alloc, "contains")?)),
        Mark::In => Ok(Expr::Name(String::from_str(alloc, "in")?)),
        Mark::Is => Ok(Expr::Name(String::from_str(alloc, "is")?)),
        _ => Err(Stop::Unread),
    }
}

// What stands within brackets.
#[cycle(parse)]
#[tactic(auto, unfolding(crate::specs::Parsing::inner_at))]
fn inner_of<'t, 'a>(
    alloc: Global,
    depth: usize,
    tokens: &'t [Token<'a>],
) -> Result<(Expr, &'t [Token<'a>]), Stop>
    ensures value { Gives (λ x. (expression_of x.0, words_of x.1.now)) result (inner_at depth (words_of tokens.now)) }
    ensures shorter { IfOk result (λ x. length x.1.now < length tokens.now) }
{
    if depth == 0 {
        return Err(Stop::Unread);
    }
    level_of(alloc, depth - 1, 9, tokens)
}

// A function's argument, and the parenthesis behind it.
#[cycle(parse)]
fn argument_of<'t, 'a>(
    alloc: Global,
    depth: usize,
    given: Given,
    a: Expr,
    tokens: &'t [Token<'a>],
) -> Result<(Expr, &'t [Token<'a>]), Stop>
    ensures value { Gives (λ x. (expression_of x.0, words_of x.1.now)) result (argument_at (inner_at depth) given (expression_of a) (words_of tokens.now)) }
    ensures shorter { IfOk result (λ x. length x.1.now < length tokens.now) }
{
    if let Given::OfType = given {
        return of_type(alloc, a, tokens);
    }
    let (b, rest) = inner_of(alloc, depth, tokens)?;
    let e = with_argument(alloc, given, a, b)?;
    let rest = behind_close(rest)?;
    Ok((e, rest))
}

// The name behind `FHIR` and its dot.
fn qualified_of<'t, 'a>(
    alloc: Global,
    tokens: &'t [Token<'a>],
) -> Result<(String, &'t [Token<'a>]), Stop>
    ensures value { Gives (λ x. (string_bytes x.0, words_of x.1.now)) result (qualified_at (words_of tokens.now)) }
    ensures shorter { IfOk result (λ x. length x.1.now < length tokens.now) }
{
    let [t, rest @ ..] = tokens else {
        return Err(Stop::Unread);
    };
    Ok((name(t, alloc)?, rest))
}

// The type whose first word is the name, behind which the tokens stand.
fn type_named<'t, 'a>(
    alloc: Global,
    name: &str,
    tokens: &'t [Token<'a>],
) -> Result<(String, &'t [Token<'a>]), Stop>
    ensures value { Gives (λ x. (string_bytes x.0, words_of x.1.now)) result
        (type_named name.now (words_of tokens.now) (behind is_dot (words_of tokens.now))) }
    ensures no_longer { IfOk result (λ x. length x.1.now ≤ length tokens.now) }
{
    match behind_dot(tokens) {
        Some(rest) => {
            if name == "FHIR" {
                return qualified_of(alloc, rest);
            }
            Err(Stop::Unread)
        }
        None => {
            if is_system_type(name) {
                return Err(Stop::Unread);
            }
            Ok((String::from_str(alloc, name)?, tokens))
        }
    }
}

#[tactic(auto, unfolding(crate::specs::Parsing::type_at))]
fn type_of<'t, 'a>(
    alloc: Global,
    tokens: &'t [Token<'a>],
) -> Result<(String, &'t [Token<'a>]), Stop>
    ensures value { Gives (λ x. (string_bytes x.0, words_of x.1.now)) result (type_at (words_of tokens.now)) }
    ensures shorter { IfOk result (λ x. length x.1.now < length tokens.now) }
{
    let [t, rest @ ..] = tokens else {
        return Err(Stop::Unread);
    };
    let Some(name) = name_of(t) else {
        return Err(Stop::Unread);
    };
    type_named(alloc, name, rest)
}

fn of_type<'t, 'a>(
    alloc: Global,
    a: Expr,
    tokens: &'t [Token<'a>],
) -> Result<(Expr, &'t [Token<'a>]), Stop>
    ensures value { Gives (λ x. (expression_of x.0, words_of x.1.now)) result (type_argument_at (expression_of a) (words_of tokens.now)) }
    ensures shorter { IfOk result (λ x. length x.1.now < length tokens.now) }
{
    let (name, rest) = type_of(alloc, tokens)?;
    let rest = behind_close(rest)?;
    Ok((
        Expr::Typed(TypeTest::OfType, Box::new(alloc, a)?, name),
        rest,
    ))
}

fn with_argument(alloc: Global, given: Given, a: Expr, b: Expr) -> Result<Expr, Stop>
    ensures { Gives expression_of result (with_argument given (expression_of a) (expression_of b)) }
{
    let (a, b) = (Box::new(alloc, a)?, Box::new(alloc, b)?);
    match given {
        Given::Where => Ok(Expr::Filtered(Filter::Where, a, b)),
        Given::Exists => Ok(Expr::Filtered(Filter::Exists, a, b)),
        Given::All => Ok(Expr::Filtered(Filter::All, a, b)),
        Given::Intersect => Ok(Expr::Binary(Operator::Intersect, a, b)),
        Given::OfType => Err(Stop::Unread),
    }
}

// The call of a function on a, from behind its opening parenthesis.
#[cycle(parse)]
#[tactic(auto, unfolding(crate::specs::Parsing::calls_at, crate::specs::Parsing::call_at))]
fn call_of<'t, 'a>(
    alloc: Global,
    depth: usize,
    a: Expr,
    t: &Token<'a>,
    tokens: &'t [Token<'a>],
) -> Result<(Expr, &'t [Token<'a>]), Stop>
    ensures value { Gives (λ x. (expression_of x.0, words_of x.1.now)) result
        (called_at (calls_at (is_deep depth) (inner_at depth)) (expression_of a) (word_of t.now) (words_of tokens.now)) }
    ensures shorter { IfOk result (λ x. length x.1.now < length tokens.now) }
{
    let Some(name) = name_of(t) else {
        return Err(Stop::Unread);
    };
    if depth == 0 {
        return Err(Stop::Unread);
    }
    let [u, rest @ ..] = tokens else {
        return Err(Stop::Unread);
    };
    if is_close(u) {
        let Some(function) = function_of(name) else {
            return Err(Stop::Unread);
        };
        return Ok((Expr::Call(function, Box::new(alloc, a)?), rest));
    }
    let Some(given) = given_of(name) else {
        return Err(Stop::Unread);
    };
    argument_of(alloc, depth, given, a, tokens)
}

#[cycle(parse)]
#[tactic(auto, unfolding(crate::specs::Parsing::primary_at))]
fn primary_of<'t, 'a>(
    alloc: Global,
    depth: usize,
    tokens: &'t [Token<'a>],
) -> Result<(Expr, &'t [Token<'a>]), Stop>
    ensures value { Gives (λ x. (expression_of x.0, words_of x.1.now)) result
        (primary_at (inner_at depth) (calls_at (is_deep depth) (inner_at depth)) (words_of tokens.now)) }
    ensures shorter { IfOk result (λ x. length x.1.now < length tokens.now) }
{
    let [t, rest @ ..] = tokens else {
        return Err(Stop::Unread);
    };
    if is_open(t) {
        let (e, rest) = inner_of(alloc, depth, rest)?;
        return Ok((e, behind_close(rest)?));
    }
    match behind_open(rest) {
        Some(inside) => call_of(alloc, depth, Expr::This, t, inside),
        None => Ok((term_of(alloc, t)?, rest)),
    }
}

#[cycle(parse)]
fn member_of<'t, 'a>(
    alloc: Global,
    depth: usize,
    a: Expr,
    tokens: &'t [Token<'a>],
) -> Result<(Expr, &'t [Token<'a>]), Stop>
    ensures value { Gives (λ x. (expression_of x.0, words_of x.1.now)) result
        (member_at (calls_at (is_deep depth) (inner_at depth)) (expression_of a) (words_of tokens.now)) }
    ensures shorter { IfOk result (λ x. length x.1.now < length tokens.now) }
{
    let [t, rest @ ..] = tokens else {
        return Err(Stop::Unread);
    };
    match behind_open(rest) {
        Some(inside) => call_of(alloc, depth, a, t, inside),
        None => {
            let name = name(t, alloc)?;
            Ok((Expr::Child(Box::new(alloc, a)?, name), rest))
        }
    }
}

fn tested_of<'t, 'a>(
    alloc: Global,
    test: TypeTest,
    a: Expr,
    tokens: &'t [Token<'a>],
) -> Result<(Expr, &'t [Token<'a>]), Stop>
    ensures value { Gives (λ x. (expression_of x.0, words_of x.1.now)) result (tested_at test (expression_of a) (words_of tokens.now)) }
    ensures shorter { IfOk result (λ x. length x.1.now < length tokens.now) }
{
    let (name, rest) = type_of(alloc, tokens)?;
    Ok((Expr::Typed(test, Box::new(alloc, a)?, name), rest))
}

// What the tokens make of a, from behind the first of them, which binds as loosely as n.
#[cycle(parse)]
#[tactic(auto, unfolding(crate::specs::Parsing::tail_at))]
fn tail_of<'t, 'a>(
    alloc: Global,
    depth: usize,
    n: usize,
    a: Expr,
    next: Next,
    tokens: &'t [Token<'a>],
) -> Result<(Expr, &'t [Token<'a>]), Stop>
    requires { (0 < n) × (n ≤ 9) }
    ensures value { Gives (λ x. (expression_of x.0, words_of x.1.now)) result
        (tail_at (inner_at depth) (calls_at (is_deep depth) (inner_at depth)) (at_level depth (n - 1)) (expression_of a) next (words_of tokens.now)) }
    ensures shorter { IfOk result (λ x. length x.1.now < length tokens.now) }
{
    match next {
        Next::Call => Err(Stop::Unread),
        Next::Dot => member_of(alloc, depth, a, tokens),
        Next::Bracket => {
            let (index, rest) = inner_of(alloc, depth, tokens)?;
            let rest = behind_close_bracket(rest)?;
            Ok((
                Expr::Binary(
                    Operator::Index,
                    Box::new(alloc, a)?,
                    Box::new(alloc, index)?,
                ),
                rest,
            ))
        }
        Next::Typed(test) => tested_of(alloc, test, a, tokens),
        Next::Binary(operator) => {
            let (b, rest) = level_of(alloc, depth, n - 1, tokens)?;
            Ok((
                Expr::Binary(operator, Box::new(alloc, a)?, Box::new(alloc, b)?),
                rest,
            ))
        }
        Next::Nothing => Err(Stop::Unread),
    }
}

// An expression whose operators bind no looser than n.
#[cycle(parse)]
#[tactic(auto, unfolding(crate::specs::Parsing::level_at))]
fn level_of<'t, 'a>(
    alloc: Global,
    depth: usize,
    n: usize,
    tokens: &'t [Token<'a>],
) -> Result<(Expr, &'t [Token<'a>]), Stop>
    requires { n ≤ 9 }
    ensures value { Gives (λ x. (expression_of x.0, words_of x.1.now)) result (at_level depth n (words_of tokens.now)) }
    ensures shorter { IfOk result (λ x. length x.1.now < length tokens.now) }
{
    if n == 0 {
        return primary_of(alloc, depth, tokens);
    }
    let (mut e, mut rest) = level_of(alloc, depth, n - 1, tokens)?;
    'tails: loop {
        let [t, ..] = rest else {
            return Ok((e, rest));
        };
        let next = next_of(t);
        if looseness(next) != n {
            return Ok((e, rest));
        }
        let after = behind_first(rest);
        let (grown, left) = tail_of(alloc, depth, n, e, next, after)?;
        e = grown;
        rest = left;
    }
}

// The expression that the tokens are.
#[tactic(auto, unfolding(crate::specs::Parsing::expression_at))]
fn expression_of(alloc: Global, tokens: &[Token<'_>]) -> Result<Expr, Stop>
    ensures { Gives expression_of result (expression_at (words_of tokens.now)) }
{
    let (e, rest) = level_of(alloc, MAX_NESTING, LOOSEST, tokens)?;
    if rest.is_empty() {
        Ok(e)
    } else {
        Err(Stop::Unread)
    }
}

/// The expression that a text is.
#[tactic(auto, unfolding(crate::specs::Reading::expression_in))]
pub(crate) fn read(alloc: Global, text: &str) -> Result<Expr, Stop>
    ensures { Gives expression_of result (expression_in text.now) }
{
    let tokens = tokens_in(alloc, text)?;
    expression_of(alloc, &tokens)
}
