//! What each token is.

ghost use Rattle.std.specs.Prelude.{◌≡◌, ◌<◌, ◌≤◌};
ghost use Rattle.std.specs.Option.{option_map};
ghost use Rattle.fhir_fp_syntax.specs.Views.{word_of};
ghost use Rattle.fhir_fp_syntax.specs.Words.{next_of, next_of_mark, looseness, looseness_of_operator, name_of, is_open, is_close, is_close_bracket, is_dot, is_system_type, function_of, given_of};

use crate::expr::{Function, Operator, TypeTest};
use crate::token::{Given, Mark, Next, Token};

fn next_of_mark(mark: Mark) -> Next
    ensures { result ≡ next_of_mark mark }
{
    match mark {
        Mark::Open => Next::Call,
        Mark::Dot => Next::Dot,
        Mark::OpenBracket => Next::Bracket,
        Mark::Is => Next::Typed(TypeTest::Is),
        Mark::As => Next::Typed(TypeTest::As),
        Mark::Bar => Next::Binary(Operator::Union),
        Mark::Less => Next::Binary(Operator::Less),
        Mark::LessOrEqual => Next::Binary(Operator::LessOrEqual),
        Mark::Greater => Next::Binary(Operator::Greater),
        Mark::GreaterOrEqual => Next::Binary(Operator::GreaterOrEqual),
        Mark::Equal => Next::Binary(Operator::Equal),
        Mark::NotEqual => Next::Binary(Operator::NotEqual),
        Mark::In => Next::Binary(Operator::In),
        Mark::Contains => Next::Binary(Operator::Contains),
        Mark::And => Next::Binary(Operator::And),
        Mark::Or => Next::Binary(Operator::Or),
        Mark::Xor => Next::Binary(Operator::Xor),
        Mark::Implies => Next::Binary(Operator::Implies),
        _ => Next::Nothing,
    }
}

pub(crate) fn next_of(token: &Token) -> Next
    ensures { result ≡ next_of (word_of token.now) }
{
    match token {
        Token::Mark(mark) => next_of_mark(*mark),
        _ => Next::Nothing,
    }
}

fn looseness_of_operator(operator: Operator) -> usize
    ensures value { result ≡ looseness_of_operator operator }
    ensures bounds { (0 < result) × (result ≤ 9) }
{
    match operator {
        Operator::Index | Operator::Intersect => 1,
        Operator::Union => 3,
        Operator::Less | Operator::LessOrEqual | Operator::Greater | Operator::GreaterOrEqual => 4,
        Operator::Equal | Operator::NotEqual => 5,
        Operator::In | Operator::Contains => 6,
        Operator::And => 7,
        Operator::Or | Operator::Xor => 8,
        Operator::Implies => 9,
    }
}

pub(crate) fn looseness(next: Next) -> usize
    ensures { result ≡ looseness next }
{
    match next {
        Next::Call => 0,
        Next::Dot | Next::Bracket => 1,
        Next::Typed(_) => 2,
        Next::Binary(operator) => looseness_of_operator(operator),
        Next::Nothing => 10,
    }
}

pub(crate) fn is_open(token: &Token) -> bool
    ensures { result ≡ is_open (word_of token.now) }
{
    matches!(token, Token::Mark(Mark::Open))
}

pub(crate) fn is_close(token: &Token) -> bool
    ensures { result ≡ is_close (word_of token.now) }
{
    matches!(token, Token::Mark(Mark::Close))
}

pub(crate) fn is_close_bracket(token: &Token) -> bool
    ensures { result ≡ is_close_bracket (word_of token.now) }
{
    matches!(token, Token::Mark(Mark::CloseBracket))
}

pub(crate) fn is_dot(token: &Token) -> bool
    ensures { result ≡ is_dot (word_of token.now) }
{
    matches!(token, Token::Mark(Mark::Dot))
}

// A type of the System namespace, which is no type here unless `FHIR.` stands before it.
#[tactic(auto, unfolding(crate::specs::Words::is_system_type))]
pub(crate) fn is_system_type(name: &str) -> bool
    ensures { result ≡ is_system_type name.now }
{
    matches!(
        name,
        "String" | "Boolean" | "Integer" | "Decimal" | "Date" | "DateTime" | "Time"
    )
}

/// The name that a token is.
pub(crate) fn name_of<'a>(token: &Token<'a>) -> Option<&'a str>
    ensures { name_of (word_of token.now) ≡ option_map (λ s. s.now) result }
{
    match token {
        Token::Name(name) => Some(*name),
        Token::Text(_) => None,
        Token::Number(_) => None,
        Token::Mark(Mark::As) => Some("as"),
        Token::Mark(Mark::Contains) => Some("contains"),
        Token::Mark(Mark::In) => Some("in"),
        Token::Mark(Mark::Is) => Some("is"),
        Token::Mark(_) => None,
    }
}

#[tactic(auto, unfolding(crate::specs::Words::function_of))]
pub(crate) fn function_of(name: &str) -> Option<Function>
    ensures { result ≡ function_of name.now }
{
    if name == "exists" {
        return Some(Function::Exists);
    }
    if name == "empty" {
        return Some(Function::Empty);
    }
    if name == "count" {
        return Some(Function::Count);
    }
    if name == "first" {
        return Some(Function::First);
    }
    if name == "children" {
        return Some(Function::Children);
    }
    if name == "descendants" {
        return Some(Function::Descendants);
    }
    if name == "not" {
        return Some(Function::Not);
    }
    if name == "hasValue" {
        return Some(Function::HasValue);
    }
    None
}

#[tactic(auto, unfolding(crate::specs::Words::given_of))]
pub(crate) fn given_of(name: &str) -> Option<Given>
    ensures { result ≡ given_of name.now }
{
    if name == "where" {
        return Some(Given::Where);
    }
    if name == "exists" {
        return Some(Given::Exists);
    }
    if name == "all" {
        return Some(Given::All);
    }
    if name == "intersect" {
        return Some(Given::Intersect);
    }
    if name == "ofType" {
        return Some(Given::OfType);
    }
    None
}
