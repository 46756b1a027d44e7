//! From a text to tokens (FHIRPath N1, Grammar).

ghost use Rattle.std.specs.Prelude.{◌≡◌, ◌+◌, ◌-◌, ◌<◌, ◌≤◌, suc, true, false, length, take, drop, get_or, IfOk, IfSome};
ghost use Rattle.std.specs.Option.{option_map};
ghost use Rattle.std.specs.List.{prefix_len};
ghost use Rattle.std.specs.Char.{is_ascii_digit};
ghost use Rattle.fhir_json.specs.Bytes.{is_blank};
ghost use Rattle.fhir_fp_syntax.specs.Answers.{Gives};
ghost use Rattle.fhir_fp_syntax.specs.Views.{word_of, words_of};
ghost use Rattle.fhir_fp_syntax.specs.Characters.{is_name_start, is_name_character};
ghost use Rattle.fhir_fp_syntax.specs.Tokens.{is_no_backquote, is_in_line};
ghost use Rattle.fhir_fp_syntax.specs.Lexing.{mark_named, word_named, front_len, name_at, special_at, fraction_len, number_len, number_at, delimited_at, literal_len, string_at, single_sign, double_sign, double_sign_at, sign_at, token_at, behind_line, behind_asterisk, behind_comment, piece_at, words_of_piece, few_words_in, with_piece};

use crate::literal::behind;
use crate::token::{Mark, Stop, Token};
use std::alloc::Global;

// How many tokens an expression may have.
const MAX_TOKENS: usize = 4096;

// The first n bytes of a text, of which the last is ASCII, and what stands behind them.
fn split_ascii(text: &str, n: usize) -> (&str, &str)
    requires { (0 < n) × (n ≤ length text.now) × (get_or text.now (n - 1) 0 < 128) }
    ensures front { result.0.now ≡ take n text.now }
    ensures rest { result.1.now ≡ drop n text.now }
{
    (&text[..n], &text[n..])
}

// What stands before and behind a text's byte at n, which is ASCII.
fn around(text: &str, n: usize) -> (&str, &str)
    requires { (n < length text.now) × (get_or text.now n 0 < 128) }
    ensures front { result.0.now ≡ take n text.now }
    ensures rest { result.1.now ≡ drop (suc n) text.now }
{
    (&text[..n], &text[n + 1..])
}

fn is_blank(b: u8) -> bool
    ensures { result ≡ is_blank b }
{
    matches!(b, b' ' | b'\t' | b'\n' | b'\r')
}

fn is_digit(b: u8) -> bool
    ensures { result ≡ is_ascii_digit b }
{
    b.is_ascii_digit()
}

fn is_name_start(b: u8) -> bool
    ensures { result ≡ is_name_start b }
{
    b.is_ascii_alphabetic() || b == b'_'
}

fn is_name_character(b: u8) -> bool
    ensures { result ≡ is_name_character b }
{
    is_name_start(b) || is_digit(b)
}

#[tactic(auto, unfolding(crate::specs::Lexing::mark_named))]
fn mark_named(name: &str) -> Option<Mark>
    ensures { result ≡ mark_named name.now }
{
    match name {
        "and" => Some(Mark::And),
        "or" => Some(Mark::Or),
        "xor" => Some(Mark::Xor),
        "implies" => Some(Mark::Implies),
        "in" => Some(Mark::In),
        "contains" => Some(Mark::Contains),
        "is" => Some(Mark::Is),
        "as" => Some(Mark::As),
        "true" => Some(Mark::True),
        "false" => Some(Mark::False),
        "div" => Some(Mark::Div),
        "mod" => Some(Mark::Mod),
        "$this" => Some(Mark::This),
        "%resource" => Some(Mark::Resource),
        "%context" => Some(Mark::Context),
        _ => None,
    }
}

fn word_named<'a>(name: &'a str) -> Token<'a>
    ensures { word_of result ≡ word_named name.now }
{
    match mark_named(name) {
        Some(mark) => Token::Mark(mark),
        None => Token::Name(name),
    }
}

fn name_len(text: &[u8]) -> usize
    ensures value { result ≡ prefix_len is_name_character text.now }
    ensures bound { result ≤ length text.now }
    ensures ascii { 0 < result → get_or text.now (result - 1) 0 < 128 }
{
    let mut i = 0;
    while i < text.len() && is_name_character(text[i]) {
        i += 1;
    }
    i
}

// The first byte with the characters of a name behind it, and the rest.
fn front_of(text: &str) -> (&str, &str)
    requires { (0 < length text.now) × (get_or text.now 0 0 < 128) }
    ensures front { result.0.now ≡ take (front_len text.now) text.now }
    ensures rest { result.1.now ≡ drop (front_len text.now) text.now }
{
    let n = name_len(&text.as_bytes()[1..]);
    split_ascii(text, n + 1)
}

#[tactic(auto, unfolding(crate::specs::Lexing::name_at))]
fn name_of<'a>(text: &'a str) -> (Token<'a>, &'a str)
    requires { (0 < length text.now) × (get_or text.now 0 0 < 128) }
    ensures value { name_at text.now ≡ (word_of result.0, result.1.now) }
    ensures shorter { length result.1.now < length text.now }
{
    let (front, rest) = front_of(text);
    (word_named(front), rest)
}

#[tactic(auto, unfolding(crate::specs::Lexing::special_at))]
fn special_of<'a>(text: &'a str) -> Option<(Token<'a>, &'a str)>
    requires { (0 < length text.now) × (get_or text.now 0 0 < 128) }
    ensures value { special_at text.now ≡ option_map (λ x. (word_of x.0, x.1.now)) result }
    ensures shorter { IfSome result (λ x. length x.1.now < length text.now) }
{
    let (front, rest) = front_of(text);
    match mark_named(front) {
        Some(mark) => Some((Token::Mark(mark), rest)),
        None => None,
    }
}

fn digits_len(text: &[u8]) -> usize
    ensures value { result ≡ prefix_len is_ascii_digit text.now }
    ensures bound { result ≤ length text.now }
    ensures ascii { 0 < result → get_or text.now (result - 1) 0 < 128 }
{
    let mut i = 0;
    while i < text.len() && is_digit(text[i]) {
        i += 1;
    }
    i
}

fn fraction_len(text: &[u8]) -> usize
    ensures value { result ≡ fraction_len text.now }
    ensures bound { result ≤ length text.now }
    ensures ascii { 0 < result → get_or text.now (result - 1) 0 < 128 }
{
    let [b, digits @ ..] = text else {
        return 0;
    };
    let n = digits_len(digits);
    if *b == b'.' && n > 0 { n + 1 } else { 0 }
}

fn number_len(text: &[u8]) -> usize
    ensures value { result ≡ number_len text.now }
    ensures bound { result ≤ length text.now }
    ensures ascii { 0 < result → get_or text.now (result - 1) 0 < 128 }
{
    let n = digits_len(text);
    n + fraction_len(&text[n..])
}

#[tactic(auto, unfolding(crate::specs::Lexing::number_at))]
fn number_of<'a>(text: &'a str) -> (Token<'a>, &'a str)
    requires { (0 < length text.now) × (is_ascii_digit (get_or text.now 0 0) ≡ true) }
    ensures value { number_at text.now ≡ (word_of result.0, result.1.now) }
    ensures shorter { length result.1.now < length text.now }
{
    let (number, rest) = split_ascii(text, number_len(text.as_bytes()));
    (Token::Number(number), rest)
}

fn delimited_len(text: &[u8]) -> usize
    ensures value { result ≡ prefix_len is_no_backquote text.now }
    ensures bound { result ≤ length text.now }
    ensures stop { result < length text.now → get_or text.now result 0 ≡ 96 }
{
    let mut i = 0;
    while i < text.len() && text[i] != b'`' {
        i += 1;
    }
    i
}

// A name from behind its backquote.
#[tactic(auto, unfolding(crate::specs::Lexing::delimited_at))]
fn delimited_of<'a>(text: &'a str) -> Option<(Token<'a>, &'a str)>
    ensures value { delimited_at text.now ≡ option_map (λ x. (word_of x.0, x.1.now)) result }
    ensures no_longer { IfSome result (λ x. length x.1.now ≤ length text.now) }
{
    let n = delimited_len(text.as_bytes());
    if n < text.len() {
        let (name, rest) = around(text, n);
        Some((Token::Name(name), rest))
    } else {
        None
    }
}

fn literal_len(text: &[u8]) -> Option<usize>
    ensures value { result ≡ literal_len false text.now }
    ensures stop { IfSome result (λ n. (n < length text.now) × (get_or text.now n 0 ≡ 39)) }
{
    let mut is_escaped = false;
    for i in 0..text.len() {
        if !is_escaped & (text[i] == b'\'') {
            return Some(i);
        }
        is_escaped = !is_escaped & (text[i] == b'\\');
    }
    None
}

// A string from behind its quote.
#[tactic(auto, unfolding(crate::specs::Lexing::string_at))]
fn string_of<'a>(text: &'a str) -> Option<(Token<'a>, &'a str)>
    ensures value { string_at text.now ≡ option_map (λ x. (word_of x.0, x.1.now)) result }
    ensures no_longer { IfSome result (λ x. length x.1.now ≤ length text.now) }
{
    match literal_len(text.as_bytes()) {
        Some(n) => {
            let (literal, rest) = around(text, n);
            Some((Token::Text(literal), rest))
        }
        None => None,
    }
}

fn single_sign(b: u8) -> Option<Mark>
    ensures value { result ≡ single_sign b }
    ensures ascii { IfSome result (λ _. b < 128) }
{
    match b {
        b'(' => Some(Mark::Open),
        b')' => Some(Mark::Close),
        b'[' => Some(Mark::OpenBracket),
        b']' => Some(Mark::CloseBracket),
        b'.' => Some(Mark::Dot),
        b'|' => Some(Mark::Bar),
        b'<' => Some(Mark::Less),
        b'>' => Some(Mark::Greater),
        b'=' => Some(Mark::Equal),
        _ => None,
    }
}

fn double_sign(a: u8, b: u8) -> Option<Mark>
    ensures value { result ≡ double_sign a b }
    ensures ascii { IfSome result (λ _. b < 128) }
{
    match (a, b) {
        (b'<', b'=') => Some(Mark::LessOrEqual),
        (b'>', b'=') => Some(Mark::GreaterOrEqual),
        (b'!', b'=') => Some(Mark::NotEqual),
        (b'{', b'}') => Some(Mark::Braces),
        _ => None,
    }
}

fn double_sign_of(text: &[u8]) -> Option<Mark>
    ensures value { result ≡ double_sign_at text.now }
    ensures bound { IfSome result (λ _. (2 ≤ length text.now) × (get_or text.now 1 0 < 128)) }
{
    let [a, b, ..] = text else {
        return None;
    };
    double_sign(*a, *b)
}

#[tactic(auto, unfolding(crate::specs::Lexing::sign_at))]
fn sign_of<'a>(text: &'a str) -> Option<(Token<'a>, &'a str)>
    ensures value { sign_at text.now ≡ option_map (λ x. (word_of x.0, x.1.now)) result }
    ensures shorter { IfSome result (λ x. length x.1.now < length text.now) }
{
    let [b, ..] = text.as_bytes() else {
        return None;
    };
    if let Some(mark) = double_sign_of(text.as_bytes()) {
        return Some((Token::Mark(mark), behind(text, 2)));
    }
    match single_sign(*b) {
        Some(mark) => Some((Token::Mark(mark), behind(text, 1))),
        None => None,
    }
}

#[tactic(auto, unfolding(crate::specs::Lexing::token_at))]
fn token_of<'a>(text: &'a str) -> Option<(Token<'a>, &'a str)>
    ensures value { token_at text.now ≡ option_map (λ x. (word_of x.0, x.1.now)) result }
    ensures shorter { IfSome result (λ x. length x.1.now < length text.now) }
{
    let [b, ..] = text.as_bytes() else {
        return None;
    };
    if is_name_start(*b) {
        return Some(name_of(text));
    }
    if *b == b'$' || *b == b'%' {
        return special_of(text);
    }
    if is_digit(*b) {
        return Some(number_of(text));
    }
    if *b == b'`' {
        return delimited_of(behind(text, 1));
    }
    if *b == b'\'' {
        return string_of(behind(text, 1));
    }
    sign_of(text)
}

// What stands behind the line, from its end on.
fn behind_line(text: &str) -> &str
    ensures { result.now ≡ behind_line text.now }
{
    let bytes = text.as_bytes();
    let mut i = 0;
    while i < bytes.len() && bytes[i] != b'\n' && bytes[i] != b'\r' {
        i += 1;
    }
    &text[i..]
}

// How far the first `*/` is.
fn comment_len(text: &[u8]) -> Option<usize>
    ensures value { behind_asterisk text.now ≡ option_map (λ n. drop (n + 2) text.now) result }
    ensures bound { IfSome result (λ n. (n + 2 ≤ length text.now) × (get_or text.now (n + 1) 0 < 128)) }
{
    let mut i = 0;
    while i + 1 < text.len() {
        if text[i] == b'*' && text[i + 1] == b'/' {
            return Some(i);
        }
        i += 1;
    }
    None
}

fn behind_asterisk(text: &str) -> Option<&str>
    ensures value { behind_asterisk text.now ≡ option_map (λ x. x.now) result }
    ensures no_longer { IfSome result (λ x. length x.now ≤ length text.now) }
{
    match comment_len(text.as_bytes()) {
        Some(n) => Some(behind(text, n + 2)),
        None => None,
    }
}

// What stands behind a comment, from behind its slash.
#[tactic(auto, unfolding(crate::specs::Lexing::behind_comment))]
fn behind_comment(text: &str) -> Option<&str>
    ensures value { behind_comment text.now ≡ option_map (λ x. x.now) result }
    ensures no_longer { IfSome result (λ x. length x.now ≤ length text.now) }
{
    let [b, ..] = text.as_bytes() else {
        return None;
    };
    if *b == b'/' {
        return Some(behind_line(behind(text, 1)));
    }
    if *b == b'*' {
        return behind_asterisk(behind(text, 1));
    }
    None
}

// The next token, or none behind a blank or a comment.
#[tactic(auto, unfolding(crate::specs::Lexing::piece_at))]
fn piece_of<'a>(text: &'a str) -> Result<(Option<Token<'a>>, &'a str), Stop>
    ensures value { Gives (λ x. (option_map word_of x.0, x.1.now)) result (piece_at text.now) }
    ensures shorter { IfOk result (λ x. length x.1.now < length text.now) }
{
    let [b, ..] = text.as_bytes() else {
        return Err(Stop::Unread);
    };
    if is_blank(*b) {
        return Ok((None, behind(text, 1)));
    }
    if *b == b'/' {
        return match behind_comment(behind(text, 1)) {
            Some(rest) => Ok((None, rest)),
            None => Err(Stop::Unread),
        };
    }
    match token_of(text) {
        Some((token, rest)) => Ok((Some(token), rest)),
        None => Err(Stop::Unread),
    }
}

fn add<'a>(tokens: &mut Vec<Token<'a>>, piece: Option<Token<'a>>) -> Result<(), Stop>
    ensures { Gives (λ _. words_of tokens.new.items) result (with_piece (words_of tokens.old.items) (option_map word_of piece.entry)) }
{
    let Some(token) = piece else {
        return Ok(());
    };
    if tokens.len() < MAX_TOKENS {
        tokens.push(token)?;
        Ok(())
    } else {
        Err(Stop::Unread)
    }
}

/// The tokens of a text, at most 4,096.
pub(crate) fn tokens_in<'a>(alloc: Global, text: &'a str) -> Result<Vec<Token<'a>>, Stop>
    ensures { Gives (λ v. words_of v.items) result (few_words_in text.now) }
{
    let mut tokens = Vec::new(alloc);
    let mut rest = text;
    'pieces: while !rest.is_empty() {
        let (piece, after) = piece_of(rest)?;
        add(&mut tokens, piece)?;
        rest = after;
    }
    Ok(tokens)
}
