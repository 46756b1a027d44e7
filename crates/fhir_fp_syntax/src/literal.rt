//! The text of a string (FHIRPath N1, Grammar).

ghost use Rattle.std.specs.Prelude.{◌≡◌, ◌+◌, ◌-◌, ◌<◌, ◌≤◌, length, take, drop, get_or, string_bytes, encode_utf8, IfOk, IfSome};
ghost use Rattle.std.specs.List.{prefix_len};
ghost use Rattle.std.specs.Option.{option_map};
ghost use Rattle.fhir_fp_syntax.specs.Answers.{Gives};
ghost use Rattle.fhir_fp_syntax.specs.Strings.{short_escape, low_at, unicode_at, escape_at, text_at, text_in, is_plain};

use crate::token::Stop;
use fhir_json::code_unit_of;
use std::alloc::Global;

// The text behind its first n bytes, of which the last is ASCII.
pub(crate) fn behind(text: &str, n: usize) -> &str
    requires { (0 < n) × (n ≤ length text.now) × (get_or text.now (n - 1) 0 < 128) }
    ensures { result.now ≡ drop n text.now }
{
    &text[n..]
}

// The character of a pair, from behind its upper half.
#[tactic(auto, unfolding(crate::specs::Strings::low_at))]
fn low_of(high: u32, text: &str) -> Option<(char, &str)>
    requires { (0xd800 ≤ high) × (high < 0xdc00) }
    ensures value { option_map (λ x. (encode_utf8 x.0, x.1.now)) result ≡ low_at high text.now }
    ensures shorter { IfSome result (λ x. length x.1.now < length text.now) }
{
    let [b'\\', b'u', ..] = text.as_bytes() else {
        return None;
    };
    let Some((low, rest)) = code_unit_of(behind(text, 2)) else {
        return None;
    };
    if 0xdc00 <= low && low < 0xe000 {
        match char::from_u32(0x10000 + (high - 0xd800) * 1024 + (low - 0xdc00)) {
            Some(c) => Some((c, rest)),
            None => None,
        }
    } else {
        None
    }
}

// The character of four digits, or of two times four.
#[tactic(auto, unfolding(crate::specs::Strings::unicode_at))]
fn unicode_of(text: &str) -> Option<(char, &str)>
    ensures value { option_map (λ x. (encode_utf8 x.0, x.1.now)) result ≡ unicode_at text.now }
    ensures shorter { IfSome result (λ x. length x.1.now < length text.now) }
{
    let Some((unit, rest)) = code_unit_of(text) else {
        return None;
    };
    if 0xd800 <= unit && unit < 0xdc00 {
        return low_of(unit, rest);
    }
    match char::from_u32(unit) {
        Some(c) => Some((c, rest)),
        None => None,
    }
}

fn short(escape: u8) -> Option<u8>
    ensures value { result ≡ short_escape escape }
    ensures ascii { IfSome result (λ c. (c < 128) × (escape < 128)) }
{
    match escape {
        b'\'' | b'"' | b'`' | b'\\' | b'/' => Some(escape),
        b'f' => Some(12),
        b'n' => Some(b'\n'),
        b'r' => Some(b'\r'),
        b't' => Some(b'\t'),
        _ => None,
    }
}

// The character that a backslash stands for, from behind it.
#[tactic(auto, unfolding(crate::specs::Strings::escape_at))]
fn escape_of(text: &str) -> Option<(char, &str)>
    ensures value { option_map (λ x. (encode_utf8 x.0, x.1.now)) result ≡ escape_at text.now }
    ensures shorter { IfSome result (λ x. length x.1.now < length text.now) }
{
    let [e, ..] = text.as_bytes() else {
        return None;
    };
    if *e == b'u' {
        return unicode_of(behind(text, 1));
    }
    match short(*e) {
        Some(c) => Some((c as char, behind(text, 1))),
        None => None,
    }
}

// The front of a text without a backslash, and what follows it.
fn plain_of(text: &str) -> (&str, &str)
    ensures front { result.0.now ≡ take (prefix_len is_plain text.now) text.now }
    ensures rest { result.1.now ≡ drop (prefix_len is_plain text.now) text.now }
{
    let bytes = text.as_bytes();
    let mut i = 0;
    while i < bytes.len() && bytes[i] != b'\\' {
        i += 1;
    }
    (&text[..i], &text[i..])
}

// The character of an escape, from its backslash.
fn character_of(text: &str) -> Result<(char, &str), Stop>
    requires { (0 < length text.now) × (get_or text.now 0 0 ≡ 92) }
    ensures value { Gives (λ x. (encode_utf8 x.0, x.1.now)) result (escape_at (drop 1 text.now)) }
    ensures shorter { IfOk result (λ x. length x.1.now < length text.now) }
{
    match escape_of(behind(text, 1)) {
        Some((c, rest)) => Ok((c, rest)),
        None => Err(Stop::Unread),
    }
}

/// The text of what stands between the quotes of a string.
#[tactic(auto, unfolding(crate::specs::Strings::text_in))]
pub(crate) fn text_in(alloc: Global, literal: &str) -> Result<String, Stop>
    ensures { Gives string_bytes result (text_in literal.now) }
{
    let mut out = String::new(alloc);
    let mut rest = literal;
    'parts: loop {
        let (run, at) = plain_of(rest);
        out.push_str(run)?;
        if at.is_empty() {
            return Ok(out);
        }
        let (c, after) = character_of(at)?;
        out.push(c)?;
        rest = after;
    }
}
