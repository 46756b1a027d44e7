//! The compact text of a tree, printed.

use fhir_json::{Json, Member};
use std::fmt;

fn write_escaped<W: fmt::Write>(f: &mut fmt::Formatter<W>, character: char) -> fmt::Result {
    match character {
        '"' => f.write_str("\\\""),
        '\\' => f.write_str("\\\\"),
        '\u{8}' => f.write_str("\\b"),
        '\u{c}' => f.write_str("\\f"),
        '\n' => f.write_str("\\n"),
        '\r' => f.write_str("\\r"),
        '\t' => f.write_str("\\t"),
        '\0'..='\u{1f}' => write!(f, "\\u{:04x}", character as u32),
        _ => f.write_char(character),
    }
}

fn write_text<W: fmt::Write>(f: &mut fmt::Formatter<W>, text: &str) -> fmt::Result {
    f.write_char('"')?;
    for character in text.chars() {
        write_escaped(f, character)?;
    }
    f.write_char('"')
}

/// Prints the compact text of a tree, which is the one that `fhir_json::write` writes. It takes no memory.
#[cycle(compact)]
pub(crate) fn write_compact<W: fmt::Write>(
    f: &mut fmt::Formatter<W>,
    json: &Json<'_>,
) -> fmt::Result {
    match json {
        Json::Null => f.write_str("null"),
        Json::Bool(true) => f.write_str("true"),
        Json::Bool(false) => f.write_str("false"),
        Json::Num(number) => f.write_str(number.as_str()),
        Json::Str(text) => write_text(f, text.as_str()),
        Json::Arr(items) => write_items(f, items),
        Json::Obj(members) => write_members(f, members),
    }
}

#[cycle(compact)]
fn write_items<W: fmt::Write>(f: &mut fmt::Formatter<W>, items: &[Json<'_>]) -> fmt::Result {
    f.write_char('[')?;
    let mut begun = false;
    for item in items {
        if begun {
            f.write_char(',')?;
        }
        write_compact(f, item)?;
        begun = true;
    }
    f.write_char(']')
}

#[cycle(compact)]
fn write_members<W: fmt::Write>(f: &mut fmt::Formatter<W>, members: &[Member<'_>]) -> fmt::Result {
    f.write_char('{')?;
    let mut begun = false;
    for member in members {
        if begun {
            f.write_char(',')?;
        }
        write_text(f, member.name.as_str())?;
        f.write_char(':')?;
        write_compact(f, &member.value)?;
        begun = true;
    }
    f.write_char('}')
}
