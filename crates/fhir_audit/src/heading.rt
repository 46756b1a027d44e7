//! What a certificate says to be the url of its derived profile, whatever the definitions are.

use std::str;

// The text behind a word and a tab, where a line begins with them.
fn behind<'t>(line: &'t str, word: &str) -> Option<&'t str> {
    line.strip_prefix(word)?.strip_prefix("\t")
}

// The url of the definition that the text numbers so.
fn numbered<'t>(text: &'t str, number: &str) -> Option<&'t str> {
    for line in text.lines() {
        let Some(definition) = behind(line, "def") else {
            continue;
        };
        if let Some(named) = behind(definition, number) {
            return named.split('\t').next();
        }
    }
    None
}

// What stands in the line of the derived profile.
fn derived_line(text: &str) -> Option<&str> {
    for line in text.lines() {
        if let Some(named) = behind(line, "derived") {
            return Some(named);
        }
    }
    None
}

/// The url that the bytes of a certificate say to be that of its derived profile: as it stands there, or as that of the definition with the
/// number there.
pub(crate) fn derived_in(bytes: &[u8]) -> Option<&str> {
    let text = str::from_utf8(bytes).ok()?;
    let named = derived_line(text)?;
    if text.starts_with("fhirprof-certificate 1") {
        Some(named)
    } else {
        numbered(text, named)
    }
}
