//! Texts of parts.

ghost use Rattle.std.specs.Prelude.{◌≡◌, ◌++◌, map, string_bytes, IfOk, OnOk};
ghost use Rattle.std.specs.Option.{option_map};
ghost use Rattle.fhir_json.specs.Views.{text_seen};
ghost use Rattle.std.specs.Fmt.{decimal};
ghost use Rattle.fhir_gather_lines.specs.GatherLines.{joined, path_of, version_text};

use std::alloc::{AllocError, Global};

/// Parts behind one another.
pub(crate) fn joined(alloc: Global, parts: &[&str]) -> Result<String, AllocError>
    ensures { IfOk result (λ text. string_bytes text ≡ joined (map (λ p. p.now) parts.now)) }
{
    let mut text = String::new(alloc);
    for part in parts {
        text.push_str(*part)?;
    }
    Ok(text)
}

/// A file of a folder, by their names.
pub(crate) fn path_of(alloc: Global, folder: &str, file: &str) -> Result<String, AllocError>
    ensures { IfOk result (λ path. string_bytes path ≡ path_of folder.now file.now) }
{
    joined(alloc, &[folder, "/", file])
}

/// A version in words.
pub(crate) fn version_text(alloc: Global, version: Option<&str>) -> Result<String, AllocError>
    ensures { IfOk result (λ text. string_bytes text ≡ version_text (text_seen version.entry)) }
{
    match version {
        Some(version) => joined(alloc, &["version ", version]),
        None => String::from_str(alloc, "no version"),
    }
}

/// A number.
pub(crate) fn number_text(alloc: Global, number: usize) -> Result<String, AllocError>
    ensures { IfOk result (λ text. string_bytes text ≡ decimal number) }
{
    format!(in alloc; "{number}")
}
