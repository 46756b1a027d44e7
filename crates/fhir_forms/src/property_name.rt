//! The names of properties.

ghost use Rattle.std.specs.Prelude.{◌≡◌, ◌++◌, string_bytes, IfOk, OnOk};
ghost use Rattle.fhir_forms.specs.Forms.{is_choice, capitalised, property_name};

use std::alloc::{AllocError, Global};

/// Whether a name is that of a choice of types, which ends in `[x]` (FHIR R4, Formats, choice of data types).
pub(crate) fn is_choice(name: &str) -> bool
    ensures { result ≡ is_choice name.now }
{
    name.as_bytes().ends_with(b"[x]")
}

// Adds a code with its first letter in upper case.
fn push_capitalised(text: &mut String, code: &str) -> Result<(), AllocError>
    ensures { OnOk result (string_bytes text.new ≡ string_bytes text.old ++ capitalised code.now) }
{
    let mut rest = code.chars();
    if let Some(first) = rest.next() {
        text.push(first.to_ascii_uppercase())?;
        text.push_str(rest.as_str())?;
    }
    Ok(())
}

/// The name of the property in which an element of a type stands: `value[x]` of type `string` stands in `valueString`.
pub(crate) fn property_name(alloc: Global, name: &str, code: &str) -> Result<String, AllocError>
    ensures { IfOk result (λ s. string_bytes s ≡ property_name name.now code.now) }
{
    if !is_choice(name) {
        return String::from_str(alloc, name);
    }
    let mut property = String::from_str(alloc, &name[..name.len() - 3])?;
    push_capitalised(&mut property, code)?;
    Ok(property)
}
