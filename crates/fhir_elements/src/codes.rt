//! Fields that are codes of a set.

ghost use Rattle.std.specs.Option.{option_and_then};
ghost use Rattle.std.specs.Prelude.{◌≡◌, ◌<◌, ℕ, List, Option, is_some};
ghost use Rattle.fhir_elements.specs.Codes.{code_in, allows_code};
ghost use Rattle.fhir_json.specs.Fields.{as_text};
ghost use Rattle.fhir_json.specs.Views.{tree_of};

use fhir_json::Json;

/// A set of codes.
pub(crate) trait Code: Copy {
    ghost reads: { List ℕ → Option Self };

    /// The code that a text is.
    fn of(text: &str) -> Option<Self>
        ensures { result ≡ reads text.now };
}

/// The code in a field.
pub(crate) fn code_in<C: Code>(json: &Json<'_>, name: &str) -> Option<C>
    ensures { result ≡ code_in C.reads name.now (tree_of json.now) }
{
    json.text_in(name).and_then(|text| C::of(text))
}

fn as_code<C: Code>(json: &Json<'_>) -> Option<C>
    ensures { result ≡ option_and_then C.reads (as_text (tree_of json.now)) }
{
    json.as_text().and_then(|text| C::of(text))
}

fn is_code<C: Code>(json: &Json<'_>) -> bool
    ensures { result ≡ is_some (option_and_then C.reads (as_text (tree_of json.now))) }
{
    let code: Option<C> = as_code(json);
    code.is_some()
}

/// Whether a field is absent or a code.
pub(crate) fn allows_code<C: Code>(json: &Json<'_>, name: &str) -> bool
    ensures { result ≡ allows_code C.reads name.now (tree_of json.now) }
{
    json.field(name).is_none_or(|value| is_code::<C>(value))
}
