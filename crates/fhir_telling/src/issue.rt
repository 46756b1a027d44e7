//! What an issue of an outcome says.

ghost use Rattle.std.specs.Prelude.{◌≡◌};
ghost use Rattle.fhir_json.specs.Views.{tree_of};
ghost use Rattle.fhir_telling.specs.Judgements.{place_of, diagnostics_of};

use fhir_json::Json;

/// Where an issue of an outcome is, if that is said, and the empty text else.
pub fn place_of<'j>(issue: &'j Json<'static>) -> &'j str
    ensures { result.now ≡ place_of (tree_of issue.now) }
{
    match issue.items_in("expression") {
        [place, ..] => place.as_text().unwrap_or(""),
        [] => "",
    }
}

/// What is wrong.
pub fn diagnostics_of<'j>(issue: &'j Json<'static>) -> &'j str
    ensures { result.now ≡ diagnostics_of (tree_of issue.now) }
{
    issue.text_in("diagnostics").unwrap_or("")
}
