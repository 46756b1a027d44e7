//! That no character of a page hides what the page says.

ghost use Rattle.std.specs.Prelude.{◌≡◌, [], IsUtf8, filter};
ghost use Rattle.std.specs.Str.{chars};
ghost use Rattle.fhir_markup.specs.Markup.{Node, is_coded, document};
ghost use Rattle.page_laws.specs.Texts.{HasTexts};

/// A page whose texts are in UTF-8 is in UTF-8, and has no control character but line feeds, and none that turns the direction of writing,
/// whatever its texts are.
#[tactic(auto, using(crate::proofs::Clean::nothing_hides))]
pub fn nothing_hides()
    ensures { (n : Node) → HasTexts n → IsUtf8 (document n) × (filter is_coded (chars (document n)) ≡ []) }
{}
