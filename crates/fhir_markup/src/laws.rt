//! Laws: how a page is read.

ghost use Rattle.std.specs.Prelude.{◌≡◌, filter};
ghost use Rattle.fhir_json.specs.Tree.{Text};
ghost use Rattle.fhir_markup.specs.Markup.{Node, html, marks, is_mark, escaped, shown};
ghost use Rattle.fhir_markup.specs.Reading.{read};

/// What begins and ends the tags and values of a page are those of its elements and attributes, in order, and no others: the texts of a
/// page have none.
#[tactic(auto, using(crate::proofs::Marked::marks_alone))]
pub fn texts_stay_texts()
    ensures { (n : Node) → filter is_mark (html n) ≡ marks n }
{}

/// A text as it is written in a page reads as that text. A control character, and one that turns the direction of writing, is shown by its code.
#[tactic(auto, using(crate::proofs::Shown::escaped_read))]
pub fn texts_are_read()
    ensures { (text : Text) → read (escaped text) ≡ shown text }
{}
