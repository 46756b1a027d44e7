//! Laws: what the text of a line is, and where lines end.

ghost use Rattle.std.specs.Prelude.{◌≡◌, ◌↔◌, ◌∷◌, ◌++◌, [], ℕ, Some, false};
ghost use Rattle.std.specs.Str.Lines.{lines};
ghost use Rattle.fhir_json.specs.Bytes.{carriage_return, line_feed};
ghost use Rattle.fhir_json.specs.Tree.{Text};
ghost use Rattle.fhir_json.specs.Strings.{IsText};
ghost use Rattle.fhir_vouching.specs.Given.{has_feed, line_text};

/// The text of a line is the string whose inside the line is by the grammar of JSON; a line that is the inside of none has
/// none.
#[tactic(auto, using(crate::proofs::Strings::strings))]
pub fn strings_agree()
    ensures { (line text : Text) → (line_text line ≡ Some text) ↔ (IsText line text) }
{}

/// Lines end with a line feed or with a carriage return and a line feed, and the last one with the text. A carriage return
/// elsewhere belongs to its line.
#[tactic(auto, using(crate::proofs::Ends::ends_in_feed, crate::proofs::Ends::ends_in_both, crate::proofs::Ends::ends_text))]
pub fn lines_end()
    ensures feed { (line more : Text) → has_feed line ≡ false → ((front : Text) → ¬ (line ≡ front ++ carriage_return ∷ []))
        → lines (line ++ line_feed ∷ more) ≡ line ∷ lines more }
    ensures return_and_feed { (line more : Text) → has_feed line ≡ false
        → lines (line ++ carriage_return ∷ line_feed ∷ more) ≡ line ∷ lines more }
    ensures last { (b : ℕ) (line : Text) → has_feed (b ∷ line) ≡ false → lines (b ∷ line) ≡ (b ∷ line) ∷ [] }
    ensures none { lines [] ≡ [] }
{}
