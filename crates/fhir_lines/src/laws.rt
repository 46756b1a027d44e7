//! Laws: how the text of lines is read.

ghost use Rattle.std.specs.Prelude.{◌≡◌, [], List, length, filter, replicate, All, IsUtf8};
ghost use Rattle.std.specs.Char.{is_control};
ghost use Rattle.std.specs.Str.{chars};
ghost use Rattle.fhir_json.specs.Bytes.{line_feed};
ghost use Rattle.fhir_json.specs.Tree.{Text};
ghost use Rattle.fhir_lines.specs.Lines.{LineValue, escaped, row_text, rows};
ghost use Rattle.fhir_words.specs.declared.request.Format.{Format};

/// Of the control characters the rows of lines have one line feed for each, and no other, where the lines are texts of UTF-8.
#[tactic(auto, using(crate::proofs::Shown::rows_clean))]
pub fn rows_are_lines()
    ensures { (format : Format) (ls : List LineValue) → All (λ l. IsUtf8 (row_text format l)) ls
        → filter is_control (chars (rows format ls)) ≡ replicate (length ls) line_feed }
{}

/// A text of UTF-8 whose control characters are escaped is one of UTF-8 (`text`), and has none (`clean`).
#[tactic(auto, using(crate::proofs::Shown::escaped_clean))]
pub fn escaped_texts()
    ensures text { (text : Text) → IsUtf8 text → IsUtf8 (escaped text) }
    ensures clean { (text : Text) → IsUtf8 text → filter is_control (chars (escaped text)) ≡ [] }
{}
