//! Laws: what the texts of a pair that fails and of a fault are.

ghost use Rattle.std.specs.Prelude.{◌≡◌, [], ◌∷◌, ◌++◌, filter, IsUtf8, codes};
ghost use Rattle.std.specs.Char.{is_control};
ghost use Rattle.std.specs.Str.{chars};
ghost use Rattle.fhir_json.specs.Bytes.{line_feed};
ghost use Rattle.fhir_json.specs.Tree.{Text};
ghost use Rattle.fhir_schema.specs.Schemas.{SchemaValue};
ghost use Rattle.fhir_certificate.specs.declared.pair.Pair.{Pair};
ghost use Rattle.fhir_cert_check.specs.Rule.{RuleName};
ghost use Rattle.fhir_answers.specs.Replying.{fault_text};
ghost use Rattle.fhir_answers.specs.WrongText.{wrong_words, wrong_text};

use fhir_lines::escaped_texts;

/// A pair that fails is told on one line: of the control characters its text has a line feed, and no other, where its words are a text of
/// UTF-8. So no url, id, name or key of a package puts in a line.
pub fn wrong_text_is_a_line()
    ensures { (s : SchemaValue) (pair : Pair) (rule : RuleName) → IsUtf8 (wrong_words s pair rule)
        → filter is_control (chars (wrong_text s pair rule)) ≡ line_feed ∷ [] }
{
    escaped_texts();
}

/// A fault is told on one line: of the control characters its text has a line feed, and no other, where its words are a text of UTF-8. So no
/// name of a file puts in a line, or moves a terminal's cursor.
pub fn fault_text_is_a_line()
    ensures { (number subject : Text) → IsUtf8 (number ++ codes " " ++ subject)
        → filter is_control (chars (fault_text number subject)) ≡ line_feed ∷ [] }
{
    escaped_texts();
}
