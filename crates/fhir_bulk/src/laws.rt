//! Laws: how the text of rows is read.

ghost use Rattle.std.specs.Prelude.{◌≡◌, ℕ, filter, replicate, IsUtf8};
ghost use Rattle.std.specs.Char.{is_control};
ghost use Rattle.std.specs.Str.{chars};
ghost use Rattle.fhir_json.specs.Bytes.{line_feed};
ghost use Rattle.fhir_json.specs.Tree.{Text};
ghost use Rattle.fhir_words.specs.declared.request.Format.{Format};
ghost use Rattle.fhir_telling.specs.Judgements.{ToldValue};
ghost use Rattle.fhir_bulk.specs.Rows.{heading, rows};
ghost use Rattle.fhir_bulk.specs.Texts.{rows_in, AreTexts, AreSmall};

use fhir_lines::escaped_texts;

/// Of the control characters the rows on a line have one line feed for each row, and no other, where the texts in them are texts of UTF-8:
/// no text of a file, of a resource or of a package puts a line or a control character into what is told.
pub fn rows_are_lines()
    ensures { (format : Format) (file : Text) (number : ℕ) (told : ToldValue) → IsUtf8 file → AreTexts format told → AreSmall number told
        → filter is_control (chars (rows format (heading format file) number told)) ≡ replicate (rows_in format told) line_feed }
{
    escaped_texts();
}
