//! Laws: what the definitions say of one another.

ghost use Rattle.std.specs.Prelude.{◌≡◌, ◌↔◌, List, Some};
ghost use Rattle.fhir_json.specs.Tree.{Text};
ghost use Rattle.fhir_fp_syntax.specs.Expression.{Expression};
ghost use Rattle.fhir_fp_syntax.specs.Strings.{IsText, text_in};
ghost use Rattle.fhir_fp_syntax.specs.Words.{Word};
ghost use Rattle.fhir_fp_syntax.specs.Tokens.{IsSpelled, IsWritten};
ghost use Rattle.fhir_fp_syntax.specs.Reading.{expression_in};

/// Reading a text from left to right gives the expression that it is written for, and none where it is written for none.
pub fn grammar()
    ensures { (s : Text) (e : Expression) → (expression_in s ≡ Some e) ↔ IsWritten e s }
{}

/// A text is written for one expression at most.
pub fn one_reading()
    ensures { (s : Text) (e f : Expression) → IsWritten e s → IsWritten f s → e ≡ f }
{}

/// A text spells one list of words at most.
pub fn one_spelling()
    ensures { (s : Text) (ts us : List Word) → IsSpelled ts s → IsSpelled us s → ts ≡ us }
{}

/// What stands between the quotes of a string is read as the text that it stands for.
pub fn strings()
    ensures { (v s : Text) → (text_in v ≡ Some s) ↔ IsText v s }
{}
