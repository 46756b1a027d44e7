//! Worked texts.

ghost use Rattle.std.specs.Prelude.{◌≡◌, Some, None, codes};
ghost use Rattle.fhir_fp_syntax.specs.declared.expr.Function.TheVariants as functions;
ghost use Rattle.fhir_fp_syntax.specs.declared.expr.TypeTest.TheVariants as tests;
ghost use Rattle.fhir_fp_syntax.specs.Expression.{nothing, text, this, name, number, child, call, typed};
ghost use Rattle.fhir_fp_syntax.specs.Reading.{expression_in};
ghost use Rattle.fhir_fp_syntax.specs.Examples.{a, ladder, of_ladder, implied, or_patient, of_where, of_index, of_smiling};

/// What some texts are. Each operator binds tighter than the next (`ladder`), and all group to the left (`left`). `FHIR.` before a
/// type's name leaves no trace, and a type of the System namespace without it is unread, as are a half of a surrogate pair, braces
/// with a blank between them, a comment that isn't closed and a type test as a function.
pub fn examples()
    ensures ladder { expression_in ladder ≡ Some of_ladder }
    ensures left { expression_in (codes "a implies b implies c") ≡ Some implied }
    ensures is_before_bar { expression_in (codes "a | b is Patient") ≡ Some or_patient }
    ensures fhir_type { expression_in (codes "a is FHIR.Patient") ≡ Some (typed tests.Is a (codes "Patient")) }
    ensures system_type { expression_in (codes "a is String") ≡ None }
    ensures escape { expression_in (codes "'\\u0041'") ≡ Some (text (codes "A")) }
    ensures pair { expression_in (codes "'\\uD83D\\uDE00'") ≡ Some of_smiling }
    ensures lone_surrogate { expression_in (codes "'\\uD83D'") ≡ None }
    ensures functions { expression_in (codes "a.where(b = 'c').exists()") ≡ Some of_where }
    ensures at_the_start { expression_in (codes "exists()") ≡ Some (call functions.Exists this) }
    ensures index { expression_in (codes "a.b[0].as") ≡ Some of_index }
    ensures parentheses { expression_in (codes "(a)") ≡ Some a }
    ensures braces { expression_in (codes "{}") ≡ Some nothing }
    ensures apart { expression_in (codes "{ }") ≡ None }
    ensures comments { expression_in (codes "a . b /* c */ // d") ≡ Some (child a (codes "b")) }
    ensures no_end { expression_in (codes "a /* b") ≡ None }
    ensures backquotes { expression_in (codes "`div`") ≡ Some (name (codes "div")) }
    ensures keyword { expression_in (codes "div") ≡ None }
    ensures number { expression_in (codes "01.50") ≡ Some (number (codes "01.50")) }
    ensures is_no_function { expression_in (codes "a.is(b)") ≡ None }
{}
