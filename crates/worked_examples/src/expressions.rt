//! Expressions of FHIRPath at work.
#![tactic(auto, unfolding(fhir_json::specs::Reading::unit_at, fhir_fp_syntax::specs::Reading::expression_in, fhir_fp_syntax::specs::Lexing::words_in, fhir_fp_syntax::specs::Lexing::words_at, fhir_fp_syntax::specs::Lexing::piece_at, fhir_fp_syntax::specs::Lexing::token_at, fhir_fp_syntax::specs::Lexing::name_at, fhir_fp_syntax::specs::Lexing::special_at, fhir_fp_syntax::specs::Lexing::number_at, fhir_fp_syntax::specs::Lexing::delimited_at, fhir_fp_syntax::specs::Lexing::string_at, fhir_fp_syntax::specs::Lexing::sign_at, fhir_fp_syntax::specs::Lexing::behind_comment, fhir_fp_syntax::specs::Lexing::mark_named, fhir_fp_syntax::specs::Parsing::expression_at, fhir_fp_syntax::specs::Parsing::level_at, fhir_fp_syntax::specs::Parsing::more_at, fhir_fp_syntax::specs::Parsing::tail_at, fhir_fp_syntax::specs::Parsing::primary_at, fhir_fp_syntax::specs::Parsing::call_at, fhir_fp_syntax::specs::Parsing::calls_at, fhir_fp_syntax::specs::Parsing::inner_at, fhir_fp_syntax::specs::Parsing::type_at, fhir_fp_syntax::specs::Words::function_of, fhir_fp_syntax::specs::Words::given_of, fhir_fp_syntax::specs::Words::is_system_type, fhir_fp_syntax::specs::Strings::text_in, fhir_fp_syntax::specs::Strings::text_at, fhir_fp_syntax::specs::Strings::escape_at, fhir_fp_syntax::specs::Strings::unicode_at, fhir_fp_syntax::specs::Strings::low_at,))]

ghost use Rattle.std.specs.Prelude.{◌≡◌, [], ◌∷◌, Some, None, codes};
ghost use Rattle.fhir_fp_syntax.specs.declared.expr.Operator.TheVariants as operators;
ghost use Rattle.fhir_fp_syntax.specs.declared.expr.Function.TheVariants as functions;
ghost use Rattle.fhir_fp_syntax.specs.declared.expr.Filter.TheVariants as filters;
ghost use Rattle.fhir_fp_syntax.specs.declared.expr.TypeTest.TheVariants as tests;
ghost use Rattle.fhir_fp_syntax.specs.Expression.{text, call, typed, filtered, binary};
ghost use Rattle.fhir_fp_syntax.specs.Examples.{a, b, c};
ghost use Rattle.fhir_fp_syntax.specs.Reading.{expression_in};

/// Each operator by its word, and those of one looseness side by side, each beside the next tighter one (FHIRPath N1, section 6.8):
/// what is tighter is an operand of what is looser, on whichever side it stands.
pub fn operators()
    ensures union { expression_in (codes "a | b") ≡ Some (binary operators.Union a b) }
    ensures less { expression_in (codes "a < b | c") ≡ Some (binary operators.Less a (binary operators.Union b c)) }
    ensures at_most { expression_in (codes "a <= b | c") ≡ Some (binary operators.LessOrEqual a (binary operators.Union b c)) }
    ensures greater { expression_in (codes "a > b | c") ≡ Some (binary operators.Greater a (binary operators.Union b c)) }
    ensures at_least { expression_in (codes "a >= b | c") ≡ Some (binary operators.GreaterOrEqual a (binary operators.Union b c)) }
    ensures equal { expression_in (codes "a = b < c") ≡ Some (binary operators.Equal a (binary operators.Less b c)) }
    ensures unequal { expression_in (codes "a != b < c") ≡ Some (binary operators.NotEqual a (binary operators.Less b c)) }
    ensures within { expression_in (codes "a in b = c") ≡ Some (binary operators.In a (binary operators.Equal b c)) }
    ensures contains { expression_in (codes "a contains b = c") ≡ Some (binary operators.Contains a (binary operators.Equal b c)) }
    ensures and { expression_in (codes "a and b in c") ≡ Some (binary operators.And a (binary operators.In b c)) }
    ensures or { expression_in (codes "a or b and c") ≡ Some (binary operators.Or a (binary operators.And b c)) }
    ensures xor { expression_in (codes "a xor b and c") ≡ Some (binary operators.Xor a (binary operators.And b c)) }
    ensures implies { expression_in (codes "a implies b or c") ≡ Some (binary operators.Implies a (binary operators.Or b c)) }
{}

/// Each function and each type test by its name (FHIRPath N1, section 5), and names of none.
pub fn function_names()
    ensures exists { expression_in (codes "a.exists()") ≡ Some (call functions.Exists a) }
    ensures empty { expression_in (codes "a.empty()") ≡ Some (call functions.Empty a) }
    ensures count { expression_in (codes "a.count()") ≡ Some (call functions.Count a) }
    ensures first { expression_in (codes "a.first()") ≡ Some (call functions.First a) }
    ensures children { expression_in (codes "a.children()") ≡ Some (call functions.Children a) }
    ensures descendants { expression_in (codes "a.descendants()") ≡ Some (call functions.Descendants a) }
    ensures not { expression_in (codes "a.not()") ≡ Some (call functions.Not a) }
    ensures has_value { expression_in (codes "a.hasValue()") ≡ Some (call functions.HasValue a) }
    ensures where_true { expression_in (codes "a.where(b)") ≡ Some (filtered filters.Where a b) }
    ensures exists_where { expression_in (codes "a.exists(b)") ≡ Some (filtered filters.Exists a b) }
    ensures all { expression_in (codes "a.all(b)") ≡ Some (filtered filters.All a b) }
    ensures of_type { expression_in (codes "a.ofType(b)") ≡ Some (typed tests.OfType a (codes "b")) }
    ensures is_type { expression_in (codes "a is b") ≡ Some (typed tests.Is a (codes "b")) }
    ensures as_type { expression_in (codes "a as b") ≡ Some (typed tests.As a (codes "b")) }
    ensures last { expression_in (codes "a.last()") ≡ None }
    ensures too_many { expression_in (codes "a.count(b)") ≡ None }
    ensures too_few { expression_in (codes "a.where()") ≡ None }
{}

/// Types of FHIRPath's own aren't read (FHIRPath N1, section 4.1), and those of FHIR that are named so are, behind `FHIR.`.
pub fn system_types()
    ensures string { expression_in (codes "a is String") ≡ None }
    ensures boolean { expression_in (codes "a is Boolean") ≡ None }
    ensures integer { expression_in (codes "a is Integer") ≡ None }
    ensures decimal { expression_in (codes "a is Decimal") ≡ None }
    ensures date { expression_in (codes "a is Date") ≡ None }
    ensures date_time { expression_in (codes "a is DateTime") ≡ None }
    ensures time { expression_in (codes "a is Time") ≡ None }
    ensures of_fhir { expression_in (codes "a is FHIR.String") ≡ Some (typed tests.Is a (codes "String")) }
    ensures other { expression_in (codes "a is string") ≡ Some (typed tests.Is a (codes "string")) }
{}

/// Each escape of a string but `\u` (FHIRPath N1, section 4.1.2), as its bytes: behind a quote, 39, and a backslash, 92.
pub fn escapes()
    ensures apostrophe { expression_in (39 ∷ 92 ∷ 39 ∷ 39 ∷ []) ≡ Some (text (39 ∷ [])) }
    ensures quote { expression_in (39 ∷ 92 ∷ 34 ∷ 39 ∷ []) ≡ Some (text (34 ∷ [])) }
    ensures backquote { expression_in (39 ∷ 92 ∷ 96 ∷ 39 ∷ []) ≡ Some (text (96 ∷ [])) }
    ensures backslash { expression_in (39 ∷ 92 ∷ 92 ∷ 39 ∷ []) ≡ Some (text (92 ∷ [])) }
    ensures slash { expression_in (39 ∷ 92 ∷ 47 ∷ 39 ∷ []) ≡ Some (text (47 ∷ [])) }
    ensures form_feed { expression_in (39 ∷ 92 ∷ 102 ∷ 39 ∷ []) ≡ Some (text (12 ∷ [])) }
    ensures line_feed { expression_in (39 ∷ 92 ∷ 110 ∷ 39 ∷ []) ≡ Some (text (10 ∷ [])) }
    ensures carriage_return { expression_in (39 ∷ 92 ∷ 114 ∷ 39 ∷ []) ≡ Some (text (13 ∷ [])) }
    ensures tab { expression_in (39 ∷ 92 ∷ 116 ∷ 39 ∷ []) ≡ Some (text (9 ∷ [])) }
    ensures other { expression_in (39 ∷ 92 ∷ 98 ∷ 39 ∷ []) ≡ None }
{}
