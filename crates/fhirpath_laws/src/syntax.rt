//! How expressions are read (FHIRPath N1, Grammar).
#![tactic(auto, unfolding(fhir_json::specs::Reading::unit_at, fhir_fp_syntax::specs::Reading::expression_in, fhir_fp_syntax::specs::Lexing::words_in, fhir_fp_syntax::specs::Lexing::words_at, fhir_fp_syntax::specs::Lexing::piece_at, fhir_fp_syntax::specs::Lexing::token_at, fhir_fp_syntax::specs::Lexing::name_at, fhir_fp_syntax::specs::Lexing::special_at, fhir_fp_syntax::specs::Lexing::number_at, fhir_fp_syntax::specs::Lexing::delimited_at, fhir_fp_syntax::specs::Lexing::string_at, fhir_fp_syntax::specs::Lexing::sign_at, fhir_fp_syntax::specs::Lexing::behind_comment, fhir_fp_syntax::specs::Lexing::mark_named, fhir_fp_syntax::specs::Parsing::expression_at, fhir_fp_syntax::specs::Parsing::level_at, fhir_fp_syntax::specs::Parsing::more_at, fhir_fp_syntax::specs::Parsing::tail_at, fhir_fp_syntax::specs::Parsing::primary_at, fhir_fp_syntax::specs::Parsing::call_at, fhir_fp_syntax::specs::Parsing::calls_at, fhir_fp_syntax::specs::Parsing::inner_at, fhir_fp_syntax::specs::Parsing::type_at, fhir_fp_syntax::specs::Words::function_of, fhir_fp_syntax::specs::Words::given_of, fhir_fp_syntax::specs::Words::is_system_type, fhir_fp_syntax::specs::Strings::text_in, fhir_fp_syntax::specs::Strings::text_at, fhir_fp_syntax::specs::Strings::escape_at, fhir_fp_syntax::specs::Strings::unicode_at, fhir_fp_syntax::specs::Strings::low_at,))]

ghost use Rattle.std.specs.Prelude.{◌≡◌, ◌+◌, true, false, IsTrue, Some, codes};
ghost use Rattle.fhir_fp_syntax.specs.declared.expr.Operator.{Operator};
ghost use Rattle.fhir_fp_syntax.specs.declared.expr.Operator.TheVariants as operators;
ghost use Rattle.fhir_fp_syntax.specs.declared.expr.Function.TheVariants as functions;
ghost use Rattle.fhir_fp_syntax.specs.declared.expr.TypeTest.{TypeTest};
ghost use Rattle.fhir_fp_syntax.specs.declared.token.Next.TheVariants as nexts;
ghost use Rattle.fhir_fp_syntax.specs.Expression.{nothing, boolean, this, resource, context, call, binary};
ghost use Rattle.fhir_fp_syntax.specs.Examples.{a, b, c};
ghost use Rattle.fhir_fp_syntax.specs.Words.{looseness};
ghost use Rattle.fhir_fp_syntax.specs.Reading.{expression_in};
ghost use Rattle.fhirpath_laws.specs.Precedence.{is_infix, row_of, row_of_type_tests};

/// Operators bind in the order of the rows of the standard's table (FHIRPath N1, section 6.8): how loosely one binds is its row less four, for
/// all that stand between their operands (`between`), and for `is` and `as` (`tests`). What stands behind a dot or in brackets binds tighter
/// (`dots`, `brackets`).
pub fn rows_of_operators()
    ensures between { (op : Operator) → IsTrue (is_infix op) → looseness (nexts.Binary op) + 4 ≡ row_of op }
    ensures tests { (test : TypeTest) → looseness (nexts.Typed test) + 4 ≡ row_of_type_tests }
    ensures dots { looseness nexts.Dot ≡ 1 }
    ensures brackets { looseness nexts.Bracket ≡ 1 }
{}

/// Operators of one row group to the left, also where they are two (FHIRPath N1, section 6.8).
pub fn groups_of_a_row()
    ensures or_xor { expression_in (codes "a or b xor c") ≡ Some (binary operators.Xor (binary operators.Or a b) c) }
    ensures xor_or { expression_in (codes "a xor b or c") ≡ Some (binary operators.Or (binary operators.Xor a b) c) }
    ensures orders { expression_in (codes "a < b >= c") ≡ Some (binary operators.GreaterOrEqual (binary operators.Less a b) c) }
    ensures equalities { expression_in (codes "a != b = c") ≡ Some (binary operators.Equal (binary operators.NotEqual a b) c) }
    ensures memberships { expression_in (codes "a in b contains c") ≡ Some (binary operators.Contains (binary operators.In a b) c) }
{}

/// What words stand for that are expressions by themselves (FHIRPath N1, sections 4.1 and 9; FHIR R4, FHIRPath, variables).
pub fn words_of_values()
    ensures yes { expression_in (codes "a = true") ≡ Some (binary operators.Equal a (boolean true)) }
    ensures no { expression_in (codes "a = false") ≡ Some (binary operators.Equal a (boolean false)) }
    ensures empty { expression_in (codes "a = {}") ≡ Some (binary operators.Equal a nothing) }
    ensures item { expression_in (codes "$this = a") ≡ Some (binary operators.Equal this a) }
    ensures around { expression_in (codes "%resource = a") ≡ Some (binary operators.Equal resource a) }
    ensures start { expression_in (codes "%context = a") ≡ Some (binary operators.Equal context a) }
{}

/// `intersect` is read as the operator of that name, of what stands before it and of its argument (FHIRPath N1, section 5.3).
pub fn shared_by_name()
    ensures one { expression_in (codes "a.intersect(b)") ≡ Some (binary operators.Intersect a b) }
    ensures counted { expression_in (codes "a.intersect(b | c).count()")
        ≡ Some (call functions.Count (binary operators.Intersect a (binary operators.Union b c))) }
{}
