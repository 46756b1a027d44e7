//! What expressions entail, and which of them can't fault.

ghost use Rattle.std.specs.Prelude.{◌≡◌, [], ◌∷◌, true, false, codes};
ghost use Rattle.fhir_fp_syntax.specs.Expression.{nothing, boolean, this, child, call, typed, filtered, binary};
ghost use Rattle.fhir_fp_syntax.specs.Expression as expressions;
ghost use Rattle.fhir_fp_syntax.specs.declared.expr.Operator.TheVariants.{And, Or, Xor, Implies, Equal, Union, In, Index};
ghost use Rattle.fhir_fp_syntax.specs.declared.expr.Function.TheVariants.{Exists, Empty, Not, HasValue, First, Count};
ghost use Rattle.fhir_fp_syntax.specs.declared.expr.Filter.TheVariants.{Where, All};
ghost use Rattle.fhir_fp_syntax.specs.declared.expr.TypeTest.TheVariants.{OfType, Is, As};
ghost use Rattle.fhir_entail.specs.Total.{is_total, is_total_truth};
ghost use Rattle.fhir_entail.specs.Entailment.{entails};
ghost use Rattle.worked_examples.specs.Entailing.{a, b, has_a, has_b, large, many, gives};

/// An expression entails itself (`itself`), and its parts where it is an `and` (`part`, `deep_part`); not so those of an `or` (`of_or`). Together
/// expressions entail what `and` makes of them (`both`), which one alone doesn't (`one`). An `or` is entailed by either side (`left`, `right`),
/// and an `implies` by what it implies (`implied`), where the other side can't fault (`faulting`, `faulting_implies`).
pub fn entailment_example()
    ensures itself { gives large large ≡ true }
    ensures another { gives has_a has_b ≡ false }
    ensures nothing_known { entails [] has_a ≡ false }
    ensures part { gives (binary And has_a large) large ≡ true }
    ensures deep_part { gives (binary And (binary And has_a has_b) large) has_b ≡ true }
    ensures of_or { gives (binary Or has_a has_b) has_a ≡ false }
    ensures both { entails (has_a ∷ large ∷ []) (binary And large has_a) ≡ true }
    ensures one { gives has_a (binary And has_a has_b) ≡ false }
    ensures left { gives large (binary Or large has_a) ≡ true }
    ensures right { gives large (binary Or has_a large) ≡ true }
    ensures faulting { gives has_a (binary Or has_a large) ≡ false }
    ensures implied { gives large (binary Implies has_a large) ≡ true }
    ensures implies_turned { gives has_a (binary Implies has_a large) ≡ false }
    ensures faulting_implies { gives has_a (binary Implies large has_a) ≡ false }
    ensures either { gives has_a (binary Xor has_a has_b) ≡ false }
{}

/// Names, literals and what functions of lists make of them have a result anywhere (`path`, `joined`, `counted`, `filtered`, `of_type`), and a
/// test of a list has a truth (`tested`, `equal`, `negated`, `for_all`). A comparison may fault (`compared`), and so may an index (`at`), `in`, and a
/// type test of several items (`is`). A truth is no list here (`truth_as_list`), nor a list a truth (`list_as_truth`).
pub fn totality_example()
    ensures path { is_total (child a (codes "b")) ≡ true }
    ensures joined { is_total (binary Union a b) ≡ true }
    ensures counted { is_total (call Count (call First a)) ≡ true }
    ensures filtered { is_total (filtered Where a has_b) ≡ true }
    ensures filtered_by_fault { is_total (filtered Where a large) ≡ false }
    ensures of_type { is_total (typed OfType a (codes "string")) ≡ true }
    ensures is { is_total_truth (typed Is a (codes "string")) ≡ false }
    ensures cast { is_total (typed As a (codes "string")) ≡ false }
    ensures at { is_total (binary Index a b) ≡ false }
    ensures tested { is_total_truth (call HasValue a) ≡ true }
    ensures equal { is_total_truth (binary Equal a b) ≡ true }
    ensures negated { is_total_truth (call Not (call Empty a)) ≡ true }
    ensures for_all { is_total_truth (filtered All a has_b) ≡ true }
    ensures literal { is_total_truth (boolean true) ≡ true }
    ensures compared { is_total_truth many ≡ false }
    ensures member { is_total_truth (binary In a b) ≡ false }
    ensures truth_as_list { is_total_truth (binary Equal has_a (boolean true)) ≡ false }
    ensures list_as_truth { is_total_truth a ≡ false }
    ensures joined_faults { is_total_truth (binary Or has_a large) ≡ false }
{}
