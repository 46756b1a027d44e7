//! Laws: what is promised of total expressions and of what is entailed.

ghost use Rattle.std.specs.Prelude.{◌≡◌, ◌↔◌, List, All, IsTrue};
ghost use Rattle.fhir_fp_syntax.specs.Expression.{Expression};
ghost use Rattle.fhir_instance.specs.Items.{Item};
ghost use Rattle.fhir_fp_values.specs.Values.{Plain};
ghost use Rattle.fhir_fp_eval.specs.Worlds.{World};
ghost use Rattle.fhir_fp_eval.specs.Meaning.{is_true};
ghost use Rattle.fhir_entail.specs.Same.{same_expression};
ghost use Rattle.fhir_entail.specs.Total.{is_total, is_total_truth};
ghost use Rattle.fhir_entail.specs.Entailment.{is_listed, entails};
ghost use Rattle.fhir_entail.specs.Truths.{HasResult, HasTruth};

/// A total expression has a result at each item, in each world, and a total truth has a truth there: neither has a fault.
pub fn total_has_result()
    ensures result { (w : World) (e : Expression) (x : Plain) → IsTrue (is_total e) → HasResult w e x }
    ensures truth { (w : World) (e : Expression) (x : Plain) → IsTrue (is_total_truth e) → HasTruth w e x }
{}

/// Where all of the expressions are true of an item, so is what they entail.
pub fn entailed_is_true()
    ensures { (w : World) (x : Item) (known : List Expression) (e : Expression)
        → All (λ k. IsTrue (is_true w k x)) known → IsTrue (entails known e) → IsTrue (is_true w e x) }
{}

/// What is the same as one of the expressions, or as a part of an `and` among them, is entailed.
pub fn listed_is_entailed()
    ensures { (known : List Expression) (e : Expression) → IsTrue (is_listed known e) → IsTrue (entails known e) }
{}

/// Expressions are told to be the same exactly where they are equal.
pub fn same_is_equal()
    ensures { (e f : Expression) → IsTrue (same_expression e f) ↔ (e ≡ f) }
{}
