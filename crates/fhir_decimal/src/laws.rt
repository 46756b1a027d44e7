//! Laws: what the definitions say of one another.

ghost use Rattle.std.specs.Prelude.{◌≡◌, ℕ, ◌+◌, ◌++◌, ◌∷◌, [], pos, Some, IsTrue};
ghost use Rattle.std.specs.Ordering.{int_cmp};
ghost use Rattle.std.specs.Cmp.{IsTotalOrder, IsEquivalence};
ghost use Rattle.fhir_json.specs.Tree.{Text};
ghost use Rattle.fhir_json.specs.Bytes.{digit_zero};
ghost use Rattle.fhir_decimal.specs.Text.{Parts, IsDecimal};
ghost use Rattle.fhir_decimal.specs.Reading.{parts};
ghost use Rattle.fhir_decimal.specs.Value.{Value, value_of, whole_value, value_order, is_same_value};

/// Reading from left to right finds the parts that the grammar gives a text, and none in a text that it refuses. A
/// text has one such division.
pub fn grammar()
    ensures found { (bs : Text) (p : Parts) → parts bs ≡ Some p → IsDecimal bs p }
    ensures only { (bs : Text) (p : Parts) → IsDecimal bs p → parts bs ≡ Some p }
    ensures one { (bs : Text) (p q : Parts) → IsDecimal bs p → IsDecimal bs q → p ≡ q }
{}

/// The order of values is total, and whatever power of ten makes both whole, the whole numbers have it.
pub fn order_of_values()
    ensures total { IsTotalOrder value_order }
    ensures scale { (a b : Value) (more : ℕ) → value_order a b ≡ int_cmp
        (whole_value a (b.down + more)) (whole_value b (a.down + more)) }
{}

/// To have one value is an equivalence.
pub fn equality_of_values()
    ensures { IsEquivalence is_same_value }
{}

/// A 0 behind the digits of the fraction changes no value (`0.010` is `0.01`), and all zeros are one (`-0` is `0e5`).
pub fn texts_of_one_value()
    ensures fraction { (p : Parts) → IsTrue (is_same_value
        (value_of (record p { fraction = p.fraction ++ digit_zero ∷ [] })) (value_of p)) }
    ensures zeros { (a b : Value) → a.mantissa ≡ pos 0 → b.mantissa ≡ pos 0
        → IsTrue (is_same_value a b) }
{}
