//! What decimals say (FHIR R4, Data Types, decimal).

ghost use Rattle.std.specs.Prelude.{◌≡◌, ◌<◌, ◌++◌, [], ◌∷◌, not, Bool, true, false, length, IsTrue, Some, codes};
ghost use Rattle.std.specs.declared.cmp.Ordering.TheVariants.{Less, Equal, Greater};
ghost use Rattle.fhir_json.specs.Tree.{Text};
ghost use Rattle.fhir_decimal.specs.Text.{Parts};
ghost use Rattle.fhir_decimal.specs.Value.{number_of, value_of, value_order, is_same_value};
ghost use Rattle.fhirpath_laws.specs.Decimals.{order_between, whole_ones};

/// An exponent moves the point by so many digits: to the right (`raised`, as `1.25e2` is `125`), and behind a `-` to the left
/// (`lowered`, as `125e-2` is `1.25`).
pub fn exponents_move_points()
    ensures raised { (negative : Bool) (whole fraction exponent : Text) → number_of exponent ≡ length fraction
        → IsTrue (is_same_value
        (value_of (record { negative = negative; whole = whole; fraction = fraction; lowers = false; exponent = exponent }))
        (value_of (record { negative = negative; whole = whole ++ fraction; fraction = []; lowers = false; exponent = [] }))) }
    ensures lowered { (negative : Bool) (whole fraction exponent : Text) → number_of exponent ≡ length fraction
        → IsTrue (is_same_value
        (value_of (record { negative = negative; whole = whole ++ fraction; fraction = []; lowers = true; exponent = exponent }))
        (value_of (record { negative = negative; whole = whole; fraction = fraction; lowers = false; exponent = [] }))) }
{}

/// A `-` turns the order of any two decimals (`turned`), and what begins with one is less than all that don't, unless it is 0 (`below`).
pub fn order_of_negatives()
    ensures turned { (p q : Parts) → value_order (value_of (record p { negative = not p.negative })) (value_of (record q { negative = not q.negative }))
        ≡ value_order (value_of q) (value_of p) }
    ensures below { (p q : Parts) → p.negative ≡ true → q.negative ≡ false → 0 < number_of (p.whole ++ p.fraction)
        → value_order (value_of p) (value_of q) ≡ Less }
{}

/// The order of decimals by their texts.
pub fn order_of_texts()
    ensures negative { order_between (codes "-1") (codes "0.5") ≡ Some Less }
    ensures of_negatives { order_between (codes "-2") (codes "-10") ≡ Some Greater }
    ensures zeros { order_between (codes "-0") (codes "0.00") ≡ Some Equal }
    ensures raised { order_between (codes "1.5e2") (codes "150") ≡ Some Equal }
    ensures lowered { order_between (codes "1E-2") (codes "0.01") ≡ Some Equal }
    ensures signed { order_between (codes "2e+1") (codes "3") ≡ Some Greater }
{}

/// A decimal is whole where nothing is left behind its point once the exponent has moved it.
pub fn whole_decimals()
    ensures { whole_ones (codes "2.0" ∷ codes "2.5" ∷ codes "1.5e1" ∷ codes "1.5e0" ∷ codes "10e-1" ∷ codes "1e-1" ∷ codes "-3" ∷ [])
        ≡ Some true ∷ Some false ∷ Some true ∷ Some false ∷ Some true ∷ Some false ∷ Some true ∷ [] }
{}
