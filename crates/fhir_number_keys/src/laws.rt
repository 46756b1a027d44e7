//! Laws: what the definitions say.

ghost use Rattle.std.specs.Prelude.{◌≡◌, ◌↔◌, IsTrue};
ghost use Rattle.fhir_decimal.specs.Value.{Value, is_same_value};
ghost use Rattle.fhir_number_keys.specs.Keys.{key_of};

/// Numbers have one key exactly where they have one value.
pub fn keys_of_values()
    ensures { (a b : Value) → (key_of a ≡ key_of b) ↔ IsTrue (is_same_value a b) }
{}
