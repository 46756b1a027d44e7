//! Fixed values, patterns and lengths.

ghost use Rattle.std.specs.Prelude.{◌≡◌, ℤ, true, false, codes};
ghost use Rattle.fhir_json.specs.Tree.{Tree};
ghost use Rattle.fhir_facets.specs.Values.{fixed_holds, pattern_holds, length_holds};
ghost use Rattle.fhir_facets.specs.Example.{valueless};

/// A primitive without a value, as one that says why it is absent, is equal to no fixed value and fits no pattern, whatever these are
/// (FHIR R4, ElementDefinition, fixed[x] and pattern[x]); of its length nothing is asked (maxLength).
pub fn items_without_values()
    ensures fixed { (value : Tree) → fixed_holds value (valueless (codes "code")) ≡ false }
    ensures pattern { (pattern : Tree) → pattern_holds pattern (valueless (codes "code")) ≡ false }
    ensures length { (most : ℤ) → length_holds most (valueless (codes "string")) ≡ true }
{}
