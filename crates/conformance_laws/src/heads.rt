//! Definitions whose heads are misspelt.

ghost use Rattle.std.specs.Prelude.{◌≡◌, true};
ghost use Rattle.conformance_laws.specs.Heads.{are_right, are_wrong, right_heads, wrong_heads};

/// A field of a definition's head that is of another kind than the standard's, or a word that its table doesn't have, is never passed over
/// as if nothing stood there (FHIR R4, StructureDefinition, kind, type, abstract, derivation, baseDefinition and snapshot): a definition
/// with one can't be used (`wrong`), and one without can (`right`). So `abstract` that is a text makes no type concrete, and a derivation
/// `Constraint` makes no profile a type.
pub fn misspelt_heads()
    ensures right { are_right right_heads ≡ true }
    ensures wrong { are_wrong wrong_heads ≡ true }
{}
