//! Names of what a definition itself contains.

ghost use Rattle.std.specs.Prelude.{◌≡◌, true, codes};
ghost use Rattle.conformance_laws.specs.Contained.{naming, are_whole, are_none};

/// A canonical that begins with `#` names what the definition itself contains (FHIR R4, References, Contained Resources): the same text
/// is another name in each definition, so that none may be compared with another's. An element of a snapshot that names a profile, a target or
/// the value set of a required binding so is none, and its definition says yes to nothing (`contained`); where a `#` stands further on, or none
/// does, nothing is wrong with it (`others`, `plain`).
pub fn contained_names()
    ensures contained { are_none (naming (codes "#a")) ≡ true }
    ensures others { are_whole (naming (codes "http://a#b")) ≡ true }
    ensures plain { are_whole (naming (codes "http://a")) ≡ true }
{}
