//! Types and the bases from which they derive.

ghost use Rattle.std.specs.Prelude.{◌≡◌, true, false, codes};
ghost use Rattle.conformance_laws.specs.Ancestors.{is_kind_of};

/// What `is` and `ofType` ask of a type (FHIRPath N1, section 6.3; FHIR R4, StructureDefinition, baseDefinition): each is of its own kind
/// (`itself`), and of the kind of what it derives from (`next`), also by more bases (`farther`); so is a data type (`data_type`, `farther_data`). No
/// type is of the kind of what derives from it (`turned`, `turned_data`), nor of one beside it (`beside`).
pub fn types_and_their_bases()
    ensures itself { is_kind_of (codes "Patient") (codes "Patient") ≡ true }
    ensures next { is_kind_of (codes "Patient") (codes "DomainResource") ≡ true }
    ensures farther { is_kind_of (codes "Patient") (codes "Resource") ≡ true }
    ensures data_type { is_kind_of (codes "Duration") (codes "Quantity") ≡ true }
    ensures farther_data { is_kind_of (codes "Duration") (codes "Element") ≡ true }
    ensures turned { is_kind_of (codes "DomainResource") (codes "Patient") ≡ false }
    ensures turned_data { is_kind_of (codes "Quantity") (codes "Duration") ≡ false }
    ensures beside { is_kind_of (codes "Patient") (codes "Quantity") ≡ false }
{}
