//! Targets of references.

ghost use Rattle.std.specs.Prelude.{◌≡◌, true, false, codes};
ghost use Rattle.fhir_facets.specs.Unread.{Meaning};
ghost use Rattle.judged_examples.specs.Targets.{may_refer, narrows};

/// A reference may name the type of its target profile, or one that derives from it (FHIR R4, ElementDefinition, type.targetProfile;
/// StructureDefinition, baseDefinition): that type (`itself`), one that rests on it (`derived`), also by more bases (`farther`), and the
/// type that a profile constrains (`profiled`). It may not name one on which that rests (`turned`, `turned_farther`, `turned_profile`),
/// nor another beside it (`beside`).
pub fn named_targets()
    ensures itself { (m : Meaning) → may_refer m (codes "urn:Patient") (codes "Patient/1") ≡ true }
    ensures derived { (m : Meaning) → may_refer m (codes "urn:DomainResource") (codes "Patient/1") ≡ true }
    ensures farther { (m : Meaning) → may_refer m (codes "urn:Resource") (codes "Patient/1") ≡ true }
    ensures profiled { (m : Meaning) → may_refer m (codes "urn:patients") (codes "Patient/1") ≡ true }
    ensures turned { (m : Meaning) → may_refer m (codes "urn:Patient") (codes "DomainResource/1") ≡ false }
    ensures turned_farther { (m : Meaning) → may_refer m (codes "urn:Patient") (codes "Resource/1") ≡ false }
    ensures turned_profile { (m : Meaning) → may_refer m (codes "urn:patients") (codes "DomainResource/1") ≡ false }
    ensures beside { (m : Meaning) → may_refer m (codes "urn:Patient") (codes "Group/1") ≡ false }
{}

/// A profile may narrow a target profile to one of a type that derives from its type (`derived`), and to no other (`turned`, `beside`).
pub fn narrower_targets()
    ensures derived { narrows (codes "urn:Patient") (codes "urn:DomainResource") ≡ true }
    ensures turned { narrows (codes "urn:DomainResource") (codes "urn:Patient") ≡ false }
    ensures beside { narrows (codes "urn:Group") (codes "urn:Patient") ≡ false }
{}
