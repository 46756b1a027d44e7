//! Laws: which profiles a resource is judged by.

ghost use Rattle.std.specs.Prelude.{◌≡◌, List, [], ◌∷◌, Bool, false, not, ◌||◌, is_some, IsTrue};
ghost use Rattle.fhir_json.specs.Tree.{Text, Tree};
ghost use Rattle.fhir_json.specs.Sound.{is_among, differ};
ghost use Rattle.fhir_package.specs.Definitions.{Definitions};
ghost use Rattle.fhir_schema.specs.Schemas.{SchemaValue, schema_of, loaded};
ghost use Rattle.fhir_claims.specs.Claims.{own_url, claimed, named_url, is_known, profiles_of, skipped_of};

use fhir_schema::least_closed;

/// What a resource claims is judged, or said to be skipped. The definition of its type always comes first (`own`). Each profile that it
/// claims and that is known is among its profiles, whether the others are skipped or not (`known`); each claim is either among its
/// profiles or among the skipped ones (`told`), where nothing is that is known (`skipped`), and nothing at all where none is to be
/// skipped (`kept`). None stands twice (`once`, `skipped_once`).
pub fn claims_are_judged()
    ensures own { (s : SchemaValue) (skip : Bool) (t : Tree) → (others : List Text) × (profiles_of s skip t ≡ own_url s t ∷ others) }
    ensures known { (s : SchemaValue) (skip : Bool) (t : Tree) (claim : Text) → IsTrue (is_among claim (claimed t))
        → IsTrue (is_known s (named_url s claim)) → IsTrue (is_among (named_url s claim) (profiles_of s skip t)) }
    ensures told { (s : SchemaValue) (skip : Bool) (t : Tree) (claim : Text) → IsTrue (is_among claim (claimed t))
        → IsTrue (is_among (named_url s claim) (profiles_of s skip t) || is_among (named_url s claim) (skipped_of s skip t)) }
    ensures skipped { (s : SchemaValue) (skip : Bool) (t : Tree) (url : Text) → IsTrue (is_among url (skipped_of s skip t))
        → IsTrue (not (is_known s url)) }
    ensures kept { (s : SchemaValue) (t : Tree) → skipped_of s false t ≡ [] }
    ensures once { (s : SchemaValue) (skip : Bool) (t : Tree) → IsTrue (differ (profiles_of s skip t)) }
    ensures skipped_once { (s : SchemaValue) (skip : Bool) (t : Tree) → IsTrue (differ (skipped_of s skip t)) }
{}

/// A claim that names a profile which can be used (FHIR R4, Data Types, canonical) is known, and so it is never skipped.
pub fn loaded_claims_are_known()
    ensures { (p : Definitions) (claim : Text) → IsTrue (is_some (loaded (schema_of p) claim))
        → IsTrue (is_known (schema_of p) (named_url (schema_of p) claim)) }
{
    least_closed();
}
