//! Laws: what the definitions say of one another.

ghost use Rattle.std.specs.Prelude.{◌≡◌, ◌↔◌, ◌∷◌, ◌&&◌, List, Bool, Some, is_some, IsTrue};
ghost use Rattle.std.specs.List.{list_all, list_any};
ghost use Rattle.std.specs.Option.{option_and_then};
ghost use Rattle.std.specs.Str.{bytes_eq};
ghost use Rattle.std.specs.FinSet as set;
ghost use Rattle.fhir_json.specs.Tree.{Text};
ghost use Rattle.fhir_package.specs.declared.kind.Kind.TheVariants.{ValueSet, CodeSystem};
ghost use Rattle.fhir_package.specs.Definitions.{Definitions, at_url};
ghost use Rattle.fhir_package.specs.Canonical.{named_by};
ghost use Rattle.fhir_codes.specs.Concepts.{Concept, Concepts, of_system, union_of, common, has_code};
ghost use Rattle.fhir_codes.specs.ValueSets.{expansion, concepts_of};
ghost use Rattle.fhir_codes.specs.Expanding.{expansions_of, concepts_in};
ghost use Rattle.fhir_codes.specs.Least.{IsClosed};

/// The value sets that can be read are the least closed set: those in which nothing is unread by itself, and of which
/// each that they name can be read. The concepts of such a set are the set algebra of the concepts of those that it names.
pub fn least_closed()
    ensures read { (p : Definitions) (canonical : Text) → concepts_of p canonical
        ≡ option_and_then (expansion p (concepts_of p)) (named_by ValueSet canonical p) }
    ensures least { (p : Definitions) (other : Text → Bool) (canonical : Text) → IsClosed p other
        → IsTrue (is_some (concepts_of p canonical)) → IsTrue (other canonical) }
{}

/// In the list of all value sets with their concepts each canonical finds the concepts of the value set that it names.
pub fn resolved()
    ensures { (p : Definitions) (canonical : Text) → concepts_in (expansions_of p) canonical ≡ concepts_of p canonical }
{}

/// The order of a package doesn't matter, nor what no canonical and no url names.
pub fn any_order()
    ensures { (p q : Definitions)
        → ((canonical : Text) → named_by ValueSet canonical p ≡ named_by ValueSet canonical q)
        → ((url : Text) → at_url CodeSystem url p ≡ at_url CodeSystem url q)
        → (canonical : Text) → concepts_of p canonical ≡ concepts_of q canonical }
{}

/// A set is a subset of another exactly where each concept of the first is one of the other.
pub fn subsets()
    ensures { (a b : Concepts) → (IsTrue (set.is_subset a b)
        ↔ ((c : Concept) → IsTrue (set.contains a c) → IsTrue (set.contains b c))) }
{}

/// A code that some concept of a subset has, some concept of the set has.
pub fn codes_of_subset()
    ensures { (a b : Concepts) (code : Text) → IsTrue (set.is_subset a b) → IsTrue (has_code code a) → IsTrue (has_code code b) }
{}

/// Which concepts are in a union, in an intersection, and in the set of a system's codes.
pub fn algebra()
    ensures union_of { (ss : List Concepts) (c : Concept) → set.contains (union_of ss) c ≡ list_any (λ s. set.contains s c) ss }
    ensures common { (s : Concepts) (ss : List Concepts) (c : Concept) → set.contains (common (s ∷ ss)) c
        ≡ list_all (λ s. set.contains s c) (s ∷ ss) }
    ensures of_system { (system : Text) (cs : List Text) (c : Concept) → set.contains (of_system system cs) c
        ≡ (bytes_eq c.system system && list_any (bytes_eq c.code) cs) }
{}
