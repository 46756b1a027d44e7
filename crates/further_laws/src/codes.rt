//! Codes in sets of concepts, and what a value set has (FHIR R4, Using Codes in Resources; ValueSet, compose).

ghost use Rattle.std.specs.Prelude.{◌≡◌, ◌↔◌, ◌&&◌, not, Option, Some, IsTrue, codes};
ghost use Rattle.std.specs.List.{list_any, list_all};
ghost use Rattle.std.specs.FinSet as set;
ghost use Rattle.std.specs.Str.{bytes_eq};
ghost use Rattle.fhir_json.specs.Tree.{Text, Tree};
ghost use Rattle.fhir_json.specs.Fields.{text_in};
ghost use Rattle.fhir_package.specs.Definitions.{Definitions};
ghost use Rattle.fhir_codes.specs.Concepts.{Concept, Concepts, concept, has_code};
ghost use Rattle.fhir_codes.specs.ValueSets.{sets_named, includes, excludes, codes_taken, of_set, of_include, composition};

use fhir_codes::algebra;

/// A set has a code exactly where some concept of it has the code, in whatever system.
pub fn codes_of_sets()
    ensures { (s : Concepts) (code : Text)
        → IsTrue (has_code code s) ↔ ((system : Text) × IsTrue (set.contains s (concept system code))) }
{}

/// A value set has the concepts of each of its includes, but for those of each of its excludes (`parts`). An include that names a
/// system has the concepts of the codes that it takes of it which are in each value set that it names (`of_system`).
pub fn compositions()
    ensures parts { (p : Definitions) (known : Text → Option Concepts) (t : Tree) (c : Concept) → set.contains (composition p known t) c
        ≡ (list_any (λ i. set.contains (of_include p known i) c) (includes t)
        && not (list_any (λ e. set.contains (of_include p known e) c) (excludes t))) }
    ensures of_system { (p : Definitions) (known : Text → Option Concepts) (t : Tree) (c : Concept) (system : Text)
        → text_in (codes "system") t ≡ Some system → set.contains (of_include p known t) c
        ≡ (bytes_eq c.system system && list_any (bytes_eq c.code) (codes_taken p t system)
        && list_all (λ n. set.contains (of_set p known n) c) (sets_named t)) }
{
    algebra();
}
