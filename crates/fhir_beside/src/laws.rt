//! Laws: what the package that is made says of the two that it is made of.

ghost use Rattle.std.specs.Prelude.{◌≡◌, ◌<◌, ◌++◌, ℕ, length, List, Option, Some};
ghost use Rattle.std.specs.List.{Contains, slice_get};
ghost use Rattle.std.specs.FinSet as set;
ghost use Rattle.fhir_json.specs.Tree.{Text};
ghost use Rattle.fhir_package.specs.declared.kind.Kind.{Kind};
ghost use Rattle.fhir_package.specs.Definitions.{Definitions, at_url};
ghost use Rattle.fhir_package.specs.Canonical.{named_by};
ghost use Rattle.fhir_codes.specs.Concepts.{Concept, Concepts};
ghost use Rattle.fhir_codes.specs.ValueSets.{expansion, concepts_of};
ghost use Rattle.fhir_nodes.specs.Urls.{canonical_place};
ghost use Rattle.fhir_nodes.specs.Types.{type_place};
ghost use Rattle.fhir_schema.specs.Schemas.{schema_of};
ghost use Rattle.fhir_alike.specs.Mark.{package_texts, BeginsNone};
ghost use Rattle.fhir_beside.specs.Listing.{listed};
ghost use Rattle.fhir_beside.specs.Beside.{IsBeside};

use fhir_codes::least_closed;

/// No text of the two packages begins with the mark, and so each of their texts, as a url and as a canonical, means of the package that is made what
/// it means of NEW: nothing of either names what is put in.
pub fn names_mean_new()
    ensures mark { (old new beside : Definitions) (mark : Text) (types : ℕ) → IsBeside old new mark beside types
        → BeginsNone mark (package_texts old ++ package_texts new) }
    ensures urls { (old new beside : Definitions) (mark : Text) (types : ℕ) → IsBeside old new mark beside types
        → (kind : Kind) (url : Text) → Contains (package_texts old ++ package_texts new) url → at_url kind url beside ≡ at_url kind url new }
    ensures canonicals { (old new beside : Definitions) (mark : Text) (types : ℕ) → IsBeside old new mark beside types
        → (kind : Kind) (canonical : Text) → Contains (package_texts old ++ package_texts new) canonical
        → named_by kind canonical beside ≡ named_by kind canonical new }
{}

/// A canonical that is a text of either package has in the package that is made the concepts that it has in NEW: no binding of NEW means another set there.
pub fn concepts_mean_new()
    ensures { (old new beside : Definitions) (mark : Text) (types : ℕ) → IsBeside old new mark beside types
        → (canonical : Text) → Contains (package_texts old ++ package_texts new) canonical
        → concepts_of beside canonical ≡ concepts_of new canonical }
{
    least_closed();
}

/// In the schema of the package that is made NEW's definitions stand at their places, a canonical that is a text of either package names what it names in
/// NEW's schema, and each type is NEW's.
pub fn definitions_stay()
    ensures places { (old new beside : Definitions) (mark : Text) (types : ℕ) → IsBeside old new mark beside types
        → (place : ℕ) → place < length new.structure_definitions
        → slice_get (schema_of beside).definitions place ≡ slice_get (schema_of new).definitions place }
    ensures canonicals { (old new beside : Definitions) (mark : Text) (types : ℕ) → IsBeside old new mark beside types
        → (canonical : Text) → Contains (package_texts old ++ package_texts new) canonical
        → canonical_place (schema_of beside).definitions canonical ≡ canonical_place (schema_of new).definitions canonical }
    ensures types { (old new beside : Definitions) (mark : Text) (types : ℕ) → IsBeside old new mark beside types
        → (code : Text) → type_place (schema_of beside).definitions code ≡ type_place (schema_of new).definitions code }
{}

/// A value set that lists concepts has these and no others, in whatever package it stands. So OLD's value sets have there the concepts that they have
/// in OLD.
pub fn listed_sets_are_read()
    ensures { (p : Definitions) (known : Text → Option Concepts) (url : Text) (version : Option Text) (cs : List Concept)
        → expansion p known (listed url version cs) ≡ Some (set.from_list cs) }
{}
