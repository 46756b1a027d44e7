//! What a value set has, and where it can't be read (FHIR R4, ValueSet, compose).

ghost use Rattle.std.specs.Prelude.{◌≡◌, ◌&&◌, not, false, Option, None, Some, codes};
ghost use Rattle.std.specs.List.{Contains, list_all};
ghost use Rattle.std.specs.FinSet as set;
ghost use Rattle.fhir_json.specs.Bytes.{is_empty};
ghost use Rattle.fhir_json.specs.Tree.{Text, Tree};
ghost use Rattle.fhir_json.specs.Fields.{text_in};
ghost use Rattle.fhir_package.specs.Definitions.{Definitions};
ghost use Rattle.fhir_package.specs.Canonical.{named_by};
ghost use Rattle.fhir_package.specs.declared.kind.Kind.TheVariants.{ValueSet};
ghost use Rattle.fhir_codes.specs.Concepts.{Concept, Concepts};
ghost use Rattle.fhir_codes.specs.ValueSets.{sets_named, includes, excludes, is_plain_include, of_set, of_include, concepts_of};

use fhir_codes::{algebra, least_closed};

/// An include that names value sets and no system has the concepts that are in each of them, and none where it names none (FHIR R4, ValueSet,
/// compose.include.valueSet).
pub fn sets_alone()
    ensures { (p : Definitions) (known : Text → Option Concepts) (t : Tree) (c : Concept) → text_in (codes "system") t ≡ None
        → set.contains (of_include p known t) c
        ≡ (not (is_empty (sets_named t)) && list_all (λ n. set.contains (of_set p known n) c) (sets_named t)) }
{
    algebra();
}

/// A value set can't be read where one that it names can't: neither one that it includes (`included`), nor one that it excludes
/// (`excluded`), for then it isn't known what is to be taken away (FHIR R4, ValueSet, compose.exclude).
pub fn unread_sets()
    ensures included { (p : Definitions) (canonical named : Text) (t part : Tree) → named_by ValueSet canonical p ≡ Some t
        → Contains (includes t) part → Contains (sets_named part) named → concepts_of p named ≡ None → concepts_of p canonical ≡ None }
    ensures excluded { (p : Definitions) (canonical named : Text) (t part : Tree) → named_by ValueSet canonical p ≡ Some t
        → Contains (excludes t) part → Contains (sets_named part) named → concepts_of p named ≡ None → concepts_of p canonical ≡ None }
{
    least_closed();
}

/// It can't be read either where something in it is unread by itself, as a filter: neither in an include (`included`) nor in an exclude
/// (`excluded`).
pub fn unread_parts()
    ensures included { (p : Definitions) (canonical : Text) (t part : Tree) → named_by ValueSet canonical p ≡ Some t
        → Contains (includes t) part → is_plain_include p part ≡ false → concepts_of p canonical ≡ None }
    ensures excluded { (p : Definitions) (canonical : Text) (t part : Tree) → named_by ValueSet canonical p ≡ Some t
        → Contains (excludes t) part → is_plain_include p part ≡ false → concepts_of p canonical ≡ None }
{
    least_closed();
}
