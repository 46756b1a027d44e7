//! Laws: what the definitions say of one another.

ghost use Rattle.std.specs.Prelude.{◌≡◌, ◌↔◌, ◌<◌, ℕ, List, length, false, Some, is_some, IsTrue};
ghost use Rattle.std.specs.List.{slice_get, Contains, list_any};
ghost use Rattle.fhir_package.specs.Definitions.{Definitions};
ghost use Rattle.fhir_codes.specs.ValueSets.{concepts_of};
ghost use Rattle.fhir_definition.specs.Definition.{Definition};
ghost use Rattle.fhir_schema.specs.Settling.{Reasons};
ghost use Rattle.fhir_schema.specs.Usability.{AllApply, IsClosed, IsWithin};
ghost use Rattle.fhir_json.specs.Tree.{Text};
ghost use Rattle.fhir_nodes.specs.declared.node.NodeRef.{NodeRef};
ghost use Rattle.fhir_schema.specs.Schemas.{SchemaValue, schema_of, has, node, root, is_root_node, type_root, loaded, forms, concepts_at};
ghost use Rattle.fhir_forms.specs.declared.form.Property.{Property};
ghost use Rattle.fhir_forms.specs.Forms.{Form, are_apart, spells, spellings, property_of};
ghost use Rattle.fhir_nodes.specs.Types.{names_resource};
ghost use Rattle.fhir_schema.specs.Covers.{covers};

use fhir_codes::resolved;

/// The definitions that can't be used are the least closed set: no reason applies to any other, each of them has the first
/// that applies by what the rounds before have found, and no smaller set is closed.
pub fn least_closed()
    ensures placed { (p : Definitions) (place : ℕ) (d : Definition) → slice_get (schema_of p).definitions place ≡ Some d
        → d.place ≡ place }
    ensures closed { (p : Definitions) → IsClosed (schema_of p).definitions (schema_of p).reasons }
    ensures apply { (p : Definitions) → AllApply (schema_of p).definitions (schema_of p).reasons }
    ensures least { (p : Definitions) (other : Reasons) → IsClosed (schema_of p).definitions other
        → IsWithin (schema_of p).reasons other }
{}

/// Covering is a matter of codes alone: each covers itself, only that of a resource covers another, and what is covered
/// by a covered code is covered.
pub fn covering_codes()
    ensures itself { (s : SchemaValue) (a : Text) → IsTrue (covers s a a) }
    ensures alone { (s : SchemaValue) (a b : Text) → names_resource s.definitions a ≡ false → IsTrue (covers s a b) → a ≡ b }
    ensures transitive { (s : SchemaValue) (a b c : Text) → IsTrue (covers s a b) → IsTrue (covers s b c) → IsTrue (covers s a c) }
{}

/// A node that is found by its url and id is one of the schema's.
pub fn named_nodes()
    ensures { (s : SchemaValue) (url id : Text) (n : NodeRef) → node s url id ≡ Some n → IsTrue (has s n) }
{}

/// The root of a definition that is found by its url, by the type that it defines, or by a canonical, is a root.
pub fn roots_are_roots()
    ensures of_url { (s : SchemaValue) (url : Text) (n : NodeRef) → root s url ≡ Some n → IsTrue (is_root_node s n) }
    ensures of_type { (s : SchemaValue) (code : Text) (n : NodeRef) → type_root s code ≡ Some n → IsTrue (is_root_node s n) }
    ensures of_canonical { (s : SchemaValue) (canonical : Text) (n : NodeRef) → loaded s canonical ≡ Some n → IsTrue (is_root_node s n) }
{}

/// Each property has one name and each name one meaning: no two forms of a node's children spell one property; a name that
/// is spelled means one thing, which is what is found under it; a name is found exactly where a form spells it; and the form
/// that it is found to belong to spells it.
pub fn one_meaning()
    ensures apart { (p : Definitions) (n : NodeRef) → IsTrue (are_apart (forms (schema_of p) n)) }
    ensures one { (fs : List Form) (name : Text) (a b : Property) → IsTrue (are_apart fs) → Contains (spellings fs) (name, a)
        → Contains (spellings fs) (name, b) → a ≡ b }
    ensures exact { (fs : List Form) (name : Text) (a : Property) → IsTrue (are_apart fs)
        → (property_of fs name ≡ Some a ↔ Contains (spellings fs) (name, a)) }
    ensures spelled { (fs : List Form) (name : Text) → is_some (property_of fs name) ≡ list_any (λ f. spells f name) fs }
    ensures within { (fs : List Form) (name : Text) (a : Property) → property_of fs name ≡ Some a → a.form < length fs }
    ensures speller { (fs : List Form) (name : Text) (a : Property) (f : Form) → property_of fs name ≡ Some a
        → slice_get fs a.form ≡ Some f → IsTrue (spells f name) }
{}

/// The concepts that a schema has of a value set are those that the package gives it (FHIR R4, ValueSet, compose).
pub fn concepts_of_package()
    ensures { (p : Definitions) (canonical : Text) → concepts_at (schema_of p) canonical ≡ concepts_of p canonical }
{
    resolved();
}
