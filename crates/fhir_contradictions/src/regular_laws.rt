//! Laws: which node types the items of a resource, where the package's types are regular.

ghost use Rattle.std.specs.Prelude.{IsTrue};
ghost use Rattle.fhir_json.specs.Tree.{Tree};
ghost use Rattle.fhir_package.specs.Definitions.{Definitions};
ghost use Rattle.fhir_schema.specs.Schemas.{schema_of, type_root};
ghost use Rattle.fhir_instance.specs.Items.{Item, type_of};
ghost use Rattle.fhir_instance.specs.Typing.{Types};
ghost use Rattle.fhir_contradictions.specs.Typing.{IsTypedIfKnown};
ghost use Rattle.fhir_contradictions.specs.Regular.{are_regular, may_have_items};
ghost use Rattle.fhir_contradictions.specs.Parts.{IsPartOf};

use fhir_schema::least_closed;

/// Where a package's types are regular, the root of its type's definition types each item of a resource, unless its type is abstract
/// (FHIR R4, StructureDefinition, abstract).
pub fn regular_types()
    ensures { (p : Definitions) (t : Tree) (x y : Item) → Types (schema_of p) t x → IsPartOf x y
        → IsTrue (are_regular (schema_of p)) → IsTrue (may_have_items (schema_of p) (type_of y))
        → IsTypedIfKnown (schema_of p) (type_root (schema_of p) (type_of y)) y }
{
    least_closed();
}
