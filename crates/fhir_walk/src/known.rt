//! What is known of a node before an item is seen.

ghost use Rattle.std.specs.Prelude.{◌≡◌, IsTrue};
ghost use Rattle.fhir_schema.specs.Schemas.{type_root};
ghost use Rattle.fhir_instance.specs.Items.{type_of};
ghost use Rattle.fhir_instance.specs.View.{item_of};
ghost use Rattle.fhir_nodes.specs.Types.{names_resource};
ghost use Rattle.fhir_conformance.specs.Conformance.{Around, nearest_to};
ghost use Rattle.fhir_walk.specs.Walks.{rest_holds};

use fhir_instance::Typed;
use fhir_schema::{NodeRef, Schema};
use fhir_summaries::lenient_nodes;

/// Whether it is known that a node asks nothing more of an item than its type.
pub(crate) fn is_free(schema: &Schema, item: &Typed<'_, '_>, node: NodeRef) -> bool
    ensures { IsTrue result → (here : Around) → IsTrue (rest_holds schema.now here (item_of item.now) node) }
{
    lenient_nodes();
    item.kids().is_empty() && schema.is_lenient(node)
}

/// The root of the definition of an item's own type, which is mostly the one that the node names.
pub(crate) fn own_root(schema: &Schema, item: &Typed<'_, '_>, node: NodeRef) -> Option<NodeRef>
    ensures { result ≡ type_root schema.now (type_of (item_of item.now)) }
{
    lenient_nodes();
    let [entry] = schema.types(node) else {
        return schema.type_root(item.code());
    };
    if entry.code() == item.code() {
        schema.only_type_root(node)
    } else {
        schema.type_root(item.code())
    }
}

fn is_resource_as(schema: &Schema, item: &Typed<'_, '_>, root: NodeRef) -> bool
    ensures { result ≡ names_resource schema.now.definitions (type_of (item_of item.now)) }
{
    if schema.type_code(root) == item.code() {
        schema.is_of_resource(root)
    } else {
        schema.is_resource(item.code())
    }
}

// Whether an item is a resource, of which this may be the root of the type.
fn is_resource(schema: &Schema, item: &Typed<'_, '_>, root: Option<NodeRef>) -> bool
    ensures { result ≡ names_resource schema.now.definitions (type_of (item_of item.now)) }
{
    match root {
        Some(root) => is_resource_as(schema, item, root),
        None => schema.is_resource(item.code()),
    }
}

// A root whose type is mostly that of the items that a node is asked of.
fn likely_root(schema: &Schema, node: NodeRef) -> Option<NodeRef> {
    if schema.is_root(node) {
        Some(node)
    } else {
        schema.only_type_root(node)
    }
}

/// The nearest resource at or around an item of which a node is asked, where that is the nearest around it.
pub(crate) fn nearest_by<'t, 'a, 'j>(
    schema: &Schema,
    around: &'t Typed<'a, 'j>,
    item: &'t Typed<'a, 'j>,
    node: NodeRef,
) -> &'t Typed<'a, 'j>
    ensures { item_of result.now ≡ nearest_to schema.now (item_of around.now) (item_of item.now) }
{
    if is_resource(schema, item, likely_root(schema, node)) {
        item
    } else {
        around
    }
}
