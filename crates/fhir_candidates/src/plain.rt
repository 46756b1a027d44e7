//! The type of the resources that are made where any will do.

ghost use Rattle.std.specs.Prelude.{◌≡◌, ◌⊎◌, [], IsTrue, IsSome};
ghost use Rattle.fhir_schema.specs.Schemas.{resource_root};

use fhir_differences::{entry_of, least_at};
use fhir_schema::{NodeRef, Schema};

// Whether a type's resources needn't have any children.
fn asks_nothing(schema: &Schema, root: NodeRef) -> bool {
    for slot in schema.slots(root) {
        if least_at(schema, entry_of(root, slot)) > 0 {
            return false;
        }
    }
    true
}

fn is_plain(schema: &Schema, code: &str) -> bool
    ensures { IsTrue result → IsSome (resource_root schema.now code.now) }
{
    match schema.resource_root(code) {
        Some(root) => asks_nothing(schema, root),
        None => false,
    }
}

/// The code of the first type of resources that needn't have any children, or an empty text.
pub fn plain_code(schema: &Schema) -> &str
    ensures { (result.now ≡ []) ⊎ IsSome (resource_root schema.now result.now) }
{
    for definition in schema.definitions() {
        let code = definition.type_code();
        if definition.is_type() && is_plain(schema, code) {
            return code;
        }
    }
    ""
}
