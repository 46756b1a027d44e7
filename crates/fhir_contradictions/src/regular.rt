//! Whether the root of a type's definition types each item of that type (FHIR R4, StructureDefinition, abstract).

ghost use Rattle.std.specs.Prelude.{◌≡◌, false, not, map, length};
ghost use Rattle.std.specs.List.{list_any, range_with_len};
ghost use Rattle.std.specs.Option.{option_copied, option_map_or};
ghost use Rattle.fhir_contradictions.specs.Regular.{base_of, may_type_otherwise, rests_on_such, may_have_items, types_inline, element_types_inline, is_irregular, are_regular, typed_at_root};

use crate::typing::types_of_items;
use fhir_definition::Definition;
use fhir_elements::TypeEntry;
use fhir_nodes::is_resource;
use fhir_schema::{NodeRef, Schema};

fn base_of<'s>(schema: &'s Schema, definition: &Definition) -> Option<&'s Definition>
    ensures { option_copied result ≡ base_of schema.now definition.now }
{
    let root = schema.loaded(definition.base()?)?;
    schema.definitions().get(root.definition)
}

fn may_type_otherwise(base: &Definition) -> bool
    ensures { result ≡ may_type_otherwise base.now }
{
    !base.is_type() || (is_resource(base) && !base.is_abstract())
}

fn rests_on_such(schema: &Schema, definition: &Definition) -> bool
    ensures { result ≡ rests_on_such schema.now definition.now }
{
    match base_of(schema, definition) {
        Some(base) => may_type_otherwise(base),
        None => definition.base().is_some(),
    }
}

fn may_have_items(schema: &Schema, code: &str) -> bool
    ensures { result ≡ may_have_items schema.now code.now }
{
    let Some(place) = schema.type_place(code) else {
        return true;
    };
    match schema.definitions().get(place) {
        Some(definition) => !definition.is_abstract(),
        None => true,
    }
}

fn some_entry_may(schema: &Schema, entries: &[TypeEntry]) -> bool
    ensures { result ≡ list_any (λ entry. may_have_items schema.now entry.code) entries.now }
{
    entries
        .iter()
        .any(|entry| may_have_items(schema, entry.code()))
}

#[tactic(auto, using(crate::proofs::Lists::any_made))]
fn some_may_have_items(schema: &Schema, entries: &[TypeEntry]) -> bool
    ensures { result ≡ list_any (may_have_items schema.now) (map (λ entry. entry.code) entries.now) }
{
    some_entry_may(schema, entries)
}

fn types_inline(schema: &Schema, node: NodeRef) -> bool
    ensures { result ≡ types_inline schema.now node }
{
    let has_children = !schema.slots(node).is_empty();
    has_children
        && !schema.is_root(node)
        && some_may_have_items(schema, types_of_items(schema, node))
}

fn element_types_inline(schema: &Schema, definition: &Definition, element: usize) -> bool
    ensures { result ≡ element_types_inline schema.now definition.now element }
{
    types_inline(
        schema,
        NodeRef {
            definition: definition.place(),
            element,
        },
    )
}

fn some_types_inline(schema: &Schema, definition: &Definition) -> bool
    ensures { result ≡ list_any (element_types_inline schema.now definition.now) (range_with_len 0 (length definition.now.elements)) }
{
    for element in 0..definition.elements().len() {
        if element_types_inline(schema, definition, element) {
            return true;
        }
    }
    false
}

fn is_irregular(schema: &Schema, definition: &Definition) -> bool
    ensures { result ≡ is_irregular schema.now definition.now }
{
    definition.is_type()
        && (rests_on_such(schema, definition) || some_types_inline(schema, definition))
}

fn some_is_irregular(schema: &Schema, definitions: &[Definition]) -> bool
    ensures { result ≡ list_any (is_irregular schema.now) definitions.now }
{
    definitions
        .iter()
        .any(|definition| is_irregular(schema, definition))
}

/// Whether the root of a type's definition types each item of that type, as in FHIR: no other type derives from one of resources that isn't
/// abstract, and no element of a type has children of its own in place of those of a type that isn't abstract. It looks at each element once.
pub fn are_regular(schema: &Schema) -> bool
    ensures { result ≡ are_regular schema.now }
{
    !some_is_irregular(schema, schema.definitions())
}

/// The root that types the items of a profile's root, where that is known.
pub(crate) fn typed_at_root(schema: &Schema, regular: bool, node: NodeRef) -> Option<NodeRef>
    requires { regular ≡ are_regular schema.now }
    ensures { result ≡ typed_at_root schema.now node }
{
    let code = schema.type_code(node);
    if regular && may_have_items(schema, code) {
        schema.type_root(code)
    } else {
        None
    }
}
