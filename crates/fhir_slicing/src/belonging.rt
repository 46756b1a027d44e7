//! To which slices an item belongs (FHIR R4, Profiling, slicing; ElementDefinition, slicing.discriminator).

ghost use Rattle.std.specs.Prelude.{◌≡◌, ◌++◌, codes, map, string_bytes};
ghost use Rattle.std.specs.List.{list_any};
ghost use Rattle.std.specs.Option.{option_copied, option_map};
ghost use Rattle.std.specs.Str.{bytes_eq};
ghost use Rattle.fhir_json.specs.Views.{tree_of};
ghost use Rattle.fhir_forms.specs.CriteriaSeen.{sought_seen, criterion_seen, criteria_seen};
ghost use Rattle.fhir_schema.specs.Schemas.{entry_of};
ghost use Rattle.fhir_instance.specs.Items.{type_of};
ghost use Rattle.fhir_instance.specs.View.{item_of};
ghost use Rattle.fhir_slicing.specs.Belonging.{is_called, items_at, is_value, has_pattern, is_typed, criterion_holds, belongs, is_in, slice_of, is_apart, is_sliced, two_slices};
ghost use Rattle.fhir_slicing.specs.Finding.{decides};

use fhir_instance::Typed;
use fhir_json::Json;
use fhir_matching::{json_eq, matches};
use fhir_schema::{Criterion, NodeRef, Schema, Slot, Sought};

fn is_choice(name: &str, element: &str) -> bool
    ensures { result ≡ bytes_eq (name.now ++ codes "[x]") element.now }
{
    match element.as_bytes().strip_prefix(name.as_bytes()) {
        Some(rest) => rest == b"[x]".as_slice(),
        None => false,
    }
}

// Whether an element is called so, which a choice is without its `[x]`.
fn is_called(name: &str, element: &str) -> bool
    ensures { result ≡ is_called name.now element.now }
{
    name == element || is_choice(name, element)
}

fn is_value(value: &Json<'_>, item: &Typed<'_, '_>) -> bool
    ensures { result ≡ is_value (tree_of value.now) (item_of item.now) }
{
    match item.json() {
        Some(json) => json_eq(value, json),
        None => false,
    }
}

fn has_pattern(pattern: &Json<'_>, item: &Typed<'_, '_>) -> bool
    ensures { result ≡ has_pattern (tree_of pattern.now) (item_of item.now) }
{
    match item.json() {
        Some(json) => matches(json, pattern),
        None => false,
    }
}

fn is_typed(schema: &Schema, codes: &[String], item: &Typed<'_, '_>) -> bool
    ensures { result ≡ is_typed schema.now (map string_bytes codes.now) (item_of item.now) }
{
    for code in codes {
        if schema.covers(code.as_str(), item.code()) {
            return true;
        }
    }
    false
}

// Whether an item at the end of a path decides that what is looked for there is found, or isn't: where presence is looked
// for, any item does.
fn decides(schema: &Schema, sought: &Sought, item: &Typed<'_, '_>) -> bool
    ensures { result ≡ decides schema.now (sought_seen sought.now) (item_of item.now) }
{
    match sought {
        Sought::Fixed(value) => is_value(value, item),
        Sought::Pattern(pattern) => has_pattern(pattern, item),
        Sought::Present | Sought::Absent => true,
        Sought::Typed(codes) => is_typed(schema, codes, item),
    }
}

// Whether some item to which the names lead does.
#[cycle(decided)]
fn is_decided(schema: &Schema, sought: &Sought, names: &[String], item: &Typed<'_, '_>) -> bool
    ensures { result ≡ list_any (decides schema.now (sought_seen sought.now))
        (items_at (map string_bytes names.now) (item_of item.now)) }
{
    let [name, rest @ ..] = names else {
        return decides(schema, sought, item);
    };
    for kid in item.kids() {
        if is_called(name.as_str(), kid.name()) && is_decided(schema, sought, rest, kid.item()) {
            return true;
        }
    }
    false
}

fn criterion_holds(schema: &Schema, criterion: &Criterion, item: &Typed<'_, '_>) -> bool
    ensures { result ≡ criterion_holds schema.now (item_of item.now) (criterion_seen criterion.now) }
{
    let is_decided = is_decided(schema, &criterion.sought, &criterion.names, item);
    match criterion.sought {
        Sought::Absent => !is_decided,
        _ => is_decided,
    }
}

/// Whether an item belongs to the slice that has these criteria: each of them finds what it looks for (FHIR R4,
/// ElementDefinition, slicing.discriminator). [`Schema::criteria`] has those of a slice. It takes no memory.
pub fn belongs(schema: &Schema, criteria: &[Criterion], item: &Typed<'_, '_>) -> bool
    ensures { result ≡ belongs schema.now (criteria_seen criteria.now) (item_of item.now) }
{
    for criterion in criteria {
        if !criterion_holds(schema, criterion, item) {
            return false;
        }
    }
    true
}

// Whether an item belongs to a slice of a node's element.
fn is_in(schema: &Schema, node: NodeRef, item: &Typed<'_, '_>, slice: &Slot) -> bool
    ensures { result ≡ is_in schema.now node (item_of item.now) slice.now }
{
    let entry = NodeRef {
        definition: node.definition,
        element: slice.entry(),
    };
    belongs(schema, schema.criteria(entry), item)
}

/// The first slice of a node's element to which an item belongs, if it is in one (FHIR R4, Profiling, slicing). It takes no
/// memory.
pub fn slice_of<'s>(schema: &'s Schema, node: NodeRef, item: &Typed<'_, '_>) -> Option<&'s Slot>
    ensures { option_copied result ≡ slice_of schema.now node (item_of item.now) }
{
    for slice in schema.slices(node) {
        if is_in(schema, node, item, slice) {
            return Some(slice);
        }
    }
    None
}

/// The first slice of a node's element to which an item belongs, and the first of another name; none where the item is in no
/// two slices. It looks at each slice once.
pub fn two_slices<'s>(
    schema: &'s Schema,
    node: NodeRef,
    item: &Typed<'_, '_>,
) -> Option<(&'s Slot, &'s Slot)>
    ensures { option_map (λ p. (p.0.now, p.1.now)) result ≡ two_slices schema.now node (item_of item.now) }
{
    let mut first: Option<&'s Slot> = None;
    for slice in schema.slices(node) {
        if is_in(schema, node, item, slice) {
            match first {
                None => first = Some(slice),
                Some(one) => {
                    if one.name() != slice.name() {
                        return Some((one, slice));
                    }
                }
            }
        }
    }
    None
}

/// Whether an item is in no two slices of a node's element, by their names (FHIR R4, Profiling, slicing). It takes no memory.
pub fn is_apart(schema: &Schema, node: NodeRef, item: &Typed<'_, '_>) -> bool
    ensures { result ≡ is_apart schema.now node (item_of item.now) }
{
    two_slices(schema, node, item).is_none()
}

/// Whether an item is in a slice of a node's element (FHIR R4, ElementDefinition, slicing.rules). It takes no memory.
pub fn is_sliced(schema: &Schema, node: NodeRef, item: &Typed<'_, '_>) -> bool
    ensures { result ≡ is_sliced schema.now node (item_of item.now) }
{
    schema
        .slices(node)
        .iter()
        .any(|slice| is_in(schema, node, item, slice))
}
