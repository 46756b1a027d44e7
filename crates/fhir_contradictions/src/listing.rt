//! The contradictions of all elements of a definition.

ghost use Rattle.std.specs.Prelude.{◌≡◌, ◌&&◌, ◌++◌, ◌∷◌, [], map, false, IfOk, OnOk};
ghost use Rattle.std.specs.Option.{option_map, option_map_or};
ghost use Rattle.fhir_definition.specs.Snapshot.{id_place, slice_place};
ghost use Rattle.fhir_names.specs.Parents.{name_of};
ghost use Rattle.fhir_schema.specs.Schemas.{element_at, elements_at};
ghost use Rattle.fhir_contradictions.specs.declared.contradiction.Contradiction.TheVariants.{OtherTypes, OtherValue};
ghost use Rattle.fhir_contradictions.specs.Typing.{are_few_under, typed_by};
ghost use Rattle.fhir_contradictions.specs.Contradictions.{are_few_of_both, fixed_misses, misses_type, if_so, has_other_types, has_other_value, lacks_type, is_required, type_contradictions, slice_contradictions, contradictions_at};
ghost use Rattle.fhir_contradictions.specs.Regular.{are_regular};
ghost use Rattle.fhir_contradictions.specs.Listing.{typed_below, known_at, node_of, node_sliced, is_entry, above_of, under_of, typed_by_of, is_root_slice, is_unreached, is_absent_of, next_known, found_at, found_from, contradictions};

use crate::contradiction::Contradiction;
use crate::fixed::{allows_some, fixed_misses_type, push_fixed, push_if};
use crate::known::Known;
use crate::regular::typed_at_root;
use crate::slices::{asks_too_many, has_other_types, has_other_value};
use crate::typing::{Under, are_few, are_few_under, typed_by, types_under};
use fhir_elements::ElementDef;
use fhir_facets::is_forbidden;
use fhir_json::NoMemory;
use fhir_names::{front_of, name_of, sliced_of};
use fhir_schema::{NodeRef, Schema};
use std::alloc::{AllocError, Global};

// ---- of one node

fn is_required(schema: &Schema, node: NodeRef) -> bool
    ensures { result ≡ option_map_or is_required (element_at schema.now node) false }
{
    match schema.element(node) {
        Some(element) => element.min().unwrap_or(0) > 0,
        None => false,
    }
}

fn lacks_type(schema: &Schema, by: NodeRef, name: &str, node: NodeRef) -> bool
    ensures { result ≡ lacks_type schema.now by name.now node }
{
    is_required(schema, node) && !allows_some(schema, node, types_under(schema, by, name))
}

fn are_few_of_both(schema: &Schema, node: NodeRef, slice: NodeRef) -> bool
    ensures { result ≡ are_few_of_both schema.now node slice }
{
    are_few(schema.types(node)) && are_few(schema.types(slice))
}

// Where types are few, whether there has to be an item that can be of none of them.
fn is_of_no_type(schema: &Schema, by: NodeRef, name: &str, node: NodeRef) -> bool
    ensures { result ≡ (are_few_under schema.now (by, name.now) node && lacks_type schema.now by name.now node) }
{
    are_few_under(schema, by, name, node) && lacks_type(schema, by, name, node)
}

fn is_fixed_to_no_type(schema: &Schema, by: NodeRef, name: &str, node: NodeRef) -> bool
    ensures { result ≡ (are_few_under schema.now (by, name.now) node
        && fixed_misses (λ e. misses_type schema.now by name.now node) schema.now node) }
{
    are_few_under(schema, by, name, node) && fixed_misses_type(schema, by, name, node)
}

fn is_of_other_types(schema: &Schema, node: NodeRef, slice: NodeRef) -> bool
    ensures { result ≡ (are_few_of_both schema.now node slice && has_other_types schema.now node slice) }
{
    are_few_of_both(schema, node, slice) && has_other_types(schema, node, slice)
}

fn push_type_contradictions(
    schema: &Schema,
    under: Option<Under<'_>>,
    node: NodeRef,
    into: &mut Vec<Contradiction>,
) -> Result<(), AllocError>
    ensures { OnOk result (into.new.items ≡ into.old.items
        ++ type_contradictions schema.now (option_map (λ u. (u.0, u.1.now)) under.entry) node) }
{
    let Some((by, name)) = under else {
        return Ok(());
    };
    let is_of_no_type = is_of_no_type(schema, by, name, node);
    push_if(is_of_no_type, Contradiction::NoType, into)?;
    let is_fixed_to_no_type = is_fixed_to_no_type(schema, by, name, node);
    push_if(is_fixed_to_no_type, Contradiction::FixedType, into)
}

// Of a slice of another node.
fn push_of_slice(
    alloc: Global,
    schema: &Schema,
    under: Option<Under<'_>>,
    sliced: NodeRef,
    node: NodeRef,
    into: &mut Vec<Contradiction>,
) -> Result<(), NoMemory>
    ensures { OnOk result (into.new.items ≡ into.old.items
        ++ (if_so (are_few_of_both schema.now sliced node && has_other_types schema.now sliced node) OtherTypes
        ++ if_so (has_other_value schema.now (typed_by schema.now (option_map (λ u. (u.0, u.1.now)) under.entry) node) sliced node) OtherValue)) }
{
    let is_of_other_types = is_of_other_types(schema, sliced, node);
    push_if(is_of_other_types, Contradiction::OtherTypes, into)?;
    let by = typed_by(alloc, schema, under, node)?;
    let has_other_value = has_other_value(alloc, schema, by, sliced, node)?;
    push_if(has_other_value, Contradiction::OtherValue, into)?;
    Ok(())
}

fn push_slice_contradictions(
    alloc: Global,
    schema: &Schema,
    under: Option<Under<'_>>,
    sliced: Option<NodeRef>,
    node: NodeRef,
    into: &mut Vec<Contradiction>,
) -> Result<(), NoMemory>
    ensures { OnOk result (into.new.items ≡ into.old.items
        ++ slice_contradictions schema.now (option_map (λ u. (u.0, u.1.now)) under.entry) sliced node) }
{
    let is_over = sliced.is_none() && !schema.is_root(node) && asks_too_many(schema, node);
    push_if(is_over, Contradiction::TooManySliced, into)?;
    match sliced {
        Some(sliced) => push_of_slice(alloc, schema, under, sliced, node, into),
        None => Ok(()),
    }
}

fn contradictions_at(
    alloc: Global,
    schema: &Schema,
    under: Option<Under<'_>>,
    sliced: Option<NodeRef>,
    node: NodeRef,
) -> Result<Vec<Contradiction>, NoMemory>
    ensures { IfOk result (λ found. found.items
        ≡ contradictions_at schema.now (option_map (λ u. (u.0, u.1.now)) under.entry) sliced node) }
{
    let mut found = Vec::new(alloc);
    push_type_contradictions(schema, under, node, &mut found)?;
    push_slice_contradictions(alloc, schema, under, sliced, node, &mut found)?;
    push_fixed(schema, node, &mut found)?;
    Ok(found)
}

// ---- of a definition

fn elements_at(schema: &Schema, place: usize) -> &[ElementDef]
    ensures { result.now ≡ elements_at schema.now place }
{
    match schema.definitions().get(place) {
        Some(definition) => definition.elements(),
        None => Default::default(),
    }
}

fn id_place(schema: &Schema, place: usize, id: &str) -> Option<usize>
    ensures { result ≡ id_place (elements_at schema.now place) id.now }
{
    match schema.definitions().get(place) {
        Some(definition) => definition.id_place(id),
        None => None,
    }
}

fn above_of(schema: &Schema, place: usize, element: &ElementDef) -> Option<usize>
    ensures { result ≡ above_of schema.now place element.now }
{
    id_place(schema, place, front_of(element.id())?)
}

fn slice_place(schema: &Schema, place: usize, element: &ElementDef) -> Option<usize>
    ensures { result ≡ slice_place (elements_at schema.now place) element.now }
{
    id_place(schema, place, sliced_of(element.id())?)
}

fn node_of(place: usize, at: usize) -> NodeRef
    ensures { result ≡ node_of place at }
{
    NodeRef {
        definition: place,
        element: at,
    }
}

fn known_at(known: &[Known], place: Option<usize>) -> Known
    ensures { result ≡ known_at known.now place }
{
    let unknown = Known {
        typed_by: None,
        is_absent: false,
    };
    match place {
        Some(place) => known.get(place).copied().unwrap_or(unknown),
        None => unknown,
    }
}

fn is_entry(schema: &Schema, place: usize, at: usize, element: &ElementDef, above: usize) -> bool
    ensures { result ≡ is_entry schema.now place at element.now above }
{
    let entry = slice_place(schema, place, element).unwrap_or(at);
    match schema.slot(node_of(place, above), name_of(element.id())) {
        Some(slot) => slot.entry() == entry,
        None => false,
    }
}

fn typed_above(
    schema: &Schema,
    place: usize,
    known: &[Known],
    at: usize,
    element: &ElementDef,
) -> Option<NodeRef>
    ensures { option_map (λ by. (by, name_of element.now.id)) result ≡ under_of schema.now place known.now at element.now }
{
    let above = above_of(schema, place, element)?;
    if is_entry(schema, place, at, element, above) {
        known_at(known, Some(above)).typed_by
    } else {
        None
    }
}

fn under_of<'s>(
    schema: &Schema,
    place: usize,
    known: &[Known],
    at: usize,
    element: &'s ElementDef,
) -> Option<Under<'s>>
    ensures { option_map (λ u. (u.0, u.1.now)) result ≡ under_of schema.now place known.now at element.now }
{
    let by = typed_above(schema, place, known, at, element)?;
    Some((by, name_of(element.id())))
}

fn typed_below(
    alloc: Global,
    schema: &Schema,
    by: NodeRef,
    name: &str,
    node: NodeRef,
) -> Result<Option<NodeRef>, NoMemory>
    ensures { IfOk result (λ below. below ≡ typed_below schema.now (by, name.now) node) }
{
    if schema.slots(node).is_empty() {
        return Ok(None);
    }
    typed_by(alloc, schema, Some((by, name)), node)
}

fn typed_by_of(
    alloc: Global,
    schema: &Schema,
    regular: bool,
    place: usize,
    known: &[Known],
    at: usize,
    element: &ElementDef,
) -> Result<Option<NodeRef>, NoMemory>
    requires { regular ≡ are_regular schema.now }
    ensures { IfOk result (λ by. by ≡ typed_by_of schema.now place known.now at element.now) }
{
    let node = node_of(place, at);
    if schema.is_root(node) {
        return Ok(typed_at_root(schema, regular, node));
    }
    match under_of(schema, place, known, at, element) {
        Some((by, name)) => typed_below(alloc, schema, by, name, node),
        None => Ok(None),
    }
}

fn is_root_slice(schema: &Schema, place: usize, element: &ElementDef) -> bool
    ensures { result ≡ is_root_slice schema.now place element.now }
{
    match slice_place(schema, place, element) {
        Some(sliced) => schema.is_root(node_of(place, sliced)),
        None => false,
    }
}

fn is_unreached(schema: &Schema, place: usize, at: usize, element: &ElementDef) -> bool
    ensures { result ≡ is_unreached schema.now place at element.now }
{
    match above_of(schema, place, element) {
        Some(above) => !is_entry(schema, place, at, element, above),
        None => false,
    }
}

fn is_absent_of(
    schema: &Schema,
    place: usize,
    known: &[Known],
    at: usize,
    element: &ElementDef,
) -> bool
    ensures { result ≡ is_absent_of schema.now place known.now at element.now }
{
    let is_below_absent = known_at(known, above_of(schema, place, element)).is_absent;
    let is_of_absent = known_at(known, slice_place(schema, place, element)).is_absent;
    is_forbidden(element)
        || is_root_slice(schema, place, element)
        || is_unreached(schema, place, at, element)
        || is_below_absent
        || is_of_absent
}

fn next_known(
    alloc: Global,
    schema: &Schema,
    regular: bool,
    place: usize,
    known: &[Known],
    at: usize,
    element: &ElementDef,
) -> Result<Known, NoMemory>
    requires { regular ≡ are_regular schema.now }
    ensures { IfOk result (λ next. next ≡ next_known schema.now place known.now at element.now) }
{
    Ok(Known {
        typed_by: typed_by_of(alloc, schema, regular, place, known, at, element)?,
        is_absent: is_absent_of(schema, place, known, at, element),
    })
}

fn sliced_node(schema: &Schema, place: usize, element: &ElementDef) -> Option<NodeRef>
    ensures { result ≡ node_sliced schema.now place element.now }
{
    Some(node_of(place, slice_place(schema, place, element)?))
}

fn push_one(
    node: NodeRef,
    contradiction: Contradiction,
    into: &mut Vec<(NodeRef, Contradiction)>,
) -> Result<(), AllocError>
    ensures { OnOk result (into.new.items ≡ into.old.items ++ (node, contradiction) ∷ []) }
{
    into.push((node, contradiction))?;
    Ok(())
}

fn push_each(
    node: NodeRef,
    contradictions: &[Contradiction],
    into: &mut Vec<(NodeRef, Contradiction)>,
) -> Result<(), AllocError>
    ensures { OnOk result (into.new.items ≡ into.old.items ++ map (λ c. (node, c)) contradictions.now) }
{
    for contradiction in contradictions {
        push_one(node, *contradiction, into)?;
    }
    Ok(())
}

fn push_found(
    alloc: Global,
    schema: &Schema,
    under: Option<Under<'_>>,
    sliced: Option<NodeRef>,
    node: NodeRef,
    into: &mut Vec<(NodeRef, Contradiction)>,
) -> Result<(), NoMemory>
    ensures { OnOk result (into.new.items ≡ into.old.items ++ map (λ c. (node, c))
        (contradictions_at schema.now (option_map (λ u. (u.0, u.1.now)) under.entry) sliced node)) }
{
    let found = contradictions_at(alloc, schema, under, sliced, node)?;
    push_each(node, &found, into)?;
    Ok(())
}

// Of an element that can be there.
fn push_present(
    alloc: Global,
    schema: &Schema,
    place: usize,
    known: &[Known],
    at: usize,
    element: &ElementDef,
    into: &mut Vec<(NodeRef, Contradiction)>,
) -> Result<(), NoMemory>
    ensures { OnOk result (into.new.items ≡ into.old.items ++ map (λ c. (node_of place at, c))
        (contradictions_at schema.now (under_of schema.now place known.now at element.now) (node_sliced schema.now place element.now) (node_of place at))) }
{
    let under = under_of(schema, place, known, at, element);
    let sliced = sliced_node(schema, place, element);
    push_found(alloc, schema, under, sliced, node_of(place, at), into)?;
    Ok(())
}

fn push_at(
    alloc: Global,
    schema: &Schema,
    place: usize,
    known: &[Known],
    at: usize,
    element: &ElementDef,
    into: &mut Vec<(NodeRef, Contradiction)>,
) -> Result<(), NoMemory>
    ensures { OnOk result (into.new.items ≡ into.old.items ++ found_at schema.now place known.now at element.now) }
{
    if is_absent_of(schema, place, known, at, element) {
        return Ok(());
    }
    push_present(alloc, schema, place, known, at, element, into)
}

// What is found of an element, and what is known of it.
fn push_both(
    alloc: Global,
    schema: &Schema,
    regular: bool,
    place: usize,
    at: usize,
    element: &ElementDef,
    known: &mut Vec<Known>,
    into: &mut Vec<(NodeRef, Contradiction)>,
) -> Result<(), NoMemory>
    requires { regular ≡ are_regular schema.now }
    ensures known { OnOk result (known.new.items ≡ known.old.items ++ next_known schema.now place known.old.items at element.now ∷ []) }
    ensures found { OnOk result (into.new.items ≡ into.old.items ++ found_at schema.now place known.old.items at element.now) }
{
    push_at(alloc, schema, place, known, at, element, into)?;
    let next = next_known(alloc, schema, regular, place, known, at, element)?;
    known.push(next)?;
    Ok(())
}

fn all_found(
    alloc: Global,
    schema: &Schema,
    regular: bool,
    place: usize,
) -> Result<Vec<(NodeRef, Contradiction)>, NoMemory>
    requires { regular ≡ are_regular schema.now }
    ensures { IfOk result (λ found. found.items ≡ found_from schema.now place [] 0 (elements_at schema.now place)) }
{
    let mut known = Vec::new(alloc);
    let mut found = Vec::new(alloc);
    for (at, element) in elements_at(schema, place).iter().enumerate() {
        push_both(
            alloc, schema, regular, place, at, element, &mut known, &mut found,
        )?;
    }
    Ok(found)
}

/// What the elements of the definition at a place ask for that can never hold, in their order, each with its node. Nothing is told of what
/// can't be there, as its `max` is 0 or that of an element above it; and nothing of a definition that can't be used. The caller says whether
/// the types are regular: where they aren't, nothing is told of types. The one refusal is want of memory.
pub fn contradictions(
    alloc: Global,
    schema: &Schema,
    regular: bool,
    place: usize,
) -> Result<Vec<(NodeRef, Contradiction)>, NoMemory>
    requires { regular ≡ are_regular schema.now }
    ensures { IfOk result (λ found. found.items ≡ contradictions schema.now place) }
{
    if schema.reason(place).is_some() {
        return Ok(Vec::new(alloc));
    }
    all_found(alloc, schema, regular, place)
}
