//! The children of objects.

ghost use Rattle.std.specs.Prelude.{◌≡◌, nat_lt, length, map, IfOk, OnOk, None, Some, if◌then◌else◌};
ghost use Rattle.fhir_json.specs.Views.{tree_of};
ghost use Rattle.fhir_schema.specs.Schemas.{resource_root};
ghost use Rattle.fhir_instance.specs.declared.role.ObjectRole.TheVariants as roles;
ghost use Rattle.fhir_instance.specs.Typing.{kids_as, kids_by, object_kids, both, joined, items_from, place_items, resource_item, resource_of_type, under, complex_item, value_of};
ghost use Rattle.fhir_instance.specs.Found.{kids_found, frame_of, fields_in, held_at, held_in_hand, value_in_hand, given, ArePlaces};

use crate::found::{Found, Spot, Spots};
use crate::leaves::{add_primitive, add_system, add_untyped, check_value, is_null, type_named};
use crate::misfit::{MisfitKind, kind_of, kind_of_single};
use crate::pairs::add_both;
use crate::placing::{Tally, form_at, room_for};
use crate::role::ObjectRole;
use crate::spelled::{Places, group_at, sorted_in};
use fhir_json::{Json, Member};
use fhir_schema::{Content, Form, NodeRef, Schema};
use std::alloc::{AllocError, Global};

// The children of a value, as an object that a node types.
#[cycle(typing)]
fn kids_of<'a, 'j>(
    alloc: Global,
    schema: &'a Schema,
    json: &'a Json<'j>,
    node: NodeRef,
    role: ObjectRole,
) -> Result<Found<'a, 'j>, AllocError>
    ensures { IfOk result (λ f. kids_found f ≡ kids_as schema.now (tree_of json.now) (frame_of node role)) }
{
    match json {
        Json::Obj(members) => object_kids(alloc, schema, members, node, role),
        _ => Ok(Found::of_misfit(alloc, kind_of(json))),
    }
}

// The same, where a node may type it.
#[cycle(typing)]
fn kids_by<'a, 'j>(
    alloc: Global,
    schema: &'a Schema,
    json: &'a Json<'j>,
    below: Option<NodeRef>,
    role: ObjectRole,
) -> Result<Found<'a, 'j>, AllocError>
    ensures { IfOk result (λ f. kids_found f ≡ kids_by role below (value_of schema.now (tree_of json.now))) }
{
    match below {
        Some(node) => kids_of(alloc, schema, json, node, role),
        None => Ok(Found::of_misfit(alloc, kind_of(json))),
    }
}

#[cycle(typing)]
fn object_kids<'a, 'j>(
    alloc: Global,
    schema: &'a Schema,
    members: &'a Vec<Member<'j>>,
    node: NodeRef,
    role: ObjectRole,
) -> Result<Found<'a, 'j>, AllocError>
    ensures { IfOk result (λ f. kids_found f
        ≡ object_kids schema.now (frame_of node role) (fields_in schema.now members.now.items)) }
{
    if members.len() == 0 {
        return Ok(Found::of_misfit(alloc, MisfitKind::Empty));
    }
    let mut found: Found<'a, 'j> = Found::with_room(alloc, room_for(members))?;
    let spelled = sorted_in(alloc, schema, node, role, members, &mut found)?;
    schema.forms_are_apart(node);
    let forms = schema.forms(node);
    let mut tally = Tally::new();
    let mut i = 0;
    while i < spelled.len() {
        let group = group_at(&spelled, i);
        let form = form_at(forms, group.form);
        let before = tally.before(form, group.places, members);
        add_form(
            alloc,
            schema,
            form,
            members,
            group.places,
            before,
            &mut found,
        )?;
        i += group.count;
    }
    Ok(found)
}

// The items of a form, whose properties are at these places.
#[cycle(typing)]
fn add_form<'a, 'j>(
    alloc: Global,
    schema: &'a Schema,
    form: &'a Form,
    members: &'a Vec<Member<'j>>,
    at: Places,
    before: usize,
    found: &mut Found<'a, 'j>,
) -> Result<(), AllocError>
    requires { ArePlaces form.now (length members.now.items) at }
    ensures { OnOk result (kids_found found.new ≡ both (kids_found found.old)
        (items_from schema.now form.now (held_at schema.now members.now.items at.value)
        (held_at schema.now members.now.items at.companion))) }
{
    if let Some(i) = at.value {
        return add_valued(alloc, schema, form, members, i, at.companion, before, found);
    }
    match at.companion {
        Some(k) => {
            let spot = Spot::of(&members[k], k, before);
            add_companions(alloc, schema, form, &members[k].value, spot, found)
        }
        None => Ok(()),
    }
}

// The items of a form that has a value.
#[cycle(typing)]
fn add_valued<'a, 'j>(
    alloc: Global,
    schema: &'a Schema,
    form: &'a Form,
    members: &'a Vec<Member<'j>>,
    value: usize,
    companion: Option<usize>,
    before: usize,
    found: &mut Found<'a, 'j>,
) -> Result<(), AllocError>
    requires { ArePlaces form.now (length members.now.items) (record { value = Some value; companion = companion }) }
    ensures { OnOk result (kids_found found.new ≡ both (kids_found found.old)
        (items_from schema.now form.now (held_at schema.now members.now.items (Some value))
        (held_at schema.now members.now.items companion))) }
{
    let spot = Spot::of(&members[value], value, before);
    let Some(k) = companion else {
        return add_values(alloc, schema, form, &members[value].value, spot, found);
    };
    let spots = Spots {
        value: spot,
        companion: Spot::of(&members[k], k, before),
    };
    let companions = &members[k].value;
    add_both(
        alloc,
        schema,
        form,
        companions,
        &members[value].value,
        spots,
        found,
    )
}

// The items of a property that has no companion.
#[cycle(typing)]
fn add_values<'a, 'j>(
    alloc: Global,
    schema: &'a Schema,
    form: &'a Form,
    json: &'a Json<'j>,
    spot: Spot<'a>,
    found: &mut Found<'a, 'j>,
) -> Result<(), AllocError>
    ensures { OnOk result (kids_found found.new ≡ both (kids_found found.old)
        (items_from schema.now form.now (Some (held_in_hand schema.now json.now)) None)) }
{
    if !form.repeats() {
        return add_value(alloc, schema, form, json, spot, found);
    }
    match json {
        Json::Arr(items) => add_each_value(alloc, schema, form, items, spot, found),
        _ => {
            found.refuse_early(alloc, kind_of_single(json), spot);
            Ok(())
        }
    }
}

#[cycle(typing)]
fn add_each_value<'a, 'j>(
    alloc: Global,
    schema: &'a Schema,
    form: &'a Form,
    items: &'a Vec<Json<'j>>,
    spot: Spot<'a>,
    found: &mut Found<'a, 'j>,
) -> Result<(), AllocError>
    ensures { OnOk result (kids_found found.new ≡ both (kids_found found.old)
        (if nat_lt 0 (length items.now.items)
        then joined (map (λ j. place_items schema.now form.now (value_in_hand schema.now j, None)) items.now.items)
        else None)) }
{
    if items.len() == 0 {
        found.refuse_early(alloc, MisfitKind::Empty, spot);
        return Ok(());
    }
    for i in 0..items.len() {
        add_value(alloc, schema, form, &items[i], spot.item(i), found)?;
    }
    Ok(())
}

// The items of a companion whose property isn't there.
#[cycle(typing)]
fn add_companions<'a, 'j>(
    alloc: Global,
    schema: &'a Schema,
    form: &'a Form,
    json: &'a Json<'j>,
    spot: Spot<'a>,
    found: &mut Found<'a, 'j>,
) -> Result<(), AllocError>
    ensures { OnOk result (kids_found found.new ≡ both (kids_found found.old)
        (items_from schema.now form.now None (Some (held_in_hand schema.now json.now)))) }
{
    if !form.repeats() {
        return add_alone(alloc, schema, form, json, spot, found);
    }
    match json {
        Json::Arr(items) => add_each_alone(alloc, schema, form, items, spot, found),
        _ => {
            found.refuse_early(alloc, kind_of_single(json), spot);
            Ok(())
        }
    }
}

/// The items of the companions in an array, which have no values.
#[cycle(typing)]
pub(crate) fn add_each_alone<'a, 'j>(
    alloc: Global,
    schema: &'a Schema,
    form: &'a Form,
    items: &'a Vec<Json<'j>>,
    spot: Spot<'a>,
    found: &mut Found<'a, 'j>,
) -> Result<(), AllocError>
    ensures { OnOk result (kids_found found.new ≡ both (kids_found found.old)
        (if nat_lt 0 (length items.now.items)
        then joined (map (λ j. place_items schema.now form.now (None, value_in_hand schema.now j)) items.now.items)
        else None)) }
{
    if items.len() == 0 {
        found.refuse_early(alloc, MisfitKind::Empty, spot);
        return Ok(());
    }
    for i in 0..items.len() {
        add_alone(alloc, schema, form, &items[i], spot.item(i), found)?;
    }
    Ok(())
}

/// The item of a companion without a value.
#[cycle(typing)]
pub(crate) fn add_alone<'a, 'j>(
    alloc: Global,
    schema: &'a Schema,
    form: &'a Form,
    json: &'a Json<'j>,
    spot: Spot<'a>,
    found: &mut Found<'a, 'j>,
) -> Result<(), AllocError>
    ensures { OnOk result (kids_found found.new ≡ both (kids_found found.old)
        (place_items schema.now form.now (None, value_in_hand schema.now json.now))) }
{
    if is_null(json) {
        found.refuse_null(alloc, form, spot);
        return Ok(());
    }
    add_companion(alloc, schema, form, json, None, Spots::alone(spot), found)
}

/// The item of a companion, and of a value, neither of them null. Both are looked at, since the first misfit may be in
/// either.
#[cycle(typing)]
pub(crate) fn add_companion<'a, 'j>(
    alloc: Global,
    schema: &'a Schema,
    form: &'a Form,
    companion: &'a Json<'j>,
    value: Option<&'a Json<'j>>,
    spots: Spots<'a>,
    found: &mut Found<'a, 'j>,
) -> Result<(), AllocError>
    ensures { OnOk result (kids_found found.new ≡ both (kids_found found.old)
        (place_items schema.now form.now (given schema.now value.entry, Some (value_of schema.now (tree_of companion.now))))) }
{
    let Content::Primitive(prim, below) = form.content() else {
        found.refuse(alloc, MisfitKind::UnknownProperty, spots.companion);
        return Ok(());
    };
    check_value(alloc, prim, value, spots.value, found);
    let inner = kids_by(alloc, schema, companion, below, ObjectRole::Companion)?;
    found.add(form, form.code(), value, inner, spots.companion)
}

// The item of a value that has no companion.
#[cycle(typing)]
fn add_value<'a, 'j>(
    alloc: Global,
    schema: &'a Schema,
    form: &'a Form,
    json: &'a Json<'j>,
    spot: Spot<'a>,
    found: &mut Found<'a, 'j>,
) -> Result<(), AllocError>
    ensures { OnOk result (kids_found found.new ≡ both (kids_found found.old)
        (place_items schema.now form.now (value_in_hand schema.now json.now, None))) }
{
    if is_null(json) {
        found.refuse_null(alloc, form, spot);
        return Ok(());
    }
    match form.content() {
        Content::Primitive(prim, _below) => add_primitive(alloc, form, prim, json, spot, found),
        Content::System => add_system(alloc, form, json, spot, found),
        Content::Resource => add_resource(alloc, schema, form, json, spot, found),
        Content::Complex(below) => add_complex(alloc, schema, form, json, below, spot, found),
    }
}

#[cycle(typing)]
fn add_complex<'a, 'j>(
    alloc: Global,
    schema: &'a Schema,
    form: &'a Form,
    json: &'a Json<'j>,
    below: Option<NodeRef>,
    spot: Spot<'a>,
    found: &mut Found<'a, 'j>,
) -> Result<(), AllocError>
    ensures { OnOk result (kids_found found.new ≡ both (kids_found found.old)
        (under form.now (complex_item below form.now.code (value_of schema.now (tree_of json.now))))) }
{
    let inner = kids_by(alloc, schema, json, below, ObjectRole::Element)?;
    found.add(form, form.code(), Some(json), inner, spot)
}

#[cycle(typing)]
fn add_resource<'a, 'j>(
    alloc: Global,
    schema: &'a Schema,
    form: &'a Form,
    json: &'a Json<'j>,
    spot: Spot<'a>,
    found: &mut Found<'a, 'j>,
) -> Result<(), AllocError>
    ensures { OnOk result (kids_found found.new ≡ both (kids_found found.old)
        (under form.now (resource_item schema.now (value_of schema.now (tree_of json.now))))) }
{
    match type_named(json) {
        Some(code) => add_typed(alloc, schema, form, json, code, spot, found),
        None => add_untyped(alloc, form, json, spot, found),
    }
}

// A resource that says its type.
#[cycle(typing)]
fn add_typed<'a, 'j>(
    alloc: Global,
    schema: &'a Schema,
    form: &'a Form,
    json: &'a Json<'j>,
    code: &'a str,
    spot: Spot<'a>,
    found: &mut Found<'a, 'j>,
) -> Result<(), AllocError>
    ensures { OnOk result (kids_found found.new ≡ both (kids_found found.old)
        (under form.now (resource_of_type schema.now (value_of schema.now (tree_of json.now)) code.now))) }
{
    let inner = resource_kids(alloc, schema, json, code)?;
    found.add(form, code, Some(json), inner, spot)
}

/// The children of a resource of a type.
#[cycle(typing)]
pub(crate) fn resource_kids<'a, 'j>(
    alloc: Global,
    schema: &'a Schema,
    json: &'a Json<'j>,
    code: &str,
) -> Result<Found<'a, 'j>, AllocError>
    ensures { IfOk result (λ f. kids_found f
        ≡ kids_by roles.Resource (resource_root schema.now code.now) (value_of schema.now (tree_of json.now))) }
{
    match schema.resource_root(code) {
        Some(node) => kids_of(alloc, schema, json, node, ObjectRole::Resource),
        None => Ok(Found::of_misfit_at(alloc, MisfitKind::UnknownType, "resourceType")),
    }
}
