//! Which form each property of an object belongs to.

ghost use Rattle.std.specs.Prelude.{◌≡◌, ◌++◌, ◌+◌, ◌<◌, ◌≤◌, ℕ, [], ◌∷◌, length, take, drop, IfOk, OnOk, IsTrue, is_some, None, if◌then◌else◌, ◌&&◌, ◌||◌};
ghost use Rattle.std.specs.List.{list_any};
ghost use Rattle.std.specs.List.Sorted.{IsNonDecreasingBy};
ghost use Rattle.fhir_json.specs.Tree.{names};
ghost use Rattle.fhir_json.specs.Views.{members_view};
ghost use Rattle.fhir_json.specs.Views.{property_of as name_and_value};
ghost use Rattle.fhir_forms.specs.Forms.{spells};
ghost use Rattle.fhir_schema.specs.Schemas.{forms as forms_of};
ghost use Rattle.fhir_instance.specs.Typing.{names_type_in, may_stand, is_of_role, is_known, forms_in};
ghost use Rattle.fhir_instance.specs.Found.{frame_of, kids_found};
ghost use Rattle.fhir_instance.specs.Spelled.{property_meant, where_of_role, spelled_at, spelled_from, are_known, of_form, count_front, first_form, value_among, companion_among, places_among};

use crate::found::{Found, Spot};
use crate::misfit::MisfitKind;
use crate::near::{Near, property_at};
use crate::role::ObjectRole;
use fhir_json::Member;
use fhir_schema::{Form, NodeRef, Property, Schema};
use std::alloc::{AllocError, Global};

/// A property of an object: the place of the form that it belongs to, whether it is that one's companion, and its own
/// place in the object.
#[derive(Clone, Copy)]
pub(crate) struct Spelled {
    pub(crate) form: usize,
    pub(crate) is_companion: bool,
    pub(crate) at: usize,
}

/// Where the properties of one form are in an object: its own, and that of its companions.
#[derive(Clone, Copy)]
pub(crate) struct Places {
    pub(crate) value: Option<usize>,
    pub(crate) companion: Option<usize>,
}

fn name_in<'m>(member: &'m Member<'_>) -> &'m str
    ensures { result.now ≡ (name_and_value member.now).0 }
{
    member.name.as_str()
}

fn is_of_role(role: ObjectRole, form: &Form) -> bool
    ensures { result ≡ is_of_role role form.now }
{
    match role {
        ObjectRole::Element => true,
        ObjectRole::Resource => form.property() != "resourceType",
        ObjectRole::Companion => form.name() == "id" || form.name() == "extension",
    }
}

fn names_type_in(role: ObjectRole, name: &str) -> bool
    ensures { result ≡ names_type_in role name.now }
{
    match role {
        ObjectRole::Resource => name == "resourceType",
        ObjectRole::Element => false,
        ObjectRole::Companion => false,
    }
}

// A companion holds no companions.
fn may_stand(role: ObjectRole, name: &str) -> bool
    ensures { result ≡ may_stand role name.now }
{
    match role {
        ObjectRole::Companion => !name.starts_with('_'),
        ObjectRole::Element => true,
        ObjectRole::Resource => true,
    }
}

// Whether a property is known, which may be a form's.
fn is_known_name(role: ObjectRole, name: &str, is_of_form: bool) -> bool
    ensures { result ≡ ((is_of_form && may_stand role name.now) || names_type_in role name.now) }
{
    (is_of_form && may_stand(role, name)) || names_type_in(role, name)
}

fn where_of_role(role: ObjectRole, forms: &[Form], property: Property) -> Option<Property>
    ensures { result ≡ where_of_role role forms.now property }
{
    match forms.get(property.form) {
        Some(form) if is_of_role(role, form) => Some(property),
        _ => None,
    }
}

// What the name of a property means in an object.
fn property_meant(
    schema: &Schema,
    node: NodeRef,
    role: ObjectRole,
    forms: &[Form],
    near: &mut Near,
    name: &str,
) -> Option<Property>
    requires { forms.now ≡ forms_of schema.now node }
    ensures property_meant { result ≡ property_meant schema.now (frame_of node role) name.now }
    ensures found { is_some result ≡ list_any (λ f. spells f name.now) (forms_in schema.now (frame_of node role)) }
{
    schema.forms_are_apart(node);
    match property_at(schema, node, forms, near, name) {
        Some(property) => where_of_role(role, forms, property),
        None => None,
    }
}

// Adds a property, if it is a form's; notes it, if it isn't known.
fn put<'a, 'j>(
    alloc: Global,
    schema: &Schema,
    node: NodeRef,
    role: ObjectRole,
    forms: &[Form],
    near: &mut Near,
    member: &'a Member<'j>,
    at: usize,
    all: &mut Vec<Spelled>,
    found: &mut Found<'a, 'j>,
) -> Result<(), AllocError>
    requires { forms.now ≡ forms_of schema.now node }
    ensures all { OnOk result (all.new.items ≡ all.old.items
        ++ spelled_at at (property_meant schema.now (frame_of node role) (name_and_value member.now).0)) }
    ensures found { OnOk result (kids_found found.new
        ≡ (if is_known schema.now (frame_of node role) (name_and_value member.now).0 then kids_found found.old else None)) }
{
    let name = name_in(member);
    let meant = property_meant(schema, node, role, forms, near, name);
    if !is_known_name(role, name, meant.is_some()) {
        found.refuse(alloc, MisfitKind::UnknownProperty, Spot::of(member, at, 0));
    }
    if let Some(property) = meant {
        near.pass(property.form);
        all.push(Spelled {
            form: property.form,
            is_companion: property.is_companion,
            at,
        })?;
    }
    Ok(())
}

// The properties of an object that are a form's, in their order. Notes those that aren't known.
fn spelled_in<'a, 'j>(
    alloc: Global,
    schema: &Schema,
    node: NodeRef,
    role: ObjectRole,
    members: &'a Vec<Member<'j>>,
    found: &mut Found<'a, 'j>,
) -> Result<Vec<Spelled>, AllocError>
    ensures spelled { IfOk result (λ v. v.items
        ≡ spelled_from schema.now (frame_of node role) 0 (names (members_view members.now.items))) }
    ensures found { OnOk result (kids_found found.new
        ≡ (if are_known schema.now (frame_of node role) (names (members_view members.now.items))
        then kids_found found.old else None)) }
{
    let forms = schema.forms(node);
    let mut near = Near::new();
    let mut all = Vec::with_capacity(alloc, members.len())?;
    for i in 0..members.len() {
        put(
            alloc,
            schema,
            node,
            role,
            forms,
            &mut near,
            &members[i],
            i,
            &mut all,
            found,
        )?;
    }
    Ok(all)
}

// Puts properties into the order of their forms. Those of one form stay in their order.
fn sort_by_form(all: &mut Vec<Spelled>) -> Result<(), AllocError>
    ensures ascends { OnOk result (IsNonDecreasingBy (λ e. e.form) all.new.items) }
    ensures stable { (form : ℕ) → of_form form all.new.items ≡ of_form form all.old.items }
{
    all.sort_by_key(|entry| entry.form)
}

/// The properties of an object that are a form's, in the order of the forms. Notes those that aren't known.
pub(crate) fn sorted_in<'a, 'j>(
    alloc: Global,
    schema: &Schema,
    node: NodeRef,
    role: ObjectRole,
    members: &'a Vec<Member<'j>>,
    found: &mut Found<'a, 'j>,
) -> Result<Vec<Spelled>, AllocError>
    ensures ascends { IfOk result (λ v. IsNonDecreasingBy (λ e. e.form) v.items) }
    ensures spelled { IfOk result (λ v. (form : ℕ) → of_form form v.items
        ≡ of_form form (spelled_from schema.now (frame_of node role) 0 (names (members_view members.now.items)))) }
    ensures found { OnOk result (kids_found found.new
        ≡ (if are_known schema.now (frame_of node role) (names (members_view members.now.items))
        then kids_found found.old else None)) }
{
    let mut all = spelled_in(alloc, schema, node, role, members, found)?;
    sort_by_form(&mut all)?;
    Ok(all)
}

// How many at the front are of a form.
fn count_front(form: usize, all: &[Spelled]) -> usize
    ensures count { result ≡ count_front form all.now }
    ensures within { result ≤ length all.now }
{
    for i in 0..all.len() {
        if all[i].form != form {
            return i;
        }
    }
    all.len()
}

fn value_among(all: &[Spelled]) -> Option<usize>
    ensures { result ≡ value_among all.now }
{
    for i in 0..all.len() {
        if !all[i].is_companion {
            return Some(all[i].at);
        }
    }
    None
}

fn companion_among(all: &[Spelled]) -> Option<usize>
    ensures { result ≡ companion_among all.now }
{
    for i in 0..all.len() {
        if all[i].is_companion {
            return Some(all[i].at);
        }
    }
    None
}

// Where the first value and the first companion are.
fn places_among(all: &[Spelled]) -> Places
    ensures { result ≡ places_among all.now }
{
    Places {
        value: value_among(all),
        companion: companion_among(all),
    }
}

/// The properties of one form: which it is, where they are, and how many they are.
#[derive(Clone, Copy)]
pub(crate) struct Group {
    pub(crate) form: usize,
    pub(crate) places: Places,
    pub(crate) count: usize,
}

// Whether the first is the only one of its form.
fn is_alone(all: &[Spelled]) -> bool
    requires { 0 < length all.now }
    ensures { IsTrue result → count_front (first_form all.now) all.now ≡ 1 }
{
    if all.len() == 1 {
        return true;
    }
    all[0].form != all[1].form
}

fn place_of(entry: Spelled) -> Places
    ensures { result ≡ places_among (entry ∷ []) }
{
    if entry.is_companion {
        Places {
            value: None,
            companion: Some(entry.at),
        }
    } else {
        Places {
            value: Some(entry.at),
            companion: None,
        }
    }
}

// Those at the front that are of the first one's form.
fn first_group(rest: &[Spelled]) -> Group
    requires { 0 < length rest.now }
    ensures form { result.form ≡ first_form rest.now }
    ensures places { result.places ≡ places_among (take (count_front (first_form rest.now) rest.now) rest.now) }
    ensures count { result.count ≡ count_front (first_form rest.now) rest.now }
    ensures within { result.count ≤ length rest.now }
    ensures some { 0 < result.count }
{
    let form = rest[0].form;
    if is_alone(rest) {
        return Group {
            form,
            places: place_of(rest[0]),
            count: 1,
        };
    }
    let count = count_front(form, rest);
    Group {
        form,
        places: places_among(&rest[..count]),
        count,
    }
}

/// Those from a place on that are of the form of the one there.
pub(crate) fn group_at(all: &Vec<Spelled>, at: usize) -> Group
    requires { at < length all.now.items }
    ensures form { result.form ≡ first_form (drop at all.now.items) }
    ensures places { result.places
        ≡ places_among (take (count_front (first_form (drop at all.now.items)) (drop at all.now.items)) (drop at all.now.items)) }
    ensures count { result.count ≡ count_front (first_form (drop at all.now.items)) (drop at all.now.items) }
    ensures within { at + result.count ≤ length all.now.items }
    ensures some { 0 < result.count }
{
    first_group(&all[at..])
}
