//! The walk through a definition.

ghost use Rattle.std.specs.Prelude.{◌≡◌, ◌++◌, IfOk, OnOk};
ghost use Rattle.fhir_json.specs.Views.{tree_of, items_view, members_view, text_seen};
ghost use Rattle.fhir_unrecognized.specs.Unrecognized.{id_within, unless_known, in_members, in_part, in_objects, unrecognized_in};
ghost use Rattle.fhir_unrecognized.specs.Views.{members_seen};

use crate::members::{is_known, part_of, resource_of};
use crate::object::Object;
use fhir_json::{Json, Member, NoMemory};
use std::alloc::Global;

/// A member that R4 doesn't have in the object that it stands in.
#[derive(Clone, Copy)]
pub struct Unrecognized<'t> {
    /// The id of the element, where it stands in an element of a snapshot or a differential, or in a part of one.
    pub id: Option<&'t str>,
    /// The member's name, as it is written.
    pub name: &'t str,
    /// The object that it stands in.
    pub object: Object,
}

// The element in which the members of an object stand.
fn id_within<'t>(object: Object, id: Option<&'t str>, json: &'t Json<'_>) -> Option<&'t str>
    ensures { text_seen result ≡ id_within object (text_seen id.entry) (tree_of json.now) }
{
    match object {
        Object::Element => json.text_in("id"),
        _ => id,
    }
}

fn put_name<'t>(
    name: &'t str,
    object: Object,
    id: Option<&'t str>,
    found: &mut Vec<Unrecognized<'t>>,
) -> Result<(), NoMemory>
    ensures { OnOk result (members_seen found.new.items
        ≡ members_seen found.old.items ++ unless_known object (text_seen id.entry) name.now) }
{
    if is_known(object, name) {
        return Ok(());
    }
    Ok(found.push(Unrecognized { id, name, object })?)
}

#[cycle(walk)]
fn put_members<'t>(
    members: &'t Vec<Member<'_>>,
    object: Object,
    id: Option<&'t str>,
    found: &mut Vec<Unrecognized<'t>>,
) -> Result<(), NoMemory>
    ensures { OnOk result (members_seen found.new.items
        ≡ members_seen found.old.items ++ in_members object (text_seen id.entry) (members_view members.now.items)) }
{
    for member in members {
        put_name(member.name.as_str(), object, id, found)?;
        put_part(
            &member.value,
            part_of(object, member.name.as_str()),
            id,
            found,
        )?;
    }
    Ok(())
}

#[cycle(walk)]
fn put_part<'t>(
    json: &'t Json<'_>,
    part: Option<Object>,
    id: Option<&'t str>,
    found: &mut Vec<Unrecognized<'t>>,
) -> Result<(), NoMemory>
    ensures { OnOk result (members_seen found.new.items
        ≡ members_seen found.old.items ++ in_part part (text_seen id.entry) (tree_of json.now)) }
{
    let Some(object) = part else {
        return Ok(());
    };
    match json {
        Json::Obj(members) => put_members(members, object, id_within(object, id, json), found),
        Json::Arr(items) => put_objects(items, object, id, found),
        _ => Ok(()),
    }
}

#[cycle(walk)]
fn put_objects<'t>(
    items: &'t Vec<Json<'_>>,
    object: Object,
    id: Option<&'t str>,
    found: &mut Vec<Unrecognized<'t>>,
) -> Result<(), NoMemory>
    ensures { OnOk result (members_seen found.new.items
        ≡ members_seen found.old.items ++ in_objects object (text_seen id.entry) (items_view items.now.items)) }
{
    for item in items {
        if let Json::Obj(members) = item {
            put_members(members, object, id_within(object, id, item), found)?;
        }
    }
    Ok(())
}

/// The members of a StructureDefinition, a ValueSet or a CodeSystem that R4 doesn't have, in the order in which they stand there. A
/// name behind `_` counts as the primitive's whose companion it is (<https://hl7.org/fhir/R4/json.html#primitive>), and what begins with
/// `fhir_comments`, as old tools write it, is none of them. Of other resources there are none. The one refusal is want of memory.
pub fn unrecognized_in<'t>(
    alloc: Global,
    definition: &'t Json<'_>,
) -> Result<Vec<Unrecognized<'t>>, NoMemory>
    ensures { IfOk result (λ found. members_seen found.items ≡ unrecognized_in (tree_of definition.now)) }
{
    let mut found = Vec::new(alloc);
    let part = definition
        .text_in("resourceType")
        .and_then(|text| resource_of(text));
    put_part(definition, part, None, &mut found)?;
    Ok(found)
}
