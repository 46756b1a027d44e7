//! Elements written together, and a definition with a snapshot of them.

ghost use Rattle.std.specs.Prelude.{◌≡◌, ◌++◌, ◌∷◌, [], map, IfOk, OnOk, codes};
ghost use Rattle.fhir_json.specs.Tree.{object, members_of};
ghost use Rattle.fhir_json.specs.Views.{tree_of, trees_of, property_of};
ghost use Rattle.fhir_overlay.specs.Json.{element_tree};
ghost use Rattle.fhir_overlay.specs.Completed.{elements_tree, snapshot_tree, without_member, with_snapshot};

use crate::owning::{owned_json, owned_member};
use crate::writing::element_json;
use fhir_elements::ElementDef;
use fhir_json::{Json, Member, NoMemory, lists};
use std::alloc::{AllocError, Global};
use std::borrow::CowStr;

fn member<'o>(name: &'static str, value: Json<'o>) -> Member<'o>
    ensures { property_of result ≡ (name.now, tree_of value.entry) }
{
    Member {
        name: CowStr::Borrowed(name),
        value,
    }
}

fn object<'o>(members: Vec<Member<'o>>) -> Json<'o>
    ensures { tree_of result ≡ object (members_of (map property_of members.entry.items)) }
{
    Json::Obj(members)
}

fn element_item<'o>(alloc: Global, element: &ElementDef) -> Result<Json<'o>, NoMemory>
    ensures { IfOk result (λ j. tree_of j ≡ element_tree element.now) }
{
    let json = element_json(alloc, element)?;
    Ok(owned_json(alloc, &json)?)
}

fn element_items<'o>(alloc: Global, elements: &[ElementDef]) -> Result<Vec<Json<'o>>, NoMemory>
    ensures { IfOk result (λ v. trees_of v.items ≡ map element_tree elements.now) }
{
    let mut items = Vec::with_capacity(alloc, elements.len())?;
    for element in elements {
        let item = element_item(alloc, element)?;
        items.push(item)?;
    }
    Ok(items)
}

/// Elements as a JSON array, in order. The one refusal is want of memory.
pub fn elements_json<'o>(alloc: Global, elements: &[ElementDef]) -> Result<Json<'o>, NoMemory>
    ensures { IfOk result (λ j. tree_of j ≡ elements_tree elements.now) }
{
    let items = element_items(alloc, elements)?;
    Ok(Json::Arr(items))
}

fn snapshot_json<'o>(alloc: Global, elements: &[ElementDef]) -> Result<Json<'o>, NoMemory>
    ensures { IfOk result (λ j. tree_of j ≡ snapshot_tree elements.now) }
{
    let elements = elements_json(alloc, elements)?;
    let mut members: Vec<Member<'o>> = Vec::with_capacity(alloc, 1)?;
    members.push(member("element", elements))?;
    Ok(object(members))
}

// Puts a member behind others, unless it has that name.
fn put_other<'o>(
    alloc: Global,
    members: &mut Vec<Member<'o>>,
    name: &str,
    member: &Member<'_>,
) -> Result<(), AllocError>
    ensures { OnOk result (map property_of members.new.items
        ≡ map property_of members.old.items ++ without_member name.now (property_of member.now ∷ [])) }
{
    if member.name.as_str() == name {
        return Ok(());
    }
    let member = owned_member(alloc, member)?;
    members.push(member)?;
    Ok(())
}

fn other_members<'o>(
    alloc: Global,
    name: &str,
    members: &[Member<'_>],
) -> Result<Vec<Member<'o>>, NoMemory>
    ensures { IfOk result (λ v. map property_of v.items ≡ without_member name.now (map property_of members.now)) }
{
    let mut others: Vec<Member<'o>> = Vec::with_capacity(alloc, members.len())?;
    for member in members {
        put_other(alloc, &mut others, name, member)?;
    }
    Ok(others)
}

/// A definition with a snapshot of these elements (FHIR R4, StructureDefinition, snapshot), in memory of its own: its other
/// members, and behind them the snapshot, in place of one that it has. The one refusal is want of memory.
pub fn with_snapshot<'o>(
    alloc: Global,
    definition: &Json<'_>,
    elements: &[ElementDef],
) -> Result<Json<'o>, NoMemory>
    ensures { IfOk result (λ j. tree_of j ≡ with_snapshot elements.now (tree_of definition.now)) }
{
    lists();
    let mut members: Vec<Member<'o>> = other_members(alloc, "snapshot", definition.members())?;
    let snapshot = snapshot_json(alloc, elements)?;
    members.push(member("snapshot", snapshot))?;
    Ok(object(members))
}
