//! The elements in order.

ghost use Rattle.std.specs.Prelude.{◌≡◌, ◌∷◌, ◌++◌, ◌<◌, ◌^◌, List, [], Some, false, length, map, string_bytes, reverse, IfOk, IfErr, OnOk};
ghost use Rattle.std.specs.Option.{option_map};
ghost use Rattle.fhir_asking.specs.Asking.{Holds, known, found};
ghost use Rattle.fhir_inheritance.specs.Keys.{child_id};
ghost use Rattle.fhir_inheritance.specs.Node.{Node};
ghost use Rattle.fhir_inheritance.specs.Inheriting.{asking};
ghost use Rattle.fhir_elements.specs.Element.{Element};
ghost use Rattle.fhir_snapshot.specs.Order.{under, Lists};
ghost use Rattle.fhir_snapshot.specs.Listing.{node_fits, IsFine, Places};
ghost use Rattle.fhir_snapshot.specs.declared.fault.SnapNumber.TheVariants.{S3};
ghost use Rattle.fhir_snapshot.specs.Faults.{number_of};
ghost use Rattle.fhir_snapshot.specs.Snapshots.{is_no_memory};

use crate::fault::SnapFault;
use fhir_asking::{Table, one_answer, settle};
use fhir_elements::ElementDef;
use fhir_inheritance::{NodeDef, Sources, child_id, key};
use fhir_json::NoMemory;
use fhir_overlay::{bounds_fit, copied};
use std::alloc::Global;

fn fits(node: &Option<NodeDef>) -> bool
    ensures { result ≡ node_fits node.now }
{
    match node {
        Some(node) => bounds_fit(node.element()),
        None => false,
    }
}

// Whether an element with bounds that fit is there.
fn is_fine(
    alloc: Global,
    sources: &Sources<'_, '_>,
    table: &mut Table<NodeDef>,
    name: &str,
) -> Result<bool, NoMemory>
    requires { Holds (asking sources.now) table.old }
    ensures holds { Holds (asking sources.now) table.new }
    ensures fine { IfOk result (λ fine. IsFine sources.now name.now table.new fine) }
{
    one_answer::<NodeDef>();
    if !settle(alloc, sources, table, name)? {
        return Ok(false);
    }
    match table.get(name) {
        Some(node) => Ok(fits(node)),
        None => Ok(false),
    }
}

fn put_children(
    alloc: Global,
    id: &str,
    names: &[String],
    ids: &mut Vec<String>,
) -> Result<(), NoMemory>
    ensures { OnOk result (map string_bytes ids.new.items ≡ map string_bytes ids.old.items ++ map (child_id id.now) (map string_bytes names.now)) }
{
    for name in names {
        let child = child_id(alloc, id, name.as_str())?;
        ids.push(child)?;
    }
    Ok(())
}

fn put_texts(alloc: Global, texts: &[String], ids: &mut Vec<String>) -> Result<(), NoMemory>
    ensures { OnOk result (map string_bytes ids.new.items ≡ map string_bytes ids.old.items ++ map string_bytes texts.now) }
{
    for text in texts {
        let text = String::from_str(alloc, text.as_str())?;
        ids.push(text)?;
    }
    Ok(())
}

// The ids of what stands under an element.
fn under(alloc: Global, id: &str, node: &NodeDef) -> Result<Vec<String>, NoMemory>
    ensures { IfOk result (λ v. map string_bytes v.items ≡ under id.now node.now) }
{
    let mut ids = Vec::new(alloc);
    put_children(alloc, id, node.names(), &mut ids)?;
    put_texts(alloc, node.slices(), &mut ids)?;
    Ok(ids)
}

// Puts ids before those that are left to list, of which the first is the last of the list.
fn put_before(left: &mut Vec<String>, ids: Vec<String>) -> Result<(), NoMemory>
    ensures { OnOk result (reverse (map string_bytes left.new.items)
        ≡ map string_bytes ids.items ++ reverse (map string_bytes left.old.items)) }
{
    let mut ids = ids;
    while let Some(id) = ids.pop() {
        left.push(id)?;
    }
    Ok(())
}

/// The texts, the last one first.
pub(crate) fn reversed(alloc: Global, ids: Vec<String>) -> Result<Vec<String>, NoMemory>
    ensures { IfOk result (λ v. reverse (map string_bytes v.items) ≡ map string_bytes ids.items) }
{
    let mut left = Vec::new(alloc);
    put_before(&mut left, ids)?;
    Ok(left)
}

fn place(
    alloc: Global,
    node: &NodeDef,
    id: &str,
    listed: &mut Vec<ElementDef>,
    left: &mut Vec<String>,
) -> Result<(), NoMemory>
    ensures listed { OnOk result (listed.new.items ≡ listed.old.items ++ node.now.element ∷ []) }
    ensures left { OnOk result (reverse (map string_bytes left.new.items)
        ≡ under id.now node.now ++ reverse (map string_bytes left.old.items)) }
{
    let ids = under(alloc, id, node)?;
    put_before(left, ids)?;
    let element = copied(alloc, node.element())?;
    listed.push(ElementDef::new(element))?;
    Ok(())
}

fn place_known(
    alloc: Global,
    table: &Table<NodeDef>,
    name: &str,
    id: &str,
    listed: &mut Vec<ElementDef>,
    left: &mut Vec<String>,
) -> Result<(), NoMemory>
    ensures { OnOk result ((n : Node) → known table.now name.now ≡ found (Some n)
        → (listed.new.items ≡ listed.old.items ++ n.element ∷ [])
        × (reverse (map string_bytes left.new.items) ≡ under id.now n ++ reverse (map string_bytes left.old.items))) }
{
    match table.get(name) {
        Some(Some(node)) => place(alloc, node, id, listed, left),
        Some(None) => Ok(()),
        None => Ok(()),
    }
}

// One id, which is listed where its element is fine.
fn list_one(
    alloc: Global,
    sources: &Sources<'_, '_>,
    table: &mut Table<NodeDef>,
    url: &str,
    id: &str,
    listed: &mut Vec<ElementDef>,
    left: &mut Vec<String>,
) -> Result<bool, NoMemory>
    requires { Holds (asking sources.now) table.old }
    ensures holds { Holds (asking sources.now) table.new }
    ensures room { OnOk result (length listed.new.items < 2 ^ 64) }
    ensures places { IfOk result (λ fine. Places sources.now url.now id.now listed.old.items listed.new.items (map string_bytes left.old.items) (map string_bytes left.new.items) fine) }
{
    let name = key(alloc, id, url)?;
    if !is_fine(alloc, sources, table, name.as_str())? {
        return Ok(false);
    }
    place_known(alloc, table, name.as_str(), id, listed, left)?;
    Ok(true)
}

// What is wrong with an id whose element isn't fine.
fn fault_of(table: &Table<NodeDef>, name: &str, id: String) -> SnapFault
    ensures { number_of result ≡ S3 }
{
    match table.get(name) {
        Some(Some(_)) => SnapFault::MinOverMax(id),
        _ => SnapFault::NoElement(id),
    }
}

/// The elements of ids of the definition of a url, the last one first, and of what stands under them; a fault where one
/// isn't there or its bounds don't fit.
pub(crate) fn list(
    alloc: Global,
    sources: &Sources<'_, '_>,
    table: &mut Table<NodeDef>,
    url: &str,
    left: Vec<String>,
) -> Result<Vec<ElementDef>, SnapFault>
    requires { Holds (asking sources.now) table.old }
    ensures listed { IfOk result (λ v. Lists sources.now url.now v.items (reverse (map string_bytes left.items))) }
    ensures none { IfErr result (λ f. is_no_memory f ≡ false
        → (es : List Element) → Lists sources.now url.now es (reverse (map string_bytes left.items)) → ⊥) }
    ensures number { IfErr result (λ f. is_no_memory f ≡ false → number_of f ≡ S3) }
    ensures holds { Holds (asking sources.now) table.new }
{
    one_answer::<NodeDef>();
    let mut left = left;
    let mut listed = Vec::new(alloc);
    while let Some(id) = left.pop() {
        if !list_one(
            alloc,
            sources,
            table,
            url,
            id.as_str(),
            &mut listed,
            &mut left,
        )? {
            let name = key(alloc, id.as_str(), url)?;
            return Err(fault_of(table, name.as_str(), id));
        }
    }
    Ok(listed)
}
