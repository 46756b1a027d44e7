//! The elements that a definition brings, and those that a differential makes of its base's.

ghost use Rattle.std.specs.Prelude.{◌≡◌, ◌∷◌, ◌++◌, [], map, string_bytes, IfOk, IfErr, OnOk, List, false, is_none};
ghost use Rattle.fhir_json.specs.Views.{text_seen};
ghost use Rattle.fhir_elements.specs.Element.{Element};
ghost use Rattle.fhir_definition.specs.Snapshot.{up_of};
ghost use Rattle.fhir_asking.specs.Asking.{Holds};
ghost use Rattle.fhir_inheritance.specs.Inheriting.{asking};
ghost use Rattle.fhir_snapshot.specs.Order.{roots, IsThere, IsUpThere, AreThere, IsLaid};
ghost use Rattle.fhir_snapshot.specs.Listing.{Decides};
ghost use Rattle.fhir_snapshot.specs.declared.fault.SnapNumber.TheVariants.{S3};
ghost use Rattle.fhir_snapshot.specs.Faults.{number_of};
ghost use Rattle.fhir_snapshot.specs.Refusing.{HasOwn};
ghost use Rattle.fhir_snapshot.specs.Snapshots.{IsSnapshot, is_no_memory};
ghost use Rattle.fhir_snapshot.specs.Chains.{IsWritten, IsUnder};

use crate::fault::SnapFault;
use crate::listing::{list, reversed};
use crate::reading::{fault_of_differential, fault_of_snapshot};
use fhir_asking::{Table, one_answer, settle};
use fhir_definition::{is_root, up_of};
use fhir_elements::ElementDef;
use fhir_inheritance::{NodeDef, Sources, key};
use fhir_json::NoMemory;
use fhir_overlay::copied;
use std::alloc::Global;

// Whether the definition of a url has an element of an id.
fn is_there(
    alloc: Global,
    sources: &Sources<'_, '_>,
    table: &mut Table<NodeDef>,
    url: &str,
    id: &str,
) -> Result<bool, NoMemory>
    requires { Holds (asking sources.now) table.old }
    ensures holds { Holds (asking sources.now) table.new }
    ensures told { IfOk result (λ there. Decides there (IsThere sources.now url.now id.now)) }
{
    one_answer::<NodeDef>();
    let name = key(alloc, id, url)?;
    if !settle(alloc, sources, table, name.as_str())? {
        return Ok(false);
    }
    match table.get(name.as_str()) {
        Some(node) => Ok(node.is_some()),
        None => Ok(false),
    }
}

fn is_up_there(
    alloc: Global,
    sources: &Sources<'_, '_>,
    table: &mut Table<NodeDef>,
    url: &str,
    up: Option<&str>,
) -> Result<bool, NoMemory>
    requires { Holds (asking sources.now) table.old }
    ensures holds { Holds (asking sources.now) table.new }
    ensures told { IfOk result (λ there. Decides there (IsUpThere sources.now url.now (text_seen up.entry))) }
{
    match up {
        Some(up) => is_there(alloc, sources, table, url, up),
        None => Ok(true),
    }
}

// Whether an id and the one under which it stands are there.
fn stands(
    alloc: Global,
    sources: &Sources<'_, '_>,
    table: &mut Table<NodeDef>,
    url: &str,
    id: &str,
) -> Result<bool, NoMemory>
    requires { Holds (asking sources.now) table.old }
    ensures holds { Holds (asking sources.now) table.new }
    ensures told { IfOk result (λ there. Decides there (IsThere sources.now url.now id.now × IsUpThere sources.now url.now (up_of id.now))) }
{
    if !is_there(alloc, sources, table, url, id)? {
        return Ok(false);
    }
    is_up_there(alloc, sources, table, url, up_of(id))
}

// The first element whose id, or the one under which it stands, isn't there.
fn missing(
    alloc: Global,
    sources: &Sources<'_, '_>,
    table: &mut Table<NodeDef>,
    url: &str,
    elements: &[ElementDef],
) -> Result<Option<String>, NoMemory>
    requires { Holds (asking sources.now) table.old }
    ensures holds { Holds (asking sources.now) table.new }
    ensures told { IfOk result (λ id. Decides (is_none id) (AreThere sources.now url.now elements.now)) }
{
    for element in elements {
        if !stands(alloc, sources, table, url, element.id())? {
            return Ok(Some(String::from_str(alloc, element.id())?));
        }
    }
    Ok(None)
}

fn put_root(alloc: Global, element: &ElementDef, ids: &mut Vec<String>) -> Result<(), NoMemory>
    ensures { OnOk result (map string_bytes ids.new.items ≡ map string_bytes ids.old.items ++ roots (element.now ∷ [])) }
{
    if is_root(element) {
        let id = String::from_str(alloc, element.id())?;
        ids.push(id)?;
    }
    Ok(())
}

fn roots(alloc: Global, elements: &[ElementDef]) -> Result<Vec<String>, NoMemory>
    ensures { IfOk result (λ v. map string_bytes v.items ≡ roots elements.now) }
{
    let mut ids = Vec::new(alloc);
    for element in elements {
        put_root(alloc, element, &mut ids)?;
    }
    Ok(ids)
}

// The elements that the differential of the definition of a url makes of those of its base, in order (FHIR R4, Profiling,
// snapshots). A fault says that there are none such, or that memory ran out. The table keeps what was found on the way.
fn elements_by_differential(
    alloc: Global,
    sources: &Sources<'_, '_>,
    table: &mut Table<NodeDef>,
    url: &str,
    base: &[ElementDef],
    differential: &[ElementDef],
) -> Result<Vec<ElementDef>, SnapFault>
    requires { Holds (asking sources.now) table.old }
    ensures holds { Holds (asking sources.now) table.new }
    ensures laid { IfOk result (λ v. IsLaid sources.now url.now base.now differential.now v.items) }
    ensures none { IfErr result (λ f. is_no_memory f ≡ false
        → (es : List Element) → IsLaid sources.now url.now base.now differential.now es → ⊥) }
    ensures number { IfErr result (λ f. is_no_memory f ≡ false → number_of f ≡ S3) }
{
    if let Some(id) = missing(alloc, sources, table, url, base)? {
        return Err(SnapFault::NoElement(id));
    }
    if let Some(id) = missing(alloc, sources, table, url, differential)? {
        return Err(SnapFault::NoElement(id));
    }
    let ids = roots(alloc, base)?;
    let left = reversed(alloc, ids)?;
    list(alloc, sources, table, url, left)
}

// The same elements in memory of their own.
fn all_copied(alloc: Global, elements: &[ElementDef]) -> Result<Vec<ElementDef>, NoMemory>
    ensures { IfOk result (λ v. v.items ≡ elements.now) }
{
    let mut all = Vec::new(alloc);
    for element in elements {
        let element = copied(alloc, element)?;
        all.push(ElementDef::new(element))?;
    }
    Ok(all)
}

/// The snapshot that the definition of a url brings.
pub(crate) fn brought(
    alloc: Global,
    sources: &Sources<'_, '_>,
    url: &str,
) -> Result<Vec<ElementDef>, SnapFault>
    requires { IsWritten sources.now url.now }
    ensures made { IfOk result (λ v. IsSnapshot sources.now url.now v.items) }
    ensures none { IfErr result (λ f. is_no_memory f ≡ false → HasOwn sources.now url.now (number_of f)) }
{
    let (Some(definition), Some(source)) = (sources.definition(url), sources.get(url)) else {
        return Err(SnapFault::Missing);
    };
    if let Some(fault) = fault_of_snapshot(alloc, definition)? {
        return Err(fault);
    }
    Ok(all_copied(alloc, source.elements().all())?)
}

/// The snapshot that the differential of the definition of a url makes of its base's.
pub(crate) fn derived(
    alloc: Global,
    sources: &Sources<'_, '_>,
    table: &mut Table<NodeDef>,
    url: &str,
    under: &[ElementDef],
) -> Result<Vec<ElementDef>, SnapFault>
    requires holds { Holds (asking sources.now) table.old }
    requires under { IsUnder sources.now url.now under.now }
    ensures holds { Holds (asking sources.now) table.new }
    ensures made { IfOk result (λ v. IsSnapshot sources.now url.now v.items) }
    ensures none { IfErr result (λ f. is_no_memory f ≡ false → HasOwn sources.now url.now (number_of f)) }
{
    one_answer::<NodeDef>();
    let (Some(definition), Some(source)) = (sources.definition(url), sources.get(url)) else {
        return Err(SnapFault::Missing);
    };
    if let Some(fault) = fault_of_differential(alloc, definition, source.elements())? {
        return Err(fault);
    }
    elements_by_differential(alloc, sources, table, url, under, source.elements().all())
}
