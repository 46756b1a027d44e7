//! Which definitions rest on which, by their types and by the elements that they refer to.

ghost use Rattle.std.specs.Prelude.{◌≡◌, ◌++◌, IfOk, OnOk};
ghost use Rattle.std.specs.List.{flat_map};
ghost use Rattle.fhir_definition.specs.Views.{lists_in};
ghost use Rattle.fhir_schema.specs.Resting.{entry_rests_on, element_rests_on, target_rests_on, rests_on, put_under, users_of};

use crate::types::target_place;
use fhir_definition::{Definition, empty_lists, is_root, put_at};
use fhir_elements::{ElementDef, TypeEntry};
use fhir_nodes::{Table, is_system};
use std::alloc::{AllocError, Global};

fn push_entry(
    table: &Table,
    entry: &TypeEntry,
    places: &mut Vec<Option<usize>>,
) -> Result<(), AllocError>
    ensures { OnOk result (places.new.items ≡ places.old.items ++ entry_rests_on table.now entry.now) }
{
    let code = entry.code();
    if is_system(code) {
        return Ok(());
    }
    places.push(table.type_place(code))?;
    Ok(())
}

fn push_entries(
    table: &Table,
    entries: &[TypeEntry],
    places: &mut Vec<Option<usize>>,
) -> Result<(), AllocError>
    ensures { OnOk result (places.new.items ≡ places.old.items ++ flat_map (entry_rests_on table.now) entries.now) }
{
    for entry in entries {
        push_entry(table, entry, places)?;
    }
    Ok(())
}

fn push_element(
    table: &Table,
    element: &ElementDef,
    places: &mut Vec<Option<usize>>,
) -> Result<(), AllocError>
    ensures { OnOk result (places.new.items ≡ places.old.items ++ element_rests_on table.now element.now) }
{
    if is_root(element) {
        return Ok(());
    }
    push_entries(table, element.types(), places)
}

fn push_target(
    table: &Table,
    definition: &Definition,
    element: &ElementDef,
    places: &mut Vec<Option<usize>>,
) -> Result<(), AllocError>
    ensures { OnOk result (places.new.items ≡ places.old.items ++ target_rests_on table.now definition.now element.now) }
{
    if element.content_reference().is_none() {
        return Ok(());
    }
    places.push(target_place(table, definition, element))?;
    Ok(())
}

fn push_targets(
    table: &Table,
    definition: &Definition,
    places: &mut Vec<Option<usize>>,
) -> Result<(), AllocError>
    ensures { OnOk result (places.new.items
        ≡ places.old.items ++ flat_map (target_rests_on table.now definition.now) definition.now.elements) }
{
    for element in definition.elements() {
        push_target(table, definition, element, places)?;
    }
    Ok(())
}

fn push_types(
    table: &Table,
    definition: &Definition,
    places: &mut Vec<Option<usize>>,
) -> Result<(), AllocError>
    ensures { OnOk result (places.new.items
        ≡ places.old.items ++ flat_map (element_rests_on table.now) definition.now.elements) }
{
    for element in definition.elements() {
        push_element(table, element, places)?;
    }
    Ok(())
}

// The places of the types that a definition asks for, and of the definitions of the elements that it refers to.
fn rests_on(
    alloc: Global,
    table: &Table,
    definition: &Definition,
) -> Result<Vec<Option<usize>>, AllocError>
    ensures { IfOk result (λ v. v.items ≡ rests_on table.now definition.now) }
{
    let mut places = Vec::new(alloc);
    places.push(table.type_place(definition.type_code()))?;
    push_types(table, definition, &mut places)?;
    push_targets(table, definition, &mut places)?;
    Ok(places)
}

fn put_under(
    all: &mut Vec<Vec<usize>>,
    ats: &[Option<usize>],
    place: usize,
) -> Result<(), AllocError>
    ensures { OnOk result (lists_in all.new.items ≡ put_under ats.now place (lists_in all.old.items)) }
{
    for at in ats {
        put_at(all, *at, place)?;
    }
    Ok(())
}

/// For each definition the places of those that rest on it.
pub(crate) fn users_of(alloc: Global, table: &Table) -> Result<Vec<Vec<usize>>, AllocError>
    ensures { IfOk result (λ v. lists_in v.items ≡ users_of table.now) }
{
    let mut users = empty_lists(alloc, table.definitions().len())?;
    for definition in table.definitions() {
        let ats = rests_on(alloc, table, definition)?;
        put_under(&mut users, &ats, definition.place())?;
    }
    Ok(users)
}
