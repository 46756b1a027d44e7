//! What differs, as a table.

ghost use Rattle.std.specs.Prelude.{◌≡◌, ◌∷◌, ◌==◌, [], length, codes, map, if◌then◌else◌, IfOk, OnOk};
ghost use Rattle.fhir_markup.specs.Markup.{element, none, also};
ghost use Rattle.fhir_markup.specs.Views.{element_node};
ghost use Rattle.fhir_markup.specs.declared.names.Tag.TheVariants.{Tr, Thead};
ghost use Rattle.fhir_element_changes.specs.Tables.{same_node, is_at, fails_at, heading_cell, head, id_row, row_class, aspect_cell, change_row, rows, with_nodes, group, table, heading, table_region, with_table};
ghost use Rattle.fhir_element_changes.specs.Views.{change_seen, changed_seen, all_changed};

use crate::changes::{Change, Changed};
use crate::element_words::Aspect;
use fhir_markup::{Attribute, AttributeName, Element, Part, Tag};
use fhir_page_frame::{scrolled, worded};
use fhir_schema::NodeRef;
use std::alloc::{AllocError, Global};

/// An element of the profile, and by what it fails.
#[derive(Clone, Copy)]
pub struct Failing {
    /// Where the element stands.
    pub node: NodeRef,
    /// By what it fails.
    pub aspect: Aspect,
}

// ---- what fails

fn same_node(one: NodeRef, other: NodeRef) -> bool
    ensures { result ≡ same_node one other }
{
    one.definition == other.definition && one.element == other.element
}

fn is_at(failing: Failing, node: NodeRef, aspect: Aspect) -> bool
    ensures { result ≡ is_at failing node aspect }
{
    same_node(failing.node, node) && failing.aspect.word() == aspect.word()
}

fn fails_at(failing: Option<Failing>, node: NodeRef, aspect: Aspect) -> bool
    ensures { result ≡ fails_at failing node aspect }
{
    match failing {
        Some(failing) => is_at(failing, node, aspect),
        None => false,
    }
}

// ---- rows

fn heading_cell(alloc: Global, scope: &'static str, text: &str) -> Result<Element, AllocError>
    ensures { IfOk result (λ cell. element_node cell ≡ heading_cell scope.now text.now) }
{
    let mut cell = Element::of_text(alloc, Tag::Th, text)?;
    cell.set(Attribute::Fixed(AttributeName::Scope, scope))?;
    Ok(cell)
}

fn head_row(alloc: Global) -> Result<Element, AllocError>
    ensures { IfOk result (λ row. element Thead [] (also (element_node row) none) ≡ head) }
{
    let mut row = Element::new(alloc, Tag::Tr);
    row.push(heading_cell(alloc, "col", "What")?)?;
    row.push(heading_cell(alloc, "col", "Base")?)?;
    row.push(heading_cell(alloc, "col", "Profile")?)?;
    Ok(row)
}

fn head(alloc: Global) -> Result<Element, AllocError>
    ensures { IfOk result (λ made. element_node made ≡ head) }
{
    let mut head = Element::new(alloc, Tag::Thead);
    head.push(head_row(alloc)?)?;
    Ok(head)
}

// The element's id, over all columns.
fn id_row(alloc: Global, id: &str) -> Result<Element, AllocError>
    ensures { IfOk result (λ row. element_node row ≡ id_row id.now) }
{
    let mut cell = heading_cell(alloc, "rowgroup", id)?;
    cell.set(Attribute::Fixed(AttributeName::Class, "id"))?;
    cell.set(Attribute::Number(AttributeName::Colspan, 3))?;
    let mut row = Element::new(alloc, Tag::Tr);
    row.push(cell)?;
    Ok(row)
}

fn open_row(alloc: Global, fails: bool) -> Result<Element, AllocError>
    ensures { IfOk result (λ row. element_node row ≡ element Tr (row_class fails) none) }
{
    if fails {
        Element::of_class(alloc, Tag::Tr, "fails")
    } else {
        Ok(Element::new(alloc, Tag::Tr))
    }
}

fn aspect_cell(alloc: Global, aspect: Aspect, fails: bool) -> Result<Element, AllocError>
    ensures { IfOk result (λ cell. element_node cell ≡ aspect_cell fails aspect) }
{
    let mut cell = heading_cell(alloc, "row", aspect.word())?;
    if !fails {
        return Ok(cell);
    }
    cell.push_text(alloc, " (fails)")?;
    Ok(cell)
}

fn change_row(alloc: Global, change: &Change, fails: bool) -> Result<Element, AllocError>
    ensures { IfOk result (λ row. element_node row ≡ change_row fails (change_seen change.now)) }
{
    let mut row = open_row(alloc, fails)?;
    row.push(aspect_cell(alloc, change.aspect, fails)?)?;
    row.push(worded(alloc, Tag::Td, "old", change.base.as_str())?)?;
    row.push(Element::of_text(alloc, Tag::Td, change.derived.as_str())?)?;
    Ok(row)
}

// ---- the table

fn put_rows(
    alloc: Global,
    into: &mut Element,
    changed: &Changed<'_>,
    failing: Option<Failing>,
) -> Result<(), AllocError>
    ensures { OnOk result (element_node into.new
        ≡ with_nodes (element_node into.old) (rows failing changed.now.node (changed_seen changed.now).changes)) }
{
    for change in &changed.changes {
        let fails = fails_at(failing, changed.node, change.aspect);
        into.push(change_row(alloc, change, fails)?)?;
    }
    Ok(())
}

fn group(
    alloc: Global,
    changed: &Changed<'_>,
    failing: Option<Failing>,
) -> Result<Element, AllocError>
    ensures { IfOk result (λ made. element_node made ≡ group failing (changed_seen changed.now)) }
{
    let mut group = Element::new(alloc, Tag::Tbody);
    group.push(id_row(alloc, changed.id)?)?;
    put_rows(alloc, &mut group, changed, failing)?;
    Ok(group)
}

fn put_groups(
    alloc: Global,
    into: &mut Element,
    elements: &[Changed<'_>],
    failing: Option<Failing>,
) -> Result<(), AllocError>
    ensures { OnOk result (element_node into.new
        ≡ with_nodes (element_node into.old) (map (group failing) (all_changed elements.now))) }
{
    for changed in elements {
        into.push(group(alloc, changed, failing)?)?;
    }
    Ok(())
}

fn table(
    alloc: Global,
    elements: &[Changed<'_>],
    failing: Option<Failing>,
) -> Result<Element, AllocError>
    ensures { IfOk result (λ made. element_node made ≡ table failing (all_changed elements.now)) }
{
    let mut table = Element::new(alloc, Tag::Table);
    table.push(head(alloc)?)?;
    put_groups(alloc, &mut table, elements, failing)?;
    Ok(table)
}

fn heading(alloc: Global, number: usize) -> Result<Element, AllocError>
    ensures { IfOk result (λ made. element_node made ≡ heading number) }
{
    let mut heading = Element::of_text(alloc, Tag::H4, "What differs from its base")?;
    heading.set(Attribute::Id(Part::Differences, number))?;
    Ok(heading)
}

fn table_region(
    alloc: Global,
    number: usize,
    elements: &[Changed<'_>],
    failing: Option<Failing>,
) -> Result<Element, AllocError>
    ensures { IfOk result (λ made. element_node made ≡ table_region number failing (all_changed elements.now)) }
{
    let mut around = scrolled(alloc, Attribute::LabelledBy(Part::Differences, number))?;
    around.push(table(alloc, elements, failing)?)?;
    Ok(around)
}

/// Puts in what differs between a profile and its base, if something does, under a heading of the profile's number.
/// The one refusal is want of memory.
pub fn push_table(
    alloc: Global,
    into: &mut Element,
    number: usize,
    elements: &[Changed<'_>],
    failing: Option<Failing>,
) -> Result<(), AllocError>
    ensures { OnOk result (element_node into.new
        ≡ (if length elements.now == 0 then element_node into.old
        else with_table number failing (all_changed elements.now) (element_node into.old))) }
{
    if elements.is_empty() {
        return Ok(());
    }
    into.push(heading(alloc, number)?)?;
    into.push(table_region(alloc, number, elements, failing)?)
}
