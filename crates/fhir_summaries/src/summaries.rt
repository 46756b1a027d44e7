//! The summaries of all nodes.

ghost use Rattle.std.specs.Prelude.{◌≡◌, true, false, None, IfOk};
ghost use Rattle.std.specs.List.{list_all};
ghost use Rattle.std.specs.Option.{option_map_or, option_copied};
ghost use Rattle.fhir_nodes.specs.Slots.{all_slots, all_slices};
ghost use Rattle.fhir_nodes.specs.Contents.{elements_in, element_of};
ghost use Rattle.fhir_nodes.specs.Holders.{slots_at};
ghost use Rattle.fhir_summaries.specs.Summaries.{is_bare, may_be_absent, may_be_empty, asks_nothing, one_type, summary_of, row_of, all_summaries, unknown, summary_at};

use crate::elements::{is_bare, may_be_absent, one_type};
use fhir_elements::ElementDef;
use fhir_nodes::{NodeRef, Nodes, Slot, Table, elements_in};
use std::alloc::{AllocError, Global};
use std::marker::Model;

// What is known of a node.
#[derive(Drop)]
struct Summary {
    is_lenient: bool,
    one_type: Option<usize>,
}

impl Model for Summary {
    ghost use Rattle.fhir_summaries.specs.Summaries.{Summary as Shown};

    ghost Value = { Shown };

    ghost view = { λ s. record { is_lenient = s.is_lenient; type = s.one_type } };
}

/// What is known of the nodes of a table's definitions.
#[derive(Drop)]
pub struct Summaries {
    rows: Vec<Vec<Summary>>,
}

impl Model for Summaries {
    ghost use Rattle.std.specs.Prelude.{List, map};
    ghost use Rattle.fhir_summaries.specs.Summaries.{Summary as Shown};

    ghost Value = { List (List Shown) };

    ghost view = { λ s. map (λ row. row.items) s.rows.items };
}

fn element_of(table: &Table, node: NodeRef) -> Option<&ElementDef>
    ensures { option_copied result ≡ element_of table.now node }
{
    elements_in(table, node.definition).get(node.element)
}

fn is_absent_or_none(table: &Table, node: NodeRef) -> bool
    ensures { result ≡ option_map_or may_be_absent (element_of table.now node) true }
{
    match element_of(table, node) {
        Some(element) => may_be_absent(element),
        None => true,
    }
}

fn may_be_empty(table: &Table, slices: &Nodes, node: NodeRef, slot: &Slot) -> bool
    requires { slices.now ≡ all_slices table.now }
    ensures { result ≡ may_be_empty table.now node slot.now }
{
    let entry = NodeRef {
        definition: node.definition,
        element: slot.entry(),
    };
    is_absent_or_none(table, entry) && slices.slots(entry).is_empty()
}

fn may_all_be_empty(table: &Table, slices: &Nodes, node: NodeRef, slots: &[Slot]) -> bool
    requires { slices.now ≡ all_slices table.now }
    ensures { result ≡ list_all (may_be_empty table.now node) slots.now }
{
    for slot in slots {
        if !may_be_empty(table, slices, node, slot) {
            return false;
        }
    }
    true
}

fn is_bare_node(table: &Table, node: NodeRef) -> bool
    ensures { result ≡ option_map_or is_bare (element_of table.now node) false }
{
    match element_of(table, node) {
        Some(element) => is_bare(element),
        None => false,
    }
}

fn asks_nothing(table: &Table, slots: &Nodes, slices: &Nodes, node: NodeRef) -> bool
    requires slots { slots.now ≡ all_slots table.now }
    requires slices { slices.now ≡ all_slices table.now }
    ensures { result ≡ asks_nothing table.now node }
{
    is_bare_node(table, node) && may_all_be_empty(table, slices, node, slots.slots(node))
}

fn type_at(table: &Table, node: NodeRef) -> Option<usize>
    ensures { result ≡ option_map_or (λ e. one_type table.now e.types) (element_of table.now node) None }
{
    match element_of(table, node) {
        Some(element) => one_type(table, element.types()),
        None => None,
    }
}

fn summary_of(table: &Table, slots: &Nodes, slices: &Nodes, node: NodeRef) -> Summary
    requires slots { slots.now ≡ all_slots table.now }
    requires slices { slices.now ≡ all_slices table.now }
    ensures { result ≡ summary_of table.now node }
{
    Summary {
        is_lenient: asks_nothing(table, slots, slices, node),
        one_type: type_at(table, node),
    }
}

// Those of the elements of the definition at a place.
fn row_of(
    alloc: Global,
    table: &Table,
    slots: &Nodes,
    slices: &Nodes,
    place: usize,
) -> Result<Vec<Summary>, AllocError>
    requires slots { slots.now ≡ all_slots table.now }
    requires slices { slices.now ≡ all_slices table.now }
    ensures { IfOk result (λ row. row.items ≡ row_of table.now place) }
{
    let mut row = Vec::new(alloc);
    for element in 0..elements_in(table, place).len() {
        let node = NodeRef {
            definition: place,
            element,
        };
        row.push(summary_of(table, slots, slices, node))?;
    }
    Ok(row)
}

impl Summaries {
    /// What is known of the nodes of a table, of which these are the slots and the slices. It takes time linear in them. The one refusal
    /// is want of memory.
    pub fn of(
        alloc: Global,
        table: &Table,
        slots: &Nodes,
        slices: &Nodes,
    ) -> Result<Summaries, AllocError>
        requires slots { slots.now ≡ all_slots table.now }
        requires slices { slices.now ≡ all_slices table.now }
        ensures { IfOk result (λ s. s ≡ all_summaries table.now) }
    {
        let mut rows = Vec::new(alloc);
        for place in 0..table.definitions().len() {
            rows.push(row_of(alloc, table, slots, slices, place)?)?;
        }
        Ok(Summaries { rows })
    }

    fn at(&self, node: NodeRef) -> Option<&Summary>
        ensures { option_map_or (λ s. s.now) result unknown ≡ summary_at self.now node }
    {
        self.rows.get(node.definition)?.get(node.element)
    }

    /// Whether a node asks nothing of an item without children, but for its type. Of one that isn't there it isn't known.
    pub fn is_lenient(&self, node: NodeRef) -> bool
        ensures { result ≡ (summary_at self.now node).is_lenient }
    {
        match self.at(node) {
            Some(summary) => summary.is_lenient,
            None => false,
        }
    }

    /// The place of the definition of the one type that a node's element names, if it names one that is there.
    pub fn one_type(&self, node: NodeRef) -> Option<usize>
        ensures { result ≡ (summary_at self.now node).type }
    {
        self.at(node)?.one_type
    }
}
