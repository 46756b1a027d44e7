//! By what an item is told to belong to a slice, worked out when a schema is built.

ghost use Rattle.std.specs.Prelude.{◌≡◌, ◌∷◌, ◌++◌, [], length, get_or, map, true, None, is_none, IfOk};
ghost use Rattle.std.specs.Option.{option_map, option_map_or, option_and_then};
ghost use Rattle.std.specs.List.{list_all, flat_map, slice_get};
ghost use Rattle.fhir_elements.specs.declared.reason.Reason.TheVariants.{UnsupportedSlicing};
ghost use Rattle.fhir_elements.specs.Causes.{reason_of, blamed_reason, reason_unless, is_blame_among};
ghost use Rattle.fhir_definition.specs.Snapshot.{slice_place};
ghost use Rattle.fhir_definition.specs.Blames.{AreBlamesAmong};
ghost use Rattle.fhir_nodes.specs.Slots.{slots_of, all_slots};
ghost use Rattle.fhir_forms.specs.Slicings.{discriminators_of};
ghost use Rattle.fhir_forms.specs.Criteria.{criterion_at, criterion_of, told_criteria, is_told, criteria_by, is_told_by, sliced_at, criteria_in, is_told_apart, criteria_of, are_told_apart, all_criteria};
ghost use Rattle.fhir_forms.specs.CriteriaSeen.{criterion_seen, criteria_seen, all_seen, test_seen, tests_seen, lists_of_tests};

use crate::criterion::Criterion;
use crate::discriminating::{names_of, sought_at};
use crate::first_blame::first_blame;
use crate::slicings::{Test, all_tests, slicing_cause};
use fhir_definition::Definition;
use fhir_elements::{Blame, Cause, DiscriminatorType, ElementDef};
use fhir_json::NoMemory;
use fhir_names::sliced_of;
use fhir_nodes::{NodeRef, Nodes, SlotList, Table};
use std::alloc::Global;
use std::marker::Model;

fn criterion_at(
    alloc: Global,
    slots: &[SlotList],
    elements: &[ElementDef],
    place: usize,
    by: DiscriminatorType,
    path: &str,
) -> Result<Option<Criterion>, NoMemory>
    ensures { IfOk result (λ c. option_map criterion_seen c ≡ criterion_at slots.now elements.now place by path.now) }
{
    let names = names_of(alloc, path)?;
    let sought = sought_at(alloc, slots, elements, place, by, path, &names)?;
    let Some(sought) = sought else {
        return Ok(None);
    };
    let path = String::from_str(alloc, path)?;
    Ok(Some(Criterion {
        by,
        path,
        names,
        sought,
    }))
}

fn criterion_of(
    alloc: Global,
    slots: &[SlotList],
    elements: &[ElementDef],
    place: usize,
    test: Test<'_>,
) -> Result<Option<Criterion>, NoMemory>
    ensures { IfOk result (λ c. option_map criterion_seen c ≡ criterion_of slots.now elements.now place (test_seen test.entry)) }
{
    let Some(by) = test.by else {
        return Ok(None);
    };
    match test.path {
        Some(path) => criterion_at(alloc, slots, elements, place, by, path),
        None => Ok(None),
    }
}

// The criteria of an element, and why it is a slice that can't be told.
#[derive(Drop)]
struct SliceCriteria {
    criteria: Vec<Criterion>,
    cause: Option<Cause>,
}

// An element that is no slice has no criteria.
fn no_slice(alloc: Global) -> SliceCriteria
    ensures criteria { result.criteria.items ≡ [] }
    ensures cause { result.cause ≡ None }
{
    SliceCriteria {
        criteria: Vec::new(alloc),
        cause: None,
    }
}

// The criteria of discriminators up to the first that can't be told, and that one's place in the slicing.
fn told_criteria(
    alloc: Global,
    slots: &[SlotList],
    elements: &[ElementDef],
    place: usize,
    tests: &[Test<'_>],
) -> Result<(Vec<Criterion>, Option<usize>), NoMemory>
    ensures criteria { IfOk result (λ r. is_none r.1 ≡ true → criteria_seen r.0.items ≡ flat_map (told_criteria slots.now elements.now place) (tests_seen tests.now)) }
    ensures all { IfOk result (λ r. is_none r.1 ≡ list_all (is_told slots.now elements.now place) (tests_seen tests.now)) }
{
    let mut criteria = Vec::new(alloc);
    for test in tests {
        let Some(criterion) = criterion_of(alloc, slots, elements, place, *test)? else {
            return Ok((criteria, Some(test.place)));
        };
        criteria.push(criterion)?;
    }
    Ok((criteria, None))
}

// The criteria of a slice of an element whose discriminators these are, and why it can't be told.
fn told_by(
    alloc: Global,
    slots: &[SlotList],
    elements: &[ElementDef],
    place: usize,
    sliced: &ElementDef,
    tests: &[Test<'_>],
) -> Result<SliceCriteria, NoMemory>
    requires { tests_seen tests.now ≡ discriminators_of sliced.now }
    ensures criteria { IfOk result (λ r. criteria_seen r.criteria.items ≡ criteria_by slots.now elements.now place sliced.now) }
    ensures reason { IfOk result (λ r. option_map reason_of r.cause ≡ reason_unless (is_told_by slots.now elements.now place sliced.now) UnsupportedSlicing) }
{
    let (criteria, untold) = told_criteria(alloc, slots, elements, place, tests)?;
    let cause = slicing_cause(sliced, tests, untold);
    if cause.is_some() {
        let criteria = Vec::new(alloc);
        return Ok(SliceCriteria { criteria, cause });
    }
    Ok(SliceCriteria { criteria, cause })
}

// The place of the element that the one at a place is a slice of.
fn sliced_place(definition: &Definition, place: usize) -> Option<usize>
    ensures { result ≡ option_and_then (slice_place definition.now.elements) (slice_get definition.now.elements place) }
{
    let element = definition.elements().get(place)?;
    definition.id_place(sliced_of(element.id())?)
}

// The same of a slice at a place, of the element at another.
fn told_under(
    alloc: Global,
    elements: &[ElementDef],
    slots: &[SlotList],
    place: usize,
    sliced: usize,
    all: &[Vec<Test<'_>>],
) -> Result<SliceCriteria, NoMemory>
    requires { lists_of_tests all.now ≡ map discriminators_of elements.now }
    ensures criteria { IfOk result (λ r. criteria_seen r.criteria.items
        ≡ option_map_or (criteria_by slots.now elements.now place) (slice_get elements.now sliced) []) }
    ensures reason { IfOk result (λ r. option_map reason_of r.cause
        ≡ reason_unless (option_map_or (is_told_by slots.now elements.now place) (slice_get elements.now sliced) true) UnsupportedSlicing) }
{
    match elements.get(sliced) {
        Some(element) => told_by(alloc, slots, elements, place, element, &all[sliced]),
        None => Ok(no_slice(alloc)),
    }
}

fn told_at(
    alloc: Global,
    definition: &Definition,
    slots: &[SlotList],
    place: usize,
    all: &[Vec<Test<'_>>],
) -> Result<SliceCriteria, NoMemory>
    requires { lists_of_tests all.now ≡ map discriminators_of definition.now.elements }
    ensures criteria { IfOk result (λ r. criteria_seen r.criteria.items
        ≡ option_map_or (criteria_by slots.now definition.now.elements place) (sliced_at definition.now.elements place) []) }
    ensures reason { IfOk result (λ r. option_map reason_of r.cause
        ≡ reason_unless (option_map_or (is_told_by slots.now definition.now.elements place) (sliced_at definition.now.elements place) true)
        UnsupportedSlicing) }
{
    match sliced_place(definition, place) {
        Some(sliced) => told_under(alloc, definition.elements(), slots, place, sliced, all),
        None => Ok(no_slice(alloc)),
    }
}

// The criteria of each element of a definition, and what is to blame where a slice can't be told.
fn criteria_of(
    alloc: Global,
    table: &Table,
    definition: &Definition,
    slots: &[SlotList],
) -> Result<(Vec<Vec<Criterion>>, Option<Blame>), NoMemory>
    requires { slots.now ≡ slots_of table.now definition.now }
    ensures criteria { IfOk result (λ r. map (λ v. criteria_seen v.items) r.0.items ≡ criteria_of table.now definition.now) }
    ensures reason { IfOk result (λ r. blamed_reason r.1 ≡ reason_unless (are_told_apart table.now definition.now) UnsupportedSlicing) }
    ensures element { IfOk result (λ r. is_blame_among (length definition.now.elements) r.1) }
{
    let all = all_tests(alloc, definition.elements())?;
    let mut lists = Vec::new(alloc);
    let mut blame = None;
    for place in 0..definition.elements().len() {
        let told = told_at(alloc, definition, slots, place, &all)?;
        blame = first_blame(blame, place, told.cause);
        lists.push(told.criteria)?;
    }
    Ok((lists, blame))
}

/// The criteria of each element of each definition; an element that is no slice has none. Of each definition it is known
/// what is to blame where a slice can't be told.
#[derive(Drop)]
pub struct Criteria {
    lists: Vec<Vec<Vec<Criterion>>>,
    blames: Vec<Option<Blame>>,
}

impl Model for Criteria {
    ghost use Rattle.fhir_forms.specs.CriteriaSeen.{NodeCriteria, all_seen};

    ghost Value = { NodeCriteria };

    ghost use Rattle.fhir_json.specs.Coding.{tree_code};
    ghost use Rattle.std.specs.Coded.{codes};

    ghost coded = { Prim.hlevel (codes, tree_code) };

    ghost view = { λ c. record { criteria = all_seen c.lists.items; blames = c.blames.items } };
}

impl Criteria {
    /// Those of the definitions of a table, whose slots these are.
    pub fn of(alloc: Global, table: &Table, nodes: &Nodes) -> Result<Criteria, NoMemory>
        requires { nodes.now ≡ all_slots table.now }
        ensures criteria { IfOk result (λ c. c.criteria ≡ all_criteria table.now) }
        ensures blames { IfOk result (λ c. map blamed_reason c.blames ≡ map (λ d. reason_unless (are_told_apart table.now d) UnsupportedSlicing) table.now) }
        ensures elements { IfOk result (λ c. AreBlamesAmong table.now c.blames) }
    {
        let mut lists = Vec::new(alloc);
        let mut blames = Vec::new(alloc);
        for (place, definition) in table.definitions().iter().enumerate() {
            let (found, blame) = criteria_of(alloc, table, definition, nodes.lists(place))?;
            blames.push(blame)?;
            lists.push(found)?;
        }
        Ok(Criteria { lists, blames })
    }

    /// Those of a node.
    pub fn at(&self, node: NodeRef) -> &[Criterion]
        ensures { criteria_seen result.now ≡ get_or (get_or self.now.criteria node.definition []) node.element [] }
    {
        let Some(lists) = self.lists.get(node.definition) else {
            return Default::default();
        };
        match lists.get(node.element) {
            Some(criteria) => criteria,
            None => Default::default(),
        }
    }

    /// Of each definition, the first slice that can't be told, and why.
    pub fn blames(&self) -> &[Option<Blame>]
        ensures { result.now ≡ self.now.blames }
    {
        &self.blames
    }
}
