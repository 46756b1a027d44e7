//! How many children of each name an item gets.

use crate::demand::{Demand, child_of, is_named};
use crate::named_plan::NamedPlan;
use crate::settling::settle;
use crate::task::Task;
use fhir_differences::{Change, entry_of, least_at, most_at};
use fhir_json::{Json, NoMemory};
use fhir_schema::{NodeRef, Schema, Sought};
use std::alloc::Global;

/// How many children of a name there are to be.
#[derive(Clone, Copy)]
pub struct Planned<'s> {
    /// The name.
    pub name: &'s str,
    /// How many there are.
    pub count: usize,
    /// How many there have to be.
    pub(crate) least: usize,
    /// How many there may be.
    pub(crate) most: usize,
    /// Whether the count is settled.
    pub(crate) is_settled: bool,
    /// Whether they are bound to codes that aren't known.
    pub(crate) is_open: bool,
}

impl<'s> Planned<'s> {
    /// Whether they are named so in a path, where a choice has no `[x]`.
    pub(crate) fn is_named(&self, name: &str) -> bool {
        is_named(self.name, name)
    }

    fn at_least(&mut self, count: usize) {
        self.least = self.least.max(count);
        self.count = self.count.max(count);
    }

    fn at_most(&mut self, count: usize) {
        self.most = self.most.min(count);
    }

    /// With a count that is settled, as far as there may be so many.
    pub(crate) fn settled(self, count: usize) -> Planned<'s> {
        if self.is_settled || count < self.least || count > self.most {
            return self;
        }
        Planned {
            count,
            is_settled: true,
            ..self
        }
    }

    // The count that the change makes.
    fn change(&mut self, count: usize) {
        self.count = count;
        self.is_settled = true;
    }
}

// How many items the slices of a node ask for.
fn sliced_at(schema: &Schema, node: NodeRef) -> usize {
    let mut count = 0_usize;
    for slice in schema.slices(node) {
        count = count.saturating_add(least_at(schema, entry_of(node, slice)));
    }
    count
}

fn has_unread_set(schema: &Schema, node: NodeRef) -> bool {
    match schema.element(node) {
        Some(element) => element
            .required_value_set()
            .is_some_and(|canonical| schema.concepts(canonical).is_none()),
        None => false,
    }
}

fn plan_node(schema: &Schema, node: NodeRef, planned: &mut Planned<'_>) {
    if let Some(child) = child_of(schema, node, planned.name) {
        planned.at_least(least_at(schema, child));
        planned.at_least(sliced_at(schema, child));
        planned.at_most(most_at(schema, child));
        planned.is_open = planned.is_open || has_unread_set(schema, child);
    }
}

fn plan_pattern(json: &Json<'_>, planned: &mut Planned<'_>) {
    match json.field(planned.name) {
        Some(Json::Arr(items)) => planned.at_least(items.len()),
        Some(_) => planned.at_least(1),
        None => {}
    }
}

fn plan_sought(names: &[String], sought: &Sought, planned: &mut Planned<'_>) {
    let [first, rest @ ..] = names else {
        return;
    };
    if !planned.is_named(first.as_str()) {
        return;
    }
    match sought {
        Sought::Absent => {
            if rest.is_empty() {
                planned.at_most(0);
            }
        }
        _ => planned.at_least(1),
    }
}

fn plan_concept(planned: &mut Planned<'_>) {
    if matches!(planned.name, "coding" | "system" | "code") {
        planned.at_least(1);
    }
}

fn plan_demand<'s>(task: &Task<'_, 's>, demand: Demand<'s>, planned: &mut Planned<'s>) {
    match demand {
        Demand::Node(node) => plan_node(task.schema, node, planned),
        Demand::Pattern(json) => plan_pattern(json, planned),
        Demand::Sought(names, sought) => plan_sought(names, sought, planned),
        Demand::Concept(_system, _code) => plan_concept(planned),
        _ => {}
    }
}

fn plan_change<'s>(change: Change<'s>, planned: &mut Planned<'s>) {
    match change {
        Change::Count(name, count) if name == planned.name => planned.change(count),
        Change::OneMore(name) if name == planned.name => {
            planned.change(planned.count.saturating_add(1))
        }
        Change::InSlice(name, _, count) if name == planned.name => {
            planned.change(planned.count.max(count))
        }
        Change::InOrder(name, _, _) if name == planned.name => {
            planned.change(planned.count.max(2))
        }
        Change::Concept(_, _) => plan_concept(planned),
        Change::Target(_) if planned.name == "reference" => planned.at_least(1),
        _ => {}
    }
}

fn planned_of<'s>(task: &Task<'_, 's>, demands: &[Demand<'s>], name: &'s str) -> Planned<'s> {
    let mut planned = Planned {
        name,
        count: 0,
        least: 0,
        most: usize::MAX,
        is_settled: false,
        is_open: false,
    };
    for demand in demands {
        plan_demand(task, *demand, &mut planned);
    }
    if task.step_to(demands, name).is_some() {
        planned.at_least(1);
    }
    plan_change(task.change_at(demands), &mut planned);
    planned
}

// ---- constraints

fn settle_node(schema: &Schema, node: NodeRef, plan: &mut NamedPlan<'_>) {
    let Some(element) = schema.element(node) else {
        return;
    };
    for (position, constraint) in element.constraints().iter().enumerate() {
        if constraint.must_hold() {
            if let Some(expression) = schema.expression(node, position) {
                settle(expression, true, plan);
            }
        }
    }
}

fn settle_demand(schema: &Schema, demand: Demand<'_>, plan: &mut NamedPlan<'_>) {
    if let Demand::Node(node) = demand {
        settle_node(schema, node, plan);
    }
}

fn settle_change(change: Change<'_>, plan: &mut NamedPlan<'_>) {
    if let Change::Untrue(expression) = change {
        settle(expression, false, plan);
    }
}

fn settle_all<'s>(task: &Task<'_, 's>, demands: &[Demand<'s>], plan: &mut NamedPlan<'s>) {
    settle_change(task.change_at(demands), plan);
    for demand in demands {
        settle_demand(task.schema, *demand, plan);
    }
}

// ---- objects are never empty

fn is_usual(planned: &Planned<'_>) -> bool {
    let is_rare = matches!(
        planned.name,
        "id" | "extension" | "modifierExtension" | "contained"
    );
    !is_rare && !planned.is_settled && planned.most > 0
}

fn is_empty(plan: &[Planned<'_>]) -> bool {
    plan.iter().all(|planned| planned.count == 0)
}

fn first_usual(plan: &[Planned<'_>], is_open: bool) -> Option<usize> {
    for (place, planned) in plan.iter().enumerate() {
        if is_usual(planned) && planned.is_open == is_open {
            return Some(place);
        }
    }
    None
}

/// Plans one child, where there is none.
pub fn fill(plan: &mut [Planned<'_>]) {
    if !is_empty(plan) {
        return;
    }
    let Some(place) = first_usual(plan, false).or(first_usual(plan, true)) else {
        return;
    };
    if place < plan.len() {
        plan[place] = plan[place].settled(1);
    }
}

/// How many children of each name an item gets, of which the children are typed by a node.
pub fn plan_of<'s>(
    alloc: Global,
    task: &Task<'_, 's>,
    demands: &[Demand<'s>],
    typing: NodeRef,
) -> Result<Vec<Planned<'s>>, NoMemory> {
    let mut planned = Vec::new(alloc);
    for slot in task.schema.slots(typing) {
        planned.push(planned_of(task, demands, slot.name()))?;
    }
    let mut plan = NamedPlan::of(alloc, planned)?;
    settle_all(task, demands, &mut plan);
    Ok(plan.into_planned())
}
