//! What an item that is made is asked for.

use crate::task::Task;
use fhir_codes::ConceptSet;
use fhir_differences::{Change, Slice, entry_of, profile_for};
use fhir_elements::ElementDef;
use fhir_json::{Json, NoMemory};
use fhir_schema::{NodeRef, Schema, Sought};
use std::alloc::Global;

// Memory is all that can be wanting.
type Done = Result<(), NoMemory>;

// How many demands are looked through for what they ask in turn.
const MOST_DEMANDS: usize = 256;

/// What an item is asked for.
#[derive(Clone, Copy)]
pub enum Demand<'s> {
    /// That it conforms to a node.
    Node(NodeRef),
    /// That it is a value.
    Fixed(&'s Json<'static>),
    /// That it fits a pattern.
    Pattern(&'s Json<'static>),
    /// That what is sought is found at a path of names.
    Sought(&'s [String], &'s Sought),
    /// That it is a text.
    Text(&'s str),
    /// That it has the concept of a system and a code.
    Concept(&'s str, &'s str),
    /// That it is of the type of a code.
    Type(&'s str),
    /// That it refers to a resource of the type of a code.
    Target(&'s str),
    /// That the way goes on with that step of it, or ends, if there is none.
    Way(usize),
}

/// The name that the children of an element's name have in a path, where a choice has no `[x]`.
pub(crate) fn path_name(element: &str) -> &str {
    element.strip_suffix("[x]").unwrap_or(element)
}

/// Whether the children of an element's name have another name in a path.
pub(crate) fn is_named(element: &str, name: &str) -> bool {
    path_name(element) == name
}

/// The node of the children of a name.
pub(crate) fn child_of(schema: &Schema, node: NodeRef, name: &str) -> Option<NodeRef> {
    let holder = schema.child_holder(node)?;
    let slot = schema.slot(holder, name)?;
    Some(entry_of(holder, slot))
}

fn is_node(demand: Demand<'_>, node: NodeRef) -> bool {
    match demand {
        Demand::Node(other) => other == node,
        _ => false,
    }
}

// That an item conforms to a node, unless that is asked already.
fn push_new(node: NodeRef, into: &mut Vec<Demand<'_>>) -> Done {
    if !into.iter().any(|demand| is_node(*demand, node)) {
        into.push(Demand::Node(node))?;
    }
    Ok(())
}

// ---- what a node asks in turn

fn concepts_of<'s>(schema: &'s Schema, node: NodeRef) -> Option<&'s ConceptSet> {
    let element = schema.element(node)?;
    schema.concepts(element.required_value_set()?)
}

// The concepts that a demand's node is bound to.
fn set_of<'s>(schema: &'s Schema, demand: Demand<'s>) -> Option<&'s ConceptSet> {
    match demand {
        Demand::Node(node) => concepts_of(schema, node),
        _ => None,
    }
}

fn first_set<'s>(schema: &'s Schema, demands: &[Demand<'s>]) -> Option<&'s ConceptSet> {
    for demand in demands {
        if let Some(set) = set_of(schema, *demand) {
            return Some(set);
        }
    }
    None
}

fn last_set<'s>(schema: &'s Schema, demands: &[Demand<'s>]) -> Option<&'s ConceptSet> {
    for demand in demands.iter().rev() {
        if let Some(set) = set_of(schema, *demand) {
            return Some(set);
        }
    }
    None
}

fn push_concept<'s>(schema: &'s Schema, into: &mut Vec<Demand<'s>>) -> Done {
    let (Some(first), Some(last)) = (first_set(schema, into), last_set(schema, into)) else {
        return Ok(());
    };
    if let Some((system, code)) = first.first_common(last) {
        into.push(Demand::Concept(system, code))?;
    }
    Ok(())
}

fn push_values<'s>(element: &'s ElementDef, into: &mut Vec<Demand<'s>>) -> Done {
    if let Some(fixed) = element.fixed() {
        into.push(Demand::Fixed(&fixed.value))?;
    }
    if let Some(pattern) = element.pattern() {
        into.push(Demand::Pattern(&pattern.value))?;
    }
    Ok(())
}

// What conforming to a node asks of an item of a type.
fn push_node<'s>(
    schema: &'s Schema,
    node: NodeRef,
    code: &str,
    into: &mut Vec<Demand<'s>>,
) -> Done {
    if let Some(element) = schema.element(node) {
        push_values(element, into)?;
    }
    if let Some(root) = profile_for(schema, node, code) {
        push_new(root, into)?;
    }
    if let Some(target) = schema.target(node) {
        push_new(target, into)?;
    }
    Ok(())
}

fn push_sought<'s>(names: &[String], sought: &'s Sought, into: &mut Vec<Demand<'s>>) -> Done {
    match sought {
        Sought::Fixed(value) if names.is_empty() => into.push(Demand::Fixed(value))?,
        Sought::Pattern(value) if names.is_empty() => into.push(Demand::Pattern(value))?,
        _ => {}
    }
    Ok(())
}

fn push_asked<'s>(
    schema: &'s Schema,
    demand: Demand<'s>,
    code: &str,
    into: &mut Vec<Demand<'s>>,
) -> Done {
    match demand {
        Demand::Node(node) => push_node(schema, node, code, into),
        Demand::Sought(names, sought) => push_sought(names, sought, into),
        _ => Ok(()),
    }
}

fn push_change<'s>(change: Change<'s>, into: &mut Vec<Demand<'s>>) -> Done {
    match change {
        Change::Concept(system, code) => Ok(into.push(Demand::Concept(system, code))?),
        _ => Ok(()),
    }
}

/// All that an item of a type is asked for.
pub fn whole<'s>(
    alloc: Global,
    task: &Task<'_, 's>,
    demands: &[Demand<'s>],
    code: &str,
) -> Result<Vec<Demand<'s>>, NoMemory> {
    let schema = task.schema;
    let mut all = demands.to_vec(alloc)?;
    push_change(task.change_at(demands), &mut all)?;
    if let Some(root) = schema.type_root(code) {
        push_new(root, &mut all)?;
    }
    for at in 0..MOST_DEMANDS {
        if let Some(demand) = all.get(at).copied() {
            push_asked(schema, demand, code, &mut all)?;
        }
    }
    push_concept(schema, &mut all)?;
    Ok(all)
}

// ---- what is asked of a child

fn push_child<'s>(
    schema: &'s Schema,
    demand: Demand<'s>,
    name: &str,
    into: &mut Vec<Demand<'s>>,
) -> Done {
    let Demand::Node(node) = demand else {
        return Ok(());
    };
    if let Some(child) = child_of(schema, node, name) {
        push_new(child, into)?;
    }
    Ok(())
}

/// What each child of a name is asked for, by what its parent is.
pub fn below<'s>(
    alloc: Global,
    schema: &'s Schema,
    demands: &[Demand<'s>],
    name: &str,
) -> Result<Vec<Demand<'s>>, NoMemory> {
    let mut children: Vec<Demand<'s>> = Vec::new(alloc);
    for demand in demands {
        push_child(schema, *demand, name, &mut children)?;
    }
    Ok(children)
}

fn push_part<'s>(system: &'s str, code: &'s str, name: &str, into: &mut Vec<Demand<'s>>) -> Done {
    match name {
        "system" => into.push(Demand::Text(system))?,
        "code" => into.push(Demand::Text(code))?,
        "coding" => into.push(Demand::Concept(system, code))?,
        _ => {}
    }
    Ok(())
}

fn push_rest<'s>(
    names: &'s [String],
    sought: &'s Sought,
    name: &str,
    into: &mut Vec<Demand<'s>>,
) -> Done {
    if let [first, rest @ ..] = names {
        if is_named(name, first.as_str()) {
            into.push(Demand::Sought(rest, sought))?;
        }
    }
    Ok(())
}

fn push_pattern<'s>(json: &'s Json<'static>, name: &str, into: &mut Vec<Demand<'s>>) -> Done {
    match json.field(name) {
        Some(Json::Arr(_)) => Ok(()),
        Some(value) => Ok(into.push(Demand::Pattern(value))?),
        None => Ok(()),
    }
}

fn push_special<'s>(demand: Demand<'s>, name: &str, into: &mut Vec<Demand<'s>>) -> Done {
    match demand {
        Demand::Sought(names, sought) => push_rest(names, sought, name, into),
        Demand::Concept(system, code) => push_part(system, code, name, into),
        Demand::Pattern(json) => push_pattern(json, name, into),
        _ => Ok(()),
    }
}

fn push_slice<'s>(schema: &'s Schema, slice: Slice, into: &mut Vec<Demand<'s>>) -> Done {
    match slice {
        Slice::Any => Ok(()),
        Slice::Own(node) => {
            into.push(Demand::Node(node))?;
            push_criteria(schema, node, into)
        }
        Slice::Base(node) => push_criteria(schema, node, into),
    }
}

/// That an item belongs to a slice.
pub fn push_criteria<'s>(schema: &'s Schema, slice: NodeRef, into: &mut Vec<Demand<'s>>) -> Done {
    for criterion in schema.criteria(slice) {
        into.push(Demand::Sought(&criterion.names, &criterion.sought))?;
    }
    Ok(())
}

fn push_step<'s>(
    task: &Task<'_, 's>,
    demands: &[Demand<'s>],
    name: &str,
    into: &mut Vec<Demand<'s>>,
) -> Done {
    let Some((at, step)) = task.step_to(demands, name) else {
        return Ok(());
    };
    into.push(Demand::Way(at.saturating_add(1)))?;
    if let Some(code) = step.code {
        into.push(Demand::Type(code))?;
    }
    push_slice(task.schema, step.slice, into)
}

fn push_target<'s>(change: Change<'s>, name: &str, into: &mut Vec<Demand<'s>>) -> Done {
    match change {
        Change::Target(code) if name == "reference" => Ok(into.push(Demand::Target(code))?),
        _ => Ok(()),
    }
}

/// What one child of a name is asked for besides: what is sought there, and that the way goes on.
pub fn specials<'s>(
    alloc: Global,
    task: &Task<'_, 's>,
    demands: &[Demand<'s>],
    name: &str,
) -> Result<Vec<Demand<'s>>, NoMemory> {
    let mut special: Vec<Demand<'s>> = Vec::new(alloc);
    push_step(task, demands, name, &mut special)?;
    push_target(task.change_at(demands), name, &mut special)?;
    for demand in demands {
        push_special(*demand, name, &mut special)?;
    }
    Ok(special)
}
