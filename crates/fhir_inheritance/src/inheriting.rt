//! What each element of a snapshot inherits, and so what it is.

ghost use Rattle.std.specs.Prelude.{◌≡◌, None, IfOk, map, string_bytes};
ghost use Rattle.std.specs.Option.{option_map};
ghost use Rattle.fhir_json.specs.Views.{text_seen};
ghost use Rattle.fhir_overlay.specs.Overlay.{as_slice};
ghost use Rattle.fhir_inheritance.specs.Elements.{find};
ghost use Rattle.fhir_elements.specs.Views.{fields_seen};
ghost use Rattle.fhir_asking.specs.Asking.{run, known, found};
ghost use Rattle.fhir_asking.specs.Steps.{step_seen};
ghost use Rattle.fhir_inheritance.specs.Inheriting.{touched_node, asks_kinds, asks_targets, node_of, made, made_from, child_key, from_parent, from_types, from_target, from_node, new_child, new_slice, new, written_node, inherits, in_source, asking};

use crate::elements::Elements;
use crate::keys::{child_id, key, key_parts, twin_of};
use crate::laying::{all_slices, is_touched, laid, moved, moved_as_slice};
use crate::node::{NodeDef, names_in};
use crate::sources::{SourceDef, Sources};
use crate::texts::{all_owned, with_others};
use fhir_asking::{Asks, Step, Table};
use fhir_elements::{ElementDef, ElementFields};
use fhir_json::NoMemory;
use fhir_names::{front_of, name_of, sliced_of};
use fhir_overlay::copied;
use std::alloc::Global;

/// What comes of an element, where it stands in a snapshot.
pub(crate) type NodeStep = Step<NodeDef>;

// Where an element is made: in the definition of a url, of which this is the differential, by what is known.
#[derive(Clone, Copy)]
struct Making<'s, 'p, 'a> {
    sources: &'s Sources<'p, 'a>,
    table: &'s Table<NodeDef>,
    url: &'s str,
    differential: &'s Elements,
}

fn nothing() -> NodeStep
    ensures { step_seen result ≡ found None }
{
    Step::Found(None)
}

// ---- the names of its children

// The names with those of the content target's children.
fn with_targets(
    alloc: Global,
    making: &Making<'_, '_, '_>,
    element: ElementDef,
    names: Vec<String>,
    slices: Vec<String>,
) -> Result<NodeStep, NoMemory>
    ensures { IfOk result (λ s. step_seen s ≡ run (known making.now.table.now)
        (asks_targets making.now.sources.now making.now.url.now element (map string_bytes slices.items) (map string_bytes names.items))) }
{
    let names = match making.sources.target_key(alloc, making.url, &element)? {
        Some(target) => match making.table.get(target.as_str()) {
            Some(node) => with_others(alloc, names, names_in(node))?,
            None => return Ok(Step::Wants(target)),
        },
        None => names,
    };
    Ok(Step::Found(Some(NodeDef {
        element,
        names,
        slices,
        touched: true,
    })))
}

// The names with those of the children of the only type's root.
fn with_kinds(
    alloc: Global,
    making: &Making<'_, '_, '_>,
    element: ElementDef,
    names: Vec<String>,
    slices: Vec<String>,
) -> Result<NodeStep, NoMemory>
    ensures { IfOk result (λ s. step_seen s ≡ run (known making.now.table.now)
        (asks_kinds making.now.sources.now making.now.url.now element (map string_bytes slices.items) (map string_bytes names.items))) }
{
    match making.sources.only_type_key(element.types()) {
        Some(root) => match making.table.get(root) {
            Some(node) => {
                let names = with_others(alloc, names, names_in(node))?;
                with_targets(alloc, making, element, names, slices)
            }
            None => Ok(Step::Wants(String::from_str(alloc, root)?)),
        },
        None => with_targets(alloc, making, element, names, slices),
    }
}

// The names with those of the same element without its last slice.
fn with_twins(
    alloc: Global,
    making: &Making<'_, '_, '_>,
    element: ElementDef,
    names: Vec<String>,
    slices: Vec<String>,
) -> Result<NodeStep, NoMemory>
    ensures { IfOk result (λ s. step_seen s ≡ run (known making.now.table.now)
        (touched_node making.now.sources.now making.now.url.now element (map string_bytes names.items) (map string_bytes slices.items))) }
{
    let Some(twin) = twin_of(alloc, element.id())? else {
        return with_kinds(alloc, making, element, names, slices);
    };
    let twin = key(alloc, twin.as_str(), making.url)?;
    match making.table.get(twin.as_str()) {
        Some(node) => {
            let names = with_others(alloc, names, names_in(node))?;
            with_kinds(alloc, making, element, names, slices)
        }
        None => Ok(Step::Wants(twin)),
    }
}

fn node_of(
    alloc: Global,
    making: &Making<'_, '_, '_>,
    element: ElementDef,
    names: Vec<String>,
    slices: Vec<String>,
) -> Result<NodeStep, NoMemory>
    ensures { IfOk result (λ s. step_seen s ≡ run (known making.now.table.now)
        (node_of making.now.sources.now making.now.url.now making.now.differential.now element (map string_bytes names.items) (map string_bytes slices.items))) }
{
    if is_touched(alloc, making.differential, element.id(), &names)? {
        return with_twins(alloc, making, element, names, slices);
    }
    Ok(Step::Found(Some(NodeDef {
        element,
        names,
        slices,
        touched: false,
    })))
}

// What comes of what an id inherits: fields, the names of children, and slices.
fn made(
    alloc: Global,
    making: &Making<'_, '_, '_>,
    inherited: ElementFields,
    names: &[String],
    slices: &[String],
) -> Result<NodeStep, NoMemory>
    ensures { IfOk result (λ s. step_seen s ≡ run (known making.now.table.now)
        (made making.now.sources.now making.now.url.now making.now.differential.now (fields_seen inherited) (map string_bytes names.now) (map string_bytes slices.now))) }
{
    let slices = all_slices(alloc, making.differential, inherited.id.as_str(), slices)?;
    let names = all_owned(alloc, names)?;
    let element = laid(alloc, making.differential, &slices, inherited)?;
    node_of(alloc, making, element, names, slices)
}

// What comes of the element of another id.
fn made_from(
    alloc: Global,
    making: &Making<'_, '_, '_>,
    id: &str,
    element: &ElementDef,
) -> Result<NodeStep, NoMemory>
    ensures { IfOk result (λ s. step_seen s ≡ run (known making.now.table.now)
        (made_from making.now.sources.now making.now.url.now making.now.differential.now id.now element.now)) }
{
    let inherited = moved(alloc, id, element)?;
    made(
        alloc,
        making,
        inherited,
        Default::default(),
        Default::default(),
    )
}

// ---- what a new id inherits

// The name of the child of an element, by the element's name.
fn child_key(alloc: Global, name: &str, other: &str) -> Result<Option<String>, NoMemory>
    ensures { IfOk result (λ o. option_map string_bytes o ≡ child_key name.now other.now) }
{
    let Some((id, url)) = key_parts(other) else {
        return Ok(None);
    };
    let child = child_id(alloc, id, name)?;
    Ok(Some(key(alloc, child.as_str(), url)?))
}

// From the same child of the content target.
fn from_target(
    alloc: Global,
    making: &Making<'_, '_, '_>,
    id: &str,
    parent: &ElementDef,
) -> Result<NodeStep, NoMemory>
    ensures { IfOk result (λ s. step_seen s ≡ run (known making.now.table.now)
        (from_target making.now.sources.now making.now.url.now making.now.differential.now id.now parent.now)) }
{
    let Some(target) = making.sources.target_key(alloc, making.url, parent)? else {
        return Ok(nothing());
    };
    let Some(from) = child_key(alloc, name_of(id), target.as_str())? else {
        return Ok(nothing());
    };
    match making.table.get(from.as_str()) {
        Some(Some(node)) => made_from(alloc, making, id, node.element()),
        Some(None) => Ok(nothing()),
        None => Ok(Step::Wants(from)),
    }
}

// From the same child of the only type's root, or else of the content target.
fn from_types(
    alloc: Global,
    making: &Making<'_, '_, '_>,
    id: &str,
    parent: &ElementDef,
) -> Result<NodeStep, NoMemory>
    ensures { IfOk result (λ s. step_seen s ≡ run (known making.now.table.now)
        (from_types making.now.sources.now making.now.url.now making.now.differential.now id.now parent.now)) }
{
    let Some(root) = making.sources.only_type_key(parent.types()) else {
        return from_target(alloc, making, id, parent);
    };
    let Some(from) = child_key(alloc, name_of(id), root)? else {
        return from_target(alloc, making, id, parent);
    };
    match making.table.get(from.as_str()) {
        Some(Some(node)) => made_from(alloc, making, id, node.element()),
        Some(None) => from_target(alloc, making, id, parent),
        None => Ok(Step::Wants(from)),
    }
}

// From the same child of the parent without its last slice, or else of what stands for its type.
fn from_parent(
    alloc: Global,
    making: &Making<'_, '_, '_>,
    id: &str,
    front: &str,
    parent: &ElementDef,
) -> Result<NodeStep, NoMemory>
    ensures { IfOk result (λ s. step_seen s ≡ run (known making.now.table.now)
        (from_parent making.now.sources.now making.now.url.now making.now.differential.now id.now front.now parent.now)) }
{
    let Some(twin) = twin_of(alloc, front)? else {
        return from_types(alloc, making, id, parent);
    };
    let twin = key(alloc, twin.as_str(), making.url)?;
    let Some(from) = child_key(alloc, name_of(id), twin.as_str())? else {
        return from_types(alloc, making, id, parent);
    };
    match making.table.get(from.as_str()) {
        Some(Some(node)) => made_from(alloc, making, id, node.element()),
        Some(None) => from_types(alloc, making, id, parent),
        None => Ok(Step::Wants(from)),
    }
}

fn from_node(
    alloc: Global,
    making: &Making<'_, '_, '_>,
    id: &str,
    front: &str,
    parent: &NodeDef,
) -> Result<NodeStep, NoMemory>
    ensures { IfOk result (λ s. step_seen s ≡ run (known making.now.table.now)
        (from_node making.now.sources.now making.now.url.now making.now.differential.now id.now front.now parent.now)) }
{
    if parent.is_touched() {
        from_parent(alloc, making, id, front, parent.element())
    } else {
        Ok(nothing())
    }
}

fn new_child(
    alloc: Global,
    making: &Making<'_, '_, '_>,
    id: &str,
    front: Option<&str>,
) -> Result<NodeStep, NoMemory>
    ensures { IfOk result (λ s. step_seen s ≡ run (known making.now.table.now)
        (new_child making.now.sources.now making.now.url.now making.now.differential.now id.now (text_seen front.entry))) }
{
    let Some(front) = front else {
        return Ok(nothing());
    };
    let parent = key(alloc, front, making.url)?;
    match making.table.get(parent.as_str()) {
        Some(Some(node)) => from_node(alloc, making, id, front, node),
        Some(None) => Ok(nothing()),
        None => Ok(Step::Wants(parent)),
    }
}

fn made_of_sliced(
    alloc: Global,
    making: &Making<'_, '_, '_>,
    id: &str,
    sliced: &ElementDef,
) -> Result<NodeStep, NoMemory>
    ensures { IfOk result (λ s. step_seen s ≡ run (known making.now.table.now)
        (made_from making.now.sources.now making.now.url.now making.now.differential.now id.now (as_slice sliced.now))) }
{
    let inherited = moved_as_slice(alloc, id, sliced)?;
    made(
        alloc,
        making,
        inherited,
        Default::default(),
        Default::default(),
    )
}

fn new_slice(
    alloc: Global,
    making: &Making<'_, '_, '_>,
    id: &str,
    whole: &str,
) -> Result<NodeStep, NoMemory>
    ensures { IfOk result (λ s. step_seen s ≡ run (known making.now.table.now)
        (new_slice making.now.sources.now making.now.url.now making.now.differential.now id.now whole.now)) }
{
    if making.differential.get(id).is_none() {
        return Ok(nothing());
    }
    let sliced = key(alloc, whole, making.url)?;
    match making.table.get(sliced.as_str()) {
        Some(Some(node)) => made_of_sliced(alloc, making, id, node.element()),
        Some(None) => Ok(nothing()),
        None => Ok(Step::Wants(sliced)),
    }
}

fn new(alloc: Global, making: &Making<'_, '_, '_>, id: &str) -> Result<NodeStep, NoMemory>
    ensures { IfOk result (λ s. step_seen s ≡ run (known making.now.table.now)
        (new making.now.sources.now making.now.url.now making.now.differential.now id.now)) }
{
    match sliced_of(id) {
        Some(whole) => new_slice(alloc, making, id, whole),
        None => new_child(alloc, making, id, front_of(id)),
    }
}

// ---- what each id is

fn written(alloc: Global, elements: &Elements, id: &str) -> Result<NodeStep, NoMemory>
    ensures { IfOk result (λ s. step_seen s ≡ found (option_map (written_node elements.now id.now) (find elements.now id.now))) }
{
    let Some(element) = elements.get(id) else {
        return Ok(nothing());
    };
    let names = all_owned(alloc, elements.names_under(id))?;
    let slices = all_owned(alloc, elements.slices_under(id))?;
    let fields = copied(alloc, element)?;
    Ok(Step::Found(Some(NodeDef {
        element: ElementDef::new(fields),
        names,
        slices,
        touched: false,
    })))
}

fn made_of_base(
    alloc: Global,
    making: &Making<'_, '_, '_>,
    base: &NodeDef,
) -> Result<NodeStep, NoMemory>
    ensures { IfOk result (λ s. step_seen s ≡ run (known making.now.table.now)
        (made making.now.sources.now making.now.url.now making.now.differential.now base.now.element base.now.names base.now.slices)) }
{
    let inherited = copied(alloc, base.element())?;
    made(alloc, making, inherited, base.names(), base.slices())
}

fn inherits(
    alloc: Global,
    making: &Making<'_, '_, '_>,
    id: &str,
    base: Option<&str>,
) -> Result<NodeStep, NoMemory>
    ensures { IfOk result (λ s. step_seen s ≡ run (known making.now.table.now)
        (inherits making.now.sources.now making.now.url.now making.now.differential.now id.now (text_seen base.entry))) }
{
    let Some(base) = base else {
        return Ok(nothing());
    };
    let name = key(alloc, id, base)?;
    match making.table.get(name.as_str()) {
        Some(Some(node)) => made_of_base(alloc, making, node),
        Some(None) => new(alloc, making, id),
        None => Ok(Step::Wants(name)),
    }
}

fn in_source(
    alloc: Global,
    sources: &Sources<'_, '_>,
    table: &Table<NodeDef>,
    id: &str,
    url: &str,
    source: &SourceDef,
) -> Result<NodeStep, NoMemory>
    ensures { IfOk result (λ s. step_seen s ≡ run (known table.now) (in_source sources.now id.now url.now source.now)) }
{
    if source.is_written() {
        return written(alloc, source.elements(), id);
    }
    let making = Making {
        sources,
        table,
        url,
        differential: source.elements(),
    };
    inherits(alloc, &making, id, source.base())
}

impl<'p, 'a> Asks for Sources<'p, 'a> {
    type Thing = NodeDef;

    ghost asking = { asking };

    fn step(
        &self,
        alloc: Global,
        table: &Table<NodeDef>,
        name: &str,
    ) -> Result<Step<NodeDef>, NoMemory> {
        let Some((id, url)) = key_parts(name) else {
            return Ok(nothing());
        };
        match self.get(url) {
            Some(source) => in_source(alloc, self, table, id, url, source),
            None => Ok(nothing()),
        }
    }
}
