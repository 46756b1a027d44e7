//! What a node asks of an item.

ghost use Rattle.std.specs.Prelude.{◌≡◌, ◌++◌, ◌∷◌, [], length, OnOk};
ghost use Rattle.std.specs.List.{flat_map};
ghost use Rattle.std.specs.Option.{option_map_or};
ghost use Rattle.fhir_json.specs.Memory.{Gives};
ghost use Rattle.fhir_schema.specs.Schemas.{element_at, type_root};
ghost use Rattle.fhir_instance.specs.Items.{type_of};
ghost use Rattle.fhir_instance.specs.View.{item_of};
ghost use Rattle.fhir_conformance.specs.Asks.{facet_asks, constraint_ask, own_constraint_asks, constraint_asks, slot_asks, kids_asks, own_root, root_asks, inner_asks, asks};
ghost use Rattle.fhir_conformance.specs.Views.{asks_seen, IsIndexOf};

use crate::ask::{Ask, ElementRule};
use crate::kids_by_name::KidsByName;
use crate::profiles::put_profiles;
use crate::sliced::put_named;
use fhir_instance::Typed;
use fhir_json::NoMemory;
use fhir_schema::{NodeRef, Schema, Slot};
use std::alloc::Global;

// How many constraints a node's element has.
fn constraints_of(schema: &Schema, node: NodeRef) -> usize
    ensures { result ≡ option_map_or (λ e. length e.constraints) (element_at schema.now node) 0 }
{
    match schema.element(node) {
        Some(element) => element.constraints().len(),
        None => 0,
    }
}

fn put_facets(asked: &mut Vec<Ask<'_>>, node: NodeRef) -> Result<(), NoMemory>
    ensures { OnOk result (asks_seen asked.new.items ≡ asks_seen asked.old.items ++ facet_asks node) }
{
    asked.push(Ask::Own(ElementRule::Fixed, node))?;
    asked.push(Ask::Own(ElementRule::Pattern, node))?;
    asked.push(Ask::Own(ElementRule::Range, node))?;
    asked.push(Ask::Own(ElementRule::Length, node))?;
    asked.push(Ask::Own(ElementRule::Binding, node))?;
    Ok(())
}

fn put_constraint(asked: &mut Vec<Ask<'_>>, node: NodeRef, position: usize) -> Result<(), NoMemory>
    ensures { OnOk result (asks_seen asked.new.items ≡ asks_seen asked.old.items ++ constraint_ask node position ∷ []) }
{
    asked.push(Ask::Own(ElementRule::Constraint(position), node))?;
    Ok(())
}

fn put_own_constraints(
    asked: &mut Vec<Ask<'_>>,
    schema: &Schema,
    node: NodeRef,
) -> Result<(), NoMemory>
    ensures { OnOk result (asks_seen asked.new.items ≡ asks_seen asked.old.items ++ own_constraint_asks schema.now node) }
{
    for position in 0..constraints_of(schema, node) {
        put_constraint(asked, node, position)?;
    }
    Ok(())
}

fn put_target_constraints(
    asked: &mut Vec<Ask<'_>>,
    schema: &Schema,
    target: Option<NodeRef>,
) -> Result<(), NoMemory>
    ensures { OnOk result (asks_seen asked.new.items
        ≡ asks_seen asked.old.items ++ option_map_or (own_constraint_asks schema.now) target []) }
{
    match target {
        Some(target) => put_own_constraints(asked, schema, target),
        None => Ok(()),
    }
}

// A node's own constraints, and those of the node that it refers to for its content.
fn put_constraints(asked: &mut Vec<Ask<'_>>, schema: &Schema, node: NodeRef) -> Result<(), NoMemory>
    ensures { OnOk result (asks_seen asked.new.items ≡ asks_seen asked.old.items ++ constraint_asks schema.now node) }
{
    put_own_constraints(asked, schema, node)?;
    put_target_constraints(asked, schema, schema.target(node))
}

fn put_slot<'s>(
    alloc: Global,
    asked: &mut Vec<Ask<'s>>,
    schema: &Schema,
    item: &Typed<'_, '_>,
    kids_by_name: &KidsByName<'_>,
    node: NodeRef,
    slot: &'s Slot,
) -> Result<(), NoMemory>
    requires { IsIndexOf (item_of item.now) kids_by_name.now }
    ensures { OnOk result (asks_seen asked.new.items
        ≡ asks_seen asked.old.items ++ slot_asks schema.now (item_of item.now) node slot.now) }
{
    let entry = NodeRef {
        definition: node.definition,
        element: slot.entry(),
    };
    let places = kids_by_name.places(slot.name());
    put_named(alloc, asked, schema, item, slot.name(), places, entry)
}

fn put_slots<'s>(
    alloc: Global,
    asked: &mut Vec<Ask<'s>>,
    schema: &Schema,
    item: &Typed<'_, '_>,
    kids_by_name: &KidsByName<'_>,
    node: NodeRef,
    slots: &'s [Slot],
) -> Result<(), NoMemory>
    requires { IsIndexOf (item_of item.now) kids_by_name.now }
    ensures { OnOk result (asks_seen asked.new.items
        ≡ asks_seen asked.old.items ++ flat_map (slot_asks schema.now (item_of item.now) node) slots.now) }
{
    for slot in slots {
        put_slot(alloc, asked, schema, item, kids_by_name, node, slot)?;
    }
    Ok(())
}

// What is asked of the children, by the slots of the node that has a node's.
fn put_kids<'s>(
    alloc: Global,
    asked: &mut Vec<Ask<'s>>,
    schema: &'s Schema,
    item: &Typed<'_, '_>,
    kids_by_name: &KidsByName<'_>,
    node: NodeRef,
) -> Result<(), NoMemory>
    requires { IsIndexOf (item_of item.now) kids_by_name.now }
    ensures { OnOk result (asks_seen asked.new.items
        ≡ asks_seen asked.old.items ++ kids_asks schema.now (item_of item.now) node) }
{
    match schema.holder(node) {
        Some(holder) => put_slots(
            alloc,
            asked,
            schema,
            item,
            kids_by_name,
            holder,
            schema.slots(holder),
        ),
        None => Ok(()),
    }
}

fn put_own_root(
    asked: &mut Vec<Ask<'_>>,
    schema: &Schema,
    item: &Typed<'_, '_>,
) -> Result<(), NoMemory>
    ensures { OnOk result (asks_seen asked.new.items
        ≡ asks_seen asked.old.items ++ own_root (type_root schema.now (type_of (item_of item.now)))) }
{
    if let Some(root) = schema.type_root(item.code()) {
        asked.push(Ask::Root(root))?;
    }
    Ok(())
}

fn put_root_asks<'s>(
    alloc: Global,
    asked: &mut Vec<Ask<'s>>,
    schema: &'s Schema,
    item: &Typed<'_, '_>,
    kids_by_name: &KidsByName<'_>,
    root: NodeRef,
) -> Result<(), NoMemory>
    requires { IsIndexOf (item_of item.now) kids_by_name.now }
    ensures { OnOk result (asks_seen asked.new.items
        ≡ asks_seen asked.old.items ++ root_asks schema.now (item_of item.now) root) }
{
    asked.push(Ask::Own(ElementRule::RootType, root))?;
    put_facets(asked, root)?;
    put_constraints(asked, schema, root)?;
    put_kids(alloc, asked, schema, item, kids_by_name, root)
}

fn put_inner_asks<'s>(
    alloc: Global,
    asked: &mut Vec<Ask<'s>>,
    schema: &'s Schema,
    item: &Typed<'_, '_>,
    kids_by_name: &KidsByName<'_>,
    node: NodeRef,
) -> Result<(), NoMemory>
    requires { IsIndexOf (item_of item.now) kids_by_name.now }
    ensures { OnOk result (asks_seen asked.new.items
        ≡ asks_seen asked.old.items ++ inner_asks schema.now (item_of item.now) node) }
{
    asked.push(Ask::Types(node))?;
    put_facets(asked, node)?;
    put_constraints(asked, schema, node)?;
    put_own_root(asked, schema, item)?;
    put_profiles(asked, schema, item, node)?;
    put_kids(alloc, asked, schema, item, kids_by_name, node)
}

fn put_asks<'s>(
    alloc: Global,
    asked: &mut Vec<Ask<'s>>,
    schema: &'s Schema,
    item: &Typed<'_, '_>,
    kids_by_name: &KidsByName<'_>,
    node: NodeRef,
) -> Result<(), NoMemory>
    requires { IsIndexOf (item_of item.now) kids_by_name.now }
    ensures { OnOk result (asks_seen asked.new.items
        ≡ asks_seen asked.old.items ++ asks schema.now (item_of item.now) node) }
{
    if schema.is_root(node) {
        put_root_asks(alloc, asked, schema, item, kids_by_name, node)
    } else {
        put_inner_asks(alloc, asked, schema, item, kids_by_name, node)
    }
}

/// What a node asks of an item, of which these are the children: the rules of its element, then those of the slots and of
/// their slices, and what each child is asked. A node that is no root also asks that the item is of one of its types, and
/// that it conforms to the definition of its own type, where that has a root; and it asks whether the item conforms to each
/// profile that a type names (FHIR R4, ElementDefinition, Profiling and StructureDefinition). The one refusal is want of
/// memory.
pub fn asks<'s>(
    alloc: Global,
    schema: &'s Schema,
    item: &Typed<'_, '_>,
    kids_by_name: &KidsByName<'_>,
    node: NodeRef,
) -> Result<Vec<Ask<'s>>, NoMemory>
    requires { IsIndexOf (item_of item.now) kids_by_name.now }
    ensures { Gives (λ asked. asks_seen asked.items) result (asks schema.now (item_of item.now) node) }
{
    let mut asked: Vec<Ask<'s>> = Vec::new(alloc);
    put_asks(alloc, &mut asked, schema, item, kids_by_name, node)?;
    Ok(asked)
}
