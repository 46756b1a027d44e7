//! Where the path leads by which a slice is told (FHIR R4, ElementDefinition, slicing.discriminator).

ghost use Rattle.std.specs.Prelude.{◌≡◌, ◌++◌, map, codes, option_copied, string_bytes, IfOk};
ghost use Rattle.std.specs.Option.{option_map};
ghost use Rattle.fhir_forms.specs.Criteria.{slot_called};
ghost use Rattle.fhir_schema.specs.Schemas.{slots};
ghost use Rattle.fhir_contradictions.specs.Along.{has_other, calls_alone, next_in, next_along, end_along};

use crate::typing::{Under, entry_of, typed_by};
use fhir_json::NoMemory;
use fhir_schema::{NodeRef, Schema, Slot};
use std::alloc::{AllocError, Global};

// What stands below a node, and what types the parents of its items, with their name.
type Next<'s> = (NodeRef, Under<'s>);

fn choice_of(alloc: Global, name: &str) -> Result<String, AllocError>
    ensures { IfOk result (λ choice. string_bytes choice ≡ name.now ++ codes "[x]") }
{
    let mut choice = String::from_str(alloc, name)?;
    choice.push_str("[x]")?;
    Ok(choice)
}

// The slot of a name, or the choice that is named so without its `[x]`.
fn slot_called<'s>(schema: &'s Schema, node: NodeRef, name: &str, choice: &str) -> Option<&'s Slot>
    requires { choice.now ≡ name.now ++ codes "[x]" }
    ensures { option_copied result ≡ slot_called (slots schema.now node) name.now }
{
    if name.as_bytes().ends_with(b"[x]") {
        return None;
    }
    let slot = schema.slot(node, name);
    if slot.is_some() {
        return slot;
    }
    schema.slot(node, choice)
}

fn has_other(schema: &Schema, by: NodeRef, slot: &Slot, name: &str) -> bool
    ensures { result ≡ has_other schema.now by slot.now name.now }
{
    name != slot.name() && schema.slot(by, name).is_some()
}

fn calls_alone(schema: &Schema, by: NodeRef, slot: &Slot, name: &str, choice: &str) -> bool
    requires { choice.now ≡ name.now ++ codes "[x]" }
    ensures { result ≡ calls_alone schema.now by slot.now name.now }
{
    !(has_other(schema, by, slot, name) || has_other(schema, by, slot, choice))
}

fn next_in<'s>(
    alloc: Global,
    schema: &'s Schema,
    by: NodeRef,
    holder: NodeRef,
    name: &str,
) -> Result<Option<Next<'s>>, AllocError>
    ensures { IfOk result (λ next. option_map (λ to. (to.0, (to.1.0, to.1.1.now))) next ≡ next_in schema.now by holder name.now) }
{
    let choice = choice_of(alloc, name)?;
    match slot_called(schema, holder, name, choice.as_str()) {
        Some(slot) if calls_alone(schema, by, slot, name, choice.as_str()) => Ok(Some((
            entry_of(holder, slot),
            (by, slot.name()),
        ))),
        _ => Ok(None),
    }
}

fn next_along<'s>(
    alloc: Global,
    schema: &'s Schema,
    by: Option<NodeRef>,
    node: NodeRef,
    name: &str,
) -> Result<Option<Next<'s>>, AllocError>
    ensures { IfOk result (λ next. option_map (λ to. (to.0, (to.1.0, to.1.1.now))) next ≡ next_along schema.now by node name.now) }
{
    match (by, schema.holder(node)) {
        (Some(by), Some(holder)) => next_in(alloc, schema, by, holder, name),
        _ => Ok(None),
    }
}

/// Where names lead from a node, where it may be known which node of a type's definition types the node's items; none where a name calls
/// children of other names, too. The one refusal is want of memory.
pub(crate) fn end_along(
    alloc: Global,
    schema: &Schema,
    by: Option<NodeRef>,
    node: NodeRef,
    names: &[String],
) -> Result<Option<NodeRef>, NoMemory>
    ensures { IfOk result (λ end. end ≡ end_along schema.now by node (map string_bytes names.now)) }
{
    let mut typing = by;
    let mut at = node;
    for name in names {
        let Some((next, under)) = next_along(alloc, schema, typing, at, name.as_str())? else {
            return Ok(None);
        };
        typing = typed_by(alloc, schema, Some(under), next)?;
        at = next;
    }
    Ok(Some(at))
}
