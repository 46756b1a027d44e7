//! Lists of values.

ghost use Rattle.std.specs.Prelude.{◌≡◌, ◌++◌, ◌∷◌, [], map, OnOk, Ok};
ghost use Rattle.fhir_json.specs.Memory.{GivesOr};
ghost use Rattle.fhir_instance.specs.Items.{kids_of};
ghost use Rattle.fhir_instance.specs.View.{item_of};
ghost use Rattle.fhir_fp_values.specs.Faults.{is_no_memory};
ghost use Rattle.fhir_fp_values.specs.Values.{node};
ghost use Rattle.fhir_fp_values.specs.Views.{plain_of, plains_of};
ghost use Rattle.fhir_fp_eval.specs.Meaning.{path_name, kids_named, all_kids, descendants, below, children_of, first_of, answer, is_empty};

use fhir_fp_values::{EvalFault, Value};
use fhir_instance::Typed;
use std::alloc::{AllocError, Global};

pub(crate) fn single<'e, 'a, 'j>(
    alloc: Global,
    value: Value<'e, 'a, 'j>,
) -> Result<Vec<Value<'e, 'a, 'j>>, EvalFault>
    ensures { GivesOr is_no_memory (λ v. plains_of v.items) result (Ok (plain_of value.entry ∷ [])) }
{
    let mut values = Vec::new(alloc);
    values.push(value)?;
    Ok(values)
}

pub(crate) fn answer<'e, 'a, 'j>(
    alloc: Global,
    truth: Option<bool>,
) -> Result<Vec<Value<'e, 'a, 'j>>, EvalFault>
    ensures { GivesOr is_no_memory (λ v. plains_of v.items) result (Ok (answer truth)) }
{
    match truth {
        Some(flag) => single(alloc, Value::Truth(flag)),
        None => Ok(Vec::new(alloc)),
    }
}

/// The name of an element in a path, which a choice has without its `[x]`.
pub(crate) fn path_name(name: &str) -> &str
    ensures { result.now ≡ path_name name.now }
{
    if name.as_bytes().ends_with(b"[x]") {
        &name[..name.len() - 3]
    } else {
        name
    }
}

pub(crate) fn push_children<'e, 'a, 'j>(
    out: &mut Vec<Value<'e, 'a, 'j>>,
    name: &str,
    item: &'e Typed<'a, 'j>,
) -> Result<(), AllocError>
    ensures { OnOk result (plains_of out.new.items
        ≡ plains_of out.old.items ++ map node (kids_named name.now (kids_of (item_of item.now)))) }
{
    for kid in item.kids() {
        if path_name(kid.name()) == name {
            out.push(Value::Node(kid.item()))?;
        }
    }
    Ok(())
}

/// The children of a name.
pub(crate) fn children_of<'e, 'a, 'j>(
    alloc: Global,
    name: &str,
    values: &[Value<'e, 'a, 'j>],
) -> Result<Vec<Value<'e, 'a, 'j>>, EvalFault>
    ensures { GivesOr is_no_memory (λ v. plains_of v.items) result (Ok (children_of name.now (plains_of values.now))) }
{
    let mut out = Vec::new(alloc);
    for value in values {
        if let Value::Node(item) = *value {
            push_children(&mut out, name, item)?;
        }
    }
    Ok(out)
}

fn push_kids<'e, 'a, 'j>(
    out: &mut Vec<Value<'e, 'a, 'j>>,
    item: &'e Typed<'a, 'j>,
) -> Result<(), AllocError>
    ensures { OnOk result (plains_of out.new.items
        ≡ plains_of out.old.items ++ map node (all_kids (kids_of (item_of item.now)))) }
{
    for kid in item.kids() {
        out.push(Value::Node(kid.item()))?;
    }
    Ok(())
}

/// All children.
pub(crate) fn all_children<'e, 'a, 'j>(
    alloc: Global,
    values: &[Value<'e, 'a, 'j>],
) -> Result<Vec<Value<'e, 'a, 'j>>, EvalFault>
    ensures { GivesOr is_no_memory (λ v. plains_of v.items) result
        (Ok (below (λ x. all_kids (kids_of x)) (plains_of values.now))) }
{
    let mut out = Vec::new(alloc);
    for value in values {
        if let Value::Node(item) = *value {
            push_kids(&mut out, item)?;
        }
    }
    Ok(out)
}

#[cycle(descend)]
#[tactic(auto, using(crate::proofs::Heights::descendants_out))]
fn push_descendants<'e, 'a, 'j>(
    out: &mut Vec<Value<'e, 'a, 'j>>,
    item: &'e Typed<'a, 'j>,
) -> Result<(), AllocError>
    ensures { OnOk result (plains_of out.new.items
        ≡ plains_of out.old.items ++ map node (descendants (item_of item.now))) }
{
    for kid in item.kids() {
        let child = kid.item();
        out.push(Value::Node(child))?;
        push_descendants(out, child)?;
    }
    Ok(())
}

/// Each child, and then what is below it.
pub(crate) fn all_descendants<'e, 'a, 'j>(
    alloc: Global,
    values: &[Value<'e, 'a, 'j>],
) -> Result<Vec<Value<'e, 'a, 'j>>, EvalFault>
    ensures { GivesOr is_no_memory (λ v. plains_of v.items) result (Ok (below descendants (plains_of values.now))) }
{
    let mut out = Vec::new(alloc);
    for value in values {
        if let Value::Node(item) = *value {
            push_descendants(&mut out, item)?;
        }
    }
    Ok(out)
}

pub(crate) fn is_empty(values: &[Value<'_, '_, '_>]) -> bool
    ensures { result ≡ is_empty (plains_of values.now) }
{
    match values {
        [] => true,
        _ => false,
    }
}

pub(crate) fn first_of<'e, 'a, 'j>(
    alloc: Global,
    values: &[Value<'e, 'a, 'j>],
) -> Result<Vec<Value<'e, 'a, 'j>>, EvalFault>
    ensures { GivesOr is_no_memory (λ v. plains_of v.items) result (Ok (first_of (plains_of values.now))) }
{
    match values {
        [] => Ok(Vec::new(alloc)),
        [value, ..] => single(alloc, *value),
    }
}
