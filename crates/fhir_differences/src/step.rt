//! A difference: the way from a resource to a place in it, and what is changed there.

use fhir_fp_syntax::Expr;
use fhir_json::{Json, NoMemory};
use fhir_schema::NodeRef;
use std::alloc::Global;

/// Of which slice the item of a step is (FHIR R4, Profiling, slicing).
#[derive(Clone, Copy, Debug, PartialEq, Eq)]
pub enum Slice {
    /// Of any, or of none.
    Any,
    /// Of this one, to which it conforms too.
    Own(NodeRef),
    /// It is told to belong to this one, whether it conforms to it or not.
    Base(NodeRef),
}

/// A step from an item to one of its children.
#[derive(Clone, Copy)]
pub struct Step<'s> {
    /// The name of the child's element.
    pub name: &'s str,
    /// The slice that it is of.
    pub slice: Slice,
    /// The code of its type, if it has to be of that one.
    pub code: Option<&'s str>,
}

/// What is changed at a place.
#[derive(Clone, Copy)]
pub enum Change<'s> {
    /// Nothing: the least item may do.
    Nothing,
    /// A value is another one than the least item's.
    OtherValue,
    /// There are so many children of a name.
    Count(&'s str, usize),
    /// There is one child of a name more than there has to be.
    OneMore(&'s str),
    /// So many children of a name belong to a slice: the profile's of its name, or the base's where the profile has none.
    InSlice(&'s str, NodeRef, usize),
    /// A child of a name in the first slice, or in none, stands before one in the second. A slice is told as before.
    InOrder(&'s str, Option<NodeRef>, NodeRef),
    /// The item is of that type.
    OfType(&'s str),
    /// It is that value.
    Value(&'s Json<'static>),
    /// It is what that text of JSON spells.
    Spelled(&'s str),
    /// It is a text of that length.
    Long(usize),
    /// It has the concept of a system and a code.
    Concept(&'s str, &'s str),
    /// It is a reference to a resource of that type.
    Target(&'s str),
    /// An expression isn't true of it.
    Untrue(&'s Expr),
}

/// The way to a place where two profiles may differ, and a change there by which a resource of the one may not be one of the other.
#[derive(Drop)]
pub struct Difference<'s> {
    pub steps: Vec<Step<'s>>,
    pub change: Change<'s>,
}

/// Steps, and one more.
pub(crate) fn with_step<'s>(
    alloc: Global,
    steps: &[Step<'s>],
    step: Step<'s>,
) -> Result<Vec<Step<'s>>, NoMemory> {
    let mut more = steps.to_vec(alloc)?;
    more.push(step)?;
    Ok(more)
}

/// Steps to an item that is of a type.
pub(crate) fn of_type<'s>(
    alloc: Global,
    steps: &[Step<'s>],
    code: &'s str,
) -> Result<Vec<Step<'s>>, NoMemory> {
    let mut typed = steps.to_vec(alloc)?;
    if let Some(last) = typed.pop() {
        let code = Some(code);
        typed.push(Step { code, ..last })?;
    }
    Ok(typed)
}
