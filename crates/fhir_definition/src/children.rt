//! Which elements stand under which.

ghost use Rattle.std.specs.Prelude.{◌≡◌, [], replicate, IfOk, OnOk};
ghost use Rattle.fhir_definition.specs.Children.{under_each, children_of, slices_of};
ghost use Rattle.fhir_definition.specs.Gathering.{put_at};
ghost use Rattle.fhir_definition.specs.Views.{lists_in};

use crate::by_id::ElementsById;
use std::alloc::{AllocError, Global};

/// So many empty lists. The one refusal is want of memory.
pub fn empty_lists(alloc: Global, count: usize) -> Result<Vec<Vec<usize>>, AllocError>
    ensures { IfOk result (λ v. lists_in v.items ≡ replicate count []) }
{
    let mut all = Vec::new(alloc);
    for _done in 0..count {
        all.push(Vec::new(alloc))?;
    }
    Ok(all)
}

/// Puts a place at the end of the list at a place; where there is none, nothing changes. The one refusal is want of memory.
pub fn put_at(all: &mut Vec<Vec<usize>>, at: Option<usize>, place: usize) -> Result<(), AllocError>
    ensures { OnOk result (lists_in all.new.items ≡ put_at at place (lists_in all.old.items)) }
{
    let Some(at) = at else {
        return Ok(());
    };
    if at < all.len() {
        all[at].push(place)?;
    }
    Ok(())
}

// Each place under the one that it stands under: one pass, whatever stands where.
fn under_each(alloc: Global, ups: &[Option<usize>]) -> Result<Vec<Vec<usize>>, AllocError>
    ensures { IfOk result (λ v. lists_in v.items ≡ under_each ups.now) }
{
    let mut all = empty_lists(alloc, ups.len())?;
    for (place, up) in ups.iter().enumerate() {
        put_at(&mut all, *up, place)?;
    }
    Ok(all)
}

/// The places of the children of each element.
pub(crate) fn children_of(
    alloc: Global,
    elements: &ElementsById,
) -> Result<Vec<Vec<usize>>, AllocError>
    ensures { IfOk result (λ v. lists_in v.items ≡ children_of elements.now) }
{
    let places = elements.child_places(alloc)?;
    let children = under_each(alloc, &places)?;
    Ok(children)
}

/// The places of the slices of each element.
pub(crate) fn slices_of(
    alloc: Global,
    elements: &ElementsById,
) -> Result<Vec<Vec<usize>>, AllocError>
    ensures { IfOk result (λ v. lists_in v.items ≡ slices_of elements.now) }
{
    let places = elements.slice_places(alloc)?;
    let slices = under_each(alloc, &places)?;
    Ok(slices)
}
