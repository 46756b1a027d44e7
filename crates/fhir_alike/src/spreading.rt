//! Marks that are carried along a graph, against its edges.

ghost use Rattle.std.specs.Prelude.{◌≡◌, [], length, replicate, get_or, None, IfOk, OnOk};
ghost use Rattle.fhir_definition.specs.Views.{lists_in};
ghost use Rattle.fhir_alike.specs.Spreading.{users_under, users_of, told_at, is_untold, tell, tell_if, tell_all, first_told, carry, IsSpread};

use fhir_definition::{empty_lists, put_at};
use std::alloc::{AllocError, Global};

// What is told of each place so far, and the places of which something is told, in the order in which it was.
#[derive(Drop)]
struct Told {
    marks: Vec<Option<usize>>,
    queue: Vec<usize>,
}

// Puts a place into the list of each that it leads to.
fn put_user(users: &mut Vec<Vec<usize>>, leads_to: &[usize], place: usize) -> Result<(), AllocError>
    ensures { OnOk result (lists_in users.new.items ≡ users_under leads_to.now place (lists_in users.old.items)) }
{
    for at in leads_to {
        put_at(users, Some(*at), place)?;
    }
    Ok(())
}

// For each place those that lead to it.
fn users_of(alloc: Global, edges: &[Vec<usize>]) -> Result<Vec<Vec<usize>>, AllocError>
    ensures { IfOk result (λ v. lists_in v.items ≡ users_of (lists_in edges.now)) }
{
    let mut users = empty_lists(alloc, edges.len())?;
    for (place, leads_to) in edges.iter().enumerate() {
        put_user(&mut users, leads_to, place)?;
    }
    Ok(users)
}

fn no_marks(alloc: Global, count: usize) -> Result<Vec<Option<usize>>, AllocError>
    ensures { IfOk result (λ v. v.items ≡ replicate count None) }
{
    let mut marks = Vec::with_capacity(alloc, count)?;
    for _done in 0..count {
        marks.push(None)?;
    }
    Ok(marks)
}

fn told_at(told: &[Option<usize>], place: usize) -> Option<usize>
    ensures { result ≡ told_at told.now place }
{
    match told.get(place) {
        Some(mark) => *mark,
        None => None,
    }
}

fn is_untold(told: &[Option<usize>], place: usize) -> bool
    ensures { result ≡ is_untold place told.now }
{
    match told.get(place) {
        Some(mark) => mark.is_none(),
        None => false,
    }
}

// Tells of a place a marked one that it reaches, unless one is told.
fn tell(told: &mut Told, place: usize, marked: usize) -> Result<(), AllocError>
    ensures { OnOk result ((told.new.marks.items, told.new.queue.items)
        ≡ tell place marked (told.old.marks.items, told.old.queue.items)) }
{
    if is_untold(&told.marks, place) {
        told.queue.push(place)?;
        told.marks[place] = Some(marked);
    }
    Ok(())
}

// Tells of some places that one.
fn tell_all(told: &mut Told, places: &[usize], marked: usize) -> Result<(), AllocError>
    ensures { OnOk result ((told.new.marks.items, told.new.queue.items)
        ≡ tell_all places.now marked (told.old.marks.items, told.old.queue.items)) }
{
    for place in places {
        tell(told, *place, marked)?;
    }
    Ok(())
}

// A marked place reaches itself.
fn tell_if(told: &mut Told, is_marked: bool, place: usize) -> Result<(), AllocError>
    ensures { OnOk result ((told.new.marks.items, told.new.queue.items)
        ≡ tell_if is_marked place (told.old.marks.items, told.old.queue.items)) }
{
    if is_marked {
        tell(told, place, place)
    } else {
        Ok(())
    }
}

// What is told of each marked place.
fn first_told(alloc: Global, marks: &[bool]) -> Result<Told, AllocError>
    ensures { IfOk result (λ t. (t.marks.items, t.queue.items) ≡ first_told marks.now) }
{
    let mut told = Told {
        marks: no_marks(alloc, marks.len())?,
        queue: Vec::new(alloc),
    };
    for (place, is_marked) in marks.iter().enumerate() {
        tell_if(&mut told, *is_marked, place)?;
    }
    Ok(told)
}

// Those that lead to a place.
fn users_at(users: &[Vec<usize>], place: usize) -> &[usize]
    ensures { result.now ≡ get_or (lists_in users.now) place [] }
{
    match users.get(place) {
        Some(users) => users,
        None => Default::default(),
    }
}

// Tells of those that lead to a place what is told of it.
fn carry(told: &mut Told, users: &[Vec<usize>], place: usize) -> Result<(), AllocError>
    ensures { OnOk result ((told.new.marks.items, told.new.queue.items)
        ≡ carry (lists_in users.now) place (told.old.marks.items, told.old.queue.items)) }
{
    match told_at(&told.marks, place) {
        Some(marked) => tell_all(told, users_at(users, place), marked),
        None => Ok(()),
    }
}

/// For each place of a graph a marked one that it reaches, if it reaches one: itself, or one to which a chain of edges leads. Each place is gone on
/// from once, so that the time is linear in the places and their edges.
pub fn spread(
    alloc: Global,
    edges: &[Vec<usize>],
    marks: &[bool],
) -> Result<Vec<Option<usize>>, AllocError>
    requires { length marks.now ≡ length edges.now }
    ensures { IfOk result (λ v. IsSpread (lists_in edges.now) marks.now v.items) }
{
    let users = users_of(alloc, edges)?;
    let mut told = first_told(alloc, marks)?;
    let mut at = 0;
    while at < told.queue.len() {
        let place = told.queue[at];
        carry(&mut told, &users, place)?;
        at += 1;
    }
    let Told { marks, queue: _ } = told;
    Ok(marks)
}
