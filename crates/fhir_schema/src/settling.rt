//! Which definitions can't be used, and what is to blame: judged in rounds, each against what the rounds before have found.

ghost use Rattle.std.specs.Prelude.{◌≡◌, ◌<◌, ◌++◌, [], map, length, get_or, Some, IfOk, OnOk};
ghost use Rattle.std.specs.List.{slice_get};
ghost use Rattle.fhir_elements.specs.Causes.{blamed_reason, reason_unless, is_blame_among};
ghost use Rattle.fhir_elements.specs.declared.reason.Reason.TheVariants.{NoTree, UnsupportedSlicing};
ghost use Rattle.fhir_elements.specs.Tests.{first_of};
ghost use Rattle.fhir_definition.specs.Blames.{AreBlamesAmong};
ghost use Rattle.fhir_definition.specs.Views.{lists_in};
ghost use Rattle.fhir_forms.specs.Forms.{spells_apart};
ghost use Rattle.fhir_forms.specs.Criteria.{are_told_apart};
ghost use Rattle.fhir_schema.specs.Settling.{chain_ends, has_tree, lasting_tests, tests, no_reasons, all_reasons};
ghost use Rattle.fhir_schema.specs.Resting.{first_reasons, unusable_at, unusable_from, users_of};
ghost use Rattle.fhir_schema.specs.Blaming.{reasons_of, IsLasting, AreLasting, reason_in, judged, queued, all_judged, all_queued, users_judged, users_queued, known_at, all_known};

use crate::chains::chains_end;
use crate::resting::users_of;
use crate::types::{blame_at, is_first_of_type, targets_blame, types_blame};
use fhir_definition::Definition;
use fhir_elements::{Blame, Cause};
use fhir_nodes::Table;
use std::alloc::{AllocError, Global};

// What a definition is whichever others can't be used: whether its chain of bases ends, what is to blame where two elements
// spell one property, and what is where a slice can't be told.
#[derive(Clone, Copy)]
struct Lasting {
    is_ending: bool,
    repeated: Option<Blame>,
    untold: Option<Blame>,
}

fn lasting_at(
    table: &Table,
    ends: &[bool],
    repeated: &[Option<Blame>],
    untold: &[Option<Blame>],
    place: usize,
) -> Lasting
    requires within { place < length table.now }
    requires ends { ends.now ≡ map (chain_ends table.now) table.now }
    requires repeated { reasons_of repeated.now ≡ map (λ d. reason_unless (spells_apart table.now d) NoTree) table.now }
    requires untold { reasons_of untold.now ≡ map (λ d. reason_unless (are_told_apart table.now d) UnsupportedSlicing) table.now }
    requires repeated_within { AreBlamesAmong table.now repeated.now }
    requires untold_within { AreBlamesAmong table.now untold.now }
    ensures { (d : Definition) → slice_get table.now place ≡ Some d → IsLasting table.now d result }
{
    let _definitions = table.definitions();
    Lasting {
        is_ending: ends[place],
        repeated: blame_at(repeated, place),
        untold: blame_at(untold, place),
    }
}

// The same of each definition.
fn lasting_of(
    alloc: Global,
    table: &Table,
    repeated: &[Option<Blame>],
    untold: &[Option<Blame>],
) -> Result<Vec<Lasting>, AllocError>
    requires repeated { reasons_of repeated.now ≡ map (λ d. reason_unless (spells_apart table.now d) NoTree) table.now }
    requires untold { reasons_of untold.now ≡ map (λ d. reason_unless (are_told_apart table.now d) UnsupportedSlicing) table.now }
    requires repeated_within { AreBlamesAmong table.now repeated.now }
    requires untold_within { AreBlamesAmong table.now untold.now }
    ensures { IfOk result (λ v. AreLasting table.now v.items) }
{
    let ends = chains_end(alloc, table)?;
    let mut all = Vec::new(alloc);
    for place in 0..table.definitions().len() {
        all.push(lasting_at(table, &ends, repeated, untold, place))?;
    }
    Ok(all)
}

fn tree_blame(table: &Table, definition: &Definition, lasting: Lasting) -> Option<Blame>
    requires { IsLasting table.now definition.now lasting }
    ensures reason { blamed_reason result ≡ reason_unless (has_tree table.now definition.now) NoTree }
    ensures element { is_blame_among (length definition.now.elements) result }
{
    let _definitions = table.definitions();
    if !definition.has_snapshot() {
        return None;
    }
    let blame = definition.tree_blame();
    if blame.is_some() {
        return blame;
    }
    lasting.repeated
}

fn last_blame(table: &Table, definition: &Definition, lasting: Lasting) -> Option<Blame>
    requires { IsLasting table.now definition.now lasting }
    ensures reason { blamed_reason result ≡ first_of (lasting_tests table.now definition.now) }
    ensures element { is_blame_among (length definition.now.elements) result }
{
    if !lasting.is_ending {
        return Some(Blame::whole(Cause::BaseCycle));
    }
    if lasting.untold.is_some() {
        return lasting.untold;
    }
    if !definition.has_snapshot() {
        return Some(Blame::whole(Cause::NoSnapshot));
    }
    if !is_first_of_type(table, definition) {
        return Some(Blame::whole(Cause::SecondType));
    }
    None
}

// What is to blame for a definition by the first test that it fails.
fn first_blame(
    table: &Table,
    blames: &[Option<Blame>],
    definition: &Definition,
    lasting: Lasting,
) -> Option<Blame>
    requires { IsLasting table.now definition.now lasting }
    ensures reason { blamed_reason result ≡ first_of (tests table.now (reasons_of blames.now) definition.now) }
    ensures element { is_blame_among (length definition.now.elements) result }
{
    let own = definition.blame();
    if own.is_some() {
        return own;
    }
    let of_types = types_blame(table, blames, definition);
    if of_types.is_some() {
        return of_types;
    }
    let of_tree = tree_blame(table, definition, lasting);
    if of_tree.is_some() {
        return of_tree;
    }
    let of_targets = targets_blame(table, blames, definition);
    if of_targets.is_some() {
        return of_targets;
    }
    last_blame(table, definition, lasting)
}

fn no_blames(alloc: Global, table: &Table) -> Result<Vec<Option<Blame>>, AllocError>
    ensures { IfOk result (λ v. reasons_of v.items ≡ no_reasons table.now) }
{
    let mut all = Vec::new(alloc);
    for _definition in table.definitions() {
        all.push(None)?;
    }
    Ok(all)
}

// What the first round finds.
fn first_round(
    alloc: Global,
    table: &Table,
    none: &[Option<Blame>],
    lasting: &[Lasting],
) -> Result<Vec<Option<Blame>>, AllocError>
    requires none { reasons_of none.now ≡ no_reasons table.now }
    requires lasting { AreLasting table.now lasting.now }
    ensures reasons { IfOk result (λ v. reasons_of v.items ≡ first_reasons table.now) }
    ensures elements { IfOk result (λ v. AreBlamesAmong table.now v.items) }
{
    let mut all = Vec::new(alloc);
    for (place, definition) in table.definitions().iter().enumerate() {
        all.push(first_blame(table, none, definition, lasting[place]))?;
    }
    Ok(all)
}

fn push_unusable(
    places: &mut Vec<usize>,
    place: usize,
    blame: Option<Blame>,
) -> Result<(), AllocError>
    ensures { OnOk result (places.new.items ≡ places.old.items ++ unusable_at place (blamed_reason blame)) }
{
    if blame.is_some() {
        places.push(place)?;
    }
    Ok(())
}

// The places of those for which something is to blame.
fn unusable_places(alloc: Global, blames: &[Option<Blame>]) -> Result<Vec<usize>, AllocError>
    ensures { IfOk result (λ v. v.items ≡ unusable_from 0 (reasons_of blames.now)) }
{
    let mut places = Vec::new(alloc);
    for (place, blame) in blames.iter().enumerate() {
        push_unusable(&mut places, place, *blame)?;
    }
    Ok(places)
}

fn know(place: usize, found: &[Option<Blame>], known: &mut [Option<Blame>])
    ensures { reasons_of known.new ≡ known_at place (reasons_of found.now) (reasons_of known.old) }
{
    if place < known.len() {
        known[place] = blame_at(found, place);
    }
}

// What was found at some places is known to the next round.
fn know_each(places: &[usize], found: &[Option<Blame>], known: &mut [Option<Blame>])
    ensures { reasons_of known.new ≡ all_known places.now (reasons_of found.now) (reasons_of known.old) }
{
    for place in places {
        know(*place, found, known);
    }
}

// Judges the definition at a place by what is known, unless something is found there, and puts the place behind those of the
// round.
fn judge(
    table: &Table,
    lasting: &[Lasting],
    known: &[Option<Blame>],
    place: usize,
    found: &mut [Option<Blame>],
    round: &mut Vec<usize>,
) -> Result<(), AllocError>
    requires lasting { AreLasting table.now lasting.now }
    requires counted { length found.now ≡ length table.now }
    ensures counted { length found.new ≡ length found.old }
    ensures reasons { OnOk result (reasons_of found.new
        ≡ judged (reason_in table.now (reasons_of known.now)) place (reasons_of found.old)) }
    ensures round { OnOk result (round.new.items
        ≡ queued (reason_in table.now (reasons_of known.now)) place (reasons_of found.old) round.old.items) }
    ensures elements { OnOk result (AreBlamesAmong table.now found.old → AreBlamesAmong table.now found.new) }
{
    let Some(definition) = table.definition(place) else {
        return Ok(());
    };
    if blame_at(found, place).is_some() {
        return Ok(());
    }
    found[place] = first_blame(table, known, definition, lasting[place]);
    round.push(place)?;
    Ok(())
}

fn judge_each(
    table: &Table,
    lasting: &[Lasting],
    known: &[Option<Blame>],
    places: &[usize],
    found: &mut [Option<Blame>],
    round: &mut Vec<usize>,
) -> Result<(), AllocError>
    requires lasting { AreLasting table.now lasting.now }
    requires counted { length found.now ≡ length table.now }
    ensures counted { length found.new ≡ length found.old }
    ensures reasons { OnOk result (reasons_of found.new
        ≡ all_judged (reason_in table.now (reasons_of known.now)) places.now (reasons_of found.old)) }
    ensures round { OnOk result (round.new.items
        ≡ all_queued (reason_in table.now (reasons_of known.now)) places.now (reasons_of found.old) round.old.items) }
    ensures elements { OnOk result (AreBlamesAmong table.now found.old → AreBlamesAmong table.now found.new) }
{
    for place in places {
        judge(table, lasting, known, *place, found, round)?;
    }
    Ok(())
}

fn judge_users(
    table: &Table,
    lasting: &[Lasting],
    known: &[Option<Blame>],
    users: &[Vec<usize>],
    place: usize,
    found: &mut [Option<Blame>],
    round: &mut Vec<usize>,
) -> Result<(), AllocError>
    requires lasting { AreLasting table.now lasting.now }
    requires counted { length found.now ≡ length table.now }
    ensures counted { length found.new ≡ length found.old }
    ensures reasons { OnOk result (reasons_of found.new
        ≡ all_judged (reason_in table.now (reasons_of known.now)) (get_or (lists_in users.now) place []) (reasons_of found.old)) }
    ensures round { OnOk result (round.new.items
        ≡ all_queued (reason_in table.now (reasons_of known.now)) (get_or (lists_in users.now) place []) (reasons_of found.old) round.old.items) }
    ensures elements { OnOk result (AreBlamesAmong table.now found.old → AreBlamesAmong table.now found.new) }
{
    match users.get(place) {
        Some(places) => judge_each(table, lasting, known, places, found, round),
        None => Ok(()),
    }
}

// One round: of those that rest on what the last one found, each for which nothing is found is judged by what is known. It
// gives their places.
fn next_round(
    alloc: Global,
    table: &Table,
    lasting: &[Lasting],
    known: &[Option<Blame>],
    users: &[Vec<usize>],
    last: &[usize],
    found: &mut [Option<Blame>],
) -> Result<Vec<usize>, AllocError>
    requires lasting { AreLasting table.now lasting.now }
    requires counted { length found.now ≡ length table.now }
    ensures counted { length found.new ≡ length found.old }
    ensures reasons { IfOk result (λ _. reasons_of found.new
        ≡ users_judged (reason_in table.now (reasons_of known.now)) (lists_in users.now) last.now (reasons_of found.old)) }
    ensures round { IfOk result (λ v. v.items
        ≡ users_queued (reason_in table.now (reasons_of known.now)) (lists_in users.now) last.now (reasons_of found.old) []) }
    ensures elements { IfOk result (λ _. AreBlamesAmong table.now found.old → AreBlamesAmong table.now found.new) }
{
    let mut round = Vec::new(alloc);
    for place in last {
        judge_users(table, lasting, known, users, *place, found, &mut round)?;
    }
    Ok(round)
}

/// What is to blame for each definition that can't be used. Each is judged twice at most: in the first round, and where one on
/// which it rests is found. So the time grows with how much they name.
pub(crate) fn all_blames(
    alloc: Global,
    table: &Table,
    repeated: &[Option<Blame>],
    untold: &[Option<Blame>],
) -> Result<Vec<Option<Blame>>, AllocError>
    requires repeated { reasons_of repeated.now ≡ map (λ d. reason_unless (spells_apart table.now d) NoTree) table.now }
    requires untold { reasons_of untold.now ≡ map (λ d. reason_unless (are_told_apart table.now d) UnsupportedSlicing) table.now }
    requires repeated_within { AreBlamesAmong table.now repeated.now }
    requires untold_within { AreBlamesAmong table.now untold.now }
    ensures reasons { IfOk result (λ v. reasons_of v.items ≡ all_reasons table.now) }
    ensures elements { IfOk result (λ v. AreBlamesAmong table.now v.items) }
{
    table.are_placed();
    let lasting = lasting_of(alloc, table, repeated, untold)?;
    let users = users_of(alloc, table)?;
    let mut known = no_blames(alloc, table)?;
    let mut found = first_round(alloc, table, &known, &lasting)?;
    let mut last = unusable_places(alloc, &found)?;
    for _round in 1..table.definitions().len() {
        know_each(&last, &found, &mut known);
        last = next_round(alloc, table, &lasting, &known, &users, &last, &mut found)?;
    }
    Ok(found)
}
