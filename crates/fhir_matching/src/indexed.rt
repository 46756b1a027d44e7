//! Equality of JSON where memory may be taken: beyond a few members a map finds the names of an object, so that the
//! time is within n log n whatever the order of the members.

ghost use Rattle.std.specs.Prelude.{◌≡◌, ◌<◌, ◌&&◌, length, is_some, IfOk, IfSome};
ghost use Rattle.std.specs.Option.{ForSome};
ghost use Rattle.std.specs.Str.{bytes_eq};
ghost use Rattle.fhir_json.specs.Memory.{Gives};
ghost use Rattle.fhir_json.specs.Tree.{names};
ghost use Rattle.fhir_json.specs.Views.{tree_of, property_of, items_view, members_view};
ghost use Rattle.fhir_json.specs.Sound.{is_among};
ghost use Rattle.fhir_matching.specs.Equality.{equal, items_equal, members_within, has_passing, are_among};
ghost use Rattle.fhir_matching.specs.Places.{AreOf};

use crate::equality::{has_equal, json_eq};
use crate::places::place_of;
use fhir_json::{Json, Member, NoMemory};
use std::alloc::Global;
use std::collections::BTreeMap;

const FEW: usize = 16;

// The places of the members by their names.
fn places_by_name<'m>(
    alloc: Global,
    members: &'m [Member<'_>],
) -> Result<BTreeMap<&'m str, usize>, NoMemory>
    ensures { IfOk result (λ places. AreOf places (names (members_view members.now))) }
{
    let mut places = BTreeMap::new(alloc);
    for (place, member) in members.iter().enumerate() {
        places.insert(member.name.as_str(), place)?;
    }
    Ok(places)
}

// The places of the members by their names, where these are more than a few.
fn places_of_many<'m>(
    alloc: Global,
    members: &'m [Member<'_>],
) -> Result<Option<BTreeMap<&'m str, usize>>, NoMemory>
    ensures { IfOk result (λ many.
        ForSome many (λ places. AreOf places (names (members_view members.now)))) }
{
    if members.len() > FEW {
        Ok(Some(places_by_name(alloc, members)?))
    } else {
        Ok(None)
    }
}

// The place of a member of the name, if there is one. Without a map it is looked for outwards from a place.
fn place_in(
    places: &Option<BTreeMap<&str, usize>>,
    members: &[Member<'_>],
    name: &str,
    near: usize,
) -> Option<usize>
    requires { ForSome places.now (λ places. AreOf places (names (members_view members.now))) }
    ensures named { is_some result ≡ is_among name.now (names (members_view members.now)) }
    ensures within { IfSome result (λ place. place < length members.now) }
{
    match places {
        Some(places) => places.get(name).copied(),
        None => place_of(name, members, near),
    }
}

/// Whether two values are equal, as `json_eq` says it. It may take memory: where an object has more than a few members,
/// a map finds their names, so that the time is within n log n of the members whatever their order. That holds where no
/// object has a name twice, as in each value that was read.
#[cycle(equal_in)]
pub fn json_eq_in(alloc: Global, left: &Json<'_>, right: &Json<'_>) -> Result<bool, NoMemory>
    ensures { Gives (λ b. b) result (equal (tree_of left.now) (tree_of right.now)) }
{
    match (left, right) {
        (Json::Arr(left), Json::Arr(right)) => items_eq_in(alloc, left, right),
        (Json::Obj(left), Json::Obj(right)) => objects_eq_in(alloc, left, right),
        _ => Ok(json_eq(left, right)),
    }
}

#[cycle(equal_in)]
fn items_eq_in(alloc: Global, left: &[Json<'_>], right: &[Json<'_>]) -> Result<bool, NoMemory>
    ensures { Gives (λ b. b) result (items_equal (items_view left.now) (items_view right.now)) }
{
    let mut others = right;
    for item in left {
        let [other, rest @ ..] = others else {
            return Ok(false);
        };
        if !json_eq_in(alloc, item, other)? {
            return Ok(false);
        }
        others = rest;
    }
    Ok(others.is_empty())
}

#[cycle(equal_in)]
fn objects_eq_in(alloc: Global, left: &[Member<'_>], right: &[Member<'_>]) -> Result<bool, NoMemory>
    ensures { Gives (λ b. b) result (members_within (members_view left.now) (members_view right.now)
        && are_among (names (members_view right.now)) (names (members_view left.now))) }
{
    let places = places_of_many(alloc, right)?;
    if members_among_in(alloc, left, right, &places)? {
        names_among_in(alloc, right, left)
    } else {
        Ok(false)
    }
}

// Whether each member has its equal among the others, of which these are the places.
#[cycle(equal_in)]
fn members_among_in(
    alloc: Global,
    members: &[Member<'_>],
    others: &[Member<'_>],
    places: &Option<BTreeMap<&str, usize>>,
) -> Result<bool, NoMemory>
    requires { ForSome places.now (λ places. AreOf places (names (members_view others.now))) }
    ensures { Gives (λ b. b) result (members_within (members_view members.now)
        (members_view others.now)) }
{
    let mut near = 0;
    for member in members {
        let Some(place) = place_in(places, others, member.name.as_str(), near) else {
            return Ok(false);
        };
        if !is_member_among_in(alloc, member, others, place)? {
            return Ok(false);
        }
        near = place + 1;
    }
    Ok(true)
}

// Whether a member has its equal among the others: at a place, or else before it or behind it.
#[cycle(equal_in)]
fn is_member_among_in(
    alloc: Global,
    member: &Member<'_>,
    others: &[Member<'_>],
    place: usize,
) -> Result<bool, NoMemory>
    requires { place < length others.now }
    ensures { Gives (λ b. b) result (has_passing (property_of member.now).0
        (equal (property_of member.now).1) (members_view others.now)) }
{
    if member_eq_in(alloc, member, &others[place])? {
        return Ok(true);
    }
    Ok(has_equal(member, &others[..place]) || has_equal(member, &others[place + 1..]))
}

#[cycle(equal_in)]
fn member_eq_in(alloc: Global, left: &Member<'_>, right: &Member<'_>) -> Result<bool, NoMemory>
    ensures { Gives (λ b. b) result (bytes_eq (property_of left.now).0 (property_of right.now).0
        && equal (property_of left.now).1 (property_of right.now).1) }
{
    if left.name.as_str() == right.name.as_str() {
        json_eq_in(alloc, &left.value, &right.value)
    } else {
        Ok(false)
    }
}

// Whether each name of the members is among the names of the others.
fn names_among_in(
    alloc: Global,
    members: &[Member<'_>],
    others: &[Member<'_>],
) -> Result<bool, NoMemory>
    ensures { Gives (λ b. b) result
        (are_among (names (members_view members.now)) (names (members_view others.now))) }
{
    let places = places_of_many(alloc, others)?;
    Ok(names_at(members, others, &places))
}

// Whether each name of the members is among the names of the others, of which these are the places.
fn names_at(
    members: &[Member<'_>],
    others: &[Member<'_>],
    places: &Option<BTreeMap<&str, usize>>,
) -> bool
    requires { ForSome places.now (λ places. AreOf places (names (members_view others.now))) }
    ensures { result
        ≡ are_among (names (members_view members.now)) (names (members_view others.now)) }
{
    let mut near = 0;
    for member in members {
        let Some(place) = place_in(places, others, member.name.as_str(), near) else {
            return false;
        };
        near = place + 1;
    }
    true
}
