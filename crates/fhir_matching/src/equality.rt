//! Equality of JSON: objects by their names in any order, arrays in order, numbers by their texts.

ghost use Rattle.std.specs.Prelude.{◌≡◌, ◌<◌, ◌&&◌, length, IsTrue};
ghost use Rattle.std.specs.Str.{bytes_eq};
ghost use Rattle.fhir_json.specs.Tree.{Tree, names};
ghost use Rattle.fhir_json.specs.Views.{tree_of, property_of, items_view, members_view};
ghost use Rattle.fhir_json.specs.Sound.{IsSound};
ghost use Rattle.fhir_matching.specs.Equality.{equal, items_equal, members_within, has_passing, are_among};

use crate::places::place_of;
use fhir_json::{Json, Member};

/// Whether two values are equal: objects by their names in any order, arrays in order, and numbers by their texts, so
/// that `0.010` isn't `0.01` (FHIR R4, ElementDefinition, `fixed[x]`).
///
/// It takes no memory. Of two objects, each name of one is looked for in the other outwards from where the last one was
/// found. So the time is linear in the members where neighbours stay neighbours: in the same order, in reverse, in a
/// rotation. In any other order it grows with how far neighbours come to stand apart.
#[cycle(equal)]
pub fn json_eq(left: &Json<'_>, right: &Json<'_>) -> bool
    ensures { result ≡ equal (tree_of left.now) (tree_of right.now) }
{
    match (left, right) {
        (Json::Null, Json::Null) => true,
        (Json::Bool(left), Json::Bool(right)) => *left == *right,
        (Json::Num(left), Json::Num(right)) => left.as_str() == right.as_str(),
        (Json::Str(left), Json::Str(right)) => left.as_str() == right.as_str(),
        (Json::Arr(left), Json::Arr(right)) => items_eq(left, right),
        (Json::Obj(left), Json::Obj(right)) => {
            members_among(left, right) && names_among(right, left)
        }
        _ => false,
    }
}

#[cycle(equal)]
fn items_eq(left: &[Json<'_>], right: &[Json<'_>]) -> bool
    ensures { result ≡ items_equal (items_view left.now) (items_view right.now) }
{
    let mut others = right;
    for item in left {
        let [other, rest @ ..] = others else {
            return false;
        };
        if !json_eq(item, other) {
            return false;
        }
        others = rest;
    }
    others.is_empty()
}

// Whether each member has its equal among the others.
#[cycle(equal)]
fn members_among(members: &[Member<'_>], others: &[Member<'_>]) -> bool
    ensures { result ≡ members_within (members_view members.now)
        (members_view others.now) }
{
    let mut near = 0;
    for member in members {
        let Some(place) = place_of(member.name.as_str(), others, near) else {
            return false;
        };
        if !is_member_among(member, others, place) {
            return false;
        }
        near = place + 1;
    }
    true
}

// Whether a member has its equal among the others: at a place, or else before it or behind it.
#[cycle(equal)]
fn is_member_among(member: &Member<'_>, others: &[Member<'_>], place: usize) -> bool
    requires { place < length others.now }
    ensures { result ≡ has_passing (property_of member.now).0 (equal (property_of member.now).1)
        (members_view others.now) }
{
    if member_eq(member, &others[place]) {
        return true;
    }
    has_equal(member, &others[..place]) || has_equal(member, &others[place + 1..])
}

// Whether a member has its equal among the others, of which each is looked at.
#[cycle(equal)]
pub(crate) fn has_equal(member: &Member<'_>, others: &[Member<'_>]) -> bool
    ensures { result ≡ has_passing (property_of member.now).0 (equal (property_of member.now).1)
        (members_view others.now) }
{
    for other in others {
        if member_eq(member, other) {
            return true;
        }
    }
    false
}

#[cycle(equal)]
fn member_eq(left: &Member<'_>, right: &Member<'_>) -> bool
    ensures { result ≡ (bytes_eq (property_of left.now).0 (property_of right.now).0
        && equal (property_of left.now).1 (property_of right.now).1) }
{
    left.name.as_str() == right.name.as_str() && json_eq(&left.value, &right.value)
}

// Whether each name of the members is among the names of the others.
fn names_among(members: &[Member<'_>], others: &[Member<'_>]) -> bool
    ensures { result ≡ are_among (names (members_view members.now)) (names (members_view others.now)) }
{
    let mut near = 0;
    for member in members {
        let Some(place) = place_of(member.name.as_str(), others, near) else {
            return false;
        };
        near = place + 1;
    }
    true
}

/// Equality is an equivalence on sound trees. It is symmetric also where only the second tree is sound, and reflexive
/// and transitive on all trees.
pub fn equivalence()
    ensures reflexive { (t : Tree) → IsTrue (equal t t) }
    ensures symmetric { (t u : Tree) → IsSound u → IsTrue (equal t u) → IsTrue (equal u t) }
    ensures transitive { (t u v : Tree) → IsTrue (equal t u) → IsTrue (equal u v)
        → IsTrue (equal t v) }
{}
