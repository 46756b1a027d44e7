//! Fitting of JSON: a value against a pattern, of which it has each part and maybe more.

ghost use Rattle.std.specs.Prelude.{◌≡◌, ◌+◌, ◌-◌, ◌<◌, ◌≤◌, ◌&&◌, ◌||◌, length, take, drop, is_some, IsTrue, IfSome, IfNone};
ghost use Rattle.std.specs.Str.{bytes_eq};
ghost use Rattle.fhir_json.specs.Tree.{Tree};
ghost use Rattle.fhir_json.specs.Views.{tree_of, property_of, items_view, members_view};
ghost use Rattle.fhir_json.specs.Sound.{IsSound};
ghost use Rattle.fhir_matching.specs.Equality.{equal, has_passing};
ghost use Rattle.fhir_matching.specs.Fitting.{fits, pattern_test, some_passing, each_fitted, has_fitting};

use crate::places::place_of;
use fhir_json::{Json, Member};

/// Whether a value fits a pattern (FHIR R4, ElementDefinition, `pattern[x]`): scalars are equal, numbers by their
/// texts; each property of the pattern is there in the value and fits; for each item of the pattern some item of the
/// value fits it, in any order, and one item may serve several.
///
/// It takes no memory, and sets each value inside beside each pattern inside once at most. What fits a part of the pattern is looked for
/// outwards from where the last one was found, so that the time is linear where the parts stand in the value's order, or in reverse.
pub fn matches(value: &Json<'_>, pattern: &Json<'_>) -> bool
    ensures { result ≡ fits (tree_of value.now) (tree_of pattern.now) }
{
    is_fitted(pattern, value)
}

#[cycle(fit)]
fn is_fitted(pattern: &Json<'_>, value: &Json<'_>) -> bool
    ensures { result ≡ pattern_test (tree_of pattern.now) (tree_of value.now) }
{
    match (pattern, value) {
        (Json::Null, Json::Null) => true,
        (Json::Bool(pattern), Json::Bool(value)) => *pattern == *value,
        (Json::Num(pattern), Json::Num(value)) => pattern.as_str() == value.as_str(),
        (Json::Str(pattern), Json::Str(value)) => pattern.as_str() == value.as_str(),
        (Json::Arr(patterns), Json::Arr(items)) => items_fit(patterns, items),
        (Json::Obj(patterns), Json::Obj(members)) => members_fit(patterns, members),
        _ => false,
    }
}

// Whether each item of the pattern is fitted by some item.
#[cycle(fit)]
fn items_fit(patterns: &[Json<'_>], items: &[Json<'_>]) -> bool
    ensures { result ≡ each_fitted (items_view patterns.now) (items_view items.now) }
{
    let mut near = 0;
    for pattern in patterns {
        let Some(place) = place_fitting(pattern, items, near) else {
            return false;
        };
        near = place + 1;
    }
    true
}

// The place of an item that fits the pattern, if there is one. It is looked for outwards from a place, on both sides at once.
#[cycle(fit)]
fn place_fitting(pattern: &Json<'_>, items: &[Json<'_>], near: usize) -> Option<usize>
    ensures fitted { is_some result ≡ some_passing (pattern_test (tree_of pattern.now)) (items_view items.now) }
    ensures within { IfSome result (λ place. place < length items.now) }
{
    let near = near.min(items.len());
    for distance in 0..items.len() {
        if let Some(place) = fitting_behind(pattern, items, near, distance) {
            return Some(place);
        }
        if let Some(place) = fitting_before(pattern, items, near, distance) {
            return Some(place);
        }
    }
    None
}

// The place at a distance behind another, if an item that fits stands there.
#[cycle(fit)]
fn fitting_behind(
    pattern: &Json<'_>,
    items: &[Json<'_>],
    near: usize,
    distance: usize,
) -> Option<usize>
    requires { near ≤ length items.now }
    ensures fitted { IfSome result (λ place.
        IsTrue (some_passing (pattern_test (tree_of pattern.now)) (items_view items.now))) }
    ensures within { IfSome result (λ place. place < length items.now) }
    ensures none { IfNone result (
        some_passing (pattern_test (tree_of pattern.now)) (items_view (drop (near + distance) items.now))
        ≡ some_passing (pattern_test (tree_of pattern.now)) (items_view (drop (near + (distance + 1)) items.now))) }
{
    if distance < items.len() - near && is_fitted_at(pattern, items, near + distance) {
        Some(near + distance)
    } else {
        None
    }
}

// The place at a distance before the one in front of another, if an item that fits stands there.
#[cycle(fit)]
fn fitting_before(
    pattern: &Json<'_>,
    items: &[Json<'_>],
    near: usize,
    distance: usize,
) -> Option<usize>
    requires { near ≤ length items.now }
    ensures fitted { IfSome result (λ place.
        IsTrue (some_passing (pattern_test (tree_of pattern.now)) (items_view items.now))) }
    ensures within { IfSome result (λ place. place < length items.now) }
    ensures none { IfNone result (
        some_passing (pattern_test (tree_of pattern.now)) (items_view (take (near - distance) items.now))
        ≡ some_passing (pattern_test (tree_of pattern.now)) (items_view (take (near - (distance + 1)) items.now))) }
{
    if distance < near && is_fitted_at(pattern, items, near - 1 - distance) {
        Some(near - 1 - distance)
    } else {
        None
    }
}

// Whether the item at a place fits.
#[cycle(fit)]
fn is_fitted_at(pattern: &Json<'_>, items: &[Json<'_>], place: usize) -> bool
    requires { place < length items.now }
    ensures from { some_passing (pattern_test (tree_of pattern.now)) (items_view (drop place items.now))
        ≡ (result || some_passing (pattern_test (tree_of pattern.now)) (items_view (drop (place + 1) items.now))) }
    ensures before { some_passing (pattern_test (tree_of pattern.now)) (items_view (take (place + 1) items.now))
        ≡ (some_passing (pattern_test (tree_of pattern.now)) (items_view (take place items.now)) || result) }
{
    is_fitted(pattern, &items[place])
}

// Whether each member of the pattern is fitted by some member of its name.
#[cycle(fit)]
fn members_fit(patterns: &[Member<'_>], members: &[Member<'_>]) -> bool
    ensures { result ≡ has_fitting (members_view patterns.now)
        (members_view members.now) }
{
    let mut near = 0;
    for pattern in patterns {
        let Some(place) = place_of(pattern.name.as_str(), members, near) else {
            return false;
        };
        if !is_member_fitted(pattern, members, place) {
            return false;
        }
        near = place + 1;
    }
    true
}

// Whether some member of its name fits the pattern: at a place, or else before it or behind it.
#[cycle(fit)]
fn is_member_fitted(pattern: &Member<'_>, members: &[Member<'_>], place: usize) -> bool
    requires { place < length members.now }
    ensures { result ≡ has_passing (property_of pattern.now).0 (pattern_test (property_of pattern.now).1)
        (members_view members.now) }
{
    if member_fits(pattern, &members[place]) {
        return true;
    }
    some_member_fits(pattern, &members[..place]) || some_member_fits(pattern, &members[place + 1..])
}

#[cycle(fit)]
fn some_member_fits(pattern: &Member<'_>, members: &[Member<'_>]) -> bool
    ensures { result ≡ has_passing (property_of pattern.now).0 (pattern_test (property_of pattern.now).1)
        (members_view members.now) }
{
    for member in members {
        if member_fits(pattern, member) {
            return true;
        }
    }
    false
}

#[cycle(fit)]
fn member_fits(pattern: &Member<'_>, member: &Member<'_>) -> bool
    ensures { result ≡ (bytes_eq (property_of pattern.now).0 (property_of member.now).0
        && pattern_test (property_of pattern.now).1 (property_of member.now).1) }
{
    pattern.name.as_str() == member.name.as_str() && is_fitted(&pattern.value, &member.value)
}

/// Fitting is reflexive and transitive, and it respects equality: where two trees are equal, the second fits the
/// first, the same patterns are fitted by both, and the same values fit both.
///
/// The last two need the second tree to be sound, and nothing else does: `{"a":1}` is equal to an object that has the
/// name `a` twice, with 1 and with 2, and only that one fits `{"a":2}`.
pub fn fitting()
    ensures reflexive { (t : Tree) → IsTrue (fits t t) }
    ensures transitive { (t u v : Tree) → IsTrue (fits t u) → IsTrue (fits u v)
        → IsTrue (fits t v) }
    ensures of_equals { (t u : Tree) → IsTrue (equal t u) → IsTrue (fits u t) }
    ensures equal_values { (t u pattern : Tree) → IsSound u → IsTrue (equal t u)
        → fits t pattern ≡ fits u pattern }
    ensures equal_patterns { (value t u : Tree) → IsSound u → IsTrue (equal t u)
        → fits value t ≡ fits value u }
{}
