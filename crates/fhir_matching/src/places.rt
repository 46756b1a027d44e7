//! Where a name stands among the members of an object.

ghost use Rattle.std.specs.Prelude.{◌≡◌, ◌+◌, ◌-◌, ◌<◌, ◌≤◌, ◌||◌, length, take, drop, is_some, IsTrue, IfSome, IfNone};
ghost use Rattle.fhir_json.specs.Tree.{names};
ghost use Rattle.fhir_json.specs.Views.{members_view};
ghost use Rattle.fhir_json.specs.Sound.{is_among};

use fhir_json::Member;

// The place of a member of the name, if there is one. It is looked for outwards from a place, on both sides at once.
pub(crate) fn place_of(name: &str, members: &[Member<'_>], near: usize) -> Option<usize>
    ensures named { is_some result ≡ is_among name.now (names (members_view members.now)) }
    ensures within { IfSome result (λ place. place < length members.now) }
{
    let near = near.min(members.len());
    for distance in 0..members.len() {
        if let Some(place) = place_behind(name, members, near, distance) {
            return Some(place);
        }
        if let Some(place) = place_before(name, members, near, distance) {
            return Some(place);
        }
    }
    None
}

// The place at a distance behind another, if a member of the name stands there.
fn place_behind(name: &str, members: &[Member<'_>], near: usize, distance: usize) -> Option<usize>
    requires { near ≤ length members.now }
    ensures named { IfSome result (λ place.
        IsTrue (is_among name.now (names (members_view members.now)))) }
    ensures within { IfSome result (λ place. place < length members.now) }
    ensures none { IfNone result (
        is_among name.now (names (members_view (drop (near + distance) members.now)))
        ≡ is_among name.now (names (members_view (drop (near + (distance + 1)) members.now)))) }
{
    if distance < members.len() - near && is_named(name, members, near + distance) {
        Some(near + distance)
    } else {
        None
    }
}

// The place at a distance before the one in front of another, if a member of the name stands there.
fn place_before(name: &str, members: &[Member<'_>], near: usize, distance: usize) -> Option<usize>
    requires { near ≤ length members.now }
    ensures named { IfSome result (λ place.
        IsTrue (is_among name.now (names (members_view members.now)))) }
    ensures within { IfSome result (λ place. place < length members.now) }
    ensures none { IfNone result (
        is_among name.now (names (members_view (take (near - distance) members.now)))
        ≡ is_among name.now (names (members_view (take (near - (distance + 1)) members.now)))) }
{
    if distance < near && is_named(name, members, near - 1 - distance) {
        Some(near - 1 - distance)
    } else {
        None
    }
}

// Whether the member at a place has the name.
fn is_named(name: &str, members: &[Member<'_>], place: usize) -> bool
    requires { place < length members.now }
    ensures from { is_among name.now (names (members_view (drop place members.now)))
        ≡ (result || is_among name.now (names (members_view (drop (place + 1) members.now)))) }
    ensures before { is_among name.now (names (members_view (take (place + 1) members.now)))
        ≡ (is_among name.now (names (members_view (take place members.now))) || result) }
{
    name == members[place].name.as_str()
}
