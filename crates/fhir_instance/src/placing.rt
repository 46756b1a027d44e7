//! How many items the properties of an object have.

ghost use Rattle.std.specs.Prelude.{◌≡◌, ◌<◌, length, Some};
ghost use Rattle.std.specs.List.{slice_get};

use crate::spelled::Places;
use fhir_json::{Json, Member};
use fhir_schema::Form;

fn count_of(json: &Json<'_>) -> usize {
    match json {
        Json::Arr(items) => items.len(),
        _ => 1,
    }
}

fn has_items(name: &str) -> bool {
    !name.as_bytes().starts_with(b"_") && name != "resourceType"
}

/// How many children an object may have: as many as values. Companions without values come on top.
pub(crate) fn room_for(members: &[Member<'_>]) -> usize {
    let mut room: usize = 0;
    for i in 0..members.len() {
        if has_items(members[i].name.as_str()) {
            room = room.saturating_add(count_of(&members[i].value));
        }
    }
    room
}

fn count_at(members: &[Member<'_>], at: Places) -> usize {
    match (at.value, at.companion) {
        (Some(i), _) => count_in(members, i),
        (None, Some(i)) => count_in(members, i),
        (None, None) => 0,
    }
}

fn count_in(members: &[Member<'_>], at: usize) -> usize {
    match members.get(at) {
        Some(member) => count_of(&member.value),
        None => 0,
    }
}

/// The form at a place.
pub(crate) fn form_at(forms: &[Form], at: usize) -> &Form
    requires { at < length forms.now }
    ensures { slice_get forms.now at ≡ Some result.now }
{
    &forms[at]
}

/// The last form's element: its name, how many items it has before those of the form, and where these are.
#[derive(Clone, Copy)]
pub(crate) struct Tally<'a> {
    name: &'a str,
    before: usize,
    places: Places,
}

impl<'a> Tally<'a> {
    /// None so far.
    pub(crate) fn new() -> Tally<'a> {
        Tally {
            name: "",
            before: 0,
            places: Places {
                value: None,
                companion: None,
            },
        }
    }

    // How many items the element has so far.
    fn items(&self, members: &[Member<'_>]) -> usize {
        self.before.saturating_add(count_at(members, self.places))
    }

    /// How many items of the element there are before those of the next form, whose properties are at these places.
    pub(crate) fn before(
        &mut self,
        form: &'a Form,
        places: Places,
        members: &[Member<'_>],
    ) -> usize {
        let is_same = self.name == form.name();
        let before = if is_same { self.items(members) } else { 0 };
        self.name = form.name();
        self.before = before;
        self.places = places;
        before
    }
}
