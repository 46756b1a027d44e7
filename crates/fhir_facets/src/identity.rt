//! When two trees are one.

ghost use Rattle.std.specs.Prelude.{◌≡◌, ◌&&◌};
ghost use Rattle.std.specs.Str.{bytes_eq};
ghost use Rattle.fhir_json.specs.Views.{tree_of, property_of, items_view, members_view};
ghost use Rattle.fhir_facets.specs.Identity.{identical, items_identical, members_identical};

use fhir_json::{Json, Member};

/// Whether two trees are one, member by member in their order: then they are written alike. It takes no memory.
#[cycle(identical)]
pub fn identical(left: &Json<'_>, right: &Json<'_>) -> bool
    ensures { result ≡ identical (tree_of left.now) (tree_of right.now) }
{
    match (left, right) {
        (Json::Null, Json::Null) => true,
        (Json::Bool(left), Json::Bool(right)) => *left == *right,
        (Json::Num(left), Json::Num(right)) => left.as_str() == right.as_str(),
        (Json::Str(left), Json::Str(right)) => left.as_str() == right.as_str(),
        (Json::Arr(left), Json::Arr(right)) => items_identical(left, right),
        (Json::Obj(left), Json::Obj(right)) => members_identical(left, right),
        _ => false,
    }
}

#[cycle(identical)]
fn items_identical(left: &[Json<'_>], right: &[Json<'_>]) -> bool
    ensures { result ≡ items_identical (items_view left.now) (items_view right.now) }
{
    let mut others = right;
    for item in left {
        let [other, rest @ ..] = others else {
            return false;
        };
        if !identical(item, other) {
            return false;
        }
        others = rest;
    }
    others.is_empty()
}

#[cycle(identical)]
fn members_identical(left: &[Member<'_>], right: &[Member<'_>]) -> bool
    ensures { result ≡ members_identical (members_view left.now) (members_view right.now) }
{
    let mut others = right;
    for member in left {
        let [other, rest @ ..] = others else {
            return false;
        };
        if !are_identical(member, other) {
            return false;
        }
        others = rest;
    }
    others.is_empty()
}

#[cycle(identical)]
fn are_identical(left: &Member<'_>, right: &Member<'_>) -> bool
    ensures { result ≡ (bytes_eq (property_of left.now).0 (property_of right.now).0
        && identical (property_of left.now).1 (property_of right.now).1) }
{
    left.name.as_str() == right.name.as_str() && identical(&left.value, &right.value)
}
