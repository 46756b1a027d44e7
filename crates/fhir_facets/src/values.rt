//! Fixed values, patterns and lengths (FHIR R4, ElementDefinition, fixed[x], pattern[x] and maxLength).

ghost use Rattle.std.specs.Prelude.{◌≡◌, [], length};
ghost use Rattle.std.specs.Str.{chars};
ghost use Rattle.fhir_json.specs.Views.{tree_of};
ghost use Rattle.fhir_facets.specs.Values.{is_alone, fixed_holds, fixed_narrower, pattern_holds, pattern_narrower, fixed_fits, is_short, length_holds, length_narrower};
ghost use Rattle.fhir_facets.specs.Views.{view_seen};

use crate::facet::Facet;
use crate::holding::Holding;
use crate::view::View;
use fhir_json::Json;
use fhir_matching::{json_eq, matches};
use fhir_vouching::Vouching;

/// The value that an item is to be, and no more: a primitive may have neither an id nor extensions (FHIR R4,
/// ElementDefinition, fixed[x]).
#[derive(Clone, Copy)]
pub struct Fixed<'a>(pub &'a Json<'static>);

/// What an item's value is to have: each part of the pattern, and maybe more (FHIR R4, ElementDefinition, pattern[x]).
#[derive(Clone, Copy)]
pub struct Pattern<'a>(pub &'a Json<'static>);

/// How many characters an item's text may have at most (FHIR R4, ElementDefinition, maxLength). An item without a text is
/// passed over.
#[derive(Clone, Copy, Debug, PartialEq, Eq)]
pub struct Length(pub i32);

fn is_alone(view: &View<'_, '_>, json: &Json<'_>) -> bool
    ensures { result ≡ is_alone (view_seen view.now) (tree_of json.now) }
{
    json.is_object() || !view.has_kids
}

fn is_fixed_to(value: &Json<'_>, view: &View<'_, '_>) -> bool
    ensures { result ≡ fixed_holds (tree_of value.now) (view_seen view.now) }
{
    match view.json {
        Some(json) => json_eq(value, json) && is_alone(view, json),
        None => false,
    }
}

fn has_pattern(pattern: &Json<'_>, view: &View<'_, '_>) -> bool
    ensures { result ≡ pattern_holds (tree_of pattern.now) (view_seen view.now) }
{
    match view.json {
        Some(json) => matches(json, pattern),
        None => false,
    }
}

fn characters(text: &str) -> usize
    ensures { result ≡ length (chars text.now) }
{
    text.chars().count()
}

fn is_short(most: i32, text: &str) -> bool
    ensures { result ≡ is_short most text.now }
{
    characters(text) as i128 <= most as i128
}

fn has_length(most: i32, view: &View<'_, '_>) -> bool
    ensures { result ≡ length_holds most (view_seen view.now) }
{
    let Some(json) = view.json else {
        return true;
    };
    match json.as_text() {
        Some(text) => is_short(most, text),
        None => true,
    }
}

impl<'a> Facet<'a, View<'_, '_>> for Fixed<'a> {
    ghost meant = { λ m fixed view. fixed_holds (tree_of fixed.0.now) (view_seen view) };

    ghost unread_rules = { λ fixed asked. [] };

    ghost is_narrower = { λ fixed base. fixed_narrower (tree_of fixed.0.now) (tree_of base.0.now) };

    fn holds(&self, asked: &View<'_, '_>) -> Holding<'a> {
        self.holds_given(asked, &Vouching::none())
    }

    fn holds_given(&self, asked: &View<'_, '_>, _given: &Vouching) -> Holding<'a> {
        Holding::of(is_fixed_to(self.0, asked))
    }

    fn narrower(&self, base: &Self) -> bool {
        json_eq(base.0, self.0)
    }
}

impl<'a> Facet<'a, View<'_, '_>> for Pattern<'a> {
    ghost meant = { λ m pattern view. pattern_holds (tree_of pattern.0.now) (view_seen view) };

    ghost unread_rules = { λ pattern asked. [] };

    ghost is_narrower = { λ pattern base. pattern_narrower (tree_of pattern.0.now) (tree_of base.0.now) };

    fn holds(&self, asked: &View<'_, '_>) -> Holding<'a> {
        self.holds_given(asked, &Vouching::none())
    }

    fn holds_given(&self, asked: &View<'_, '_>, _given: &Vouching) -> Holding<'a> {
        Holding::of(has_pattern(self.0, asked))
    }

    fn narrower(&self, base: &Self) -> bool {
        matches(self.0, base.0)
    }
}

impl<'a> Facet<'a, View<'_, '_>> for Length {
    ghost meant = { λ m most view. length_holds most.0 (view_seen view) };

    ghost unread_rules = { λ most asked. [] };

    ghost is_narrower = { λ most base. length_narrower most.0 base.0 };

    fn holds(&self, asked: &View<'_, '_>) -> Holding<'a> {
        self.holds_given(asked, &Vouching::none())
    }

    fn holds_given(&self, asked: &View<'_, '_>, _given: &Vouching) -> Holding<'a> {
        Holding::of(has_length(self.0, asked))
    }

    fn narrower(&self, base: &Self) -> bool {
        self.0 <= base.0
    }
}

/// Whether a fixed value fits a pattern: then the pattern holds wherever the value is.
pub fn fixed_fits(value: &Fixed<'_>, pattern: &Pattern<'_>) -> bool
    ensures { result ≡ fixed_fits (tree_of value.now.0.now) (tree_of pattern.now.0.now) }
{
    matches(value.0, pattern.0)
}
