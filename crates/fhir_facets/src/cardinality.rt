//! How many items there may be (FHIR R4, ElementDefinition, min and max).

ghost use Rattle.std.specs.Prelude.{◌≡◌, [], Option};
ghost use Rattle.std.specs.Option.{option_map_or};
ghost use Rattle.fhir_elements.specs.Max.{is_within};
ghost use Rattle.fhir_facets.specs.Cardinality.{least_of, are_enough, are_within, cardinality_holds, max_narrower, most_narrower, cardinality_narrower, allows_none, is_forbidden};

use crate::facet::Facet;
use crate::holding::Holding;
use fhir_elements::{ElementDef, Max};
use fhir_vouching::Vouching;

/// How many items there may be (FHIR R4, ElementDefinition, min and max). A bound that is absent asks for nothing.
#[derive(Clone, Copy)]
pub struct Cardinality<'a>(pub &'a ElementDef);

fn least_of(element: &ElementDef) -> u32
    ensures { result ≡ least_of element.now }
{
    element.min().unwrap_or(0)
}

/// Whether so many items are as many as the element asks for.
pub fn are_enough(element: &ElementDef, count: usize) -> bool
    ensures { result ≡ are_enough element.now count }
{
    least_of(element) as usize <= count
}

fn is_within(count: usize, most: Max) -> bool
    ensures { result ≡ is_within count most }
{
    match most {
        Max::Unbounded => true,
        Max::UpTo(most) => count <= most as usize,
    }
}

/// Whether so many items are no more than the element allows.
pub fn are_within(element: &ElementDef, count: usize) -> bool
    ensures { result ≡ are_within element.now count }
{
    match element.max() {
        Some(most) => is_within(count, most),
        None => true,
    }
}

/// Whether the element allows no item.
pub fn is_forbidden(element: &ElementDef) -> bool
    ensures { result ≡ is_forbidden element.now }
{
    match element.max() {
        Some(Max::UpTo(most)) => most == 0,
        Some(Max::Unbounded) | None => false,
    }
}

fn max_narrower(own: Max, base: Max) -> bool
    ensures { result ≡ max_narrower own base }
{
    match (own, base) {
        (Max::UpTo(own), base) => base.allows(own),
        (Max::Unbounded, Max::Unbounded) => true,
        (Max::Unbounded, Max::UpTo(_)) => false,
    }
}

fn most_narrower(own: Option<Max>, base: Option<Max>) -> bool
    ensures { result ≡ most_narrower own base }
{
    let Some(base) = base else {
        return true;
    };
    match own {
        Some(own) => max_narrower(own, base),
        None => false,
    }
}

impl<'a> Facet<'a, usize> for Cardinality<'_> {
    ghost meant = { λ m cardinality count. cardinality_holds cardinality.0.now count };

    ghost unread_rules = { λ cardinality asked. [] };

    ghost is_narrower = { λ cardinality base. cardinality_narrower cardinality.0.now base.0.now };

    fn holds(&self, asked: &usize) -> Holding<'a> {
        self.holds_given(asked, &Vouching::none())
    }

    fn holds_given(&self, asked: &usize, _given: &Vouching) -> Holding<'a> {
        Holding::of(are_enough(self.0, *asked) && are_within(self.0, *asked))
    }

    fn narrower(&self, base: &Self) -> bool {
        least_of(base.0) <= least_of(self.0) && most_narrower(self.0.max(), base.0.max())
    }
}
