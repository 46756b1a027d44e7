//! Bindings to value sets (FHIR R4, ElementDefinition, binding; Terminologies, required).

ghost use Rattle.std.specs.Prelude.{◌≡◌};
ghost use Rattle.std.specs.Option.{option_copied};
ghost use Rattle.fhir_facets.specs.Bindings.{binding_to, decision, binding_holds, lies_within, binding_narrower};
ghost use Rattle.fhir_facets.specs.Carried.{binding_unread};
ghost use Rattle.fhir_facets.specs.Views.{binding_seen, view_seen};

use crate::facet::Facet;
use crate::holding::Holding;
use crate::lookup::{is_in, lookup_of};
use crate::unread::Unread;
use crate::view::View;
use fhir_codes::ConceptSet;
use fhir_schema::Schema;
use fhir_vouching::Vouching;

/// A required binding: of what an item says, one concept at least is in the value set (FHIR R4, ElementDefinition, binding;
/// Terminologies, required). A primitive's text is looked up as a code alone, a Coding by its system and code, and of a
/// CodeableConcept one coding has to be in the set. Where the set can't be read, or the item is of another type, it is an
/// unread rule.
#[derive(Clone, Copy)]
pub struct Binding<'s> {
    /// The canonical of its value set.
    pub canonical: &'s str,
    /// The concepts of that, if they can be read.
    pub concepts: Option<&'s ConceptSet>,
}

impl<'s> Binding<'s> {
    /// The binding to the value set that a canonical names in a schema.
    pub fn of(schema: &'s Schema, canonical: &'s str) -> Binding<'s>
        ensures { binding_seen result ≡ binding_to schema.now canonical.now }
    {
        Binding {
            canonical,
            concepts: schema.concepts(canonical),
        }
    }

    fn decision(&self, view: &View<'_, '_>) -> Option<bool>
        ensures { result ≡ decision (binding_seen self.now) (view_seen view.now) }
    {
        let set = self.concepts?;
        let how = lookup_of(view)?;
        Some(is_in(how, set, view))
    }
}

fn lies_within(own: Option<&ConceptSet>, base: Option<&ConceptSet>) -> bool
    ensures { result ≡ lies_within (option_copied own.entry) (option_copied base.entry) }
{
    match (own, base) {
        (Some(own), Some(base)) => own.is_subset(base),
        _ => false,
    }
}

impl<'s> Facet<'s, View<'_, '_>> for Binding<'s> {
    ghost meant = { λ m binding view. binding_holds m (binding_seen binding) (view_seen view) };

    ghost unread_rules = { λ binding view. binding_unread (binding_seen binding) (view_seen view) };

    ghost is_narrower = { λ binding base. binding_narrower (binding_seen binding) (binding_seen base) };

    fn holds(&self, asked: &View<'_, '_>) -> Holding<'s> {
        self.holds_given(asked, &Vouching::none())
    }

    fn holds_given(&self, asked: &View<'_, '_>, given: &Vouching) -> Holding<'s> {
        match self.decision(asked) {
            Some(holds) => Holding::of(holds),
            None => Holding::of_rule(Unread::Binding(self.canonical), given),
        }
    }

    fn narrower(&self, base: &Self) -> bool {
        self.canonical == base.canonical || lies_within(self.concepts, base.concepts)
    }
}
