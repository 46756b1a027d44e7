//! What a verdict lists.

use crate::broken_rule::BrokenRule;
use crate::place::Place;
use fhir_facets::Unread;
use fhir_instance::Misfit;
use fhir_schema::NodeRef;

/// A rule that an item breaks, whatever unread rules mean.
#[derive(Drop)]
pub struct Breach<'s> {
    /// What is broken.
    pub rule: BrokenRule<'s>,
    /// The node that asks for it. A constraint that it takes over by a content reference is its own too.
    pub node: NodeRef,
    /// The url of the node's definition.
    pub url: &'s str,
    /// The id of the node's element.
    pub id: &'s str,
    /// Where the item stands. Where items are too few or too many, the place that they share.
    pub place: Place,
}

/// Why a resource doesn't conform.
#[derive(Drop)]
pub enum Issue<'s> {
    /// It is no resource of the type that it names.
    Misfit(Misfit),
    /// An item of it breaks a rule.
    Broken(Breach<'s>),
}

/// An unread rule that a verdict hangs on.
#[derive(Drop)]
pub struct Site<'s> {
    /// The rule.
    pub unread: Unread<'s>,
    /// The node that asks for it.
    pub node: NodeRef,
    /// The url of the node's definition.
    pub url: &'s str,
    /// The id of the node's element.
    pub id: &'s str,
    /// Where the item stands.
    pub place: Place,
}
