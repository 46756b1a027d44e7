//! Findings and sites: what is said of a rule.

ghost use Rattle.std.specs.Prelude.{◌≡◌, Some, IfOk};
ghost use Rattle.std.specs.Option.{option_map_or, option_and_then};
ghost use Rattle.fhir_schema.specs.Schemas.{element_at};
ghost use Rattle.fhir_facets.specs.Cardinality.{least_of};
ghost use Rattle.fhir_conformance.specs.Positions.{kid_at};
ghost use Rattle.fhir_conformance.specs.Views.{rule_name, IsIndexOf};
ghost use Rattle.fhir_instance.specs.Items.{kids_of};
ghost use Rattle.fhir_instance.specs.View.{item_of};
ghost use Rattle.fhir_validator.specs.Issues.{rule_said, types, too_few, too_many, after, after_rest, says, slices_said, slice_name, set_at, key_at, told_child, told_at, IsNamed};
ghost use Rattle.fhir_validator.specs.Layouts.{item_at};

use crate::broken_rule::BrokenRule;
use crate::issue::{Breach, Site};
use crate::judging::Judge;
use crate::pair::ItemPair;
use crate::place::Place;
use fhir_conformance::{ElementRule, KidsByName, count_in, kid_at, slice_at};
use fhir_elements::Max;
use fhir_facets::Unread;
use fhir_instance::Typed;
use fhir_json::NoMemory;
use fhir_schema::{NodeRef, Schema};
use fhir_slicing::two_slices;
use std::alloc::Global;

// How many items of a node there must be.
fn least_of(schema: &Schema, node: NodeRef) -> u32
    ensures { result ≡ option_map_or least_of (element_at schema.now node) 0 }
{
    match schema.element(node) {
        Some(element) => element.min().unwrap_or(0),
        None => 0,
    }
}

// How many there may be.
fn most_of(schema: &Schema, node: NodeRef) -> Option<Max>
    ensures { result ≡ option_and_then (λ e. e.max) (element_at schema.now node) }
{
    schema.element(node)?.max()
}

fn too_few<'s>(schema: &'s Schema, node: NodeRef, found: usize) -> BrokenRule<'s>
    ensures { rule_said result ≡ too_few (option_map_or least_of (element_at schema.now node) 0) found }
{
    BrokenRule::TooFew {
        min: least_of(schema, node),
        found,
    }
}

fn too_many<'s>(schema: &'s Schema, node: NodeRef, found: usize) -> BrokenRule<'s>
    ensures { rule_said result ≡ too_many (option_and_then (λ e. e.max) (element_at schema.now node)) found }
{
    BrokenRule::TooMany {
        max: most_of(schema, node),
        found,
    }
}

// The value set that a node asks for, or the empty text.
fn set_of(schema: &Schema, node: NodeRef) -> &str
    ensures { result.now ≡ set_at schema.now node }
{
    match schema.element(node) {
        Some(element) => element.required_value_set().unwrap_or(""),
        None => "",
    }
}

// The key of a constraint of a node, or the empty text.
fn key_of(schema: &Schema, node: NodeRef, position: usize) -> &str
    ensures { result.now ≡ key_at schema.now node position }
{
    match schema.element(node) {
        Some(element) => match element.constraints().get(position) {
            Some(constraint) => constraint.key(),
            None => "",
        },
        None => "",
    }
}

// Two slices of a node's element that an item is in.
fn slices_of_item<'s>(schema: &'s Schema, item: &Typed<'_, '_>, node: NodeRef) -> BrokenRule<'s>
    ensures { rule_said result ≡ slices_said schema.now node (Some (item_of item.now)) }
{
    match two_slices(schema, node, item) {
        Some((one, other)) => BrokenRule::InSlices(one.name(), other.name()),
        None => BrokenRule::InSlices("", ""),
    }
}

// Two slices of a node's element that the child at a position is in.
fn slices_of_kid<'s>(
    schema: &'s Schema,
    item: &Typed<'_, '_>,
    position: usize,
    node: NodeRef,
) -> BrokenRule<'s>
    ensures { rule_said result ≡ slices_said schema.now node (kid_at (kids_of (item_of item.now)) position) }
{
    match kid_at(item, position) {
        Some(kid) => slices_of_item(schema, kid, node),
        None => BrokenRule::InSlices("", ""),
    }
}

// The name of the slice of a node's element that the child at a position is in, or the empty text.
fn slice_name<'s>(
    schema: &'s Schema,
    item: &Typed<'_, '_>,
    node: NodeRef,
    position: usize,
) -> &'s str
    ensures { result.now ≡ slice_name schema.now (item_of item.now) node position }
{
    match slice_at(schema, item, node, position) {
        Some(slice) => slice.name(),
        None => "",
    }
}

fn out_of_order<'s>(
    schema: &'s Schema,
    item: &Typed<'_, '_>,
    node: NodeRef,
    earlier: usize,
    position: usize,
) -> BrokenRule<'s>
    ensures { rule_said result
        ≡ after (slice_name schema.now (item_of item.now) node position) (slice_name schema.now (item_of item.now) node earlier) }
{
    let own = slice_name(schema, item, node, position);
    BrokenRule::After(own, slice_name(schema, item, node, earlier))
}

fn out_of_rest<'s>(
    schema: &'s Schema,
    item: &Typed<'_, '_>,
    node: NodeRef,
    position: usize,
) -> BrokenRule<'s>
    ensures { rule_said result ≡ after_rest (slice_name schema.now (item_of item.now) node position) }
{
    BrokenRule::AfterRest(slice_name(schema, item, node, position))
}

// What is to be said of a rule of a node, at the item that has these children.
fn broken_rule<'s>(
    schema: &'s Schema,
    item: &Typed<'_, '_>,
    kids_by_name: &KidsByName<'_>,
    rule: ElementRule<'s>,
    node: NodeRef,
) -> BrokenRule<'s>
    requires { IsIndexOf (item_of item.now) kids_by_name.now }
    ensures { rule_said result ≡ says schema.now (item_of item.now) (rule_name rule.entry) node }
{
    match rule {
        ElementRule::RootType => BrokenRule::RootType(schema.type_code(node)),
        ElementRule::Fixed => BrokenRule::Fixed,
        ElementRule::Pattern => BrokenRule::Pattern,
        ElementRule::Range => BrokenRule::Range,
        ElementRule::Length => BrokenRule::Length,
        ElementRule::Binding => BrokenRule::Binding(set_of(schema, node)),
        ElementRule::TooFew(name) => too_few(schema, node, kids_by_name.places(name).len()),
        ElementRule::TooMany(name) => too_many(schema, node, kids_by_name.places(name).len()),
        ElementRule::TooFewIn(name) => {
            too_few(
                schema,
                node,
                count_in(schema, item, kids_by_name, node, name),
            )
        }
        ElementRule::TooManyIn(name) => {
            too_many(
                schema,
                node,
                count_in(schema, item, kids_by_name, node, name),
            )
        }
        ElementRule::Apart(position) => slices_of_kid(schema, item, position, node),
        ElementRule::InASlice(_position) => BrokenRule::InNoSlice,
        ElementRule::InOrder(earlier, position) => {
            out_of_order(schema, item, node, earlier, position)
        }
        ElementRule::InTheRest(position) => out_of_rest(schema, item, node, position),
        ElementRule::Constraint(position) => BrokenRule::Constraint(key_of(schema, node, position)),
    }
}

// The child at which a rule is told, where it is one of a child; of two, the later.
fn told_child(rule: ElementRule<'_>) -> Option<usize>
    ensures { result ≡ told_child (rule_name rule.entry) }
{
    match rule {
        ElementRule::Apart(position) => Some(position),
        ElementRule::InASlice(position) => Some(position),
        ElementRule::InOrder(_earlier, position) => Some(position),
        ElementRule::InTheRest(position) => Some(position),
        _ => None,
    }
}

/// The node at which a rule is told that a pair's node asks: a constraint at the pair's, which takes over that of the node that
/// it refers to for its content; any other rule at the node whose it is.
pub(crate) fn told_at(own: NodeRef, rule: ElementRule<'_>, node: NodeRef) -> NodeRef
    ensures { result ≡ told_at own (rule_name rule.entry) node }
{
    match rule {
        ElementRule::Constraint(_position) => own,
        _ => node,
    }
}

impl<'s, 't, 'a, 'j> Judge<'s, 't, 'a, 'j> {
    // The place of the child at a position of a pair's item, or of the item itself.
    fn place_of_kid(&self, pair: ItemPair, position: usize) -> Result<Place, NoMemory> {
        let layout = self.layout();
        let kid = layout.kid(pair.item, position);
        Place::of(self.alloc(), layout, kid.unwrap_or(pair.item))
    }

    // Where a rule is broken at a pair's item.
    fn place_of(&self, pair: ItemPair, rule: ElementRule<'_>) -> Result<Place, NoMemory> {
        if let Some(position) = told_child(rule) {
            return self.place_of_kid(pair, position);
        }
        let (alloc, layout) = (self.alloc(), self.layout());
        match rule {
            ElementRule::TooFew(name) => Place::below(alloc, layout, pair.item, name),
            ElementRule::TooMany(name) => Place::below(alloc, layout, pair.item, name),
            ElementRule::TooFewIn(name) => Place::below(alloc, layout, pair.item, name),
            ElementRule::TooManyIn(name) => Place::below(alloc, layout, pair.item, name),
            _ => Place::of(alloc, layout, pair.item),
        }
    }

    // What is to be said of a rule of a node, at a pair's item.
    fn broken_rule_of(&self, pair: ItemPair, rule: ElementRule<'s>, node: NodeRef) -> BrokenRule<'s>
        ensures { rule_said result ≡ says self.now.schema (item_at self.now pair.item) (rule_name rule.entry) node }
    {
        let layout = self.layout();
        let (item, kids_by_name) = (layout.item(pair.item), layout.kids_by_name(pair.item));
        broken_rule(self.schema(), item, kids_by_name, rule, node)
    }

    /// The breach of a rule of a node that the item of a pair breaks.
    pub(crate) fn breach_of(
        &self,
        pair: ItemPair,
        rule: ElementRule<'s>,
        node: NodeRef,
    ) -> Result<Breach<'s>, NoMemory>
        ensures node { IfOk result (λ breach. breach.node ≡ told_at pair.node (rule_name rule.entry) node) }
        ensures said { IfOk result (λ breach. rule_said breach.rule
            ≡ says self.now.schema (item_at self.now pair.item) (rule_name rule.entry) node) }
        ensures named { IfOk result (λ breach. IsNamed self.now.schema (told_at pair.node (rule_name rule.entry) node) breach.url.now breach.id.now) }
    {
        let told = told_at(pair.node, rule, node);
        let (url, id) = self.schema().name(told);
        let place = self.place_of(pair, rule)?;
        Ok(Breach {
            rule: self.broken_rule_of(pair, rule, node),
            node: told,
            url,
            id,
            place,
        })
    }

    /// The breach that the item of a pair is of none of the types of its node.
    pub(crate) fn misfit_of(&self, pair: ItemPair) -> Result<Breach<'s>, NoMemory>
        ensures node { IfOk result (λ breach. breach.node ≡ pair.node) }
        ensures said { IfOk result (λ breach. rule_said breach.rule ≡ types) }
        ensures named { IfOk result (λ breach. IsNamed self.now.schema pair.node breach.url.now breach.id.now) }
    {
        let (url, id) = self.schema().name(pair.node);
        Ok(Breach {
            rule: BrokenRule::Types,
            node: pair.node,
            url,
            id,
            place: Place::of(self.alloc(), self.layout(), pair.item)?,
        })
    }

    /// The site of an unread rule that a node carries to the item of a pair.
    pub(crate) fn site_of(
        &self,
        pair: ItemPair,
        unread: Unread<'s>,
        node: NodeRef,
    ) -> Result<Site<'s>, NoMemory>
        ensures node { IfOk result (λ site. site.node ≡ node) }
        ensures unread { IfOk result (λ site. site.unread ≡ unread.entry) }
        ensures named { IfOk result (λ site. IsNamed self.now.schema node site.url.now site.id.now) }
    {
        let (url, id) = self.schema().name(node);
        Ok(Site {
            unread,
            node,
            url,
            id,
            place: Place::of(self.alloc(), self.layout(), pair.item)?,
        })
    }
}
