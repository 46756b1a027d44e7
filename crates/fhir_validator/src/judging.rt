//! Judging: whether an item conforms to a node, where unread rules may mean anything.

ghost use Rattle.std.specs.Prelude.{◌≡◌, ◌∷◌, [], false, map, string_bytes, IfOk, IfSome, OnOk};
ghost use Rattle.fhir_schema.specs.Schemas.{is_root_node};
ghost use Rattle.fhir_facets.specs.Unread.{Reading, meaning_of, profile as unread_profile};
ghost use Rattle.fhir_facets.specs.Views.{holding_at, IsVouched, IsCarried};
ghost use Rattle.fhir_conformance.specs.Asks.{asks, own, types, child};
ghost use Rattle.fhir_conformance.specs.Conformance.{rule_holds, entry_allows, entry_holds, profile_holds, profiles_hold};
ghost use Rattle.fhir_conformance.specs.Meeting.{entry_unread, rule_unread};
ghost use Rattle.fhir_conformance.specs.Views.{ask_seen, asks_seen, rule_name};
ghost use Rattle.fhir_validator.specs.Layouts.{item_at, resource_of};
ghost use Rattle.fhir_validator.specs.Judging.{IsRight, IsRightOf, IsRightOn, IsOrdered};

use crate::judgement::Judgement;
use crate::layout::Layout;
use crate::pair::ItemPair;
use fhir_conformance::{Ask, ElementRule, asks, judge, judge_entry};
use fhir_elements::TypeEntry;
use fhir_facets::{Holding, Unread};
use fhir_json::NoMemory;
use fhir_schema::{NodeRef, Schema, roots_are_roots};
use std::alloc::{AllocError, Global};
use std::collections::BTreeMap;
use std::marker::Model;

/// Who judges the items of a resource. It keeps the judgements on the pairs that were judged; a look-up takes time logarithmic in
/// their number.
#[derive(Drop)]
pub(crate) struct Judge<'s, 't, 'a, 'j> {
    alloc: Global,
    layout: Layout<'s, 't, 'a, 'j>,
    judgements: BTreeMap<ItemPair, Judgement>,
}

impl<'s, 't, 'a, 'j> Model for Judge<'s, 't, 'a, 'j> {
    ghost use Rattle.fhir_validator.specs.Layouts.{LayoutValue};

    ghost Value = { LayoutValue };

    ghost use Rattle.fhir_schema.specs.contracts.schema.Schema as schemas;
    ghost use Rattle.fhir_validator.specs.Coding.{item_code};
    ghost use Rattle.std.specs.Coded.{codes};

    ghost coded = { Prim.hlevel (codes, schemas.the_row.coded, item_code) };

    ghost use Rattle.fhir_validator.specs.Judging.{AreRight};

    ghost view = { λ j. j.layout };

    ghost invariant = { λ j. AreRight j.layout j.judgements };
}

impl<'s, 't, 'a, 'j> Judge<'s, 't, 'a, 'j> {
    /// One that has judged nothing.
    pub(crate) fn new(alloc: Global, layout: Layout<'s, 't, 'a, 'j>) -> Judge<'s, 't, 'a, 'j>
        ensures { result ≡ layout.entry }
    {
        Judge {
            alloc,
            layout,
            judgements: BTreeMap::new(alloc),
        }
    }

    /// The items that it judges.
    pub(crate) fn layout(&self) -> &Layout<'s, 't, 'a, 'j>
        ensures { result.now ≡ self.now }
    {
        &self.layout
    }

    /// The schema by which it judges.
    pub(crate) fn schema(&self) -> &'s Schema
        ensures { result.now ≡ self.now.schema }
    {
        self.layout.schema()
    }

    /// Where it takes memory.
    pub(crate) fn alloc(&self) -> Global {
        self.alloc
    }

    /// What a pair asks.
    pub(crate) fn asks(&self, pair: ItemPair) -> Result<Vec<Ask<'s>>, NoMemory>
        ensures { IfOk result (λ asked. asks_seen asked.items ≡ asks self.now.schema (item_at self.now pair.item) pair.node) }
    {
        let layout = &self.layout;
        let (item, kids_by_name) = (layout.item(pair.item), layout.kids_by_name(pair.item));
        asks(self.alloc, layout.schema(), item, kids_by_name, pair.node)
    }

    /// What a rule of a node comes to at the item of a pair.
    pub(crate) fn rule(
        &self,
        pair: ItemPair,
        rule: ElementRule<'s>,
        node: NodeRef,
    ) -> Result<Holding<'s>, NoMemory>
        ensures exact { IfOk result (λ h. (r : Reading) → holding_at r h
            ≡ rule_holds self.now.schema (meaning_of self.now.given r) (resource_of self.now pair.item) (item_at self.now pair.item) (rule_name rule.entry) node) }
        ensures vouched { IfOk result (IsVouched self.now.given) }
        ensures carried { IfOk result (IsCarried (rule_unread self.now.schema (item_at self.now pair.item) (rule_name rule.entry) node)) }
    {
        let layout = &self.layout;
        let (resource, item) = (layout.resource(pair.item), layout.item(pair.item));
        let kids_by_name = layout.kids_by_name(pair.item);
        judge(
            self.alloc,
            layout.schema(),
            resource,
            item,
            kids_by_name,
            rule,
            node,
            layout.given(),
        )
    }

    /// What the code and the targets of an entry come to there.
    pub(crate) fn entry(&self, pair: ItemPair, entry: &'s TypeEntry) -> Holding<'s>
        ensures exact { (r : Reading) → holding_at r result
            ≡ entry_allows self.now.schema (meaning_of self.now.given r) (item_at self.now pair.item) entry.now }
        ensures vouched { IsVouched self.now.given result }
        ensures carried { IsCarried (entry_unread self.now.schema (item_at self.now pair.item) entry.now) result }
    {
        let layout = &self.layout;
        judge_entry(
            layout.schema(),
            layout.item(pair.item),
            entry,
            layout.given(),
        )
    }

    /// What a profile comes to that isn't there, or can't be used.
    pub(crate) fn unread_profile<'p>(&self, profile: &'p str) -> Holding<'p>
        ensures exact { (r : Reading) → holding_at r result ≡ meaning_of self.now.given r (unread_profile profile.now) }
        ensures vouched { IsVouched self.now.given result }
        ensures carried { IsCarried (unread_profile profile.now ∷ []) result }
    {
        Holding::of_rule(Unread::Profile(profile), self.layout.given())
    }

    // Keeps the judgement on a pair.
    fn put(&mut self, pair: ItemPair, judgement: Judgement) -> Result<(), AllocError>
        requires { IsRight self.old pair judgement }
        ensures { self.new ≡ self.old }
    {
        self.judgements.insert(pair, judgement)?;
        Ok(())
    }

    // The judgement on a pair, if it is known.
    fn known_judgement(&self, pair: ItemPair) -> Option<Judgement>
        ensures { IfSome result (IsRight self.now pair) }
    {
        self.judgements.get(&pair).copied()
    }

    // The judgement on a rule that a pair asks for.
    fn rule_judgement(
        &self,
        pair: ItemPair,
        rule: ElementRule<'s>,
        node: NodeRef,
    ) -> Result<Judgement, NoMemory>
        ensures { IfOk result (IsRightOf self.now pair (own (rule_name rule.entry) node)) }
    {
        let holding = self.rule(pair, rule, node)?;
        Ok(Judgement::of(holding))
    }

    /// The judgement on a pair. What it asks for is judged first, and each pair once, so that the time is near linear in what the
    /// pairs that are met ask.
    #[cycle(judging)]
    pub(crate) fn judgement_of(&mut self, pair: ItemPair) -> Result<Judgement, NoMemory>
        ensures exact { IfOk result (IsRight self.old pair) }
        ensures same { OnOk result (self.new ≡ self.old) }
    {
        if let Some(judgement) = self.known_judgement(pair) {
            return Ok(judgement);
        }
        let judgement = self.judge_pair(pair)?;
        self.put(pair, judgement)?;
        Ok(judgement)
    }

    #[cycle(judging)]
    fn judge_pair(&mut self, pair: ItemPair) -> Result<Judgement, NoMemory>
        ensures exact { IfOk result (IsRight self.old pair) }
        ensures same { OnOk result (self.new ≡ self.old) }
    {
        roots_are_roots();
        let asked = self.asks(pair)?;
        let mut judgement = Judgement::Holds;
        for ask in &asked {
            judgement = judgement.and(self.ask_judgement(pair, *ask)?);
        }
        Ok(judgement)
    }

    // The judgement on what a pair asks.
    #[cycle(judging)]
    fn ask_judgement(&mut self, pair: ItemPair, ask: Ask<'s>) -> Result<Judgement, NoMemory>
        requires ordered { IsOrdered self.old.schema pair.node (ask_seen ask) }
        ensures exact { IfOk result (IsRightOf self.old pair (ask_seen ask.entry)) }
        ensures same { OnOk result (self.new ≡ self.old) }
    {
        match ask {
            Ask::Own(rule, node) => self.rule_judgement(pair, rule, node),
            Ask::Types(_node) => self.types_judgement(pair),
            Ask::Profile(_root) => Ok(Judgement::Holds),
            Ask::Root(node) => {
                let item = pair.item;
                self.judgement_of(ItemPair { item, node })
            }
            Ask::Child(position, node) => self.kid_judgement(pair, position, node),
        }
    }

    #[cycle(judging)]
    fn kid_judgement(
        &mut self,
        pair: ItemPair,
        position: usize,
        node: NodeRef,
    ) -> Result<Judgement, NoMemory>
        ensures exact { IfOk result (IsRightOf self.old pair (child position node)) }
        ensures same { OnOk result (self.new ≡ self.old) }
    {
        match self.layout().kid(pair.item, position) {
            Some(item) => self.judgement_of(ItemPair { item, node }),
            None => Ok(Judgement::Holds),
        }
    }

    /// The judgement on the types of a pair's node: one of them allows the item, and the item conforms to one of the profiles
    /// that it names. No more is judged than decides it.
    #[cycle(judging)]
    pub(crate) fn types_judgement(&mut self, pair: ItemPair) -> Result<Judgement, NoMemory>
        requires inner { is_root_node self.old.schema pair.node ≡ false }
        ensures exact { IfOk result (IsRightOf self.old pair (types pair.node)) }
        ensures same { OnOk result (self.new ≡ self.old) }
    {
        let entries = self.schema().types(pair.node);
        if entries.is_empty() {
            return Ok(Judgement::Holds);
        }
        let mut judgement = Judgement::Fails;
        for entry in entries {
            let one = self.entry_judgement(pair, entry)?;
            if let Judgement::Holds = one {
                return Ok(Judgement::Holds);
            }
            judgement = judgement.or(one);
        }
        Ok(judgement)
    }

    /// The judgement on an entry of the types of a pair's node.
    #[cycle(judging)]
    pub(crate) fn entry_judgement(
        &mut self,
        pair: ItemPair,
        entry: &'s TypeEntry,
    ) -> Result<Judgement, NoMemory>
        requires inner { is_root_node self.old.schema pair.node ≡ false }
        ensures exact { IfOk result (IsRightOn self.old pair.item (λ m roots.
            entry_holds self.old.schema m roots (item_at self.old pair.item) entry.now)) }
        ensures same { OnOk result (self.new ≡ self.old) }
    {
        let allows = Judgement::of(self.entry(pair, entry));
        if let Judgement::Fails = allows {
            return Ok(Judgement::Fails);
        }
        let conforms = self.profiles_judgement(pair, entry.profiles())?;
        Ok(allows.and(conforms))
    }

    /// The judgement on the profiles that a type names: the item of a pair conforms to one, where there are any.
    #[cycle(judging)]
    pub(crate) fn profiles_judgement(
        &mut self,
        pair: ItemPair,
        profiles: &[String],
    ) -> Result<Judgement, NoMemory>
        requires inner { is_root_node self.old.schema pair.node ≡ false }
        ensures exact { IfOk result (IsRightOn self.old pair.item (λ m roots.
            profiles_hold self.old.schema m roots (item_at self.old pair.item) (map string_bytes profiles.now))) }
        ensures same { OnOk result (self.new ≡ self.old) }
    {
        if profiles.is_empty() {
            return Ok(Judgement::Holds);
        }
        let mut judgement = Judgement::Fails;
        for profile in profiles {
            let one = self.profile_judgement(pair, profile.as_str())?;
            if let Judgement::Holds = one {
                return Ok(Judgement::Holds);
            }
            judgement = judgement.or(one);
        }
        Ok(judgement)
    }

    // The judgement on a profile that a type of a pair's node names. One that isn't there, or can't be used, is an unread rule.
    #[cycle(judging)]
    fn profile_judgement(&mut self, pair: ItemPair, profile: &str) -> Result<Judgement, NoMemory>
        requires inner { is_root_node self.old.schema pair.node ≡ false }
        ensures exact { IfOk result (IsRightOn self.old pair.item (λ m roots.
            profile_holds self.old.schema m roots (item_at self.old pair.item) profile.now)) }
        ensures same { OnOk result (self.new ≡ self.old) }
    {
        roots_are_roots();
        match self.schema().loaded(profile) {
            Some(node) => {
                let item = pair.item;
                self.judgement_of(ItemPair { item, node })
            }
            None => Ok(Judgement::of(self.unread_profile(profile))),
        }
    }
}
