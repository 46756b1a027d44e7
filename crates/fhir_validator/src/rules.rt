//! Explaining rules: what is listed of a rule that fails, is open or holds as given, and of types that fail.

ghost use Rattle.std.specs.Prelude.{◌≡◌, [], false, IsTrue, OnOk};
ghost use Rattle.std.specs.List.{Contains};
ghost use Rattle.std.specs.Option.{option_map_or};
ghost use Rattle.fhir_json.specs.Views.{property_seen};
ghost use Rattle.fhir_facets.specs.Carried.{bound_unread};
ghost use Rattle.fhir_facets.specs.Unread.{Unread as Rule, is_given};
ghost use Rattle.fhir_facets.specs.Views.{unread_seen, rules_in};
ghost use Rattle.fhir_conformance.specs.Asks.{own, types, range};
ghost use Rattle.fhir_conformance.specs.Meeting.{rule_unread};
ghost use Rattle.fhir_conformance.specs.Views.{rule_name};
ghost use Rattle.fhir_validator.specs.Layouts.{item_at};
ghost use Rattle.fhir_validator.specs.Judging.{IsRightOf};
ghost use Rattle.fhir_validator.specs.Listing.{IsToList, IsHanging, RuleIsTold, Grown, Lists};

use crate::breaches::told_at;
use crate::judgement::Judgement;
use crate::judging::Judge;
use crate::listing::Listing;
use crate::pair::ItemPair;
use fhir_conformance::{ElementRule, hangs_on_carried};
use fhir_facets::{Holding, Unread};
use fhir_json::{Member, NoMemory};
use fhir_schema::NodeRef;

impl<'s, 't, 'a, 'j> Judge<'s, 't, 'a, 'j> {
    /// Lists an unread rule that something hangs on which the pair asks, and which is told at the node.
    pub(crate) fn put_site(
        &self,
        listing: &mut Listing<'s>,
        pair: ItemPair,
        unread: Unread<'s>,
        node: NodeRef,
    ) -> Result<(), NoMemory>
        requires { IsHanging self.now listing.old.wanted pair node (unread_seen unread) }
        ensures told { OnOk result (RuleIsTold self.now listing.new (unread_seen unread.entry)) }
        ensures grown { OnOk result (Grown self.now pair listing.old listing.new) }
    {
        let site = self.site_of(pair, unread, node)?;
        listing.put_site(site)
    }

    /// Lists an unread rule, if there is one and it is given.
    pub(crate) fn put_given(
        &self,
        listing: &mut Listing<'s>,
        pair: ItemPair,
        unread: Option<Unread<'s>>,
        node: NodeRef,
    ) -> Result<(), NoMemory>
        requires { (rule : Rule) → Contains (rules_in unread) rule → IsTrue (is_given self.now.given rule)
            → IsHanging self.now listing.old.wanted pair node rule }
        ensures told { OnOk result ((rule : Rule) → Contains (rules_in unread.entry) rule → IsTrue (is_given self.now.given rule)
            → RuleIsTold self.now listing.new rule) }
        ensures grown { OnOk result (Grown self.now pair listing.old listing.new) }
    {
        match unread {
            Some(rule) if self.layout().given().contains(&rule) => {
                self.put_site(listing, pair, rule, node)
            }
            _ => Ok(()),
        }
    }

    // Lists a rule that the pair asks for and that fails.
    fn list_broken(
        &self,
        listing: &mut Listing<'s>,
        pair: ItemPair,
        rule: ElementRule<'s>,
        node: NodeRef,
    ) -> Result<(), NoMemory>
        requires asked { IsToList self.now listing.old pair (own (rule_name rule) node) }
        requires fails { IsRightOf self.now pair (own (rule_name rule) node) Judgement.Fails }
        ensures { OnOk result (Lists self.now pair (own (rule_name rule.entry) node) listing.old listing.new) }
    {
        let breach = self.breach_of(pair, rule, node)?;
        listing.put_breach(breach)
    }

    // Lists an unread rule that a rule of the pair hangs on, where what is open is wanted.
    fn list_open(
        &self,
        listing: &mut Listing<'s>,
        pair: ItemPair,
        rule: ElementRule<'s>,
        node: NodeRef,
        unread: Unread<'s>,
    ) -> Result<(), NoMemory>
        requires asked { IsToList self.now listing.old pair (own (rule_name rule) node) }
        requires hangs { IsRightOf self.now pair (own (rule_name rule) node) Judgement.Open }
        requires carried { Contains (rule_unread self.now.schema (item_at self.now pair.item) (rule_name rule) node) (unread_seen unread) }
        requires vouched { is_given self.now.given (unread_seen unread) ≡ false }
        ensures { OnOk result (Lists self.now pair (own (rule_name rule.entry) node) listing.old listing.new) }
    {
        hangs_on_carried();
        if listing.wanted().is(Judgement::Open) {
            self.put_site(listing, pair, unread, told_at(pair.node, rule, node))
        } else {
            Ok(())
        }
    }

    // Lists the unread rule that a bound is, if there is one and it is given.
    fn put_bound(
        &self,
        listing: &mut Listing<'s>,
        pair: ItemPair,
        bound: Option<&'s Member<'static>>,
        node: NodeRef,
    ) -> Result<(), NoMemory>
        requires { (rule : Rule) → Contains (option_map_or bound_unread (property_seen bound) []) rule
            → IsTrue (is_given self.now.given rule) → IsHanging self.now listing.old.wanted pair node rule }
        ensures told { OnOk result ((rule : Rule) → Contains (option_map_or bound_unread (property_seen bound.entry) []) rule
            → IsTrue (is_given self.now.given rule) → RuleIsTold self.now listing.new rule) }
        ensures grown { OnOk result (Grown self.now pair listing.old listing.new) }
    {
        match bound {
            Some(bound) => self.put_given(listing, pair, Unread::of_bound(bound), node),
            None => Ok(()),
        }
    }

    // Lists the unread rules that bounds of a node are, those of them that are given.
    fn put_bounds(
        &self,
        listing: &mut Listing<'s>,
        pair: ItemPair,
        node: NodeRef,
    ) -> Result<(), NoMemory>
        requires { (rule : Rule) → Contains (rule_unread self.now.schema (item_at self.now pair.item) range node) rule
            → IsTrue (is_given self.now.given rule) → IsHanging self.now listing.old.wanted pair node rule }
        ensures told { OnOk result ((rule : Rule)
            → Contains (rule_unread self.now.schema (item_at self.now pair.item) range node) rule
            → IsTrue (is_given self.now.given rule) → RuleIsTold self.now listing.new rule) }
        ensures grown { OnOk result (Grown self.now pair listing.old listing.new) }
    {
        let Some(element) = self.schema().element(node) else {
            return Ok(());
        };
        self.put_bound(listing, pair, element.min_value(), node)?;
        self.put_bound(listing, pair, element.max_value(), node)
    }

    // Lists the given rules that a rule of the pair carries, where what holds as given is wanted.
    fn list_given(
        &self,
        listing: &mut Listing<'s>,
        pair: ItemPair,
        rule: ElementRule<'s>,
        node: NodeRef,
        unread: Unread<'s>,
    ) -> Result<(), NoMemory>
        requires asked { IsToList self.now listing.old pair (own (rule_name rule) node) }
        requires hangs { IsRightOf self.now pair (own (rule_name rule) node) Judgement.Given }
        requires carried { Contains (rule_unread self.now.schema (item_at self.now pair.item) (rule_name rule) node) (unread_seen unread) }
        requires vouched { IsTrue (is_given self.now.given (unread_seen unread)) }
        ensures { OnOk result (Lists self.now pair (own (rule_name rule.entry) node) listing.old listing.new) }
    {
        hangs_on_carried();
        if !listing.wanted().is(Judgement::Given) {
            return Ok(());
        }
        match rule {
            ElementRule::Range => self.put_bounds(listing, pair, node),
            _ => self.put_site(listing, pair, unread, told_at(pair.node, rule, node)),
        }
    }

    /// Lists a rule that the pair asks for, if it has the wanted judgement: that it fails, the unread rule that it hangs on, or the
    /// given ones on which it rests.
    pub(crate) fn list_rule(
        &self,
        listing: &mut Listing<'s>,
        pair: ItemPair,
        rule: ElementRule<'s>,
        node: NodeRef,
    ) -> Result<(), NoMemory>
        requires { IsToList self.now listing.old pair (own (rule_name rule) node) }
        ensures { OnOk result (Lists self.now pair (own (rule_name rule.entry) node) listing.old listing.new) }
    {
        hangs_on_carried();
        let holding = self.rule(pair, rule, node)?;
        match holding {
            Holding::Holds => Ok(()),
            Holding::Fails => self.list_broken(listing, pair, rule, node),
            Holding::Given(unread) => self.list_given(listing, pair, rule, node, unread),
            Holding::Unread(unread) => self.list_open(listing, pair, rule, node, unread),
        }
    }

    /// Lists that the item of a pair is of none of the types of the pair's node.
    pub(crate) fn list_misfit(
        &self,
        listing: &mut Listing<'s>,
        pair: ItemPair,
    ) -> Result<(), NoMemory>
        requires asked { IsToList self.now listing.old pair (types pair.node) }
        requires fails { IsRightOf self.now pair (types pair.node) Judgement.Fails }
        ensures { OnOk result (Lists self.now pair (types pair.node) listing.old listing.new) }
    {
        let misfit = self.misfit_of(pair)?;
        listing.put_breach(misfit)
    }
}
