//! Explaining a verdict: what fails, what is open, or what holds as given, from the outermost pair on.

ghost use Rattle.std.specs.Prelude.{◌≡◌, true, OnOk, IfOk, IsTrue};
ghost use Rattle.fhir_conformance.specs.Asks.{types, profile, child};
ghost use Rattle.fhir_conformance.specs.Views.{ask_seen};
ghost use Rattle.fhir_validator.specs.Judging.{IsRight, IsRightOf};
ghost use Rattle.fhir_validator.specs.Listing.{IsToList, PairIsAllowed, PairIsTold, MarksAreTold, IsAskedBy, is_hanging, Grown, Lists};

use crate::judgement::Judgement;
use crate::judging::Judge;
use crate::listing::Listing;
use crate::pair::ItemPair;
use fhir_conformance::{Ask, hangs_on_carried, positive};
use fhir_json::NoMemory;
use fhir_schema::{NodeRef, roots_are_roots};

impl<'s, 't, 'a, 'j> Judge<'s, 't, 'a, 'j> {
    fn types_fail(&mut self, pair: ItemPair) -> Result<bool, NoMemory>
        ensures { OnOk result (self.new ≡ self.old) }
    {
        if self.schema().is_root(pair.node) {
            return Ok(false);
        }
        let judgement = self.types_judgement(pair)?;
        Ok(judgement.is(Judgement::Fails))
    }

    // Whether the profiles of a pair's types are to be explained: what fails is wanted, and the types do. A profile that fails
    // beside one that holds is no issue.
    fn explains_profiles(&mut self, wanted: Judgement, pair: ItemPair) -> Result<bool, NoMemory>
        ensures same { OnOk result (self.new ≡ self.old) }
        ensures failing { IfOk result (λ explains. IsTrue explains → wanted ≡ Judgement.Fails) }
    {
        match wanted {
            Judgement::Fails => self.types_fail(pair),
            Judgement::Holds => Ok(false),
            Judgement::Given => Ok(false),
            Judgement::Open => Ok(false),
        }
    }

    /// Lists what a pair with the wanted judgement rests on: at each pair that it asks for, and that has the judgement too, the rules
    /// that have it. Each pair is entered once.
    #[cycle(explaining)]
    pub(crate) fn list_pair(
        &mut self,
        listing: &mut Listing<'s>,
        pair: ItemPair,
    ) -> Result<(), NoMemory>
        requires { IsRight self.old pair listing.old.wanted }
        ensures same { OnOk result (self.new ≡ self.old) }
        ensures told { OnOk result (MarksAreTold self.old listing.old → PairIsTold self.old pair listing.new) }
        ensures grown { OnOk result (Grown self.old pair listing.old listing.new) }
    {
        if listing.is_marked(pair) {
            return Ok(());
        }
        self.list_asks(listing, pair)?;
        listing.mark(pair)
    }

    #[cycle(explaining)]
    fn list_asks(&mut self, listing: &mut Listing<'s>, pair: ItemPair) -> Result<(), NoMemory>
        requires { IsRight self.old pair listing.old.wanted }
        ensures same { OnOk result (self.new ≡ self.old) }
        ensures told { OnOk result (MarksAreTold self.old listing.old → PairIsTold self.old pair listing.new) }
        ensures grown { OnOk result (Grown self.old pair listing.old listing.new) }
    {
        roots_are_roots();
        let asked = self.asks(pair)?;
        let explains = self.explains_profiles(listing.wanted(), pair)?;
        for ask in &asked {
            self.list_ask(listing, pair, explains, *ask)?;
        }
        Ok(())
    }

    #[cycle(explaining)]
    fn list_ask(
        &mut self,
        listing: &mut Listing<'s>,
        pair: ItemPair,
        explains: bool,
        ask: Ask<'s>,
    ) -> Result<(), NoMemory>
        requires asked { IsToList self.old listing.old pair (ask_seen ask) }
        requires failing { IsTrue explains → listing.old.wanted ≡ Judgement.Fails }
        ensures same { OnOk result (self.new ≡ self.old) }
        ensures lists { OnOk result (Lists self.old pair (ask_seen ask.entry) listing.old listing.new) }
    {
        roots_are_roots();
        match ask {
            Ask::Own(rule, node) => self.list_rule(listing, pair, rule, node),
            Ask::Types(_node) => self.list_types(listing, pair),
            Ask::Profile(root) => self.list_profile(listing, pair, explains, root),
            Ask::Root(node) => {
                let item = pair.item;
                self.list_same(listing, ItemPair { item, node })
            }
            Ask::Child(position, node) => self.list_kid(listing, pair, position, node),
        }
    }

    // Lists that the types of a pair's node fail, or what they hang on.
    #[cycle(explaining)]
    fn list_types(&mut self, listing: &mut Listing<'s>, pair: ItemPair) -> Result<(), NoMemory>
        requires { IsToList self.old listing.old pair (types pair.node) }
        ensures same { OnOk result (self.new ≡ self.old) }
        ensures lists { OnOk result (Lists self.old pair (types pair.node) listing.old listing.new) }
    {
        hangs_on_carried();
        positive();
        roots_are_roots();
        match self.types_judgement(pair)? {
            Judgement::Holds => Ok(()),
            Judgement::Fails => self.list_misfit(listing, pair),
            hanging => self.list_hanging(listing, pair, hanging),
        }
    }

    // Lists what the types of a pair's node hang on, where their judgement is wanted: unread rules, and what profiles rest on that
    // hang on such themselves.
    #[cycle(explaining)]
    fn list_hanging(
        &mut self,
        listing: &mut Listing<'s>,
        pair: ItemPair,
        judgement: Judgement,
    ) -> Result<(), NoMemory>
        requires asked { IsToList self.old listing.old pair (types pair.node) }
        requires hangs { IsRightOf self.old pair (types pair.node) judgement }
        requires hanging { is_hanging judgement ≡ true }
        ensures same { OnOk result (self.new ≡ self.old) }
        ensures lists { OnOk result (Lists self.old pair (types pair.node) listing.old listing.new) }
    {
        hangs_on_carried();
        positive();
        roots_are_roots();
        if !judgement.is(listing.wanted()) {
            return Ok(());
        }
        let roots = self.open_roots(listing, pair)?;
        for root in &roots {
            self.list_root(listing, pair, *root)?;
        }
        Ok(())
    }

    // Lists what a profile rests on that has the wanted judgement.
    #[cycle(explaining)]
    fn list_root(
        &mut self,
        listing: &mut Listing<'s>,
        pair: ItemPair,
        root: NodeRef,
    ) -> Result<(), NoMemory>
        requires asked { IsAskedBy self.old pair (profile root) }
        requires wanted { IsRight self.old (record { item = pair.item; node = root }) listing.old.wanted }
        ensures same { OnOk result (self.new ≡ self.old) }
        ensures told { OnOk result (MarksAreTold self.old listing.old → PairIsTold self.old (record { item = pair.item; node = root }) listing.new) }
        ensures grown { OnOk result (Grown self.old pair listing.old listing.new) }
    {
        roots_are_roots();
        let same = ItemPair {
            item: pair.item,
            node: root,
        };
        self.list_pair(listing, same)
    }

    // Lists what a profile rests on that fails, where that is to be explained.
    #[cycle(explaining)]
    fn list_profile(
        &mut self,
        listing: &mut Listing<'s>,
        pair: ItemPair,
        explains: bool,
        root: NodeRef,
    ) -> Result<(), NoMemory>
        requires asked { IsAskedBy self.old pair (profile root) }
        requires failing { IsTrue explains → listing.old.wanted ≡ Judgement.Fails }
        ensures same { OnOk result (self.new ≡ self.old) }
        ensures grown { OnOk result (Grown self.old pair listing.old listing.new) }
    {
        roots_are_roots();
        if explains {
            let same = ItemPair {
                item: pair.item,
                node: root,
            };
            self.list_same(listing, same)
        } else {
            Ok(())
        }
    }

    #[cycle(explaining)]
    fn list_kid(
        &mut self,
        listing: &mut Listing<'s>,
        pair: ItemPair,
        position: usize,
        node: NodeRef,
    ) -> Result<(), NoMemory>
        requires { IsToList self.old listing.old pair (child position node) }
        ensures same { OnOk result (self.new ≡ self.old) }
        ensures lists { OnOk result (Lists self.old pair (child position node) listing.old listing.new) }
    {
        match self.layout().kid(pair.item, position) {
            Some(item) => self.list_same(listing, ItemPair { item, node }),
            None => Ok(()),
        }
    }

    // Lists what a pair rests on, if it has the wanted judgement.
    #[cycle(explaining)]
    fn list_same(&mut self, listing: &mut Listing<'s>, pair: ItemPair) -> Result<(), NoMemory>
        requires { PairIsAllowed self.old listing.old pair }
        ensures same { OnOk result (self.new ≡ self.old) }
        ensures told { OnOk result (MarksAreTold self.old listing.old → PairIsTold self.old pair listing.new) }
        ensures grown { OnOk result (Grown self.old pair listing.old listing.new) }
    {
        positive();
        let judgement = self.judgement_of(pair)?;
        if judgement.is(listing.wanted()) {
            self.list_pair(listing, pair)
        } else {
            Ok(())
        }
    }
}
