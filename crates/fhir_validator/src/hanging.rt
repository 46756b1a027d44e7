//! What the types of a node hang on: unread targets, unread profiles, and profiles that hang on unread rules themselves.

ghost use Rattle.std.specs.Prelude.{◌≡◌, List, [], None, IsTrue, OnOk, IfOk};
ghost use Rattle.std.specs.List.{Contains, flat_map, list_any};
ghost use Rattle.fhir_nodes.specs.declared.node.NodeRef.{NodeRef};
ghost use Rattle.fhir_schema.specs.Schemas.{loaded, types as node_types};
ghost use Rattle.fhir_facets.specs.Carried.{target_unread};
ghost use Rattle.fhir_facets.specs.Unread.{Unread as Rule, is_given};
ghost use Rattle.fhir_conformance.specs.Asks.{profile};
ghost use Rattle.fhir_conformance.specs.Conformance.{entry_allows, entry_holds, profile_holds, profiles_hold};
ghost use Rattle.fhir_validator.specs.Layouts.{item_at};
ghost use Rattle.fhir_validator.specs.Listing.{ListingValue, AreHanging, IsHanging, IsEntry, IsNamedBy, IsAskedBy, RuleIsTold, Grown, Settles};

use crate::judgement::Judgement;
use crate::judging::Judge;
use crate::listing::Listing;
use crate::pair::ItemPair;
use fhir_conformance::{hangs_on_carried, positive};
use fhir_elements::TypeEntry;
use fhir_facets::{Holding, Unread};
use fhir_json::NoMemory;
use fhir_schema::NodeRef;

impl<'s, 't, 'a, 'j> Judge<'s, 't, 'a, 'j> {
    // Puts a root that the pair names as a profile behind the others, if it has the wanted judgement.
    fn open_root(
        &mut self,
        wanted: Judgement,
        roots: &mut Vec<NodeRef>,
        pair: ItemPair,
        root: NodeRef,
    ) -> Result<(), NoMemory>
        requires { IsAskedBy self.old pair (profile root) }
        ensures same { OnOk result (self.new ≡ self.old) }
        ensures settles { (listing : ListingValue) → listing.wanted ≡ wanted → OnOk result
            (Settles self.old pair (λ m conforming. conforming root) listing listing roots.old.items roots.new.items) }
    {
        positive();
        let same = ItemPair {
            item: pair.item,
            node: root,
        };
        let judgement = self.judgement_of(same)?;
        if judgement.is(wanted) {
            roots.push(root)?;
        }
        Ok(())
    }

    // Lists a profile that isn't there, or can't be used, if it is an unread rule on which what is wanted hangs.
    fn open_unread(
        &self,
        listing: &mut Listing<'s>,
        pair: ItemPair,
        canonical: &'s str,
    ) -> Result<(), NoMemory>
        requires named { IsNamedBy self.now listing.old.wanted pair canonical.now }
        requires unread { loaded self.now.schema canonical.now ≡ None }
        ensures settles { OnOk result ((roots : List NodeRef) → Settles self.now pair
            (λ m conforming. profile_holds self.now.schema m conforming (item_at self.now pair.item) canonical.now)
            listing.old listing.new roots roots) }
    {
        match (listing.wanted(), self.unread_profile(canonical)) {
            (Judgement::Open, Holding::Unread(unread)) => {
                self.put_site(listing, pair, unread, pair.node)
            }
            (Judgement::Given, Holding::Given(unread)) => {
                self.put_site(listing, pair, unread, pair.node)
            }
            _ => Ok(()),
        }
    }

    // Lists a profile of a type if what is wanted hangs on it as an unread rule, or puts its root behind the others if that has the
    // wanted judgement.
    fn open_profile(
        &mut self,
        listing: &mut Listing<'s>,
        roots: &mut Vec<NodeRef>,
        pair: ItemPair,
        canonical: &'s str,
    ) -> Result<(), NoMemory>
        requires { IsNamedBy self.old listing.old.wanted pair canonical.now }
        ensures same { OnOk result (self.new ≡ self.old) }
        ensures settles { OnOk result (Settles self.old pair
            (λ m conforming. profile_holds self.old.schema m conforming (item_at self.old pair.item) canonical.now)
            listing.old listing.new roots.old.items roots.new.items) }
    {
        match self.schema().loaded(canonical) {
            Some(root) => self.open_root(listing.wanted(), roots, pair, root),
            None => self.open_unread(listing, pair, canonical),
        }
    }

    // Does so for each profile of an entry.
    fn open_profiles(
        &mut self,
        listing: &mut Listing<'s>,
        roots: &mut Vec<NodeRef>,
        pair: ItemPair,
        entry: &'s TypeEntry,
    ) -> Result<(), NoMemory>
        requires { IsEntry self.old listing.old.wanted pair entry.now }
        ensures same { OnOk result (self.new ≡ self.old) }
        ensures settles { OnOk result (Settles self.old pair
            (λ m conforming. profiles_hold self.old.schema m conforming (item_at self.old pair.item) entry.now.profiles)
            listing.old listing.new roots.old.items roots.new.items) }
    {
        let profiles = entry.profiles();
        for profile in profiles {
            self.open_profile(listing, roots, pair, profile.as_str())?;
        }
        Ok(())
    }

    // Does so where their judgement is the wanted one.
    fn open_hanging_profiles(
        &mut self,
        listing: &mut Listing<'s>,
        roots: &mut Vec<NodeRef>,
        pair: ItemPair,
        entry: &'s TypeEntry,
    ) -> Result<(), NoMemory>
        requires { IsEntry self.old listing.old.wanted pair entry.now }
        ensures same { OnOk result (self.new ≡ self.old) }
        ensures settles { OnOk result (Settles self.old pair
            (λ m conforming. profiles_hold self.old.schema m conforming (item_at self.old pair.item) entry.now.profiles)
            listing.old listing.new roots.old.items roots.new.items) }
    {
        positive();
        let judgement = self.profiles_judgement(pair, entry.profiles())?;
        if judgement.is(listing.wanted()) {
            self.open_profiles(listing, roots, pair, entry)
        } else {
            Ok(())
        }
    }

    // Lists the targets of an entry that are given.
    fn put_targets(
        &self,
        listing: &mut Listing<'s>,
        pair: ItemPair,
        entry: &'s TypeEntry,
    ) -> Result<(), NoMemory>
        requires { (rule : Rule) → Contains (flat_map (target_unread self.now.schema) entry.now.targets) rule
            → IsTrue (is_given self.now.given rule) → IsHanging self.now listing.old.wanted pair pair.node rule }
        ensures told { OnOk result ((rule : Rule) → Contains (flat_map (target_unread self.now.schema) entry.now.targets) rule
            → IsTrue (is_given self.now.given rule) → RuleIsTold self.now listing.new rule) }
        ensures grown { OnOk result (Grown self.now pair listing.old listing.new) }
    {
        for target in entry.targets() {
            let unread = Unread::of_target(self.schema(), target.as_str());
            self.put_given(listing, pair, unread, pair.node)?;
        }
        Ok(())
    }

    // Lists the targets of an entry on which it hangs: the unread one, or the given ones, where what hangs on such is wanted.
    fn open_targets(
        &self,
        listing: &mut Listing<'s>,
        pair: ItemPair,
        entry: &'s TypeEntry,
    ) -> Result<(), NoMemory>
        requires { IsEntry self.now listing.old.wanted pair entry.now }
        ensures settles { OnOk result ((roots : List NodeRef) → Settles self.now pair
            (λ m conforming. entry_allows self.now.schema m (item_at self.now pair.item) entry.now)
            listing.old listing.new roots roots) }
    {
        hangs_on_carried();
        match (listing.wanted(), self.entry(pair, entry)) {
            (Judgement::Open, Holding::Unread(unread)) => {
                self.put_site(listing, pair, unread, pair.node)
            }
            (Judgement::Given, Holding::Given(_unread)) => self.put_targets(listing, pair, entry),
            _ => Ok(()),
        }
    }

    // Lists what an entry hangs on: its targets, and its profiles.
    fn open_entry(
        &mut self,
        listing: &mut Listing<'s>,
        roots: &mut Vec<NodeRef>,
        pair: ItemPair,
        entry: &'s TypeEntry,
    ) -> Result<(), NoMemory>
        requires { IsEntry self.old listing.old.wanted pair entry.now }
        ensures same { OnOk result (self.new ≡ self.old) }
        ensures settles { OnOk result (Settles self.old pair
            (λ m conforming. entry_holds self.old.schema m conforming (item_at self.old pair.item) entry.now)
            listing.old listing.new roots.old.items roots.new.items) }
    {
        self.open_targets(listing, pair, entry)?;
        self.open_hanging_profiles(listing, roots, pair, entry)
    }

    // Does so for an entry, if it has the wanted judgement.
    fn open_if_hanging(
        &mut self,
        listing: &mut Listing<'s>,
        roots: &mut Vec<NodeRef>,
        pair: ItemPair,
        entry: &'s TypeEntry,
    ) -> Result<(), NoMemory>
        requires hanging { AreHanging self.old listing.old.wanted pair }
        requires among { Contains (node_types self.old.schema pair.node) entry.now }
        ensures same { OnOk result (self.new ≡ self.old) }
        ensures settles { OnOk result (Settles self.old pair
            (λ m conforming. entry_holds self.old.schema m conforming (item_at self.old pair.item) entry.now)
            listing.old listing.new roots.old.items roots.new.items) }
    {
        hangs_on_carried();
        positive();
        let judgement = self.entry_judgement(pair, entry)?;
        if judgement.is(listing.wanted()) {
            self.open_entry(listing, roots, pair, entry)
        } else {
            Ok(())
        }
    }

    /// Lists the unread targets and profiles that the types of a pair's node hang on. It answers the roots of the profiles that they
    /// hang on, of which more is to be listed.
    pub(crate) fn open_roots(
        &mut self,
        listing: &mut Listing<'s>,
        pair: ItemPair,
    ) -> Result<Vec<NodeRef>, NoMemory>
        requires { AreHanging self.old listing.old.wanted pair }
        ensures same { OnOk result (self.new ≡ self.old) }
        ensures settles { IfOk result (λ roots. Settles self.old pair
            (λ m conforming. list_any (entry_holds self.old.schema m conforming (item_at self.old pair.item)) (node_types self.old.schema pair.node))
            listing.old listing.new [] roots.items) }
    {
        let mut roots: Vec<NodeRef> = Vec::new(self.alloc());
        let entries = self.schema().types(pair.node);
        for entry in entries {
            self.open_if_hanging(listing, &mut roots, pair, entry)?;
        }
        Ok(roots)
    }
}
