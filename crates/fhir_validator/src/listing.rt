//! What is listed.

ghost use Rattle.std.specs.Prelude.{◌≡◌, ◌++◌, ◌∷◌, [], true, false, OnOk, ◌⊎◌};
ghost use Rattle.std.specs.BTreeSet.{contains};
ghost use Rattle.fhir_validator.specs.contracts.pair.ItemPairOrd.TheImpl.{cmp-value};
ghost use Rattle.fhir_validator.specs.declared.pair.ItemPair.{ItemPair};

use crate::issue::{Breach, Issue, Site};
use crate::judgement::Judgement;
use crate::pair::ItemPair;
use fhir_json::NoMemory;
use std::alloc::Global;
use std::collections::BTreeSet;
use std::marker::Model;

/// What is listed of the pairs that have a judgement, and the pairs of which all is listed.
#[derive(Drop)]
pub(crate) struct Listing<'s> {
    wanted: Judgement,
    marks: BTreeSet<ItemPair>,
    issues: Vec<Issue<'s>>,
    sites: Vec<Site<'s>>,
}

impl<'s> Model for Listing<'s> {
    ghost use Rattle.fhir_validator.specs.Listing.{ListingValue};

    ghost Value = { ListingValue };

    ghost use Rattle.fhir_validator.specs.Coding.{json_code};
    ghost use Rattle.std.specs.Coded.{codes};

    ghost coded = { Prim.hlevel (codes, json_code) };

    ghost view = { λ l. record { wanted = l.wanted; issues = l.issues.items; sites = l.sites.items; marks = l.marks } };
}

impl<'s> Listing<'s> {
    /// Nothing of the pairs with that judgement.
    pub(crate) fn new(alloc: Global, wanted: Judgement) -> Listing<'s>
        ensures wanted { result.wanted ≡ wanted }
        ensures issues { result.issues ≡ [] }
        ensures sites { result.sites ≡ [] }
        ensures marks { (p : ItemPair) → contains cmp-value.it result.marks p ≡ false }
    {
        Listing {
            wanted,
            marks: BTreeSet::new(alloc),
            issues: Vec::new(alloc),
            sites: Vec::new(alloc),
        }
    }

    /// The judgement of which is listed what it rests on.
    pub(crate) fn wanted(&self) -> Judgement
        ensures { result ≡ self.now.wanted }
    {
        self.wanted
    }

    /// Whether all is listed of a pair.
    pub(crate) fn is_marked(&self, pair: ItemPair) -> bool
        ensures { result ≡ contains cmp-value.it self.now.marks pair }
    {
        self.marks.contains(&pair)
    }

    /// Notes that all is listed of a pair.
    pub(crate) fn mark(&mut self, pair: ItemPair) -> Result<(), NoMemory>
        ensures wanted { self.new.wanted ≡ self.old.wanted }
        ensures issues { self.new.issues ≡ self.old.issues }
        ensures sites { self.new.sites ≡ self.old.sites }
        ensures marks { OnOk result ((p : ItemPair) → contains cmp-value.it self.new.marks p ≡ true
            → (p ≡ pair) ⊎ (contains cmp-value.it self.old.marks p ≡ true)) }
    {
        self.marks.insert(pair)?;
        Ok(())
    }

    /// Lists a rule that is broken.
    pub(crate) fn put_breach(&mut self, breach: Breach<'s>) -> Result<(), NoMemory>
        ensures { OnOk result (self.new ≡ record self.old { issues = self.old.issues ++ Issue.Broken breach.entry ∷ [] }) }
    {
        self.issues.push(Issue::Broken(breach))?;
        Ok(())
    }

    /// Lists an unread rule.
    pub(crate) fn put_site(&mut self, site: Site<'s>) -> Result<(), NoMemory>
        ensures { OnOk result (self.new ≡ record self.old { sites = self.old.sites ++ site.entry ∷ [] }) }
    {
        self.sites.push(site)?;
        Ok(())
    }

    /// The rules that are broken.
    pub(crate) fn into_issues(self) -> Vec<Issue<'s>>
        ensures { result.items ≡ self.entry.issues }
    {
        self.issues
    }

    /// The unread rules.
    pub(crate) fn into_sites(self) -> Vec<Site<'s>>
        ensures { result.items ≡ self.entry.sites }
    {
        self.sites
    }
}
