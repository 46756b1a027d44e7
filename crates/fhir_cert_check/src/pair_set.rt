//! Sets of pairs, found fast.

ghost use Rattle.std.specs.Prelude.{◌≡◌, ◌∷◌, ◌++◌, [], ◌&&◌, ◌||◌, ◌↔◌, not, false, List, IfOk, OnOk, IsTrue};
ghost use Rattle.std.specs.List.{list_any};
ghost use Rattle.fhir_certificate.specs.declared.pair.NodePair.{NodePair};
ghost use Rattle.fhir_certificate.specs.declared.pair.Pair.{Pair};
ghost use Rattle.fhir_cert_check.specs.Checking.{same_nodes, is_among};
ghost use Rattle.fhir_cert_check.specs.PairSet.{has_pair, same_pair, AreMarked, MarkRepeated};

use fhir_certificate::{Certificate, NodePair, Pair};
use fhir_json::NoMemory;
use std::alloc::{AllocError, Global};
use std::collections::BTreeSet;
use std::marker::Model;

/// Pairs, kept in trees that find each in logarithmic time, whatever the pairs are.
#[derive(Drop)]
pub struct PairSet {
    items: BTreeSet<NodePair>,
    kids: BTreeSet<NodePair>,
}

impl Model for PairSet {
    ghost use Rattle.fhir_cert_check.specs.PairSet.{PairLists};

    ghost Value = { PairLists };

    ghost view = { λ s. record { items = s.items.keys; kids = s.kids.keys } };
}

fn has(set: &BTreeSet<NodePair>, pair: NodePair) -> bool
    ensures { result ≡ list_any (same_nodes pair) set.now.keys }
{
    set.contains(&pair)
}

fn insert(set: &mut BTreeSet<NodePair>, pair: NodePair) -> Result<bool, NoMemory>
    ensures new { IfOk result (λ is_new. is_new ≡ not (list_any (same_nodes pair) set.old.keys)) }
    ensures pairs { OnOk result ((p : NodePair) → list_any (same_nodes p) set.new.keys
        ≡ (same_nodes p pair || list_any (same_nodes p) set.old.keys)) }
{
    Ok(set.insert(pair)?)
}

fn remove(set: &mut BTreeSet<NodePair>, pair: NodePair)
    ensures { (p : NodePair) → list_any (same_nodes p) set.new.keys ≡ (not (same_nodes p pair) && list_any (same_nodes p) set.old.keys) }
{
    let _removed = set.remove(&pair);
}

impl PairSet {
    /// No pairs, which takes no memory.
    pub fn new(alloc: Global) -> PairSet
        ensures { (p : Pair) → has_pair result p ≡ false }
    {
        PairSet {
            items: BTreeSet::new(alloc),
            kids: BTreeSet::new(alloc),
        }
    }

    /// Whether it has a pair.
    pub fn has(&self, pair: Pair) -> bool
        ensures { result ≡ has_pair self.now pair }
    {
        match pair {
            Pair::Item(pair) => has(&self.items, pair),
            Pair::Kids(pair) => has(&self.kids, pair),
        }
    }

    /// Puts in a pair, and says whether it wasn't there. The one refusal is want of memory.
    pub fn insert(&mut self, pair: Pair) -> Result<bool, NoMemory>
        ensures new { IfOk result (λ is_new. is_new ≡ not (has_pair self.old pair)) }
        ensures pairs { OnOk result ((p : Pair) → has_pair self.new p ≡ (same_pair p pair || has_pair self.old p)) }
    {
        match pair {
            Pair::Item(pair) => insert(&mut self.items, pair),
            Pair::Kids(pair) => insert(&mut self.kids, pair),
        }
    }

    /// Takes out a pair, if it is there. It takes no memory.
    pub fn remove(&mut self, pair: Pair)
        ensures { (p : Pair) → has_pair self.new p ≡ (not (same_pair p pair) && has_pair self.old p) }
    {
        match pair {
            Pair::Item(pair) => remove(&mut self.items, pair),
            Pair::Kids(pair) => remove(&mut self.kids, pair),
        }
    }
}

/// Pairs are told to be the same exactly where they are equal.
pub fn same_pairs()
    ensures { (p q : Pair) → IsTrue (same_pair p q) ↔ (p ≡ q) }
{}

// ---- the pairs of a certificate

// The pairs of a list, and which of the list stand in it before. A mark takes a byte, and a second list of pairs would take 32.
#[derive(Drop)]
struct MarkedPairs {
    set: BTreeSet<NodePair>,
    repeated: Vec<bool>,
}

// Puts a pair in, and marks it where it is there.
fn put(
    set: &mut BTreeSet<NodePair>,
    repeated: &mut Vec<bool>,
    pair: NodePair,
) -> Result<(), AllocError>
    ensures { OnOk result ((ps : List NodePair) → AreMarked set.old.keys repeated.old.items ps
        → AreMarked set.new.keys repeated.new.items (ps ++ pair ∷ [])) }
{
    let is_new = set.insert(pair)?;
    repeated.push(!is_new)?;
    Ok(())
}

fn marked(alloc: Global, pairs: &[NodePair]) -> Result<MarkedPairs, AllocError>
    ensures { IfOk result (λ m. AreMarked m.set.keys m.repeated.items pairs.now) }
{
    let mut set = BTreeSet::new(alloc);
    let mut repeated = Vec::new(alloc);
    for pair in pairs {
        put(&mut set, &mut repeated, *pair)?;
    }
    Ok(MarkedPairs { set, repeated })
}

/// The set of a certificate's pairs, and which of its lists stand in them before.
#[derive(Drop)]
pub(crate) struct CertificatePairs {
    /// All of them.
    pub(crate) set: PairSet,
    /// The marks on those of items.
    pub(crate) repeated_items: Vec<bool>,
    /// The marks on those of children.
    pub(crate) repeated_kids: Vec<bool>,
}

impl CertificatePairs {
    /// Those of a certificate.
    pub(crate) fn of(
        alloc: Global,
        certificate: &Certificate,
    ) -> Result<CertificatePairs, AllocError>
        ensures same { IfOk result (λ c. (p : Pair) → has_pair c.set p ≡ is_among certificate.now p) }
        ensures marked { IfOk result (λ c. MarkRepeated c.repeated_items.items c.repeated_kids.items certificate.now) }
    {
        let items = marked(alloc, &certificate.items)?;
        let kids = marked(alloc, &certificate.kids)?;
        Ok(CertificatePairs {
            set: PairSet {
                items: items.set,
                kids: kids.set,
            },
            repeated_items: items.repeated,
            repeated_kids: kids.repeated,
        })
    }
}
