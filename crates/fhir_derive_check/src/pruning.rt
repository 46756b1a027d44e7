//! Pruning: the pairs fall that aren't right by those left, until each that is left is right.

ghost use Rattle.std.specs.Prelude.{◌≡◌, ◌++◌, ◌∷◌, [], map, IfOk, OnOk, IsTrue, if◌then◌else◌};
ghost use Rattle.std.specs.List.{Contains};
ghost use Rattle.fhir_certificate.specs.declared.pair.NodePair.{NodePair};
ghost use Rattle.fhir_certificate.specs.declared.pair.Pair.{Pair};
ghost use Rattle.fhir_cert_check.specs.Checking.{same_nodes};
ghost use Rattle.fhir_cert_check.specs.Rules.{failing_rule, is_local};
ghost use Rattle.fhir_cert_check.specs.Asked.{asked_for};
ghost use Rattle.fhir_cert_check.specs.PairSet.{has_pair, same_pair};
ghost use Rattle.fhir_cert_check.specs.Views.{rule_seen};
ghost use Rattle.std.specs.Option.{option_map, option_to_list};
ghost use Rattle.fhir_derive_check.specs.Finding.{is_in, IsDiscovery};
ghost use Rattle.fhir_derive_check.specs.Outcomes.{IsSettled};
ghost use Rattle.fhir_derive_check.specs.Discovering.{HasAll};
ghost use Rattle.fhir_derive_check.specs.Pruning.{wrong_seen, all_failing, askers_at, askers_of, ListsAskers, waiting_in, IsQueue, IsRevised, IsPruning, IsWithin};

use crate::discovery::Found;
use crate::queue::Queue;
use fhir_cert_check::{PairSet, Rule, asked_for, failing, more_pairs};
use fhir_certificate::{NodePair, Pair};
use fhir_json::NoMemory;
use fhir_schema::Schema;
use std::alloc::Global;
use std::collections::BTreeMap;

// Memory is all that can be wanting.
type Done = Result<(), NoMemory>;

/// A pair that fails a rule, with the first that it fails.
pub(crate) type Wrong<'s> = (Pair, Rule<'s>);

fn put_wrong<'s>(wrongs: &mut Vec<Wrong<'s>>, pair: Pair, rule: Option<Rule<'s>>) -> Done
    ensures { OnOk result (map wrong_seen wrongs.new.items
        ≡ map wrong_seen wrongs.old.items ++ option_to_list (option_map (λ name. (pair, name)) (rule_seen rule.entry))) }
{
    if let Some(rule) = rule {
        wrongs.push((pair, rule))?;
    }
    Ok(())
}

/// The pairs that fail a rule, in their order, where all that are found count.
pub(crate) fn failing_pairs<'s>(
    alloc: Global,
    schema: &'s Schema,
    found: &Found,
) -> Result<Vec<Wrong<'s>>, NoMemory>
    ensures { IfOk result (λ wrongs. map wrong_seen wrongs.items
        ≡ all_failing (failing_rule (has_pair found.now.live) schema.now) found.now.order.items) }
{
    let mut wrongs = Vec::new(alloc);
    for pair in &found.order {
        let rule = failing(alloc, schema, &found.live, *pair)?;
        put_wrong(&mut wrongs, *pair, rule)?;
    }
    Ok(wrongs)
}

// The pairs that ask for each pair of items, and for each of children.
#[derive(Drop)]
struct Askers {
    items: BTreeMap<NodePair, Vec<Pair>>,
    kids: BTreeMap<NodePair, Vec<Pair>>,
}

fn put_asker(
    alloc: Global,
    askers: &mut BTreeMap<NodePair, Vec<Pair>>,
    nodes: NodePair,
    asker: Pair,
) -> Done
    ensures { OnOk result ((other : NodePair) → askers_at askers.new other
        ≡ (if same_nodes other nodes then askers_at askers.old other ++ asker ∷ [] else askers_at askers.old other)) }
{
    askers.entry(nodes)?.or_insert(Vec::new(alloc)).push(asker)?;
    Ok(())
}

fn askers_at(askers: &BTreeMap<NodePair, Vec<Pair>>, nodes: NodePair) -> &[Pair]
    ensures { result.now ≡ askers_at askers.now nodes }
{
    match askers.get(&nodes) {
        Some(askers) => askers,
        None => Default::default(),
    }
}

impl Askers {
    fn put(&mut self, alloc: Global, asked: Pair, asker: Pair) -> Done
        ensures { OnOk result ((other : Pair) → askers_of self.new other
            ≡ (if same_pair other asked then askers_of self.old other ++ asker ∷ [] else askers_of self.old other)) }
    {
        match asked {
            Pair::Item(nodes) => put_asker(alloc, &mut self.items, nodes, asker),
            Pair::Kids(nodes) => put_asker(alloc, &mut self.kids, nodes, asker),
        }
    }

    fn of(&self, pair: Pair) -> &[Pair]
        ensures { result.now ≡ askers_of self.now pair }
    {
        match pair {
            Pair::Item(nodes) => askers_at(&self.items, nodes),
            Pair::Kids(nodes) => askers_at(&self.kids, nodes),
        }
    }
}

// Puts a pair to those that ask for each that it asks for; and into the set, where those are more than the number.
fn put_asks(
    alloc: Global,
    schema: &Schema,
    askers: &mut Askers,
    costly: &mut PairSet,
    asker: Pair,
    number: usize,
) -> Done
    ensures kept { OnOk result ((p q : Pair) → IsTrue (is_in (askers_of askers.old p) q) → IsTrue (is_in (askers_of askers.new p) q)) }
    ensures put { OnOk result ((p : Pair) → Contains (asked_for schema.now asker) p → IsTrue (is_in (askers_of askers.new p) asker)) }
{
    let asked = asked_for(alloc, schema, asker)?;
    for next in &asked {
        askers.put(alloc, *next, asker)?;
    }
    if asked.len() > number {
        costly.insert(asker)?;
    }
    Ok(())
}

// The pairs that ask for each; and the set gets the costly ones, which ask for more than the square root of how many there are.
fn askers_among(
    alloc: Global,
    schema: &Schema,
    pairs: &[Pair],
    costly: &mut PairSet,
) -> Result<Askers, NoMemory>
    ensures { IfOk result (λ askers. ListsAskers schema.now pairs.now (askers_of askers)) }
{
    let mut askers = Askers {
        items: BTreeMap::new(alloc),
        kids: BTreeMap::new(alloc),
    };
    let number = pairs.len().isqrt();
    for pair in pairs {
        put_asks(alloc, schema, &mut askers, costly, *pair, number)?;
    }
    Ok(askers)
}

fn is_right(alloc: Global, schema: &Schema, live: &PairSet, pair: Pair) -> Result<bool, NoMemory>
    ensures { IfOk result (λ right. right ≡ is_local (has_pair live.now) schema.now pair) }
{
    let rule = failing(alloc, schema, live, pair)?;
    Ok(rule.is_none())
}

// Judges a pair again: where it isn't right it falls, and those that ask for it are to be judged again.
fn revise(
    alloc: Global,
    schema: &Schema,
    askers: &Askers,
    costly: &PairSet,
    live: &mut PairSet,
    queue: &mut Queue,
    pair: Pair,
) -> Done
    ensures queue { OnOk result (IsQueue queue.old → IsQueue queue.new) }
    ensures revised { OnOk result (IsQueue queue.old
        → IsRevised schema.now (askers_of askers.now pair) pair live.old live.new (waiting_in queue.old) (waiting_in queue.new)) }
{
    if !live.has(pair) {
        return Ok(());
    }
    if is_right(alloc, schema, live, pair)? {
        return Ok(());
    }
    live.remove(pair);
    queue.put_all(askers.of(pair), costly)?;
    Ok(())
}

// Judges the pairs of a list again, and each that asks for one that falls, until none waits. The costly ones are judged where no other
// waits, so that they aren't judged again for each pair that falls.
fn revise_all(
    alloc: Global,
    schema: &Schema,
    askers: &Askers,
    costly: &PairSet,
    found: &mut Found,
    list: &[Pair],
) -> Done
    requires { IsWithin (has_pair found.old.live) found.old.order.items }
    ensures order { OnOk result (found.new.order ≡ found.old.order) }
    ensures settled { OnOk result ((first : Pair) → IsDiscovery (asked_for schema.now) first found.old.order.items
        → ListsAskers schema.now found.old.order.items (askers_of askers.now)
        → IsPruning schema.now found.old.order.items (has_pair found.old.live) list.now
        → IsSettled schema.now found.old.order.items (has_pair found.new.live)) }
{
    more_pairs();
    let mut queue = Queue::new(alloc);
    queue.put_all(list, costly)?;
    while let Some(pair) = queue.take_first() {
        revise(
            alloc,
            schema,
            askers,
            costly,
            &mut found.live,
            &mut queue,
            pair,
        )?;
    }
    Ok(())
}

fn pairs_of(alloc: Global, wrongs: &[Wrong<'_>]) -> Result<Vec<Pair>, NoMemory>
    ensures { IfOk result (λ pairs. pairs.items ≡ map (λ wrong. wrong.0) wrongs.now) }
{
    Ok(wrongs.iter().map(|wrong| wrong.0).collect(alloc)?)
}

/// Takes out those that count and aren't right, beginning with the pairs that fail where all count, until each that is left is right by those
/// left. A pair is judged again only where one that it asks for falls.
pub(crate) fn prune(alloc: Global, schema: &Schema, found: &mut Found, wrongs: &[Wrong<'_>]) -> Done
    requires { HasAll found.old.live found.old.order.items }
    ensures order { OnOk result (found.new.order ≡ found.old.order) }
    ensures settled { OnOk result ((first : Pair) → IsDiscovery (asked_for schema.now) first found.old.order.items
        → map wrong_seen wrongs.now ≡ all_failing (failing_rule (has_pair found.old.live) schema.now) found.old.order.items
        → IsSettled schema.now found.old.order.items (has_pair found.new.live)) }
{
    let mut costly = PairSet::new(alloc);
    let askers = askers_among(alloc, schema, &found.order, &mut costly)?;
    let list = pairs_of(alloc, wrongs)?;
    revise_all(alloc, schema, &askers, &costly, found, &list)
}
