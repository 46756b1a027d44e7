//! A package completed with the snapshots of its definitions.

ghost use Rattle.std.specs.Prelude.{◌≡◌, false, map, string_bytes, IfOk, OnOk, OnErr};
ghost use Rattle.fhir_json.specs.Views.{tree_of};
ghost use Rattle.fhir_asking.specs.Asking.{Holds};
ghost use Rattle.fhir_package.specs.Definitions.{Definitions};
ghost use Rattle.fhir_inheritance.specs.Inheriting.{asking};
ghost use Rattle.fhir_inheritance.specs.Sources.{brings_snapshot};
ghost use Rattle.fhir_snapshot.specs.Faults.{number_of};
ghost use Rattle.fhir_snapshot.specs.Chains.{ending};
ghost use Rattle.fhir_snapshot.specs.Knowing.{AreKnown, Knows};
ghost use Rattle.fhir_snapshot.specs.Completing.{IsCompletion};
ghost use Rattle.fhir_snapshot.specs.Planning.{no_plan, PlansOne, put_trees, PlansAll};

use crate::fault::SnapFault;
use crate::knowing::find;
use crate::outcome::Outcome;
use fhir_asking::{Table, tables_hold};
use fhir_inheritance::{Named, NodeDef, Sources, brings_snapshot};
use fhir_json::{Json, NoMemory};
use fhir_overlay::with_snapshot;
use fhir_package::{Kind, Package};
use std::alloc::Global;
use std::marker::Model;

// What a package is to be completed with: trees, each in place of the one at a place; and the urls of the definitions that have
// no snapshot, each with the fault.
#[derive(Drop)]
struct Plan<'a> {
    trees: Vec<(usize, Json<'a>)>,
    faults: Vec<(String, SnapFault)>,
}

impl<'a> Model for Plan<'a> {
    ghost use Rattle.std.specs.Prelude.{map, string_bytes};
    ghost use Rattle.fhir_json.specs.Views.{tree_of};
    ghost use Rattle.fhir_snapshot.specs.Faults.{number_of};
    ghost use Rattle.fhir_snapshot.specs.Planning.{PlanValue};

    ghost Value = { PlanValue };

    ghost use Rattle.fhir_json.specs.Coding.{tree_code};
    ghost use Rattle.std.specs.Coded.{codes};

    ghost coded = { Prim.hlevel (codes, tree_code) };

    ghost view = { λ p. record {
      trees = map (λ t. (t.0, tree_of t.1)) p.trees.items;
      faults = map (λ f. (string_bytes f.0, number_of f.1)) p.faults.items;
    } };
}

impl<'a> Plan<'a> {
    fn new(alloc: Global) -> Plan<'a>
        ensures { result ≡ no_plan }
    {
        Plan {
            trees: Vec::new(alloc),
            faults: Vec::new(alloc),
        }
    }

    // Plans what becomes of a definition that brings no snapshot, of which it is known what it has.
    fn take_known(
        &mut self,
        alloc: Global,
        known: &Named<Outcome>,
        place: usize,
        url: &str,
        definition: &Json<'_>,
    ) -> Result<(), NoMemory>
        requires lacks { brings_snapshot (tree_of definition.now) ≡ false }
        requires knows { Knows known.now url.now }
        ensures { OnOk result ((p : Definitions) → AreKnown p known.now → PlansOne p place url.now (tree_of definition.now) self.old self.new) }
    {
        match known.get(url) {
            Some(Outcome::Made(elements)) => {
                let tree = with_snapshot(alloc, definition, elements)?;
                self.trees.push((place, tree))?;
            }
            Some(Outcome::Faulty(fault)) => {
                let url = String::from_str(alloc, url)?;
                let fault = fault.copied(alloc)?;
                self.faults.push((url, fault))?;
            }
            None => unreachable!(),
        }
        Ok(())
    }
}

// Plans what becomes of a definition.
fn take_one(
    alloc: Global,
    sources: &Sources<'_, '_>,
    nodes: &mut Table<NodeDef>,
    ends: &mut Table<bool>,
    known: &mut Named<Outcome>,
    plan: &mut Plan<'_>,
    place: usize,
    url: &str,
    definition: &Json<'_>,
) -> Result<(), NoMemory>
    requires holds { Holds (asking sources.now) nodes.old }
    requires ends { Holds (ending sources.now) ends.old }
    requires known { AreKnown sources.now known.old }
    ensures holds { Holds (asking sources.now) nodes.new }
    ensures ends { Holds (ending sources.now) ends.new }
    ensures known { OnOk result (AreKnown sources.now known.new) }
    ensures plans { OnOk result (PlansOne sources.now place url.now (tree_of definition.now) plan.old plan.new) }
{
    if brings_snapshot(definition) {
        return Ok(());
    }
    find(alloc, sources, nodes, ends, known, url)?;
    plan.take_known(alloc, known, place, url, definition)
}

// What a package is to be completed with.
fn plan_of<'a>(alloc: Global, package: &Package<'_>) -> Result<Plan<'a>, NoMemory>
    ensures { IfOk result (λ plan. PlansAll «package».now plan) }
{
    tables_hold::<NodeDef>();
    tables_hold::<bool>();
    let sources = Sources::of(alloc, package)?;
    let mut nodes = Table::new(alloc);
    let mut ends = Table::new(alloc);
    let mut known = Named::new(alloc);
    let mut plan = Plan::new(alloc);
    for place in 0..package.len(Kind::StructureDefinition) {
        if let Some((url, definition)) = package.at(Kind::StructureDefinition, place) {
            take_one(
                alloc, &sources, &mut nodes, &mut ends, &mut known, &mut plan, place, url,
                definition,
            )?;
        }
    }
    Ok(plan)
}

fn put_trees<'a>(package: &mut Package<'a>, trees: Vec<(usize, Json<'a>)>)
    ensures { «package».new ≡ put_trees (map (λ t. (t.0, tree_of t.1)) trees.entry.items) «package».old }
{
    for (place, tree) in trees {
        package.replace(Kind::StructureDefinition, place, tree);
    }
}

/// Completes a package (FHIR R4, Profiling, snapshots): each definition that brings no snapshot gets the one that `generate` makes
/// of it, in place of a member `snapshot` without elements or behind the others. Those that have none stay as they are; each is
/// listed by its url, in the order of the package, with a fault whose number applies. The one refusal is want of memory, which changes nothing.
pub fn complete(
    alloc: Global,
    package: &mut Package<'_>,
) -> Result<Vec<(String, SnapFault)>, NoMemory>
    ensures completed { IfOk result (λ faults. IsCompletion «package».old «package».new (map (λ f. (string_bytes f.0, number_of f.1)) faults.items)) }
    ensures unchanged { OnErr result («package».new ≡ «package».old) }
{
    let Plan { trees, faults } = plan_of(alloc, package)?;
    put_trees(package, trees);
    Ok(faults)
}
