//! Which value sets OLD and NEW don't have alike, with all that they rest on.

ghost use Rattle.std.specs.Prelude.{◌≡◌, ◌++◌, [], IfOk, OnOk, false, is_some};
ghost use Rattle.std.specs.Option.{option_map_or, option_to_list};
ghost use Rattle.std.specs.List.{slice_get, filter_map};
ghost use Rattle.fhir_json.specs.Views.{tree_of, trees_of};
ghost use Rattle.fhir_definition.specs.Views.{lists_in};
ghost use Rattle.fhir_package.specs.declared.kind.Kind.TheVariants.{ValueSet, CodeSystem};
ghost use Rattle.fhir_codes.specs.ValueSets.{part_in, sets_named};
ghost use Rattle.fhir_alike.specs.Differing.{Differ};
ghost use Rattle.fhir_alike.specs.Naming.{place_named};
ghost use Rattle.fhir_alike.specs.Spreading.{told_at};
ghost use Rattle.fhir_alike.specs.ValueSets.{system_differs, name_differs, include_differs, some_differs, differs_itself, places_in, leads_to, set_edges, set_marks, AreChanges, TellsKept, kept_by};

use crate::differing::Differing;
use crate::naming::{name_stays, place_named};
use crate::spreading::spread;
use fhir_json::{Json, NoMemory};
use fhir_package::{Kind, Package};
use std::alloc::{AllocError, Global};

/// Which value sets of OLD mean something else in NEW.
#[derive(Drop)]
pub struct Changes {
    /// For each value set of OLD, in order, the place of one that differs by itself and on which it rests, if it rests on one: itself, if it is one.
    pub changed: Vec<Option<usize>>,
}

// What both packages have.
#[derive(Clone, Copy)]
struct Both<'b, 'o, 'n> {
    old: &'b Package<'o>,
    new: &'b Package<'n>,
    value_sets: &'b Differing,
    code_systems: &'b Differing,
}

// The includes, or the excludes, of a value set.
fn compose_items<'t, 'j>(value_set: &'t Json<'j>, name: &str) -> &'t [Json<'j>]
    ensures { trees_of result.now ≡ part_in name.now (tree_of value_set.entry.now) }
{
    match value_set.field("compose") {
        Some(compose) => compose.items_in(name),
        None => Default::default(),
    }
}

// Whether the code system of an include is another one in the two packages.
fn system_differs(both: Both<'_, '_, '_>, include: &Json<'_>) -> bool
    requires { Differ CodeSystem both.old.now both.new.now both.code_systems.now.urls }
    ensures { result ≡ system_differs both.entry.old.now both.entry.new.now (tree_of include.now) }
{
    match include.text_in("system") {
        Some(system) => both.code_systems.has(system),
        None => false,
    }
}

// Whether one of the value sets that an include names is there in one of the packages alone.
fn name_differs(both: Both<'_, '_, '_>, include: &Json<'_>) -> bool
    ensures { result ≡ name_differs both.entry.old.now both.entry.new.now (tree_of include.now) }
{
    for name in include.items_in("valueSet") {
        if !name_stays(both.old, both.new, Kind::ValueSet, name.text_or_empty()) {
            return true;
        }
    }
    false
}

fn include_differs(both: Both<'_, '_, '_>, include: &Json<'_>) -> bool
    requires { Differ CodeSystem both.old.now both.new.now both.code_systems.now.urls }
    ensures { result ≡ include_differs both.entry.old.now both.entry.new.now (tree_of include.now) }
{
    system_differs(both, include) || name_differs(both, include)
}

fn some_differs(both: Both<'_, '_, '_>, includes: &[Json<'_>]) -> bool
    requires { Differ CodeSystem both.old.now both.new.now both.code_systems.now.urls }
    ensures { result ≡ some_differs both.entry.old.now both.entry.new.now (trees_of includes.now) }
{
    for include in includes {
        if include_differs(both, include) {
            return true;
        }
    }
    false
}

// Whether a value set differs by itself: it is another one, or an include of it means another code system, or names what is there in one alone.
fn differs_itself(both: Both<'_, '_, '_>, url: &str, value_set: &Json<'_>) -> bool
    requires systems { Differ CodeSystem both.old.now both.new.now both.code_systems.now.urls }
    requires sets { Differ ValueSet both.old.now both.new.now both.value_sets.now.urls }
    ensures { result ≡ differs_itself both.entry.old.now both.entry.new.now (url.now, tree_of value_set.now) }
{
    both.value_sets.has(url)
        || some_differs(both, compose_items(value_set, "include"))
        || some_differs(both, compose_items(value_set, "exclude"))
}

// Puts in the place of the value set that a canonical names.
fn push_place(old: &Package<'_>, canonical: &str, places: &mut Vec<usize>) -> Result<(), AllocError>
    ensures { OnOk result (places.new.items ≡ places.old.items ++ option_to_list (place_named ValueSet old.now canonical.now)) }
{
    match place_named(old, Kind::ValueSet, canonical) {
        Some(place) => Ok(places.push(place)?),
        None => Ok(()),
    }
}

fn push_named(
    old: &Package<'_>,
    include: &Json<'_>,
    places: &mut Vec<usize>,
) -> Result<(), AllocError>
    ensures { OnOk result (places.new.items ≡ places.old.items ++ filter_map (place_named ValueSet old.now) (sets_named (tree_of include.now))) }
{
    for name in include.items_in("valueSet") {
        push_place(old, name.text_or_empty(), places)?;
    }
    Ok(())
}

fn push_all_named(
    old: &Package<'_>,
    includes: &[Json<'_>],
    places: &mut Vec<usize>,
) -> Result<(), AllocError>
    ensures { OnOk result (places.new.items ≡ places.old.items ++ places_in old.now (trees_of includes.now)) }
{
    for include in includes {
        push_named(old, include, places)?;
    }
    Ok(())
}

// The places of the value sets that one names.
fn leads_to(alloc: Global, old: &Package<'_>, value_set: &Json<'_>) -> Result<Vec<usize>, NoMemory>
    ensures { IfOk result (λ v. v.items ≡ leads_to old.now (tree_of value_set.now)) }
{
    let mut places = Vec::new(alloc);
    push_all_named(old, compose_items(value_set, "include"), &mut places)?;
    push_all_named(old, compose_items(value_set, "exclude"), &mut places)?;
    Ok(places)
}

// The same of the value set at a place.
fn leads_at(alloc: Global, old: &Package<'_>, place: usize) -> Result<Vec<usize>, NoMemory>
    ensures { IfOk result (λ v. v.items ≡ option_map_or (λ e. leads_to old.now e.1) (slice_get old.now.value_sets place) []) }
{
    match old.at(Kind::ValueSet, place) {
        Some((_url, value_set)) => leads_to(alloc, old, value_set),
        None => Ok(Vec::new(alloc)),
    }
}

fn edges_of(alloc: Global, old: &Package<'_>) -> Result<Vec<Vec<usize>>, NoMemory>
    ensures { IfOk result (λ v. lists_in v.items ≡ set_edges old.now) }
{
    let mut edges = Vec::with_capacity(alloc, old.len(Kind::ValueSet))?;
    for place in 0..old.len(Kind::ValueSet) {
        let leads = leads_at(alloc, old, place)?;
        edges.push(leads)?;
    }
    Ok(edges)
}

// Whether the value set at a place differs by itself.
fn differs_at(both: Both<'_, '_, '_>, place: usize) -> bool
    requires systems { Differ CodeSystem both.old.now both.new.now both.code_systems.now.urls }
    requires sets { Differ ValueSet both.old.now both.new.now both.value_sets.now.urls }
    ensures { result ≡ option_map_or (differs_itself both.entry.old.now both.entry.new.now) (slice_get both.entry.old.now.value_sets place) false }
{
    match both.old.at(Kind::ValueSet, place) {
        Some((url, value_set)) => differs_itself(both, url, value_set),
        None => false,
    }
}

fn marks_of(alloc: Global, both: Both<'_, '_, '_>) -> Result<Vec<bool>, NoMemory>
    requires systems { Differ CodeSystem both.old.now both.new.now both.code_systems.now.urls }
    requires sets { Differ ValueSet both.old.now both.new.now both.value_sets.now.urls }
    ensures { IfOk result (λ v. v.items ≡ set_marks both.entry.old.now both.entry.new.now) }
{
    let count = both.old.len(Kind::ValueSet);
    let mut marks = Vec::with_capacity(alloc, count)?;
    for place in 0..count {
        marks.push(differs_at(both, place))?;
    }
    Ok(marks)
}

impl Changes {
    /// Those between two packages. Each value set and each code system is compared once.
    pub fn between(alloc: Global, old: &Package<'_>, new: &Package<'_>) -> Result<Changes, NoMemory>
        ensures changes { IfOk result (λ c. AreChanges old.now new.now c.changed.items) }
        // So it is told of each canonical whether it means the same in both.
        ensures tells { IfOk result (λ c. TellsKept old.now new.now (kept_by old.now new.now c.changed.items)) }
    {
        let value_sets = Differing::of(alloc, Kind::ValueSet, old, new)?;
        let code_systems = Differing::of(alloc, Kind::CodeSystem, old, new)?;
        let both = Both {
            old,
            new,
            value_sets: &value_sets,
            code_systems: &code_systems,
        };
        let edges = edges_of(alloc, old)?;
        let marks = marks_of(alloc, both)?;
        let changed = spread(alloc, &edges, &marks)?;
        Ok(Changes { changed })
    }

    fn is_changed(&self, place: usize) -> bool
        ensures { result ≡ is_some (told_at self.now.changed.items place) }
    {
        match self.changed.get(place) {
            Some(Some(_)) => true,
            _ => false,
        }
    }

    /// Whether a canonical means the same of both packages: no value set, or one that is equal in both with all that it rests on.
    pub fn keeps(&self, old: &Package<'_>, new: &Package<'_>, canonical: &str) -> bool
        ensures { result ≡ kept_by old.now new.now self.now.changed.items canonical.now }
    {
        if !name_stays(old, new, Kind::ValueSet, canonical) {
            return false;
        }
        match place_named(old, Kind::ValueSet, canonical) {
            Some(place) => !self.is_changed(place),
            None => true,
        }
    }
}
