//! The pairs that a pair asks for: those that its rules look up.

ghost use Rattle.std.specs.Prelude.{◌≡◌, ◌++◌, map, is_some, IfOk, OnOk};
ghost use Rattle.std.specs.List.{flat_map, list_all};
ghost use Rattle.std.specs.Option.{option_map, option_to_list};
ghost use Rattle.fhir_json.specs.Memory.{Gives};
ghost use Rattle.fhir_schema.specs.Schemas.{loaded, slots};
ghost use Rattle.fhir_cert_check.specs.Asked.{kids_pair, roots_pair, roots_asked, base_profiles, entry_asked, types_asked, profiles_kids_asked, code_root, entry_kids_asked};
ghost use Rattle.fhir_cert_check.specs.Asked.{children_asked, slice_pair, elements_asked, slot_asked, asked_for};

use crate::items::code_answers;
use crate::nodes::{entry_of, is_forbidden_at};
use fhir_certificate::{NodePair, Pair};
use fhir_elements::TypeEntry;
use fhir_json::NoMemory;
use fhir_schema::{NodeRef, Schema, Slot};
use std::alloc::Global;

// Memory is all that can be wanting.
type Done = Result<(), NoMemory>;

fn put(asked: &mut Vec<Pair>, pair: Option<Pair>) -> Done
    ensures { OnOk result (asked.new.items ≡ asked.old.items ++ option_to_list pair) }
{
    if let Some(pair) = pair {
        asked.push(pair)?;
    }
    Ok(())
}

fn roots_pair(schema: &Schema, own: &str, base: &str) -> Option<Pair>
    ensures { result ≡ roots_pair schema.now own.now base.now }
{
    if own == base {
        return None;
    }
    let derived = schema.loaded(own)?;
    let base = schema.loaded(base)?;
    Some(Pair::Item(NodePair { derived, base }))
}

fn kids_pair(base: NodeRef, derived: Option<NodeRef>) -> Option<Pair>
    ensures { result ≡ option_map (kids_pair base) derived }
{
    let derived = derived?;
    Some(Pair::Kids(NodePair { derived, base }))
}

// A type entry of the derived node.
#[derive(Clone, Copy)]
struct OwnEntry<'s> {
    schema: &'s Schema,
    entry: &'s TypeEntry,
}

impl OwnEntry<'_> {
    fn put_base_profiles<'b>(
        &self,
        alloc: Global,
        profiles: &mut Vec<&'b str>,
        base: &'b TypeEntry,
    ) -> Done
        ensures { OnOk result (map (λ p. p.now) profiles.new.items ≡ map (λ p. p.now) profiles.old.items
            ++ base_profiles self.now.schema.now self.now.entry.now base.now) }
    {
        if !code_answers(alloc, self.schema, self.entry, base)? {
            return Ok(());
        }
        for profile in base.profiles() {
            profiles.push(profile.as_str())?;
        }
        Ok(())
    }

    // They don't hang on the entry's own profiles, and so the targets are compared once.
    fn base_profiles<'b>(
        &self,
        alloc: Global,
        bases: &'b [TypeEntry],
    ) -> Result<Vec<&'b str>, NoMemory>
        ensures { IfOk result (λ profiles. map (λ p. p.now) profiles.items
            ≡ flat_map (base_profiles self.now.schema.now self.now.entry.now) bases.now) }
    {
        let mut profiles = Vec::new(alloc);
        for base in bases {
            self.put_base_profiles(alloc, &mut profiles, base)?;
        }
        Ok(profiles)
    }

    fn put_own(&self, asked: &mut Vec<Pair>, own: &str, bases: &[&str]) -> Done
        ensures { OnOk result (asked.new.items ≡ asked.old.items
            ++ roots_asked self.now.schema.now (map (λ p. p.now) bases.now) own.now) }
    {
        for base in bases {
            put(asked, roots_pair(self.schema, own, *base))?;
        }
        Ok(())
    }

    fn put_owns(&self, asked: &mut Vec<Pair>, bases: &[&str]) -> Done
        ensures { OnOk result (asked.new.items ≡ asked.old.items
            ++ flat_map (roots_asked self.now.schema.now (map (λ p. p.now) bases.now)) self.now.entry.now.profiles) }
    {
        for own in self.entry.profiles() {
            self.put_own(asked, own.as_str(), bases)?;
        }
        Ok(())
    }

    fn put_profiles(&self, alloc: Global, asked: &mut Vec<Pair>, bases: &[TypeEntry]) -> Done
        ensures { OnOk result (asked.new.items ≡ asked.old.items
            ++ entry_asked self.now.schema.now bases.now self.now.entry.now) }
    {
        // Most entries name none, and then no targets are compared.
        if self.entry.profiles().is_empty() {
            return Ok(());
        }
        let profiles = self.base_profiles(alloc, bases)?;
        self.put_owns(asked, &profiles)
    }

    fn are_loaded(&self) -> bool
        ensures { result ≡ list_all (λ p. is_some (loaded self.now.schema.now p)) self.now.entry.now.profiles }
    {
        for profile in self.entry.profiles() {
            if self.schema.loaded(profile.as_str()).is_none() {
                return false;
            }
        }
        true
    }

    fn put_profiles_kids(&self, asked: &mut Vec<Pair>, base: NodeRef) -> Done
        ensures { OnOk result (asked.new.items ≡ asked.old.items
            ++ profiles_kids_asked self.now.schema.now base self.now.entry.now.profiles) }
    {
        if !self.are_loaded() {
            return Ok(());
        }
        for profile in self.entry.profiles() {
            put(asked, kids_pair(base, self.schema.loaded(profile.as_str())))?;
        }
        Ok(())
    }

    fn code_root(&self) -> Option<NodeRef>
        ensures { result ≡ code_root self.now.schema.now self.now.entry.now }
    {
        if self.schema.is_resource(self.entry.code()) {
            None
        } else {
            self.schema.type_root(self.entry.code())
        }
    }

    fn put_kids(&self, asked: &mut Vec<Pair>, base: NodeRef) -> Done
        ensures { OnOk result (asked.new.items ≡ asked.old.items
            ++ entry_kids_asked self.now.schema.now base self.now.entry.now) }
    {
        self.put_profiles_kids(asked, base)?;
        put(asked, kids_pair(base, self.code_root()))
    }
}

fn put_types(alloc: Global, asked: &mut Vec<Pair>, schema: &Schema, nodes: NodePair) -> Done
    ensures { OnOk result (asked.new.items ≡ asked.old.items ++ types_asked schema.now nodes.derived nodes.base) }
{
    for entry in schema.types(nodes.derived) {
        OwnEntry { schema, entry }.put_profiles(alloc, asked, schema.types(nodes.base))?;
    }
    Ok(())
}

fn put_children(asked: &mut Vec<Pair>, schema: &Schema, nodes: NodePair) -> Done
    ensures { OnOk result (asked.new.items ≡ asked.old.items ++ children_asked schema.now nodes.derived nodes.base) }
{
    let Some(base) = schema.child_holder(nodes.base) else {
        return Ok(());
    };
    put(asked, kids_pair(base, schema.holder(nodes.derived)))?;
    for entry in schema.types(nodes.derived) {
        OwnEntry { schema, entry }.put_kids(asked, base)?;
    }
    Ok(())
}

fn slice_pair(schema: &Schema, nodes: NodePair, slice: &Slot) -> Option<Pair>
    ensures { result ≡ slice_pair schema.now nodes.derived nodes.base slice.now }
{
    let own = schema.slice(nodes.derived, slice.name())?;
    let derived = entry_of(nodes.derived, own);
    let base = entry_of(nodes.base, slice);
    if is_forbidden_at(schema, derived) {
        return None;
    }
    Some(Pair::Item(NodePair { derived, base }))
}

fn put_elements(asked: &mut Vec<Pair>, schema: &Schema, nodes: NodePair) -> Done
    ensures { OnOk result (asked.new.items ≡ asked.old.items ++ elements_asked schema.now nodes.derived nodes.base) }
{
    if is_forbidden_at(schema, nodes.derived) {
        return Ok(());
    }
    asked.push(Pair::Item(nodes))?;
    for slice in schema.slices(nodes.base) {
        put(asked, slice_pair(schema, nodes, slice))?;
    }
    Ok(())
}

fn put_slot(asked: &mut Vec<Pair>, schema: &Schema, nodes: NodePair, slot: &Slot) -> Done
    ensures { OnOk result (asked.new.items ≡ asked.old.items ++ slot_asked schema.now nodes.derived nodes.base slot.now) }
{
    let Some(own) = schema.slot(nodes.derived, slot.name()) else {
        return Ok(());
    };
    let derived = entry_of(nodes.derived, own);
    let base = entry_of(nodes.base, slot);
    put_elements(asked, schema, NodePair { derived, base })
}

fn put_slots(asked: &mut Vec<Pair>, schema: &Schema, nodes: NodePair) -> Done
    ensures { OnOk result (asked.new.items ≡ asked.old.items
        ++ flat_map (slot_asked schema.now nodes.derived nodes.base) (slots schema.now nodes.base)) }
{
    for slot in schema.slots(nodes.base) {
        put_slot(asked, schema, nodes, slot)?;
    }
    Ok(())
}

/// The pairs that a pair asks for: those that its rules look up, in the order of the rules, whether the rules hold or not. For
/// a pair of items, the roots of the profiles that its types name, and the children; for a pair of children, the elements of
/// each slot, and of each of its slices. The one refusal is want of memory.
pub fn asked_for(alloc: Global, schema: &Schema, pair: Pair) -> Result<Vec<Pair>, NoMemory>
    ensures { Gives (λ asked. asked.items) result (asked_for schema.now pair) }
{
    let mut asked = Vec::new(alloc);
    match pair {
        Pair::Item(nodes) => {
            put_types(alloc, &mut asked, schema, nodes)?;
            put_children(&mut asked, schema, nodes)?;
        }
        Pair::Kids(nodes) => put_slots(&mut asked, schema, nodes)?,
    }
    Ok(asked)
}
