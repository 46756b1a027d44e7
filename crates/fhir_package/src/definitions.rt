//! The definitions that a tree holds.

ghost use Rattle.std.specs.Prelude.{◌≡◌, [], ◌∷◌, ◌++◌, IfOk, OnOk};
ghost use Rattle.std.specs.List.{flat_map};
ghost use Rattle.std.specs.Option.{option_map_or};
ghost use Rattle.fhir_json.specs.Views.{tree_of, trees_of};
ghost use Rattle.fhir_package.specs.Packing.{kind_named, definition_with, definition_of, is_bundle, held_within, definitions_in, in_entry};
ghost use Rattle.fhir_package.specs.Changing.{sound_definition};

use crate::kind::Kind;
use crate::parts::{take_field, take_items};
use fhir_json::{Json, MAX_DEPTH, NoMemory, sound_in};
use std::alloc::Global;
use std::marker::Model;

/// A definition: its kind, its url and its tree.
#[derive(Drop)]
pub struct Definition<'a> {
    pub(crate) kind: Kind,
    pub(crate) url: String,
    pub(crate) tree: Json<'a>,
}

impl<'a> Model for Definition<'a> {
    ghost use Rattle.std.specs.Prelude.{string_bytes};
    ghost use Rattle.fhir_json.specs.Views.{tree_of};
    ghost use Rattle.fhir_package.specs.Packing.{Definition as Shown};

    ghost Value = { Shown };

    ghost use Rattle.fhir_json.specs.Coding.{tree_code};
    ghost use Rattle.std.specs.Coded.{codes};

    ghost coded = { Prim.hlevel (codes, tree_code) };

    ghost view = { λ d. record { kind = d.kind; url = string_bytes d.url; tree = tree_of d.tree } };
}

impl<'a> Definition<'a> {
    /// The definition that a tree is, if it is sound and is one: of one of the three kinds, with a text `url`. The one refusal is
    /// want of memory.
    pub fn of(alloc: Global, tree: Json<'a>) -> Result<Option<Definition<'a>>, NoMemory>
        ensures { IfOk result (λ d. d ≡ sound_definition (tree_of tree.entry)) }
    {
        if !sound_in(alloc, &tree)? {
            return Ok(None);
        }
        definition_of(alloc, tree)
    }

    /// What it defines.
    pub fn kind(&self) -> Kind
        ensures { result ≡ self.now.kind }
    {
        self.kind
    }

    /// The url under which it is found.
    pub fn url(&self) -> &str
        ensures { result.now ≡ self.now.url }
    {
        self.url.as_str()
    }

    /// The definition itself.
    pub fn tree(&self) -> &Json<'a>
        ensures { tree_of result.now ≡ self.now.tree }
    {
        &self.tree
    }
}

fn kind_named(name: &str) -> Option<Kind>
    ensures { result ≡ kind_named name.now }
{
    match name {
        "StructureDefinition" => Some(Kind::StructureDefinition),
        "ValueSet" => Some(Kind::ValueSet),
        "CodeSystem" => Some(Kind::CodeSystem),
        _ => None,
    }
}

// The definition of that kind that a tree is, if it has a url.
fn definition_with<'a>(
    alloc: Global,
    kind: Kind,
    json: Json<'a>,
) -> Result<Option<Definition<'a>>, NoMemory>
    ensures { IfOk result (λ d. d ≡ definition_with (tree_of json.entry) kind) }
{
    let Some(url) = json.text_in("url") else {
        return Ok(None);
    };
    let url = String::from_str(alloc, url)?;
    Ok(Some(Definition {
        kind,
        url,
        tree: json,
    }))
}

/// The definition that a tree is, if it is one.
pub(crate) fn definition_of<'a>(
    alloc: Global,
    json: Json<'a>,
) -> Result<Option<Definition<'a>>, NoMemory>
    ensures { IfOk result (λ d. d ≡ definition_of (tree_of json.entry)) }
{
    match kind_named(json.text_at("resourceType")) {
        Some(kind) => definition_with(alloc, kind, json),
        None => Ok(None),
    }
}

fn push_definition<'a>(
    alloc: Global,
    json: Json<'a>,
    into: &mut Vec<Definition<'a>>,
) -> Result<(), NoMemory>
    ensures { OnOk result (into.new.items
        ≡ into.old.items ++ option_map_or (λ d. d ∷ []) (definition_of (tree_of json.entry)) []) }
{
    if let Some(definition) = definition_of(alloc, json)? {
        into.push(definition)?;
    }
    Ok(())
}

fn is_bundle(json: &Json<'_>) -> bool
    ensures { result ≡ is_bundle (tree_of json.now) }
{
    json.text_at("resourceType") == "Bundle"
}

// Puts the definitions that a tree holds within so many levels behind others.
#[cycle(held)]
fn push_held<'a>(
    alloc: Global,
    json: Json<'a>,
    levels: usize,
    into: &mut Vec<Definition<'a>>,
) -> Result<(), NoMemory>
    ensures { OnOk result (into.new.items ≡ into.old.items ++ held_within levels (tree_of json.entry)) }
{
    if levels == 0 {
        return Ok(());
    }
    if is_bundle(&json) {
        return push_entries(alloc, take_items(alloc, json, "entry"), levels - 1, into);
    }
    push_definition(alloc, json, into)
}

#[cycle(held)]
fn push_entries<'a>(
    alloc: Global,
    entries: Vec<Json<'a>>,
    levels: usize,
    into: &mut Vec<Definition<'a>>,
) -> Result<(), NoMemory>
    ensures { OnOk result (into.new.items
        ≡ into.old.items ++ flat_map (in_entry levels) (trees_of entries.entry.items)) }
{
    for entry in entries {
        push_entry(alloc, entry, levels, into)?;
    }
    Ok(())
}

#[cycle(held)]
fn push_entry<'a>(
    alloc: Global,
    entry: Json<'a>,
    levels: usize,
    into: &mut Vec<Definition<'a>>,
) -> Result<(), NoMemory>
    ensures { OnOk result (into.new.items ≡ into.old.items ++ in_entry levels (tree_of entry.entry)) }
{
    match take_field(alloc, entry, "resource") {
        Some(resource) => push_held(alloc, resource, levels, into),
        None => Ok(()),
    }
}

/// The definitions that a tree holds, in order: of a Bundle those in the `resource` of each `entry`, of any other tree the one that
/// it is, if it is one. The one refusal is want of memory.
pub fn definitions_in<'a>(alloc: Global, json: Json<'a>) -> Result<Vec<Definition<'a>>, NoMemory>
    ensures { IfOk result (λ v. v.items ≡ definitions_in (tree_of json.entry)) }
{
    let mut all = Vec::new(alloc);
    push_held(alloc, json, MAX_DEPTH, &mut all)?;
    Ok(all)
}
