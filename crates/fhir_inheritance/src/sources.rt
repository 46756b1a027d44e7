//! What snapshots are made of.

ghost use Rattle.std.specs.Prelude.{◌≡◌, [], length, None, Some, is_some, false, IfOk, OnOk, map, string_bytes, if◌then◌else◌};
ghost use Rattle.std.specs.Option.{option_map, option_copied, option_or};
ghost use Rattle.std.specs.List.{find};
ghost use Rattle.std.specs.Map.{lookup};
ghost use Rattle.std.specs.Str.{bytes_eq};
ghost use Rattle.fhir_json.specs.Tree.{Text};
ghost use Rattle.fhir_json.specs.Views.{tree_of, trees_of, text_seen, tree_seen};
ghost use Rattle.fhir_package.specs.declared.kind.Kind.TheVariants.{StructureDefinition};
ghost use Rattle.fhir_package.specs.Definitions.{at_url, of_kind};
ghost use Rattle.fhir_names.specs.Texts.{cut_at_first};
ghost use Rattle.fhir_definition.specs.Snapshot.{is_root};
ghost use Rattle.fhir_elements.specs.Element.{fields_of};
ghost use Rattle.fhir_inheritance.specs.Sources.{has_elements, brings_snapshot, trees_in, elements_in, is_constraint, canonical_url, base_of, source_of, source_at, root_key, is_type_of, type_key, only_type_key, url_in_front, hash, target_key, written_root_key, keys_seen};

use crate::elements::Elements;
use crate::keys::key;
use crate::named::Named;
use fhir_definition::{is_root, is_type_definition};
use fhir_elements::{ElementDef, TypeEntry, fields_of};
use fhir_json::{Json, NoMemory};
use fhir_names::Canonical;
use fhir_package::{Kind, Package};
use std::alloc::Global;
use std::marker::Model;

/// What a definition brings: whether that is a snapshot, the definition on which it rests, and the elements.
#[derive(Drop)]
pub struct SourceDef {
    written: bool,
    base: Option<String>,
    elements: Elements,
}

impl Model for SourceDef {
    ghost use Rattle.std.specs.Prelude.{string_bytes};
    ghost use Rattle.std.specs.Option.{option_map};
    ghost use Rattle.fhir_inheritance.specs.Sources.{Source};

    ghost Value = { Source };

    ghost use Rattle.fhir_json.specs.Coding.{tree_code};
    ghost use Rattle.std.specs.Coded.{codes};

    ghost coded = { Prim.hlevel (codes, tree_code) };

    ghost view = { λ s. record {
      written = s.written;
      base = option_map string_bytes s.base;
      elements = s.elements;
    } };
}

impl SourceDef {
    /// Whether it is a snapshot.
    pub fn is_written(&self) -> bool
        ensures { result ≡ self.now.written }
    {
        self.written
    }

    /// The url of the definition on which it rests.
    pub fn base(&self) -> Option<&str>
        ensures { option_map (λ r. r.now) result ≡ self.now.base }
    {
        match &self.base {
            Some(url) => Some(url.as_str()),
            None => None,
        }
    }

    /// The elements.
    pub fn elements(&self) -> &Elements
        ensures { result.now ≡ self.now.elements }
    {
        &self.elements
    }
}

fn has_elements(snapshot: &Json<'_>) -> bool
    ensures { result ≡ has_elements (tree_of snapshot.now) }
{
    match snapshot.field("element") {
        Some(elements) => !elements.is_array() || !snapshot.items_in("element").is_empty(),
        None => false,
    }
}

/// Whether a definition brings a snapshot.
pub fn brings_snapshot(definition: &Json<'_>) -> bool
    ensures { result ≡ brings_snapshot (tree_of definition.now) }
{
    match definition.field("snapshot") {
        Some(snapshot) => !snapshot.is_object() || has_elements(snapshot),
        None => false,
    }
}

/// The trees of the elements in a snapshot or a differential.
pub fn trees_in<'t, 'j>(part: &str, definition: &'t Json<'j>) -> &'t [Json<'j>]
    ensures { trees_of result.now ≡ trees_in part.now (tree_of definition.now) }
{
    match definition.field(part) {
        Some(part) => part.items_in("element"),
        None => Default::default(),
    }
}

fn all_fields(alloc: Global, trees: &[Json<'_>]) -> Result<Vec<ElementDef>, NoMemory>
    ensures { IfOk result (λ v. v.items ≡ map fields_of (trees_of trees.now)) }
{
    let mut all = Vec::new(alloc);
    for tree in trees {
        all.push(fields_of(alloc, tree)?)?;
    }
    Ok(all)
}

/// Whether a definition constrains a type, and doesn't define one (FHIR R4, StructureDefinition, derivation).
pub fn is_constraint(definition: &Json<'_>) -> bool
    ensures { result ≡ is_constraint (tree_of definition.now) }
{
    definition.text_at("derivation") == "constraint"
}

// The url of the definition that a canonical names, if it is there.
fn canonical_url(
    alloc: Global,
    package: &Package<'_>,
    canonical: &str,
) -> Result<Option<String>, NoMemory>
    ensures { IfOk result (λ o. option_map string_bytes o ≡ canonical_url «package».now canonical.now) }
{
    let Ok(parts) = Canonical::parse(canonical) else {
        return Ok(None);
    };
    if package.get(Kind::StructureDefinition, canonical).is_none() {
        return Ok(None);
    }
    Ok(Some(String::from_str(alloc, parts.url())?))
}

fn base_of(
    alloc: Global,
    package: &Package<'_>,
    definition: &Json<'_>,
) -> Result<Option<String>, NoMemory>
    ensures { IfOk result (λ o. option_map string_bytes o ≡ base_of «package».now (tree_of definition.now)) }
{
    if !is_constraint(definition) {
        return Ok(None);
    }
    match definition.text_in("baseDefinition") {
        Some(canonical) => canonical_url(alloc, package, canonical),
        None => Ok(None),
    }
}

fn source_of(
    alloc: Global,
    package: &Package<'_>,
    definition: &Json<'_>,
) -> Result<SourceDef, NoMemory>
    ensures { IfOk result (λ s. s ≡ source_of «package».now (tree_of definition.now)) }
{
    let written = brings_snapshot(definition);
    let part = if written { "snapshot" } else { "differential" };
    let base = base_of(alloc, package, definition)?;
    let elements = all_fields(alloc, trees_in(part, definition))?;
    let elements = Elements::of(alloc, elements)?;
    Ok(SourceDef {
        written,
        base,
        elements,
    })
}

fn cut_at_hash(text: &str) -> Option<(&str, &str)>
    ensures { option_map (λ p. (p.0.now, p.1.now)) result ≡ cut_at_first hash text.now }
{
    text.split_once('#')
}

/// The definitions of a package, as what snapshots are made of.
#[derive(Drop)]
pub struct Sources<'p, 'a> {
    package: &'p Package<'a>,
    sources: Named<SourceDef>,
    types: Named<String>,
}

impl<'p, 'a> Model for Sources<'p, 'a> {
    ghost use Rattle.fhir_package.specs.Definitions.{Definitions};
    ghost use Rattle.fhir_inheritance.specs.Sources.{IsRead, keys_seen};

    ghost Value = { Definitions };

    ghost use Rattle.fhir_json.specs.Coding.{tree_code};
    ghost use Rattle.std.specs.Coded.{codes};

    ghost coded = { Prim.hlevel (codes, tree_code) };

    ghost view = { λ s. s.«package».now };

    ghost invariant = { λ s. IsRead s.«package».now s.sources (keys_seen s.types) };
}

fn root_of(elements: &[ElementDef]) -> Option<&ElementDef>
    ensures { option_copied result ≡ find is_root elements.now }
{
    for element in elements {
        if is_root(element) {
            return Some(element);
        }
    }
    None
}

// The name of the root of a type's definition.
fn root_key(alloc: Global, url: &str, source: &SourceDef) -> Result<Option<String>, NoMemory>
    ensures { IfOk result (λ o. option_map string_bytes o ≡ written_root_key url.now source.now) }
{
    if !source.is_written() {
        return Ok(None);
    }
    match root_of(source.elements().all()) {
        Some(root) => Ok(Some(key(alloc, root.id(), url)?)),
        None => Ok(None),
    }
}

// Puts the root of a type under its code, unless that has one.
fn put_type(
    alloc: Global,
    types: &mut Named<String>,
    url: &str,
    definition: &Json<'_>,
    source: &SourceDef,
) -> Result<(), NoMemory>
    ensures { OnOk result ((code : Text) → lookup (bytes_eq code) (keys_seen types.new)
        ≡ option_or (lookup (bytes_eq code) (keys_seen types.old)) (if is_type_of code (tree_of definition.now) then written_root_key url.now source.now else None)) }
{
    if !is_type_definition(definition) {
        return Ok(());
    }
    let code = definition.text_at("type");
    if types.get(code).is_some() {
        return Ok(());
    }
    let Some(root) = root_key(alloc, url, source)? else {
        return Ok(());
    };
    let code = String::from_str(alloc, code)?;
    types.put(code, root)?;
    Ok(())
}

// Puts what a definition brings under its url, unless another is there.
fn put_source(
    alloc: Global,
    sources: &mut Named<SourceDef>,
    url: &str,
    source: SourceDef,
) -> Result<(), NoMemory>
    ensures { OnOk result ((other : Text) → lookup (bytes_eq other) sources.new
        ≡ option_or (lookup (bytes_eq other) sources.old) (if bytes_eq other url.now then Some source else None)) }
{
    if sources.get(url).is_some() {
        return Ok(());
    }
    let url = String::from_str(alloc, url)?;
    sources.put(url, source)
}

impl<'p, 'a> Sources<'p, 'a> {
    /// Reads what the definitions of a package bring.
    pub fn of(alloc: Global, package: &'p Package<'a>) -> Result<Sources<'p, 'a>, NoMemory>
        ensures { IfOk result (λ s. s ≡ «package».now) }
    {
        let mut sources = Named::new(alloc);
        let mut types = Named::new(alloc);
        for place in 0..package.len(Kind::StructureDefinition) {
            if let Some((url, definition)) = package.at(Kind::StructureDefinition, place) {
                let source = source_of(alloc, package, definition)?;
                put_type(alloc, &mut types, url, definition, &source)?;
                put_source(alloc, &mut sources, url, source)?;
            }
        }
        Ok(Sources {
            package,
            sources,
            types,
        })
    }

    /// How many definitions there are.
    pub fn len(&self) -> usize
        ensures { result ≡ length (of_kind StructureDefinition self.now) }
    {
        self.package.len(Kind::StructureDefinition)
    }

    /// The definition of a url.
    pub fn definition(&self, url: &str) -> Option<&'p Json<'a>>
        ensures { tree_seen result ≡ at_url StructureDefinition url.now self.now }
    {
        self.package.at_url(Kind::StructureDefinition, url)
    }

    /// What the definition of a url brings.
    pub fn get(&self, url: &str) -> Option<&SourceDef>
        ensures { option_copied result ≡ source_at self.now url.now }
    {
        self.sources.get(url)
    }

    /// The name of the root of the type of that code.
    pub(crate) fn type_key(&self, code: &str) -> Option<&str>
        ensures { text_seen result ≡ type_key self.now code.now }
    {
        match self.types.get(code) {
            Some(root) => Some(root.as_str()),
            None => None,
        }
    }

    /// That of an element's only type.
    pub(crate) fn only_type_key(&self, types: &[TypeEntry]) -> Option<&str>
        ensures { text_seen result ≡ only_type_key self.now types.now }
    {
        match types {
            [entry] => self.type_key(entry.code()),
            _ => None,
        }
    }

    // The url of the definition that stands in front of `#`.
    fn url_in_front(
        &self,
        alloc: Global,
        url: &str,
        front: &str,
    ) -> Result<Option<String>, NoMemory>
        ensures { IfOk result (λ o. option_map string_bytes o ≡ url_in_front self.now url.now front.now) }
    {
        if front.is_empty() {
            return Ok(Some(String::from_str(alloc, url)?));
        }
        canonical_url(alloc, self.package, front)
    }

    /// The name of the element to which one of the definition of a url refers for its content.
    pub(crate) fn target_key(
        &self,
        alloc: Global,
        url: &str,
        element: &ElementDef,
    ) -> Result<Option<String>, NoMemory>
        ensures { IfOk result (λ o. option_map string_bytes o ≡ target_key self.now url.now element.now) }
    {
        let Some(text) = element.content_reference() else {
            return Ok(None);
        };
        let Some((front, id)) = cut_at_hash(text) else {
            return Ok(None);
        };
        match self.url_in_front(alloc, url, front)? {
            Some(url) => Ok(Some(key(alloc, id, url.as_str())?)),
            None => Ok(None),
        }
    }
}
