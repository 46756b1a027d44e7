//! What constraints say in words (FHIR R4, ElementDefinition, constraint.human).

ghost use Rattle.std.specs.Prelude.{◌≡◌, ◌∷◌, ◌++◌, ◌&&◌, [], codes, List, Option, None, Some, IfOk, OnOk, if◌then◌else◌};
ghost use Rattle.std.specs.List.{flat_map, slice_get};
ghost use Rattle.std.specs.Option.{option_map_or, option_or};
ghost use Rattle.std.specs.Str.{bytes_eq};
ghost use Rattle.fhir_json.specs.Tree.{Text, Tree};
ghost use Rattle.fhir_json.specs.Views.{tree_of, trees_of, text_seen};
ghost use Rattle.fhir_plain.specs.Kept.{kept_for, text_under, text_within, found_in, Says, AreSayings};
ghost use Rattle.fhir_plain.specs.Sayings.{elements_in, constraints_of, constraints_in, all_constraints, are_same, said_by};

use fhir_json::{Json, NoMemory};
use fhir_package::{Kind, Package};
use std::alloc::Global;
use std::collections::BTreeMap;
use std::marker::Model;

fn elements_in<'s, 'f>(definition: &'s Json<'f>, part: &str) -> &'s [Json<'f>]
    ensures { trees_of result.now ≡ elements_in part.now (tree_of definition.now) }
{
    match definition.field(part) {
        Some(part) => part.items_in("element"),
        None => Default::default(),
    }
}

// Puts a text under a name, unless it has one.
fn put_text<'p>(
    texts: &mut BTreeMap<&'p str, &'p str>,
    name: &'p str,
    text: &'p str,
) -> Result<(), NoMemory>
    ensures { OnOk result ((other : Text) → text_under other texts.new
        ≡ option_or (text_under other texts.old) (if bytes_eq other name.now then Some text.now else None)) }
{
    texts.entry(name)?.or_insert(text);
    Ok(())
}

// Puts a text under a key and an expression, unless they have one.
fn put_written<'p>(
    alloc: Global,
    groups: &mut BTreeMap<&'p str, BTreeMap<&'p str, &'p str>>,
    key: &'p str,
    expression: &'p str,
    text: &'p str,
) -> Result<(), NoMemory>
    ensures { OnOk result ((other written : Text) → text_within other written groups.new
        ≡ option_or (text_within other written groups.old)
        (if bytes_eq other key.now && bytes_eq written expression.now then Some text.now else None)) }
{
    let group = groups.entry(key)?.or_insert(BTreeMap::new(alloc));
    put_text(group, expression, text)?;
    Ok(())
}

fn text_of<'p>(texts: &BTreeMap<&'p str, &'p str>, name: &str) -> Option<&'p str>
    ensures { text_seen result ≡ text_under name.now texts.now }
{
    texts.get(name).copied()
}

// The words of constraints: by the keys of those that have no expression, and by the keys and the expressions of the others.
#[derive(Drop)]
struct Maps<'p> {
    bare: BTreeMap<&'p str, &'p str>,
    written: BTreeMap<&'p str, BTreeMap<&'p str, &'p str>>,
}

impl<'p> Maps<'p> {
    fn new(alloc: Global) -> Maps<'p>
        ensures { Says result [] }
    {
        Maps {
            bare: BTreeMap::new(alloc),
            written: BTreeMap::new(alloc),
        }
    }

    fn get(&self, key: &str, expression: Option<&str>) -> Option<&'p str>
        ensures { text_seen result ≡ found_in self.now key.now (text_seen expression.entry) }
    {
        let Some(expression) = expression else {
            return text_of(&self.bare, key);
        };
        match self.written.get(key) {
            Some(group) => text_of(group, expression),
            None => None,
        }
    }

    // Keeps words for a key, and for an expression or none, unless there are some.
    fn put(
        &mut self,
        alloc: Global,
        key: &'p str,
        expression: Option<&'p str>,
        text: &'p str,
    ) -> Result<(), NoMemory>
        ensures { OnOk result ((other : Text) (written : Option Text) → found_in self.new other written
            ≡ option_or (found_in self.old other written)
            (if bytes_eq other key.now && are_same written (text_seen expression.entry) then Some text.now else None)) }
    {
        match expression {
            Some(expression) => put_written(alloc, &mut self.written, key, expression, text),
            None => put_text(&mut self.bare, key, text),
        }
    }

    // Keeps the words of a constraint.
    fn add(&mut self, alloc: Global, constraint: &'p Json<'_>) -> Result<(), NoMemory>
        ensures { OnOk result ((key : Text) (expression : Option Text) → found_in self.new key expression
            ≡ option_or (found_in self.old key expression) (said_by key expression (tree_of constraint.now))) }
    {
        match constraint.text_in("human") {
            Some(human) => self.put(
                alloc,
                constraint.text_at("key"),
                constraint.text_in("expression"),
                human,
            ),
            None => Ok(()),
        }
    }

    fn add_constraints(
        &mut self,
        alloc: Global,
        constraints: &'p [Json<'_>],
    ) -> Result<(), NoMemory>
        ensures { OnOk result ((before : List Tree) → Says self.old before
            → Says self.new (before ++ trees_of constraints.now)) }
    {
        for constraint in constraints {
            self.add(alloc, constraint)?;
        }
        Ok(())
    }

    fn add_elements(&mut self, alloc: Global, elements: &'p [Json<'_>]) -> Result<(), NoMemory>
        ensures { OnOk result ((before : List Tree) → Says self.old before
            → Says self.new (before ++ flat_map constraints_of (trees_of elements.now))) }
    {
        for element in elements {
            self.add_constraints(alloc, element.items_in("constraint"))?;
        }
        Ok(())
    }

    fn add_definition(&mut self, alloc: Global, definition: &'p Json<'_>) -> Result<(), NoMemory>
        ensures { OnOk result ((before : List Tree) → Says self.old before
            → Says self.new (before ++ constraints_in (tree_of definition.now))) }
    {
        self.add_elements(alloc, elements_in(definition, "snapshot"))?;
        self.add_elements(alloc, elements_in(definition, "differential"))?;
        Ok(())
    }

    fn add_at(
        &mut self,
        alloc: Global,
        package: &'p Package<'_>,
        place: usize,
    ) -> Result<(), NoMemory>
        ensures { OnOk result ((before : List Tree) → Says self.old before → Says self.new (before
            ++ option_map_or (λ e. constraints_in e.1) (slice_get «package».now.structure_definitions place) [])) }
    {
        match package.at(Kind::StructureDefinition, place) {
            Some((_, definition)) => self.add_definition(alloc, definition),
            None => Ok(()),
        }
    }

    // The words of the constraints of a package.
    fn of(alloc: Global, package: &'p Package<'_>) -> Result<Maps<'p>, NoMemory>
        ensures { IfOk result (λ maps. Says maps (all_constraints «package».now)) }
    {
        let mut maps = Maps::new(alloc);
        for place in 0..package.len(Kind::StructureDefinition) {
            maps.add_at(alloc, package, place)?;
        }
        Ok(maps)
    }
}

/// What the constraints of a package say in words.
#[derive(Drop)]
pub struct Sayings<'p> {
    maps: Maps<'p>,
}

impl<'p> Model for Sayings<'p> {
    ghost use Rattle.fhir_plain.specs.Kept.{Kept, maps_seen};

    ghost Value = { Kept };

    ghost view = { λ s. maps_seen s.maps };
}

impl<'p> Sayings<'p> {
    /// What the constraints in the definitions of a package say: those of each snapshot, and then those of the differential
    /// (FHIR R4, ElementDefinition, constraint). It takes time near linear in the package's size. The one refusal is want of
    /// memory.
    pub fn of(alloc: Global, package: &'p Package<'_>) -> Result<Sayings<'p>, NoMemory>
        ensures { IfOk result (λ sayings. AreSayings «package».now sayings) }
    {
        let maps = Maps::of(alloc, package)?;
        Ok(Sayings { maps })
    }

    /// The text `human` of the first constraint that has this key, this expression or none, and such a text.
    pub fn get(&self, key: &str, expression: Option<&str>) -> Option<&'p str>
        ensures { text_seen result ≡ kept_for self.now key.now (text_seen expression.entry) }
    {
        self.maps.get(key, expression)
    }
}
