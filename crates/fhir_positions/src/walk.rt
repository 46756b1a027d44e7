//! The walk over a resource, along the stops of the places that are wanted.

use crate::wanted::{Standing, Stop, Wanted};
use fhir_json::{Json, Member, NoMemory};
use fhir_schema::{Content, Form, NodeRef, Schema};

// By what an object is typed.
#[derive(Clone, Copy)]
enum Typing {
    Node(Option<NodeRef>),
    // the type that it says it has
    Resource,
}

// What a property holds.
#[derive(Clone, Copy)]
struct Meaning<'s> {
    // the element's, as places have it
    name: &'s str,
    typing: Typing,
    standing: Standing,
}

// Where a property leads, if a place is wanted there, and what it holds.
#[derive(Clone, Copy)]
struct Way {
    stop: Option<usize>,
    typing: Typing,
    standing: Standing,
}

// `value` of `value[x]`.
fn without_choice(name: &str) -> &str {
    name.strip_suffix("[x]").unwrap_or(name)
}

fn typing_of_value(content: Content) -> Typing {
    match content {
        Content::Resource => Typing::Resource,
        Content::Complex(below) => Typing::Node(below),
        Content::Primitive(_, _) | Content::System => Typing::Node(None),
    }
}

fn typing_of_companion(content: Content) -> Typing {
    match content {
        Content::Primitive(_, below) => Typing::Node(below),
        Content::Resource | Content::Complex(_) | Content::System => Typing::Node(None),
    }
}

impl<'s> Meaning<'s> {
    // That of a property in an object that no node types.
    fn as_written(name: &'s str) -> Meaning<'s> {
        Meaning {
            name,
            typing: Typing::Node(None),
            standing: Standing::Value,
        }
    }

    fn of_value(form: &'s Form) -> Meaning<'s> {
        Meaning {
            name: without_choice(form.name()),
            typing: typing_of_value(form.content()),
            standing: Standing::Value,
        }
    }

    fn of_companion(form: &'s Form) -> Meaning<'s> {
        Meaning {
            name: without_choice(form.name()),
            typing: typing_of_companion(form.content()),
            standing: Standing::Companion,
        }
    }

    // That of a property at a node, if the node has it.
    fn at(schema: &'s Schema, node: NodeRef, name: &str) -> Option<Meaning<'s>> {
        let property = schema.property(node, name)?;
        let form = schema.forms(node).get(property.form)?;
        if property.is_companion {
            Some(Meaning::of_companion(form))
        } else {
            Some(Meaning::of_value(form))
        }
    }

    // That of a property in an object, which a node may type: none where the type doesn't have it.
    fn of(schema: &'s Schema, node: Option<NodeRef>, name: &'s str) -> Option<Meaning<'s>> {
        match node {
            Some(node) => Meaning::at(schema, node, name),
            None => Some(Meaning::as_written(name)),
        }
    }
}

impl Way {
    // That of a property that the type doesn't have: no items stand in it.
    fn nowhere() -> Way {
        Way {
            stop: None,
            typing: Typing::Node(None),
            standing: Standing::Unknown,
        }
    }
}

fn node_of(schema: &Schema, json: &Json<'_>, typing: Typing) -> Option<NodeRef> {
    match typing {
        Typing::Node(node) => node,
        Typing::Resource => match json.text_in("resourceType") {
            Some(code) => schema.resource_root(code),
            None => None,
        },
    }
}

fn standing_of(json: &Json<'_>, standing: Standing) -> Standing {
    match json {
        Json::Null => Standing::Null,
        _ => standing,
    }
}

// How many values a value is, with all inside it.
#[cycle(count)]
fn count_of(json: &Json<'_>) -> usize {
    match json {
        Json::Arr(items) => count_of_items(items).saturating_add(1),
        Json::Obj(members) => count_of_members(members).saturating_add(1),
        _ => 1,
    }
}

#[cycle(count)]
fn count_of_items(items: &[Json<'_>]) -> usize {
    let mut count: usize = 0;
    for item in items {
        count = count.saturating_add(count_of(item));
    }
    count
}

#[cycle(count)]
fn count_of_members(members: &[Member<'_>]) -> usize {
    let mut count: usize = 0;
    for member in members {
        count = count.saturating_add(count_of(&member.value));
    }
    count
}

/// A walk over a resource in the order of its text.
#[derive(Drop)]
pub(crate) struct Walk {
    wanted: Wanted,
    // how many values were passed
    passed: usize,
}

impl Walk {
    /// One that is at the front.
    pub(crate) fn new(wanted: Wanted) -> Walk {
        Walk { wanted, passed: 0 }
    }

    /// The stops, with the values that were found for them so far.
    pub(crate) fn stops(&self) -> &[Stop] {
        self.wanted.stops()
    }

    // Passes a value and all inside it.
    fn skip(&mut self, json: &Json<'_>) {
        self.passed = self.passed.saturating_add(count_of(json));
    }

    // Notes that the property that comes next stands for a stop, if there is one.
    fn note_written(&mut self, stop: Option<usize>, standing: Standing) {
        if let Some(stop) = stop {
            self.wanted.note(stop, self.passed, standing);
        }
    }

    // Where a property of a meaning leads: to the stop of its element, and else to the one that is named as it is written.
    fn way_by(
        &mut self,
        meaning: Meaning<'_>,
        stop: usize,
        written: Option<usize>,
    ) -> Result<Way, NoMemory> {
        let named = self.wanted.named(stop, meaning.name)?;
        Ok(Way {
            stop: named.or(written),
            typing: meaning.typing,
            standing: meaning.standing,
        })
    }

    // Where the property of a member leads. Whatever it means, its value stands for the stop that is named as it is written. Null
    // does so only where the type doesn't have the property, since else it gives way to the companion.
    fn way(
        &mut self,
        schema: &Schema,
        member: &Member<'_>,
        stop: usize,
        node: Option<NodeRef>,
    ) -> Result<Way, NoMemory> {
        let name = member.name.as_str();
        let written = self.wanted.written(stop, name)?;
        match Meaning::of(schema, node, name) {
            Some(meaning) => {
                self.note_written(written, standing_of(&member.value, Standing::Named));
                self.way_by(meaning, stop, written)
            }
            None => {
                self.note_written(written, Standing::Unknown);
                Ok(Way::nowhere())
            }
        }
    }

    /// Walks over the outermost resource.
    pub(crate) fn resource(&mut self, schema: &Schema, json: &Json<'_>) -> Result<(), NoMemory> {
        self.value(json, schema, 0, Typing::Resource, Standing::Value)
    }

    // Walks over a value at a stop.
    #[cycle(walk)]
    fn value(
        &mut self,
        json: &Json<'_>,
        schema: &Schema,
        stop: usize,
        typing: Typing,
        standing: Standing,
    ) -> Result<(), NoMemory> {
        self.wanted
            .note(stop, self.passed, standing_of(json, standing));
        if !self.wanted.leads_on(stop) {
            self.skip(json);
            return Ok(());
        }
        self.passed = self.passed.saturating_add(1);
        match json {
            Json::Arr(items) => self.items(items, schema, stop, typing, standing),
            Json::Obj(members) => {
                let node = node_of(schema, json, typing);
                self.members(members, schema, stop, node)
            }
            _ => Ok(()),
        }
    }

    #[cycle(walk)]
    fn items(
        &mut self,
        items: &[Json<'_>],
        schema: &Schema,
        stop: usize,
        typing: Typing,
        standing: Standing,
    ) -> Result<(), NoMemory> {
        for i in 0..items.len() {
            let there = self.wanted.indexed(stop, i)?;
            self.if_wanted(&items[i], schema, there, typing, standing)?;
        }
        Ok(())
    }

    #[cycle(walk)]
    fn members(
        &mut self,
        members: &[Member<'_>],
        schema: &Schema,
        stop: usize,
        node: Option<NodeRef>,
    ) -> Result<(), NoMemory> {
        for i in 0..members.len() {
            self.member(&members[i], schema, stop, node)?;
        }
        Ok(())
    }

    #[cycle(walk)]
    fn member(
        &mut self,
        member: &Member<'_>,
        schema: &Schema,
        stop: usize,
        node: Option<NodeRef>,
    ) -> Result<(), NoMemory> {
        let way = self.way(schema, member, stop, node)?;
        self.if_wanted(&member.value, schema, way.stop, way.typing, way.standing)
    }

    // Walks over a value if it is at a stop, and else passes it.
    #[cycle(walk)]
    fn if_wanted(
        &mut self,
        json: &Json<'_>,
        schema: &Schema,
        stop: Option<usize>,
        typing: Typing,
        standing: Standing,
    ) -> Result<(), NoMemory> {
        match stop {
            Some(stop) => self.value(json, schema, stop, typing, standing),
            None => {
                self.skip(json);
                Ok(())
            }
        }
    }
}
