//! What stands at a place of a resource.

use fhir_json::{Json, Member};
use fhir_schema::{Content, Form, NodeRef, Schema};

// `value` of `value[x]`.
fn without_choice(name: &str) -> &str {
    name.strip_suffix("[x]").unwrap_or(name)
}

// `name` and 3 of `name[3]`.
fn step_of(segment: &str) -> (&str, Option<usize>) {
    let Some((name, rest)) = segment.split_once('[') else {
        return (segment, None);
    };
    let index = rest.strip_suffix(']').unwrap_or(rest);
    match index.parse::<usize>() {
        Ok(index) => (name, Some(index)),
        Err(_) => (segment, None),
    }
}

fn item_at<'r, 'j>(json: &'r Json<'j>, index: Option<usize>) -> Option<&'r Json<'j>> {
    let Some(index) = index else {
        return Some(json);
    };
    match json {
        Json::Arr(items) => items.get(index),
        _ => None,
    }
}

/// What a property means: the form that it is of, and whether it is the companion.
#[derive(Clone, Copy)]
pub(crate) struct Meaning<'s> {
    pub(crate) form: &'s Form,
    pub(crate) is_companion: bool,
}

impl<'s> Meaning<'s> {
    // That of a property in an object, which a node may type.
    fn of(schema: &'s Schema, node: Option<NodeRef>, name: &str) -> Option<Meaning<'s>> {
        let node = node?;
        let property = schema.property(node, name)?;
        let form = schema.forms(node).get(property.form)?;
        Some(Meaning {
            form,
            is_companion: property.is_companion,
        })
    }

    // Whether it is of the element that a step of a place names. The items of a choice that repeats are counted through all its
    // properties, so such a step leads nowhere.
    fn is_of(self, name: &str, index: Option<usize>) -> bool {
        match index {
            Some(_) => self.form.name() == name,
            None => without_choice(self.form.name()) == name,
        }
    }

    // Whether objects with elements stand in it. A primitive has these in its companion.
    fn holds_elements(self) -> bool {
        self.form.content().is_primitive() == self.is_companion
    }

    // The node that types an object in it.
    fn node_below(self, schema: &Schema, json: &Json<'_>) -> Option<NodeRef> {
        match (self.form.content(), self.is_companion) {
            (Content::Primitive(_, below), true) => below,
            (Content::Complex(below), false) => below,
            (Content::Resource, false) => schema.resource_root(json.text_in("resourceType")?),
            _ => None,
        }
    }
}

/// An object, and a property that it has or lacks.
#[derive(Clone, Copy)]
pub(crate) struct Spot<'r, 'j> {
    members: &'r [Member<'j>],
    /// The node that types the object.
    pub(crate) node: Option<NodeRef>,
    /// The name of the property; on the way there, what is left of the place.
    pub(crate) name: &'r str,
}

// An object in a property, and the node that types it.
type Below<'r, 'j> = (&'r Json<'j>, Option<NodeRef>);

// That in a member, if the member is of the element of a name and holds elements.
fn below<'r, 'j>(
    schema: &Schema,
    node: Option<NodeRef>,
    member: &'r Member<'j>,
    name: &str,
    index: Option<usize>,
) -> Option<Below<'r, 'j>> {
    let meaning = Meaning::of(schema, node, member.name.as_str())?;
    let item = item_at(&member.value, index)?;
    if meaning.is_of(name, index) && meaning.holds_elements() && item.is_object() {
        Some((item, meaning.node_below(schema, item)))
    } else {
        None
    }
}

impl<'r, 'j> Spot<'r, 'j> {
    // The front of a place in a resource.
    fn front(schema: &Schema, resource: &'r Json<'j>, place: &'r str) -> Option<Spot<'r, 'j>> {
        let code = resource.text_in("resourceType")?;
        let name = place.strip_prefix(code)?.strip_prefix('.')?;
        Some(Spot {
            members: resource.members(),
            node: schema.resource_root(code),
            name,
        })
    }

    // That in the members of the element of a name. Where two forms of a choice have one, it isn't known which is meant.
    fn below(self, schema: &Schema, name: &str, index: Option<usize>) -> Option<Below<'r, 'j>> {
        let mut found: Option<Below<'r, 'j>> = None;
        for member in self.members {
            match (found, below(schema, self.node, member, name, index)) {
                (_, None) => {}
                (None, other) => found = other,
                (Some(_), Some(_)) => return None,
            }
        }
        found
    }

    // One step further. The last name of a place is that of a property, which may have a dot in it.
    fn next(self, schema: &Schema) -> Option<Spot<'r, 'j>> {
        if self.named(self.name).is_some() {
            return None;
        }
        let (segment, rest) = self.name.split_once('.')?;
        let (name, index) = step_of(segment);
        let (json, node) = self.below(schema, name, index)?;
        Some(Spot {
            members: json.members(),
            node,
            name: rest,
        })
    }

    /// That at a place of a resource. The resource itself has no place; its `resourceType` is meant then.
    pub(crate) fn at(
        schema: &Schema,
        resource: &'r Json<'j>,
        place: &'r str,
    ) -> Option<Spot<'r, 'j>> {
        if place.is_empty() {
            return Some(Spot {
                members: resource.members(),
                node: None,
                name: "resourceType",
            });
        }
        let mut spot = Spot::front(schema, resource, place)?;
        for _step in 0..place.len() {
            match spot.next(schema) {
                Some(next) => spot = next,
                None => return Some(spot),
            }
        }
        Some(spot)
    }

    /// The value of a property of the object.
    pub(crate) fn named(self, name: &str) -> Option<&'r Json<'j>> {
        for member in self.members {
            if member.name.as_str() == name {
                return Some(&member.value);
            }
        }
        None
    }

    /// The value of the companion of a property.
    pub(crate) fn companion_of(self, name: &str) -> Option<&'r Json<'j>> {
        for member in self.members {
            if member.name.as_str().strip_prefix('_') == Some(name) {
                return Some(&member.value);
            }
        }
        None
    }

    /// What the property means.
    pub(crate) fn meaning<'s>(self, schema: &'s Schema) -> Option<Meaning<'s>> {
        Meaning::of(schema, self.node, self.name)
    }
}
