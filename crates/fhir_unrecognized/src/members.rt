//! Which members R4 has in an object, and in which of them there are other objects.

ghost use Rattle.std.specs.Prelude.{◌≡◌, codes, nat_eq};
ghost use Rattle.std.specs.List.{list_any, starts_with};
ghost use Rattle.fhir_json.specs.Fields.{is_choice};
ghost use Rattle.fhir_unrecognized.specs.Objects.{part_of, resource_of};
ghost use Rattle.fhir_unrecognized.specs.Members.{element_stems, is_form, is_name, without_underscore, is_known};

use crate::names::{is_common_name, is_own_name};
use crate::object::Object;

fn is_choice(stem: &[u8], name: &[u8]) -> bool
    ensures { result ≡ is_choice stem.now name.now }
{
    let mut stem = stem;
    let mut name = name;
    while let [b, bs @ ..] = stem {
        let [c, cs @ ..] = name else {
            return false;
        };
        if *b != *c {
            return false;
        }
        stem = bs;
        name = cs;
    }
    match name {
        [c, ..] => c.is_ascii_uppercase(),
        [] => false,
    }
}

fn is_form(object: Object, name: &[u8]) -> bool
    ensures { result ≡ is_form object name.now }
{
    match object {
        Object::Element => {
            is_choice(b"defaultValue", name)
                || is_choice(b"fixed", name)
                || is_choice(b"pattern", name)
                || is_choice(b"minValue", name)
                || is_choice(b"maxValue", name)
        }
        _ => false,
    }
}

fn is_name(object: Object, name: &str) -> bool
    ensures { result ≡ is_name object name.now }
{
    is_common_name(object, name)
        || is_own_name(object, name)
        || is_form(object, name.as_bytes())
        || name.as_bytes().starts_with(b"fhir_comments")
}

fn without_underscore(name: &str) -> &str
    ensures { result.now ≡ without_underscore name.now }
{
    name.strip_prefix('_').unwrap_or(name)
}

/// Whether R4 has a member of that name in the object, or a companion of a primitive has it, or it is a comment's.
pub(crate) fn is_known(object: Object, name: &str) -> bool
    ensures { result ≡ is_known object name.now }
{
    is_name(object, without_underscore(name))
}

// ---- the objects within

/// The object that stands in a member, if one does that is looked into.
pub(crate) fn part_of(object: Object, name: &str) -> Option<Object>
    ensures { result ≡ part_of object name.now }
{
    match (object, name) {
        (Object::StructureDefinition, "snapshot") => Some(Object::Snapshot),
        (Object::StructureDefinition, "differential") => Some(Object::Differential),
        (Object::ValueSet, "compose") => Some(Object::Compose),
        (Object::CodeSystem, "concept") => Some(Object::Concept),
        (Object::Snapshot, "element") => Some(Object::Element),
        (Object::Differential, "element") => Some(Object::Element),
        (Object::Element, "type") => Some(Object::ElementType),
        (Object::Element, "binding") => Some(Object::Binding),
        (Object::Element, "constraint") => Some(Object::Constraint),
        (Object::Element, "slicing") => Some(Object::Slicing),
        (Object::Element, "base") => Some(Object::Base),
        (Object::Slicing, "discriminator") => Some(Object::Discriminator),
        (Object::Compose, "include") => Some(Object::Include),
        (Object::Compose, "exclude") => Some(Object::Include),
        (Object::Include, "concept") => Some(Object::ListedConcept),
        (Object::Include, "filter") => Some(Object::Filter),
        (Object::Concept, "concept") => Some(Object::Concept),
        _ => None,
    }
}

/// The object that a resource of a type is, if it is looked into.
pub(crate) fn resource_of(resource_type: &str) -> Option<Object>
    ensures { result ≡ resource_of resource_type.now }
{
    match resource_type {
        "StructureDefinition" => Some(Object::StructureDefinition),
        "ValueSet" => Some(Object::ValueSet),
        "CodeSystem" => Some(Object::CodeSystem),
        _ => None,
    }
}
