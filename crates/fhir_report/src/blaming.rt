//! Why a definition can't be used, in plain words.

use fhir_definition::{Definition, up_of};
use fhir_elements::{Blame, Cause, DiscriminatorDef, DiscriminatorType, ElementDef, Max};
use fhir_json::Member;
use fhir_names::sliced_of;
use fhir_schema::Schema;
use std::alloc::{AllocError, Global};

/// A definition that can't be used, and what is to blame.
#[derive(Clone, Copy)]
pub(crate) struct Blamed<'s> {
    pub(crate) schema: &'s Schema,
    pub(crate) definition: &'s Definition,
    pub(crate) blame: Blame,
}

// The texts that nothing is put into.
fn fixed_text(cause: Cause) -> &'static str {
    match cause {
        Cause::BlankInUrl => "its `url` is empty, or has blanks in it",
        Cause::NoObject => "an element of the snapshot is no object",
        Cause::NoType => "it has neither a `type` nor a `contentReference`",
        Cause::RepeatedId => "the `id` stands twice in the snapshot",
        Cause::NoRoot => "the snapshot has no root",
        Cause::SecondRoot => "it is a second root",
        Cause::NoSnapshot => "it has no snapshot",
        _ => "it can't be used",
    }
}

fn field_text(alloc: Global, name: &str) -> Result<String, AllocError> {
    match name {
        "kind" => String::from_str(
            alloc,
            "`kind` is none of `primitive-type`, `complex-type` and `resource`",
        ),
        "profile" | "targetProfile" | "valueSet" => format!(in alloc;
            "a `{name}` begins with `#`, so it names what the definition itself contains"
        ),
        _ => {
            format!(in alloc; "`{name}` is of a wrong kind, or none of the values that it may have")
        }
    }
}

fn missing_id_text(alloc: Global, element: Option<usize>) -> Result<String, AllocError> {
    let place = element.unwrap_or(0);
    format!(in alloc; "element {place} of the snapshot, counted from 0, has no `id`")
}

fn cardinality_text(alloc: Global, element: &ElementDef) -> Result<String, AllocError> {
    let min = element.min().unwrap_or(0);
    match element.max() {
        Some(Max::UpTo(max)) => format!(in alloc; "`min` {min} is over `max` {max}"),
        Some(Max::Unbounded) | None => format!(in alloc; "`min` {min} is over its `max`"),
    }
}

fn word_of(by: DiscriminatorType) -> &'static str {
    match by {
        DiscriminatorType::Value => "value",
        DiscriminatorType::Exists => "exists",
        DiscriminatorType::Pattern => "pattern",
        DiscriminatorType::TypeCode => "type",
        DiscriminatorType::Profile => "profile",
    }
}

fn discriminator_text(
    alloc: Global,
    discriminator: &DiscriminatorDef,
) -> Result<String, AllocError> {
    let (Some(by), Some(path)) = (discriminator.by(), discriminator.path()) else {
        return String::from_str(alloc, "a discriminator has no `type`, or no `path`");
    };
    if matches!(by, DiscriminatorType::Profile) {
        return format!(in alloc; "the discriminator by profile at `{path}` isn't supported");
    }
    format!(in alloc;
        "the discriminator by {} at `{path}` finds nothing there to look for",
        word_of(by)
    )
}

// The whole name of a bound, as `minValueDate`, by its stem.
fn bound_name<'s>(element: &'s ElementDef, stem: &'static str) -> &'s str {
    let bound: Option<&'s Member<'static>> = if stem == "minValue" {
        element.min_value()
    } else {
        element.max_value()
    };
    match bound {
        Some(bound) => bound.name.as_str(),
        None => stem,
    }
}

impl<'s> Blamed<'s> {
    fn element_at(self, place: usize) -> Option<&'s ElementDef> {
        self.definition.elements().get(place)
    }

    fn element(self) -> Option<&'s ElementDef> {
        self.element_at(self.blame.element?)
    }

    fn id_at(self, place: usize) -> &'s str {
        self.element_at(place).map_or("", |element| element.id())
    }

    fn own_id(self) -> &'s str {
        self.element().map_or("", |element| element.id())
    }

    /// The id of the element that is to blame, if it is one. One that has none, or none that can be read, isn't told by it.
    pub(crate) fn id(self) -> Option<&'s str> {
        let element = self.element()?;
        match self.blame.cause {
            Cause::MissingId | Cause::UnreadableId => None,
            _ => Some(element.id()),
        }
    }

    // The element of which the one to blame is a slice.
    fn sliced_element(self) -> Option<&'s ElementDef> {
        let place = self.definition.id_place(sliced_of(self.own_id())?)?;
        self.element_at(place)
    }

    // The code of the type entry at a place of the element, or of the definition's own type.
    fn code(self, entry: Option<usize>) -> &'s str {
        let (Some(element), Some(place)) = (self.element(), entry) else {
            return self.definition.type_code();
        };
        element.types().get(place).map_or("", |entry| entry.code())
    }

    fn bound_text(self, alloc: Global, stem: &'static str) -> Result<String, AllocError> {
        let name = match self.element() {
            Some(element) => bound_name(element, stem),
            None => stem,
        };
        format!(in alloc; "`{name}` is no value of its type")
    }

    fn cardinality_text(self, alloc: Global) -> Result<String, AllocError> {
        match self.element() {
            Some(element) => cardinality_text(alloc, element),
            None => String::from_str(alloc, fixed_text(self.blame.cause)),
        }
    }

    // That a definition can't be used, by the one on which it rests in the end.
    fn unusable_text(
        self,
        alloc: Global,
        definition: usize,
        origin: usize,
    ) -> Result<String, AllocError> {
        let (Some(last), Some(reason)) = (
            self.schema.definitions().get(origin),
            self.schema.reason(origin),
        ) else {
            return String::from_str(alloc, fixed_text(self.blame.cause));
        };
        let url = last.url();
        if definition == origin {
            format!(in alloc; "{url} can't be used ({reason})")
        } else {
            format!(in alloc; "it rests on {url}, which can't be used ({reason})")
        }
    }

    fn type_text(
        self,
        alloc: Global,
        entry: Option<usize>,
        definition: usize,
        origin: usize,
    ) -> Result<String, AllocError> {
        let unusable = self.unusable_text(alloc, definition, origin)?;
        format!(in alloc; "type {}: {unusable}", self.code(entry))
    }

    fn primitive_text(self, alloc: Global) -> Result<String, AllocError> {
        format!(in alloc; "FHIR has no primitive type `{}`", self.code(None))
    }

    fn repeated_text(self, alloc: Global, place: usize) -> Result<String, AllocError> {
        format!(in alloc; "the type `{}` stands twice", self.code(Some(place)))
    }

    fn missing_text(self, alloc: Global, entry: Option<usize>) -> Result<String, AllocError> {
        format!(in alloc;
            "no definition of type {} in this package",
            self.code(entry)
        )
    }

    fn parent_text(self, alloc: Global) -> Result<String, AllocError> {
        let up = up_of(self.own_id()).unwrap_or("");
        format!(in alloc; "the snapshot has no element `{up}` above it")
    }

    fn property_text(self, alloc: Global, child: usize) -> Result<String, AllocError> {
        format!(in alloc;
            "two elements below it are written alike in JSON, of which `{}` is the second",
            self.id_at(child)
        )
    }

    fn content_reference(self) -> &'s str {
        match self.element() {
            Some(element) => element.content_reference().unwrap_or(""),
            None => "",
        }
    }

    fn content_text(self, alloc: Global) -> Result<String, AllocError> {
        format!(in alloc; "there is no element `{}`", self.content_reference())
    }

    fn profile_text(self, alloc: Global, definition: usize) -> Result<String, AllocError> {
        let Some(target) = self.schema.definitions().get(definition) else {
            return String::from_str(alloc, fixed_text(self.blame.cause));
        };
        format!(in alloc;
            "`{}` is an element of {}, which isn't the definition of a type, as this is",
            self.content_reference(),
            target.url()
        )
    }

    fn cycle_text(self, alloc: Global) -> Result<String, AllocError> {
        let base = self.definition.base().unwrap_or("");
        format!(in alloc; "the chain of its bases runs in a cycle, from {base} on")
    }

    fn slicing_text(self, alloc: Global) -> Result<String, AllocError> {
        match self.sliced_element() {
            Some(sliced_element) if sliced_element.slicing().is_none() => format!(in alloc;
                "`{}` has no `slicing` that says what tells its slices apart",
                sliced_element.id()
            ),
            _ => String::from_str(alloc, "the slicing has no discriminator"),
        }
    }

    // The discriminator at a place of the slicing of the element of which the one to blame is a slice.
    fn discriminator(self, place: usize) -> Option<&'s DiscriminatorDef> {
        let slicing = self.sliced_element()?.slicing()?;
        slicing.discriminators().get(place)
    }

    fn untold_text(self, alloc: Global, place: usize) -> Result<String, AllocError> {
        match self.discriminator(place) {
            Some(discriminator) => discriminator_text(alloc, discriminator),
            None => String::from_str(alloc, fixed_text(self.blame.cause)),
        }
    }

    fn second_text(self, alloc: Global) -> Result<String, AllocError> {
        let code = self.definition.type_code();
        let first = match self.schema.type_place(code) {
            Some(place) => self.schema.definitions().get(place),
            None => None,
        };
        match first {
            Some(first) => format!(in alloc; "{} defines type {code} before it", first.url()),
            None => String::from_str(alloc, fixed_text(self.blame.cause)),
        }
    }

    /// What is wrong, in plain words.
    pub(crate) fn text(self, alloc: Global) -> Result<String, AllocError> {
        match self.blame.cause {
            Cause::MissingField(name) => format!(in alloc; "it has no `{name}`"),
            Cause::WrongField(name) => field_text(alloc, name),
            Cause::TwoForms(stem) => format!(in alloc; "`{stem}` is given in two types"),
            Cause::WrongBound(stem) => self.bound_text(alloc, stem),
            Cause::UnknownPrimitive => self.primitive_text(alloc),
            Cause::MinOverMax => self.cardinality_text(alloc),
            Cause::RepeatedType(place) => self.repeated_text(alloc, place),
            Cause::MissingId => missing_id_text(alloc, self.blame.element),
            Cause::UnreadableId => format!(in alloc; "`{}` is no id of an element", self.own_id()),
            Cause::MissingType(entry) => self.missing_text(alloc, entry),
            Cause::UnusableType {
                entry,
                definition,
                origin,
            } => self.type_text(alloc, entry, definition, origin),
            Cause::MissingParent => self.parent_text(alloc),
            Cause::RepeatedProperty(child) => self.property_text(alloc, child),
            Cause::MissingContent => self.content_text(alloc),
            Cause::UnusableContent { definition, origin } => self.unusable_text(
                alloc, definition, origin,
            ),
            Cause::ContentOfProfile(definition) => self.profile_text(alloc, definition),
            Cause::BaseCycle => self.cycle_text(alloc),
            Cause::NoDiscriminator => self.slicing_text(alloc),
            Cause::UntoldDiscriminator(place) => self.untold_text(alloc, place),
            Cause::SecondType => self.second_text(alloc),
            Cause::BlankInUrl
            | Cause::NoObject
            | Cause::NoType
            | Cause::RepeatedId
            | Cause::NoRoot
            | Cause::SecondRoot
            | Cause::NoSnapshot => { String::from_str(alloc, fixed_text(self.blame.cause)) }
        }
    }
}
