//! Places in resources.

use crate::layout::Layout;
use fhir_instance::Kid;
use fhir_json::NoMemory;
use std::alloc::{AllocError, Global};
use std::fmt;
use std::fmt::Write;

/// Where an item stands in a resource. `Display` prints the type of the resource and the names of the elements down to it,
/// as `Patient.name[0].given`: an index where the element is an array, and no `[x]`.
#[derive(Drop)]
pub struct Place {
    text: String,
}

impl fmt::Display for Place {
    fn fmt<W: fmt::Write>(&self, f: &mut fmt::Formatter<W>) -> fmt::Result {
        f.write_str(&self.text)
    }
}

// `value` of `value[x]`.
fn without_choice(name: &str) -> &str {
    name.strip_suffix("[x]").unwrap_or(name)
}

fn put_name(text: &mut String, name: &str) -> Result<(), AllocError> {
    text.push('.')?;
    text.push_str(without_choice(name))
}

// How many of the children in front of a position have its name.
fn index_of(layout: &Layout<'_, '_, '_, '_>, parent: usize, position: usize, name: &str) -> usize {
    let places = layout.kids_by_name(parent).places(name);
    places.partition_point(|place| *place < position)
}

fn put_step(
    text: &mut String,
    layout: &Layout<'_, '_, '_, '_>,
    parent: usize,
    position: usize,
) -> Result<(), AllocError> {
    let Some(kid) = layout.item(parent).kids().get(position) else {
        return Ok(());
    };
    put_name(text, kid.name())?;
    if kid.repeats() {
        let index = index_of(layout, parent, position, kid.name());
        write!(text, "[{index}]")?;
    }
    Ok(())
}

fn put_place(
    text: &mut String,
    layout: &Layout<'_, '_, '_, '_>,
    number: usize,
) -> Result<(), AllocError> {
    let Some(parent) = layout.parent(number) else {
        return text.push_str(layout.item(number).code());
    };
    put_place(text, layout, parent)?;
    put_step(text, layout, parent, layout.position(number))
}

impl Place {
    /// The place of the item of a number.
    pub(crate) fn of(
        alloc: Global,
        layout: &Layout<'_, '_, '_, '_>,
        number: usize,
    ) -> Result<Place, NoMemory> {
        let mut text = String::new(alloc);
        put_place(&mut text, layout, number)?;
        Ok(Place { text })
    }

    /// The place where its children of a name would stand.
    pub(crate) fn below(
        alloc: Global,
        layout: &Layout<'_, '_, '_, '_>,
        number: usize,
        name: &str,
    ) -> Result<Place, NoMemory> {
        let Place { mut text } = Place::of(alloc, layout, number)?;
        put_name(&mut text, name)?;
        Ok(Place { text })
    }
}
