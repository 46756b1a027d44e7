//! The items of a resource, numbered.

ghost use Rattle.std.specs.Prelude.{◌≡◌, ◌<◌, ◌++◌, length, map, IfOk, IfSome, OnOk};
ghost use Rattle.fhir_instance.specs.View.{item_of};
ghost use Rattle.fhir_instance.specs.Items.{kids_of};
ghost use Rattle.fhir_conformance.specs.Conformance.{nearest_to};
ghost use Rattle.fhir_conformance.specs.Positions.{kid_at};
ghost use Rattle.fhir_conformance.specs.Views.{IsIndexOf};
ghost use Rattle.fhir_validator.specs.Layouts.{place_in_row, spot_in, spot_of, spots_in, spot_at, item_at, resource_of, number_of, IsStand, AreStands};

use fhir_conformance::{KidsByName, nearest_to};
use fhir_instance::Typed;
use fhir_json::NoMemory;
use fhir_schema::Schema;
use fhir_vouching::Vouching;
use std::alloc::Global;
use std::marker::Model;

// An item, and where it stands.
#[derive(Drop)]
struct Stand<'t, 'a, 'j> {
    item: &'t Typed<'a, 'j>,
    // the nearest resource at or around it
    resource: &'t Typed<'a, 'j>,
    kids_by_name: KidsByName<'t>,
    // the number of its parent, which is its own at the outermost, and its position among all of that one's children
    parent: usize,
    position: usize,
}

/// The items of a resource in a row: the outermost first, and the children of each side by side behind it. It keeps the
/// schema by which they were typed, and the texts that a user vouches for. A number that none of them has stands for the
/// outermost.
#[derive(Drop)]
pub(crate) struct Layout<'s, 't, 'a, 'j> {
    pub(crate) schema: &'s Schema,
    given: &'t Vouching,
    stands: Vec<Stand<'t, 'a, 'j>>,
    // the number of each item's first child, or where that would stand
    firsts: Vec<usize>,
}

impl<'s, 't, 'a, 'j> Model for Layout<'s, 't, 'a, 'j> {
    ghost use Rattle.fhir_validator.specs.Layouts.{LayoutValue};

    ghost Value = { LayoutValue };

    ghost use Rattle.fhir_schema.specs.contracts.schema.Schema as schemas;
    ghost use Rattle.fhir_validator.specs.Coding.{item_code};
    ghost use Rattle.std.specs.Coded.{codes};

    ghost coded = { Prim.hlevel (codes, schemas.the_row.coded, item_code) };

    ghost use Rattle.fhir_validator.specs.Layouts.{laid_out, IsLaid};

    ghost view = { λ l. laid_out l.schema.now l.given.now l.stands.items };

    ghost invariant = { λ l. IsLaid l.schema.now l.stands.items l.firsts.items };
}

fn stand_of<'t, 'a, 'j>(
    alloc: Global,
    schema: &Schema,
    around: &'t Typed<'a, 'j>,
    item: &'t Typed<'a, 'j>,
    parent: usize,
    position: usize,
) -> Result<Stand<'t, 'a, 'j>, NoMemory>
    ensures item { IfOk result (λ stand. spot_in stand ≡ spot_of schema.now (item_of around.now) (item_of item.now)) }
    ensures stand { IfOk result (IsStand schema.now) }
{
    let kids_by_name = KidsByName::of(alloc, item)?;
    Ok(Stand {
        item,
        resource: nearest_to(schema, around, item),
        kids_by_name,
        parent,
        position,
    })
}

// Puts the children of an item, of that number, behind the others.
fn put_kids<'t, 'a, 'j>(
    alloc: Global,
    schema: &Schema,
    stands: &mut Vec<Stand<'t, 'a, 'j>>,
    around: &'t Typed<'a, 'j>,
    item: &'t Typed<'a, 'j>,
    number: usize,
) -> Result<(), NoMemory>
    ensures items { OnOk result (map spot_in stands.new.items ≡ map spot_in stands.old.items
        ++ spots_in schema.now (item_of around.now) (kids_of (item_of item.now))) }
    ensures stands { AreStands schema.now stands.old.items → OnOk result (AreStands schema.now stands.new.items) }
{
    let kids = item.kids();
    for position in 0..kids.len() {
        let stand = stand_of(
            alloc,
            schema,
            around,
            kids[position].item(),
            number,
            position,
        )?;
        stands.push(stand)?;
    }
    Ok(())
}

impl<'s, 't, 'a, 'j> Layout<'s, 't, 'a, 'j> {
    /// The items of a resource, in time near linear in their number. The one refusal is want of memory.
    pub(crate) fn of(
        alloc: Global,
        schema: &'s Schema,
        given: &'t Vouching,
        outermost: &'t Typed<'a, 'j>,
    ) -> Result<Layout<'s, 't, 'a, 'j>, NoMemory>
        ensures schema { IfOk result (λ layout. layout.schema ≡ schema.now) }
        ensures given { IfOk result (λ layout. layout.given ≡ given.now) }
        ensures item { IfOk result (λ layout. item_at layout 0 ≡ item_of outermost.now) }
        ensures resource { IfOk result (λ layout. resource_of layout 0 ≡ item_of outermost.now) }
    {
        let mut stands = Vec::new(alloc);
        let mut firsts: Vec<usize> = Vec::new(alloc);
        stands.push(stand_of(alloc, schema, outermost, outermost, 0, 0)?)?;
        let mut at = 0;
        while at < stands.len() {
            firsts.push(stands.len())?;
            let stand = &stands[at];
            let (item, resource) = (stand.item, stand.resource);
            put_kids(alloc, schema, &mut stands, resource, item, at)?;
            at += 1;
        }
        Ok(Layout {
            schema,
            given,
            stands,
            firsts,
        })
    }

    /// The schema.
    pub(crate) fn schema(&self) -> &'s Schema
        ensures { result.now ≡ self.now.schema }
    {
        self.schema
    }

    /// The texts that a user vouches for.
    pub(crate) fn given(&self) -> &'t Vouching
        ensures { result.now ≡ self.now.given }
    {
        self.given
    }

    // The place of a number in the row.
    fn place_in_row(&self, number: usize) -> usize
        ensures place { result ≡ place_in_row self.now number }
        ensures within { result < length self.now.spots }
    {
        if number < self.stands.len() {
            number
        } else {
            0
        }
    }

    fn stand_at(&self, number: usize) -> &Stand<'t, 'a, 'j>
        ensures spot { spot_at self.now number ≡ spot_in result.now }
        ensures stand { IsStand self.now.schema result.now }
    {
        &self.stands[self.place_in_row(number)]
    }

    /// The nearest resource at or around the item of a number.
    pub(crate) fn resource(&self, number: usize) -> &'t Typed<'a, 'j>
        ensures { item_of result.now ≡ resource_of self.now number }
    {
        self.stand_at(number).resource
    }

    /// The item of a number.
    pub(crate) fn item(&self, number: usize) -> &'t Typed<'a, 'j>
        ensures { item_of result.now ≡ item_at self.now number }
    {
        self.stand_at(number).item
    }

    /// Its children by their names.
    pub(crate) fn kids_by_name(&self, number: usize) -> &KidsByName<'t>
        ensures { IsIndexOf (item_at self.now number) result.now }
    {
        &self.stand_at(number).kids_by_name
    }

    /// The number of its child at a position, if it has one.
    pub(crate) fn kid(&self, number: usize, position: usize) -> Option<usize>
        ensures kid { number_of self.now result ≡ kid_at (kids_of (item_at self.now number)) position }
        ensures near { IfSome result (λ kid. resource_of self.now kid
            ≡ nearest_to self.now.schema (resource_of self.now number) (item_at self.now kid)) }
        ensures behind { IfSome result (λ kid. place_in_row self.now number < place_in_row self.now kid) }
        ensures within { IfSome result (λ kid. place_in_row self.now kid < length self.now.spots) }
    {
        if position < self.item(number).kids().len() {
            Some(self.firsts[self.place_in_row(number)] + position)
        } else {
            None
        }
    }

    /// The number of its parent, if it has one.
    pub(crate) fn parent(&self, number: usize) -> Option<usize>
        ensures { IfSome result (λ parent. parent < number) }
    {
        let parent = self.stand_at(number).parent;
        if parent < number { Some(parent) } else { None }
    }

    /// Its position among all of its parent's children.
    pub(crate) fn position(&self, number: usize) -> usize {
        self.stand_at(number).position
    }
}
