//! The differences that are found, and how much is looked through for them.

ghost use Rattle.std.specs.Prelude.{◌≤◌, length};

use crate::step::{Change, Difference, Step};
use fhir_json::NoMemory;
use fhir_schema::Schema;
use std::alloc::Global;
use std::marker::Model;

// Memory is all that can be wanting.
pub(crate) type Done = Result<(), NoMemory>;

// How many there are at most.
const MOST_DIFFERENCES: usize = 200;
// How much is looked at for half of them: elements, slots, slices and types, also each with each of another list.
const MOST_LOOKS: usize = 4_000_000;

/// The differences so far.
#[derive(Drop)]
pub(crate) struct Finder<'s> {
    alloc: Global,
    schema: &'s Schema,
    // The codes of the types of resources.
    resources: Vec<&'s str>,
    // The way to the place of the pair.
    way: Vec<Step<'s>>,
    found: Vec<Difference<'s>>,
    // How many there may be.
    room: usize,
    // How many looks are left.
    left: usize,
}

impl<'s> Model for Finder<'s> {
    ghost use Rattle.std.specs.Prelude.{ℕ, ◌≤◌, length};

    // How many there are.
    ghost Value = { ℕ };

    ghost view = { λ f. length f.found.items };

    ghost invariant = { λ f. (length f.found.items ≤ f.room) × (f.room ≤ 200) };
}

// The codes of the types that a resource may be of.
fn resources_of(alloc: Global, schema: &Schema) -> Result<Vec<&str>, NoMemory> {
    let mut codes = Vec::new(alloc);
    for definition in schema.definitions() {
        let code = definition.type_code();
        if definition.is_type() && schema.resource_root(code).is_some() {
            codes.push(code)?;
        }
    }
    Ok(codes)
}

impl<'s> Finder<'s> {
    /// One without any.
    pub(crate) fn new(alloc: Global, schema: &'s Schema) -> Result<Finder<'s>, NoMemory> {
        let resources = resources_of(alloc, schema)?;
        Ok(Finder {
            alloc,
            schema,
            resources,
            way: Vec::new(alloc),
            found: Vec::new(alloc),
            room: MOST_DIFFERENCES / 2,
            left: MOST_LOOKS,
        })
    }

    pub(crate) fn alloc(&self) -> Global {
        self.alloc
    }

    pub(crate) fn schema(&self) -> &'s Schema {
        self.schema
    }

    /// The codes of the types that a resource may be of.
    pub(crate) fn resources(&self) -> &[&'s str] {
        self.resources.as_slice()
    }

    /// From here on the changes are at the end of another way.
    pub(crate) fn go(&mut self, way: Vec<Step<'s>>) {
        self.way = way;
    }

    /// The last step of the way, which is taken off it.
    pub(crate) fn take_step(&mut self) -> Option<Step<'s>> {
        self.way.pop()
    }

    /// From here on there may be as many as ever, and as much is looked at once more.
    pub(crate) fn make_room(&mut self) {
        self.room = MOST_DIFFERENCES;
        self.left = MOST_LOOKS;
    }

    /// Whether nothing more is looked for.
    pub(crate) fn is_done(&self) -> bool {
        self.left == 0 || self.found.len() >= self.room
    }

    /// Whether so much more may be looked at. Where it may not, nothing more is looked for.
    pub(crate) fn takes_looks(&mut self, count: usize) -> bool {
        if self.is_done() || self.left < count {
            self.left = 0;
            return false;
        }
        self.left -= count;
        true
    }

    /// A change at some more steps, if there is room.
    pub(crate) fn push(&mut self, extra: &[Step<'s>], change: Change<'s>) -> Done {
        if self.found.len() >= self.room {
            return Ok(());
        }
        let mut steps = self.way.to_vec(self.alloc)?;
        steps.extend_from_slice(extra)?;
        self.found.push(Difference { steps, change })?;
        Ok(())
    }

    /// The differences.
    pub(crate) fn into_found(self) -> Vec<Difference<'s>>
        ensures { length result.items ≤ 200 }
    {
        self.found
    }
}
