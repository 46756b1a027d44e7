//! Those who ask.

ghost use Rattle.std.specs.Prelude.{◌≡◌, IfOk};
ghost use Rattle.fhir_json.specs.Tree.{Text};
ghost use Rattle.fhir_asking.specs.Asking.{Asking, run, known};
ghost use Rattle.fhir_asking.specs.Steps.{step_seen};

use crate::table::Table;
use fhir_json::NoMemory;
use std::alloc::Global;

/// What comes of asking for a name, by what is known of others.
#[derive(Drop)]
pub enum Step<T> {
    /// The thing of this name, or that there is none.
    Found(Option<T>),
    /// The name whose answer is wanted first.
    Wants(String),
}

/// A world of things with names, each known by asking for others.
pub trait Asks {
    /// What a thing is.
    type Thing: Drop;

    /// What each name asks for.
    ghost asking: { Self → Text → Asking Self.Thing };

    /// The answer of a name by what is known of others, or the first name whose answer it wants. The one refusal is
    /// want of memory.
    fn step(
        &self,
        alloc: Global,
        table: &Table<Self::Thing>,
        name: &str,
    ) -> Result<Step<Self::Thing>, NoMemory>
        ensures { IfOk result (λ step. step_seen step ≡ run (known table.now) (asking self.now name.now)) };
}
