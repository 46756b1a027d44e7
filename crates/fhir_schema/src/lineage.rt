//! Chains of bases, compared by powers of the step from a definition to its base.

ghost use Rattle.std.specs.Prelude.{◌≡◌, ◌<◌, ◌≤◌, ◌+◌, ◌*◌, ◌^◌, length, IfOk, Some, if◌then◌else◌};
ghost use Rattle.fhir_definition.specs.Snapshot.{is_at};
ghost use Rattle.fhir_schema.specs.Lineages.{IsLineage, step_by, after, climb_once, climb, is_between, comes_by};

use crate::chains::{bases_of, place_at, steps_after};
use fhir_nodes::Table;
use std::alloc::{AllocError, Global};
use std::marker::Model;

/// Where one step leads from each definition, two steps, four and so on. With them chains of n definitions are compared in
/// log n look-ups.
#[derive(Drop)]
pub(crate) struct Lineage {
    powers: Vec<Vec<Option<usize>>>,
}

impl Model for Lineage {
    ghost use Rattle.std.specs.Prelude.{List, Option, ℕ, map};

    ghost Value = { List (List (Option ℕ)) };

    ghost view = { λ l. map (λ v. v.items) l.powers.items };
}

// One step of the climb to the end of a chain.
fn climb_once(power: &[Option<usize>], place: usize, steps: usize) -> (usize, usize)
    requires { steps * 2 + 1 < 2 ^ 64 }
    ensures { result ≡ climb_once power.now (place, steps) }
{
    match place_at(power, Some(place)) {
        Some(base) => (base, steps * 2 + 1),
        None => (place, steps * 2),
    }
}

fn step_where(is_further: bool, power: &[Option<usize>], place: Option<usize>) -> Option<usize>
    ensures { result ≡ (if is_further then step_by power.now place else place) }
{
    if is_further {
        place_at(power, place)
    } else {
        place
    }
}

fn is_place(goal: usize, place: Option<usize>) -> bool
    ensures { result ≡ is_at goal place }
{
    match place {
        Some(place) => goal == place,
        None => false,
    }
}

impl Lineage {
    /// That of the definitions of a table.
    pub(crate) fn of(alloc: Global, table: &Table) -> Result<Lineage, AllocError>
        ensures { IfOk result (λ l. IsLineage table.now l) }
    {
        let mut powers = Vec::new(alloc);
        let mut power = bases_of(alloc, table)?;
        let mut left = table.definitions().len();
        while left > 0 {
            let doubled = steps_after(alloc, &power, &power)?;
            powers.push(power)?;
            power = doubled;
            left /= 2;
        }
        Ok(Lineage { powers })
    }

    /// Where so many steps lead from a place.
    pub(crate) fn after(&self, steps: usize, start: usize) -> Option<usize>
        ensures { result ≡ after self.now steps (Some start) }
    {
        let mut place = Some(start);
        let mut left = steps;
        for power in &self.powers {
            place = step_where(left % 2 == 1, power, place);
            left /= 2;
        }
        place
    }

    // How many steps lead from a place to the last of its chain.
    fn steps(&self, start: usize) -> usize
        requires { 2 ^ length self.now ≤ 2 ^ 64 }
        ensures { result ≡ (climb self.now start).1 }
    {
        let mut last = (start, 0);
        let mut i = self.powers.len();
        while i > 0 {
            i -= 1;
            let power = &self.powers[i];
            last = climb_once(power, last.0, last.1);
        }
        last.1
    }

    fn is_between(&self, start: usize, goal: usize, steps: usize, rest: usize) -> bool
        ensures { result ≡ is_between self.now start goal steps rest }
    {
        rest <= steps && is_place(goal, self.after(steps - rest, start))
    }

    /// Whether a chain that ends comes by a place.
    pub(crate) fn comes_by(&self, start: usize, goal: usize) -> bool
        requires { 2 ^ length self.now ≤ 2 ^ 64 }
        ensures { result ≡ comes_by self.now start goal }
    {
        self.is_between(start, goal, self.steps(start), self.steps(goal))
    }
}
