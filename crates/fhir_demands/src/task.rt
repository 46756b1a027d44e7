//! What is made: a way, with the change at its end.

use crate::demand::Demand;
use fhir_differences::{Change, Step};
use fhir_schema::Schema;

/// What is made: a resource with a way in it, and a change at its end.
#[derive(Clone, Copy)]
pub struct Task<'c, 's> {
    /// The schema.
    pub schema: &'s Schema,
    /// The way.
    pub steps: &'c [Step<'s>],
    /// The change.
    pub change: Change<'s>,
    /// The code of a type of resources, for where any will do.
    pub plain: &'s str,
}

impl<'s> Task<'_, 's> {
    // The change, if the way ends here.
    fn change_of(&self, demand: Demand<'s>) -> Option<Change<'s>> {
        match demand {
            Demand::Way(at) if at == self.steps.len() => Some(self.change),
            _ => None,
        }
    }

    /// What is changed of an item that is asked for so.
    pub fn change_at(&self, demands: &[Demand<'s>]) -> Change<'s> {
        for demand in demands {
            if let Some(change) = self.change_of(*demand) {
                return change;
            }
        }
        Change::Nothing
    }

    // The step to a child of a name, with its number.
    fn step_of(&self, demand: Demand<'s>, name: &str) -> Option<(usize, Step<'s>)> {
        let Demand::Way(at) = demand else {
            return None;
        };
        let step = self.steps.get(at).copied()?;
        if step.name == name {
            Some((at, step))
        } else {
            None
        }
    }

    /// The step to a child of that name, with its number, if the way leads there.
    pub fn step_to(&self, demands: &[Demand<'s>], name: &str) -> Option<(usize, Step<'s>)> {
        for demand in demands {
            if let Some(step) = self.step_of(*demand, name) {
                return Some(step);
            }
        }
        None
    }
}
