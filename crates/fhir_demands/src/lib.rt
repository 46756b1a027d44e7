//! What an item that is made is asked for, and how many children of each name it gets.
//!
//! ```
//! /// How many things each child of a name is asked for, by what its parent is.
//! pub fn demand_count<'s>(
//!     alloc: Global,
//!     schema: &'s Schema,
//!     demands: &[Demand<'s>],
//!     name: &str,
//! ) -> Result<usize, NoMemory> {
//!     Ok(below(alloc, schema, demands, name)?.len())
//! }
//! ```
//!
//! An item is asked for several things at once, its demands (`demand`): they are read off nodes, slices, patterns and the way to a place
//! (`task`). From them follows of which type it is (`kinds`), and how many children of each name it gets (`plan`), so that constraints of
//! a simple form are true (`settling`). No contract says that such an item is right: who makes it has it judged.
#![tactic(auto)]

mod demand;
mod kinds;
mod named_plan;
mod plan;
mod settling;
mod task;

pub use demand::{Demand, below, push_criteria, specials, whole};
pub use kinds::{form_for, place_of, resource_code};
pub use plan::{Planned, fill, plan_of};
pub use task::Task;
