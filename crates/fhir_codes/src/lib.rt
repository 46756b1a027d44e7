//! Value sets (FHIR R4, ValueSet, compose): the concepts that each has, found from the value sets and code systems of a package.
//!
//! ```
//! /// Whether a code of a system is in the value set that a canonical names. None is in one that can't be read.
//! pub fn is_in(
//!     alloc: Global,
//!     from: &Package,
//!     canonical: &str,
//!     system: &str,
//!     code: &str,
//! ) -> Result<bool, NoMemory>
//!     ensures { Gives (λ b. b) result
//!         (option_map_or (λ s. set.contains s (concept system.now code.now)) (concepts_of from.now canonical.now) false) }
//! {
//!     Ok(expand(alloc, from, canonical)?.contains(system, code))
//! }
//! ```
//!
//! The contract to read first is that of [`expand`]. Which concepts a value set has stands in `specs/ValueSets.antt`
//! (`concepts_of`); the law [`least_closed`] says it without counting steps, and [`examples`] and [`unread_examples`] show it
//! on a small package.
#![tactic(auto)]

mod code_set;
mod code_systems;
mod combining;
mod composing;
mod concept_set;
mod filling;
mod included;
mod includes;
mod joining;
mod laws;
mod order;
mod shared_concept;
mod sources;
mod texts;
mod value_sets;
mod worked;

pub use code_set::{CodeSet, subset};
pub use concept_set::ConceptSet;
pub use laws::{algebra, any_order, codes_of_subset, least_closed, resolved, subsets};
pub use shared_concept::SharedConcept;
pub use value_sets::{ValueSets, expand};
pub use worked::{examples, unread_examples};
