//! What is printed of definitions that were gathered from several folders.
//!
//! ```
//! /// What is printed where each definition is told that isn't kept.
//! pub fn whole_text(alloc: Global, gathered: &Gathered) -> Result<String, NoMemory>
//!     ensures { IfOk result (λ text. string_bytes text ≡ gather_text Detail.Each (counts_seen gathered.now)
//!         (all_dropped gathered.now.dropped.items) (map note_seen gathered.now.notes.items)) }
//! {
//!     fhir_gather_lines::gather_text(alloc, Detail::Each, gathered)
//! }
//! ```
//!
//! The contract to read first is that of [`gather_text`]. Its words stand in `specs/GatherLines.antt`.
#![tactic(auto)]

mod dropping;
mod joining;
mod noting;
mod telling;

pub use telling::gather_text;
