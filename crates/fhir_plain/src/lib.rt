//! What is wrong with a resource, in plain words for a person.
//!
//! The contracts to read first are those of [`Sayings::of`] and [`Sayings::get`]; what a constraint says stands in
//! `specs/Sayings.antt`, and what of it is kept in `specs/Kept.antt`. [`Plain::words`] makes texts, of which no contract speaks.
#![tactic(auto)]

mod invariants;
mod misfits;
mod plain;
mod sayings;
mod shown;
mod spot;
mod unusable;

pub use plain::Plain;
pub use sayings::Sayings;
