//! Inputs of a run, gone through one after the other: each is opened, its lines are answered in turn, and it is closed, so that memory hangs
//! on the longest line alone.
//!
//! The contract to read first is that of [`go_through`]. What the lines of an input are stands in `specs/Inputs.antt`, and what going
//! through inputs is in `specs/Going.antt`.
#![tactic(auto)]

mod going;
mod input;
mod teller;

pub use going::{Unwritten, go_through};
pub use input::{Inputs, Kind, OpenFault};
pub use teller::{Stop, Teller};
