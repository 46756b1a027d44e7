//! The loop of a server on lines: a line is read, it is answered, and its answer is written and flushed before the next line is read.
//!
//! The contract to read first is that of [`serve`]. What the lines of a text are stands in `specs/Lines.antt`, and what serving them
//! is in `specs/Serving.antt`.
#![tactic(auto)]

mod laws;
mod reading;
mod service;
mod serving;

pub use laws::split_lines;
pub use service::Service;
pub use serving::{Ending, serve};
