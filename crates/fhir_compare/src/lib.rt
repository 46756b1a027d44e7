//! The profiles of two packages, url by url: which of them narrow those of the other.
//!
//! The contract to read first is that of [`compare`]. What is said stands in `specs/Comparing.antt`.
#![tactic(auto)]

mod comparing;
mod losing;
mod owning;
mod reaching;
mod sides;
mod verdict;
mod ways;

pub use comparing::compare;
pub use sides::Comparison;
pub use verdict::{Change, Compared, Shown, Verdict, Way, Ways};
