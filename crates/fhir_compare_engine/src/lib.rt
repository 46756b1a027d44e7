//! The profiles of two folders, as `compare` of the program tells them.
//!
//! The contract to read first is that of [`compare_folders`].
#![tactic(auto)]

mod running;

pub use running::{compare_directories, compare_folders};
