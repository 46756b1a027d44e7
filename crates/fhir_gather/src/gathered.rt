//! What is told of what is gathered.

use crate::dropped::DroppedOne;
use fhir_archives::Note;

/// What is told of what is gathered.
#[derive(Drop)]
pub struct Gathered {
    /// How many folders were read.
    pub folders: usize,
    /// How many JSON files these have.
    pub files: usize,
    /// How many definitions stand in them.
    pub definitions: usize,
    /// How many of these are kept, and so written.
    pub kept: usize,
    /// The others, in the order of taking.
    pub dropped: Vec<DroppedOne>,
    /// What is noted of the folders' files `package.json`.
    pub notes: Vec<Note>,
}
