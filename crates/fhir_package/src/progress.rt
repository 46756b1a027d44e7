//! How far the work on a folder's files is.

/// What is done with each file of a folder.
#[derive(Clone, Copy, Debug, PartialEq, Eq)]
pub enum Stage {
    /// Its bytes are read.
    Reading,
    /// Its definitions are.
    Surveying,
}

/// Is told how far the work is.
pub trait Progress {
    /// So many of the files are done, of that count.
    fn tell(&mut self, stage: Stage, done: usize, count: usize);

    /// The work is at its end.
    fn end(&mut self);
}

/// Shows nothing.
#[derive(Clone, Copy, Debug)]
pub struct Silent;

impl Progress for Silent {
    fn tell(&mut self, _stage: Stage, _done: usize, _count: usize) {}

    fn end(&mut self) {}
}
