//! How far an audit is.

/// Something that is told how far an audit is. It changes nothing that a contract speaks of.
pub trait Watch {
    /// So many of the profiles are judged.
    fn tell(&mut self, done: usize, count: usize);

    /// Something is written next, or nothing is told any more.
    fn end(&mut self);
}

/// Nothing is told.
#[derive(Drop)]
pub struct Unwatched;

impl Watch for Unwatched {
    fn tell(&mut self, _done: usize, _count: usize) {}

    fn end(&mut self) {}
}
