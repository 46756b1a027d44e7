//! What shows how far a run is.

use crate::tally::Tally;

/// What shows how far a run is, or nothing.
pub trait Watch {
    /// One more line was told, and these are the counts now.
    fn told(&mut self, tally: &Tally);

    /// Rows are written next, where what is shown may stand.
    fn make_way(&mut self);
}
