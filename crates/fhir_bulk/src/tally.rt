//! Counts of verdicts.

ghost use Rattle.std.specs.Prelude.{◌≡◌};
ghost use Rattle.fhir_bulk.specs.Counting.{more, no_tally, tallied};

use fhir_telling::LineVerdict;

/// How often each verdict was told. A count stays where it is the greatest number.
#[derive(Clone, Copy, Debug, PartialEq, Eq)]
pub struct Tally {
    /// Of resources that conform.
    pub conforms: usize,
    /// Of those that violate the profile.
    pub violates: usize,
    /// Of those where that is open.
    pub opens: usize,
    /// Of what is no JSON, or can't be read.
    pub faults: usize,
    /// Of what memory was refused for.
    pub no_memory: usize,
    /// Of blank lines.
    pub empties: usize,
}

/// One more.
pub(crate) fn more(count: usize) -> usize
    ensures { result ≡ more count }
{
    if count == usize::MAX {
        count
    } else {
        count + 1
    }
}

impl Tally {
    /// That nothing was told.
    pub fn new() -> Tally
        ensures { result ≡ no_tally }
    {
        Tally {
            conforms: 0,
            violates: 0,
            opens: 0,
            faults: 0,
            no_memory: 0,
            empties: 0,
        }
    }

    /// One more of a verdict.
    pub(crate) fn with(self, verdict: LineVerdict) -> Tally
        ensures { result ≡ tallied verdict self }
    {
        let mut tally = self;
        match verdict {
            LineVerdict::Conforms => tally.conforms = more(tally.conforms),
            LineVerdict::Violates => tally.violates = more(tally.violates),
            LineVerdict::Open => tally.opens = more(tally.opens),
            LineVerdict::Fault => tally.faults = more(tally.faults),
            LineVerdict::NoMemory => tally.no_memory = more(tally.no_memory),
            LineVerdict::Empty => tally.empties = more(tally.empties),
        }
        tally
    }
}
