//! A line that shows how many resources were judged, and how many a second.

use fhir_bulk::{Tally, Watch};
use fhir_engine::StatusLine;
use std::io::Write;
use std::time::{Clock, Duration};

// How long a line stays before the next.
const PAUSE_MILLISECONDS: u64 = 200;

/// Shows how many lines were told, and how many a second since the first, on one line of a terminal that is written again and again.
#[derive(Drop)]
pub struct RateMeter<'m, C, E> {
    line: StatusLine<'m, C, E>,
}

// Of all lines that were told.
fn count_of(tally: &Tally) -> usize {
    tally
        .conforms
        .saturating_add(tally.violates)
        .saturating_add(tally.opens)
        .saturating_add(tally.faults)
        .saturating_add(tally.no_memory)
        .saturating_add(tally.empties)
}

fn rate_of(count: usize, time: Duration) -> u128 {
    let thousands = (count as u128).saturating_mul(1000);
    thousands.checked_div(time.as_millis()).unwrap_or(0)
}

impl<'m, C: Clock, E: Write> RateMeter<'m, C, E> {
    /// One on a terminal, or where it is none one that shows nothing.
    pub fn new(clock: &'m C, terminal: &'m mut E, is_terminal: bool) -> RateMeter<'m, C, E> {
        let pause = Duration::from_millis(PAUSE_MILLISECONDS);
        RateMeter {
            line: StatusLine::new(clock, terminal, is_terminal, pause, pause),
        }
    }
}

impl<C: Clock, E: Write> Watch for RateMeter<'_, C, E> {
    fn told(&mut self, tally: &Tally) {
        if let Some(now) = self.line.due() {
            let count = count_of(tally);
            let rate = rate_of(count, now);
            self.line
                .show(now, format_args!("lines told: {count}, {rate} a second"));
        }
    }

    fn make_way(&mut self) {
        self.line.clear();
    }
}
