//! A line that shows how many profiles were judged.

use fhir_audit::Watch;
use fhir_engine::StatusLine;
use std::io::Write;
use std::time::{Clock, Duration};

// How long a line stays before the next.
const PAUSE_MILLISECONDS: u64 = 200;

/// Shows how many profiles were judged, on one line of a terminal that is written again and again.
#[derive(Drop)]
pub struct ProfileMeter<'m, C, E> {
    line: StatusLine<'m, C, E>,
}

impl<'m, C: Clock, E: Write> ProfileMeter<'m, C, E> {
    /// One on a terminal, or where it is none one that shows nothing.
    pub fn new(clock: &'m C, terminal: &'m mut E, is_terminal: bool) -> ProfileMeter<'m, C, E> {
        let pause = Duration::from_millis(PAUSE_MILLISECONDS);
        ProfileMeter {
            line: StatusLine::new(clock, terminal, is_terminal, pause, pause),
        }
    }
}

impl<C: Clock, E: Write> Watch for ProfileMeter<'_, C, E> {
    fn tell(&mut self, done: usize, count: usize) {
        if let Some(now) = self.line.due() {
            self.line
                .show(now, format_args!("profiles judged: {done} of {count}"));
        }
    }

    fn end(&mut self) {
        self.line.clear();
    }
}
