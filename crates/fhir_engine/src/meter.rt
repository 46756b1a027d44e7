//! A line that shows how far the work is.

use crate::status_line::StatusLine;
use fhir_package::{Progress, Stage};
use std::io::Write;
use std::time::{Clock, Duration};

// How long the work takes before the line is shown, and how long one stays before the next.
const PATIENCE_SECONDS: u64 = 1;

const PAUSE_MILLISECONDS: u64 = 100;

/// Shows how far the work is, on one line of a terminal that is written again and again, once it takes longer than a second.
#[derive(Drop)]
pub struct Meter<'m, C, E> {
    line: StatusLine<'m, C, E>,
}

fn words_of(stage: Stage) -> &'static str {
    match stage {
        Stage::Reading => "files read",
        Stage::Surveying => "files looked through",
    }
}

impl<'m, C: Clock, E: Write> Meter<'m, C, E> {
    /// One on a terminal, or where it is none one that shows nothing.
    pub fn new(clock: &'m C, terminal: &'m mut E, is_terminal: bool) -> Meter<'m, C, E> {
        let patience = Duration::from_secs(PATIENCE_SECONDS);
        let pause = Duration::from_millis(PAUSE_MILLISECONDS);
        let mut line = StatusLine::new(clock, terminal, is_terminal, patience, pause);
        line.start();
        Meter { line }
    }
}

impl<C: Clock, E: Write> Progress for Meter<'_, C, E> {
    fn tell(&mut self, stage: Stage, done: usize, count: usize) {
        if let Some(now) = self.line.due() {
            let words = words_of(stage);
            self.line
                .show(now, format_args!("{words}: {done} of {count}"));
        }
    }

    fn end(&mut self) {
        self.line.clear();
    }
}
