//! A line of a terminal that is written again and again.

use std::fmt::Display;
use std::io::Write;
use std::time::{Clock, Duration, Instant};

/// A line of a terminal that is written again and again. Where it is no terminal nothing is shown, and a terminal that fails changes nothing.
#[derive(Drop)]
pub struct StatusLine<'m, C, E> {
    clock: &'m C,
    terminal: &'m mut E,
    is_terminal: bool,
    patience: Duration,
    pause: Duration,
    // When it was started, or first asked whether a text is due.
    started: Option<Instant>,
    // When a text was shown last.
    shown: Option<Duration>,
    is_visible: bool,
}

impl<'m, C: Clock, E: Write> StatusLine<'m, C, E> {
    /// One on a terminal, or where it is none one that shows nothing. The first text is due after `patience`, and each other after `pause`.
    pub fn new(
        clock: &'m C,
        terminal: &'m mut E,
        is_terminal: bool,
        patience: Duration,
        pause: Duration,
    ) -> StatusLine<'m, C, E> {
        StatusLine {
            clock,
            terminal,
            is_terminal,
            patience,
            pause,
            started: None,
            shown: None,
            is_visible: false,
        }
    }

    /// Counts the time from now on. Where this isn't called it counts from when it is first asked whether a text is due.
    pub fn start(&mut self) {
        self.started = Instant::now(self.clock).ok();
    }

    /// The time since the start, if a text is to be shown now.
    pub fn due(&mut self) -> Option<Duration> {
        if !self.is_terminal {
            return None;
        }
        let Some(started) = self.started else {
            self.started = Instant::now(self.clock).ok();
            return None;
        };
        let now = started.elapsed(self.clock).ok()?;
        let next = match self.shown {
            Some(shown) => shown.saturating_add(self.pause),
            None => self.patience,
        };
        if now < next { None } else { Some(now) }
    }

    /// Shows a text, at that time since the start, in place of what is shown.
    pub fn show<T: Display + Drop>(&mut self, now: Duration, text: T) {
        self.shown = Some(now);
        self.is_visible = true;
        let _ = write!(self.terminal, "\r{text}\x1b[K");
    }

    /// Takes away what is shown.
    pub fn clear(&mut self) {
        if self.is_visible {
            self.is_visible = false;
            let _ = self.terminal.write_all(b"\r\x1b[K");
        }
    }
}
