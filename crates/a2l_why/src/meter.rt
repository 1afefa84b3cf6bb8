//! How much of the work is done, on the error stream where that is a terminal.

use crate::findings::Progress;
use std::io::{IsTerminal, Write};

/// How many steps of the work are shown.
const STEPS: usize = 100;

/// Shows how many units have been looked at, over what it showed before.
#[derive(Debug, Drop)]
pub struct Meter<W> {
    pub errors: W,
    /// Nobody looks at it otherwise.
    pub is_shown: bool,
    /// How many steps were shown.
    pub shown: usize,
}

impl<W: Write + IsTerminal> Meter<W> {
    /// A meter on a stream.
    pub fn new(errors: W) -> Self {
        let is_shown = errors.is_terminal();
        Meter {
            errors,
            is_shown,
            shown: 0,
        }
    }

    /// Takes away what was shown.
    pub fn clear(&mut self) {
        if self.is_shown && self.shown > 0 {
            let _ = self.errors.write_all(b"\r\x1b[K");
        }
    }
}

impl<W: Write + IsTerminal> Progress for Meter<W> {
    fn reach(&mut self, done: usize, all: usize) {
        if !self.is_shown || all == 0 {
            return;
        }
        let step = done.saturating_mul(STEPS) / all;
        if step <= self.shown {
            return;
        }
        self.shown = step;
        let _ = write!(self.errors, "\r{done} of {all} units");
    }
}
