use crate::pacing::Pacing;
use std::io::IsTerminal;
use std::time::Instant;

/// Says when lines of progress are due by the clock, if they are wanted. If the clock can't be read, none is.
#[derive(Drop)]
pub struct PacedClock<'a> {
    rt: &'a HostRuntime,
    is_wanted: bool,
    begun: Option<Instant>,
    pacing: Pacing,
}

impl<'a> PacedClock<'a> {
    /// Lines are wanted if they are asked for, or if standard error is a terminal.
    pub fn new(rt: &'a HostRuntime, is_asked: bool) -> PacedClock<'a> {
        PacedClock {
            rt,
            is_wanted: is_asked || rt.stderr().is_terminal(),
            begun: Instant::now(rt).ok(),
            pacing: Pacing::new(),
        }
    }

    /// Whether lines are wanted.
    pub fn is_wanted(&self) -> bool {
        self.is_wanted
    }

    /// Whether a line is due now, which is then printed.
    pub fn is_due(&mut self) -> bool {
        self.passed_if_due().is_some()
    }

    /// The milliseconds since the beginning, if a line is due now, which is then printed.
    pub fn passed_if_due(&mut self) -> Option<u64> {
        if !self.is_wanted {
            return None;
        }
        let (Some(begun), Ok(now)) = (self.begun, Instant::now(self.rt)) else {
            return None;
        };
        let passed = u64::try_from(now.duration_since(begun).as_millis()).unwrap_or(u64::MAX);
        if self.pacing.is_due(passed) {
            Some(passed)
        } else {
            None
        }
    }
}
