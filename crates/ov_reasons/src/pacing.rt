ghost use Rattle.std.specs.Prelude.{◌≡◌, nat_le, if◌then◌else◌};
ghost use Rattle.ov_reasons.specs.Progress.{first_due, next_due};

use std::marker::Model;

/// The time of the first line, in milliseconds since the beginning.
const FIRST: u64 = 1000;

/// The shortest time between two lines, in milliseconds.
const PAUSE: u64 = 500;

/// Says when lines that tell how far something has come are due: none in the first second, and then at most two a
/// second. Contracts see when the next one is due, in milliseconds since the beginning.
#[derive(Debug, Drop)]
pub(crate) struct Pacing {
    due: u64,
}

impl Model for Pacing {
    ghost use Rattle.std.specs.Prelude.{ℕ};

    ghost Value = { ℕ };

    ghost view = { λ pacing. pacing.due };
}

impl Pacing {
    /// No line was printed yet.
    pub(crate) fn new() -> Pacing
        ensures { result ≡ first_due }
    {
        Pacing { due: FIRST }
    }

    /// Whether a line is due at this time, in milliseconds since the beginning. If it is, it is printed now, and the
    /// next one is due half a second later.
    pub(crate) fn is_due(&mut self, now: u64) -> bool
        ensures due { result ≡ nat_le self.old now }
        ensures next { self.new ≡ (if nat_le self.old now then next_due now else self.old) }
    {
        if now < self.due {
            return false;
        }
        self.due = now.saturating_add(PAUSE);
        true
    }
}
