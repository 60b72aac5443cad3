ghost use Rattle.std.specs.Prelude.{◌≡◌, ◌≤◌, IfSome, IfNone, min, max};
ghost use Rattle.ov_ids.specs.Workers.{MayWork};

use std::marker::Model;

/// How many workers share out work: 1 to 64, as chosen here. Contracts see the number.
#[derive(Clone, Copy, Debug, PartialEq, Eq)]
pub struct Workers(u32);

impl Model for Workers {
    ghost use Rattle.std.specs.Prelude.{ℕ};
    ghost use Rattle.ov_ids.specs.Workers.{MayWork};

    ghost Value = { ℕ };

    ghost view = { λ w. w.0 };

    ghost invariant = { λ w. MayWork w.0 };

    ghost inverse = { λ n. record { 0 = n } };
}

impl Workers {
    /// One worker.
    pub const ONE: Workers = Workers(1);

    /// How many there may be, at most.
    const MOST: u32 = 64;

    /// This many workers. None is returned if the number is 0, or above 64.
    pub fn new(count: u32) -> Option<Workers>
        ensures some { IfSome result (λ w. (w ≡ count) × MayWork count) }
        ensures none { IfNone result (¬ MayWork count) }
    {
        if count < 1 || count > Workers::MOST {
            return None;
        }
        Some(Workers(count))
    }

    /// Their number.
    pub fn count(self) -> u32
        ensures count { result ≡ self }
        ensures may_work { MayWork result }
    {
        self.0
    }

    /// These workers, but at most `most` of them, and at least one.
    pub fn at_most(self, most: u64) -> Workers
        ensures number { result ≡ max (min self most) 1 }
        ensures few { result ≤ self }
    {
        Workers((self.0 as u64).min(most).max(1) as u32)
    }
}
