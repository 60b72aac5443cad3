ghost use Rattle.std.specs.Prelude.{◌≡◌};
ghost use Rattle.ov_plum.specs.Faults.{number_of};
ghost use Rattle.ov_plum.specs.declared.timer_fault.TimerFault.TheVariants.{OutOfMemory};

use ov_ids::OutOfMemory;
use thiserror::Error;

/// Why a timer did not fire.
#[derive(Clone, Copy, Debug, PartialEq, Eq, Error)]
pub enum TimerFault {
    /// No timer of this id runs.
    #[error("the timer is not set")]
    NoTimer,
    /// An allocation was refused.
    #[error("out of memory")]
    OutOfMemory,
}

impl TimerFault {
    /// The fault's number: 18, or 99 out of memory.
    pub fn number(&self) -> u32
        ensures { result ≡ number_of self.now }
    {
        match self {
            TimerFault::NoTimer => 18,
            TimerFault::OutOfMemory => 99,
        }
    }
}

impl From<OutOfMemory> for TimerFault {
    ghost from_gives = { λ _ e. e ≡ OutOfMemory };

    fn from(_error: OutOfMemory) -> TimerFault {
        TimerFault::OutOfMemory
    }
}
