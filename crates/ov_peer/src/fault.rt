ghost use Rattle.std.specs.Prelude.{◌≡◌};
ghost use Rattle.ov_peer.specs.Faults.{number_of, of_timer};
ghost use Rattle.ov_peer.specs.declared.fault.PeerFault.TheVariants.{OutOfMemory};

use ov_plum::TimerFault;
use thiserror::Error;

/// Why a node took no step.
#[derive(Clone, Copy, Debug, PartialEq, Eq, Error)]
pub enum PeerFault {
    /// No timer of this id runs.
    #[error("the timer is not set")]
    NoTimer,
    /// The payload has more than 1,024 bytes.
    #[error("the payload is too long")]
    PayloadTooLong,
    /// The node has made 4,096 broadcasts.
    #[error("the node has made too many broadcasts")]
    TooManyMessages,
    /// An allocation failed.
    #[error("out of memory")]
    OutOfMemory,
}

impl PeerFault {
    /// The fault's number: 18 to 20 in the order above, and 99 for out of memory. (Chosen here.)
    pub fn number(&self) -> u32
        ensures { result ≡ number_of self.now }
    {
        match self {
            PeerFault::NoTimer => 18,
            PeerFault::PayloadTooLong => 19,
            PeerFault::TooManyMessages => 20,
            PeerFault::OutOfMemory => 99,
        }
    }
}

impl From<ov_ids::OutOfMemory> for PeerFault {
    ghost from_gives = { λ _ e. e ≡ OutOfMemory };

    fn from(_error: ov_ids::OutOfMemory) -> PeerFault {
        PeerFault::OutOfMemory
    }
}

impl From<TimerFault> for PeerFault {
    ghost from_gives = { λ f e. e ≡ of_timer f };

    fn from(fault: TimerFault) -> PeerFault {
        match fault {
            TimerFault::NoTimer => PeerFault::NoTimer,
            TimerFault::OutOfMemory => PeerFault::OutOfMemory,
        }
    }
}
