ghost use Rattle.std.specs.Prelude.{◌≡◌};
ghost use Rattle.ov_wire.specs.Faults.{number_of};
ghost use Rattle.ov_wire.specs.declared.fault.WireFault.TheVariants.{OutOfMemory};

use std::alloc::{AllocError, AllocFailed};
use thiserror::Error;

/// Why bytes are no message: the fault of the first wrong field from the left; or out of memory.
#[derive(Clone, Copy, Debug, PartialEq, Eq, Error)]
pub enum WireFault {
    /// The bytes end before or within a field.
    #[error("the message ends within a field")]
    Short,
    /// The version is not 1.
    #[error("the version is unknown")]
    BadVersion,
    /// The kind is not one of 1 to 12.
    #[error("the kind is unknown")]
    BadKind,
    /// Another field is out of its range.
    #[error("a field is out of its range")]
    BadField,
    /// Bytes follow the last field.
    #[error("bytes follow the message")]
    Trailing,
    /// Out of memory: an allocation was refused.
    #[error("out of memory")]
    OutOfMemory,
}

impl WireFault {
    /// The fault's number: 1 to 5 in the order above, or 99 out of memory.
    pub fn number(&self) -> u32
        ensures { result ≡ number_of self.now }
    {
        match self {
            WireFault::Short => 1,
            WireFault::BadVersion => 2,
            WireFault::BadKind => 3,
            WireFault::BadField => 4,
            WireFault::Trailing => 5,
            WireFault::OutOfMemory => 99,
        }
    }
}

impl From<AllocError> for WireFault {
    ghost from_gives = { λ _ e. e ≡ OutOfMemory };

    fn from(_error: AllocError) -> WireFault {
        WireFault::OutOfMemory
    }
}

impl<T: Drop> From<AllocFailed<T>> for WireFault {
    ghost from_gives = { λ _ e. e ≡ OutOfMemory };

    fn from(_error: AllocFailed<T>) -> WireFault {
        WireFault::OutOfMemory
    }
}
