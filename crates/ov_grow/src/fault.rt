ghost use Rattle.std.specs.Prelude.{◌≡◌};
ghost use Rattle.ov_grow.specs.Faults.{number_of, of_analysis, of_event};
ghost use Rattle.ov_grow.specs.declared.fault.GrowFault.TheVariants.{OutOfMemory as out_of_memory};

use ov_net::NetFault;
use ov_snap::CoreFault;
use std::alloc::{AllocError, AllocFailed};
use thiserror::Error;

/// Why growing ended. Nothing is returned then. Out of memory is `OutOfMemory`, whoever ran out of it.
#[derive(Clone, Copy, Debug, PartialEq, Eq, Error)]
pub enum GrowFault {
    /// The world refused an event.
    #[error("an event was refused")]
    Event(NetFault),
    /// The core refused an analysis.
    #[error("an analysis was refused")]
    Analysis(CoreFault),
    /// An allocation was refused.
    #[error("out of memory")]
    OutOfMemory,
}

impl GrowFault {
    /// The fault's number: that of the world or of the core, and 99 for out of memory.
    pub fn number(&self) -> u32
        ensures { result ≡ number_of self.now }
    {
        match self {
            GrowFault::Event(fault) => fault.number(),
            GrowFault::Analysis(fault) => fault.number(),
            GrowFault::OutOfMemory => 99,
        }
    }
}

impl From<NetFault> for GrowFault {
    ghost from_gives = { λ fault e. e ≡ of_event fault };

    fn from(fault: NetFault) -> GrowFault {
        match fault {
            NetFault::OutOfMemory => GrowFault::OutOfMemory,
            other => GrowFault::Event(other),
        }
    }
}

impl From<CoreFault> for GrowFault {
    ghost from_gives = { λ fault e. e ≡ of_analysis fault };

    fn from(fault: CoreFault) -> GrowFault {
        match fault {
            CoreFault::OutOfMemory => GrowFault::OutOfMemory,
            other => GrowFault::Analysis(other),
        }
    }
}

impl From<ov_ids::OutOfMemory> for GrowFault {
    ghost from_gives = { λ _ e. e ≡ out_of_memory };

    fn from(_fault: ov_ids::OutOfMemory) -> GrowFault {
        GrowFault::OutOfMemory
    }
}

impl From<AllocError> for GrowFault {
    ghost from_gives = { λ _ e. e ≡ out_of_memory };

    fn from(_error: AllocError) -> GrowFault {
        GrowFault::OutOfMemory
    }
}

impl<T: Drop> From<AllocFailed<T>> for GrowFault {
    ghost from_gives = { λ _ e. e ≡ out_of_memory };

    fn from(_error: AllocFailed<T>) -> GrowFault {
        GrowFault::OutOfMemory
    }
}
