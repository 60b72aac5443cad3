ghost use Rattle.std.specs.Prelude.{◌≡◌};
ghost use Rattle.ov_check.specs.Parallel.{number_of};
ghost use Rattle.ov_check.specs.declared.check_or_memory_fault.ParallelFault.TheVariants.{OutOfMemory as out_of_memory};
ghost use Rattle.ov_check.specs.declared.check_or_memory_fault.ParallelFault.TheVariants.{Check};

use ov_cert::CheckFault;
use ov_ids::OutOfMemory;
use thiserror::Error;

/// Why a certificate was not found valid.
#[derive(Clone, Copy, Debug, PartialEq, Eq, Error)]
pub enum ParallelFault {
    /// The first fault of the certificate, by its own number.
    #[error("{0}")]
    Check(CheckFault),
    /// 99: an allocation was refused.
    #[error("out of memory")]
    OutOfMemory,
}

impl ParallelFault {
    /// The fault's number; a fault of the certificate keeps its own.
    pub fn number(&self) -> u32
        ensures { result ≡ number_of self.now }
    {
        match self {
            ParallelFault::Check(fault) => fault.number(),
            ParallelFault::OutOfMemory => 99,
        }
    }
}

impl From<CheckFault> for ParallelFault {
    ghost from_gives = { λ fault e. e ≡ Check fault };

    fn from(fault: CheckFault) -> ParallelFault {
        ParallelFault::Check(fault)
    }
}

impl From<OutOfMemory> for ParallelFault {
    ghost from_gives = { λ _ e. e ≡ out_of_memory };

    fn from(_fault: OutOfMemory) -> ParallelFault {
        ParallelFault::OutOfMemory
    }
}
