ghost use Rattle.std.specs.Prelude.{◌≡◌};
ghost use Rattle.ov_sweep.specs.SweepFaults.{number_of};
ghost use Rattle.ov_sweep.specs.declared.sweep_fault.SweepFault.TheVariants.{OutOfMemory as out_of_memory};
ghost use Rattle.ov_sweep.specs.declared.sweep_fault.SweepFault.TheVariants.{Write as write_failed};

use crate::overlay_batch_growing::RefusedRun;
use ov_ids::OutOfMemory;
use ov_io::WriteFault;
use std::alloc::{AllocError, AllocFailed};
use thiserror::Error;

/// Why a sweep ended before its end.
#[derive(Clone, Copy, Debug, PartialEq, Eq, Error)]
pub enum SweepFault {
    /// A run was refused. All rows before it were taken.
    #[error("a run was refused")]
    Run(RefusedRun),
    /// Rows could not be written.
    #[error("the writer failed")]
    Write,
    /// An allocation was refused.
    #[error("out of memory")]
    OutOfMemory,
}

impl SweepFault {
    /// The fault's number: that of the run, 72 for the writer, and 99 for out of memory.
    pub fn number(&self) -> u32
        ensures { result ≡ number_of self.now }
    {
        match self {
            SweepFault::Run(refused) => refused.fault.number(),
            SweepFault::Write => 72,
            SweepFault::OutOfMemory => 99,
        }
    }
}

impl From<WriteFault> for SweepFault {
    ghost from_gives = { λ _ e. e ≡ write_failed };

    fn from(_fault: WriteFault) -> SweepFault {
        SweepFault::Write
    }
}

impl From<OutOfMemory> for SweepFault {
    ghost from_gives = { λ _ e. e ≡ out_of_memory };

    fn from(_fault: OutOfMemory) -> SweepFault {
        SweepFault::OutOfMemory
    }
}

impl From<AllocError> for SweepFault {
    ghost from_gives = { λ _ e. e ≡ out_of_memory };

    fn from(_error: AllocError) -> SweepFault {
        SweepFault::OutOfMemory
    }
}

impl<T: Drop> From<AllocFailed<T>> for SweepFault {
    ghost from_gives = { λ _ e. e ≡ out_of_memory };

    fn from(_error: AllocFailed<T>) -> SweepFault {
        SweepFault::OutOfMemory
    }
}
