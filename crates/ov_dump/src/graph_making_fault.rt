ghost use Rattle.std.specs.Prelude.{◌≡◌};
ghost use Rattle.ov_dump.specs.Faults.{number_of};
ghost use Rattle.ov_dump.specs.declared.graph_making_fault.DumpFault.TheVariants.{OutOfMemory as out_of_memory};

use crate::name::Name;
use ov_ids::OutOfMemory;
use std::alloc::{AllocError, AllocFailed};
use thiserror::Error;

/// Why no graph follows from a dump. `at` is the place of the entry or of the listing at fault, as these have it. The
/// numbers 80 and 82 are chosen here.
#[derive(Debug, Drop, Error)]
pub enum DumpFault {
    /// 80: an entry before this one has the same name.
    #[error("place {at}: {name} has an entry already")]
    NameTwice { at: u64, name: Name },
    /// 82: a name is empty.
    #[error("place {at}: a name is empty")]
    EmptyName { at: u64 },
    /// 31: this is the first name too many for a graph of at most `most` nodes, as the choice says.
    #[error("place {at}: {name} is one name too many, since a graph may have {most} nodes at most")]
    TooManyNodes { at: u64, name: Name, most: usize },
    /// 99: an allocation was refused.
    #[error("out of memory")]
    OutOfMemory,
}

impl DumpFault {
    /// The fault's number.
    pub fn number(&self) -> u32
        ensures { result ≡ number_of self.now }
    {
        match self {
            DumpFault::NameTwice { .. } => 80,
            DumpFault::EmptyName { .. } => 82,
            DumpFault::TooManyNodes { .. } => 31,
            DumpFault::OutOfMemory => 99,
        }
    }
}

impl From<OutOfMemory> for DumpFault {
    ghost from_gives = { λ _ e. e ≡ out_of_memory };

    fn from(_fault: OutOfMemory) -> DumpFault {
        DumpFault::OutOfMemory
    }
}

impl From<AllocError> for DumpFault {
    ghost from_gives = { λ _ e. e ≡ out_of_memory };

    fn from(_error: AllocError) -> DumpFault {
        DumpFault::OutOfMemory
    }
}

impl<T: Drop> From<AllocFailed<T>> for DumpFault {
    ghost from_gives = { λ _ e. e ≡ out_of_memory };

    fn from(_error: AllocFailed<T>) -> DumpFault {
        DumpFault::OutOfMemory
    }
}
