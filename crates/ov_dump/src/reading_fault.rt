ghost use Rattle.std.specs.Prelude.{◌≡◌};
ghost use Rattle.ov_dump.specs.FaultNumbers.{number_of};
ghost use Rattle.ov_dump.specs.declared.reading_fault.DumpReadFault.TheVariants.{OutOfMemory as out_of_memory};

use crate::Name;
use crate::unread_edge_line_reason::Why;
use ov_ids::OutOfMemory;
use std::alloc::{AllocError, AllocFailed};
use thiserror::Error;

/// Why a file is no dump. The numbers 70 and 83 are chosen here.
#[derive(Debug, Drop, Error)]
pub enum DumpReadFault {
    /// 60: the file is no JSON, or no UTF-8.
    #[error("the file is no JSON")]
    NotJson,
    /// 83: the file is JSON, but no object.
    #[error("the file is no JSON object of lists of names")]
    NotViews,
    /// 83: the entry of this number, counted from 1, is no list of names.
    #[error("entry {entry}, of {name}, is no list of names: texts or whole numbers")]
    NoView { entry: u64, name: Name },
    /// 70: the line of this number, counted from 1, is no pair of names.
    #[error("line {line} is no pair of names: {why}")]
    UnreadLine { line: u64, why: Why },
    /// 99: an allocation was refused.
    #[error("out of memory")]
    OutOfMemory,
}

impl DumpReadFault {
    /// The fault's number.
    pub fn number(&self) -> u32
        ensures { result ≡ number_of self.now }
    {
        match self {
            DumpReadFault::NotJson => 60,
            DumpReadFault::NotViews | DumpReadFault::NoView { .. } => 83,
            DumpReadFault::UnreadLine { .. } => 70,
            DumpReadFault::OutOfMemory => 99,
        }
    }
}

impl From<OutOfMemory> for DumpReadFault {
    ghost from_gives = { λ _ e. e ≡ out_of_memory };

    fn from(_fault: OutOfMemory) -> DumpReadFault {
        DumpReadFault::OutOfMemory
    }
}

impl From<AllocError> for DumpReadFault {
    ghost from_gives = { λ _ e. e ≡ out_of_memory };

    fn from(_error: AllocError) -> DumpReadFault {
        DumpReadFault::OutOfMemory
    }
}

impl<T: Drop> From<AllocFailed<T>> for DumpReadFault {
    ghost from_gives = { λ _ e. e ≡ out_of_memory };

    fn from(_error: AllocFailed<T>) -> DumpReadFault {
        DumpReadFault::OutOfMemory
    }
}
