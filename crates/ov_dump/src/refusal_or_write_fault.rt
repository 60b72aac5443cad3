ghost use Rattle.std.specs.Prelude.{◌≡◌};
ghost use Rattle.ov_dump.specs.Importing.{import_number};
ghost use Rattle.ov_dump.specs.declared.refusal_or_write_fault.ImportFault.TheVariants.{OutOfMemory as out_of_memory};

use crate::DumpFault;
use ov_ids::OutOfMemory;
use thiserror::Error;

/// Why nothing, or not all, was imported.
#[derive(Debug, Drop, Error)]
pub enum ImportFault {
    /// No graph follows from the dump.
    #[error("{0}")]
    Refused(DumpFault),
    /// 72: the graph file can't be written.
    #[error("writing failed")]
    Write,
    /// 99: an allocation was refused.
    #[error("out of memory")]
    OutOfMemory,
}

impl ImportFault {
    /// The fault's number.
    pub fn number(&self) -> u32
        ensures { result ≡ import_number self.now }
    {
        match self {
            ImportFault::Refused(fault) => fault.number(),
            ImportFault::Write => 72,
            ImportFault::OutOfMemory => 99,
        }
    }
}

impl From<OutOfMemory> for ImportFault {
    ghost from_gives = { λ _ e. e ≡ out_of_memory };

    fn from(_fault: OutOfMemory) -> ImportFault {
        ImportFault::OutOfMemory
    }
}
