ghost use Rattle.std.specs.Prelude.{◌≡◌};
ghost use Rattle.ov_io.specs.Device.{read_number, write_number};

use std::alloc::AllocError;
use thiserror::Error;

/// Why the bytes of a reader were not read.
#[derive(Clone, Copy, Debug, PartialEq, Eq, Error)]
pub enum ReadFault {
    /// A read failed, or the reader did not end.
    #[error("the reader failed")]
    Read,
    /// An allocation was refused.
    #[error("out of memory")]
    OutOfMemory,
}

impl From<AllocError> for ReadFault {
    ghost use Rattle.ov_io.specs.declared.fault.ReadFault.TheVariants.{OutOfMemory};

    ghost from_gives = { λ _ e. e ≡ OutOfMemory };

    fn from(_error: AllocError) -> ReadFault {
        ReadFault::OutOfMemory
    }
}

impl ReadFault {
    /// The fault's number: 71 for `Read`, 99 for `OutOfMemory`.
    pub fn number(&self) -> u32
        ensures { result ≡ read_number self.now }
    {
        match self {
            ReadFault::Read => 71,
            ReadFault::OutOfMemory => 99,
        }
    }
}

/// A write failed.
#[derive(Clone, Copy, Debug, PartialEq, Eq, Error)]
#[error("the writer failed")]
pub struct WriteFault;

impl WriteFault {
    /// The fault's number: 72.
    pub fn number(&self) -> u32
        ensures { result ≡ write_number self.now }
    {
        72
    }
}
