ghost use Rattle.std.specs.Prelude.{◌≡◌};
ghost use Rattle.ov_check.specs.Faults.{number_of, fault_of_read};
ghost use Rattle.ov_check.specs.declared.read_or_write_fault.JudgeFault.TheVariants.{Write as not_written};
ghost use Rattle.ov_check.specs.declared.read_or_write_fault.JudgeFault.TheVariants.{OutOfMemory as out_of_memory};

use ov_ids::OutOfMemory;
use ov_io::{ReadFault, WriteFault};
use std::alloc::AllocError;
use std::error::Error;
use std::fmt::{Display, Formatter, Result, Write};

/// Why no line of an outcome was printed. It is shown as the line that is printed of it on standard error.
#[derive(Clone, Copy, Debug, PartialEq, Eq)]
pub enum JudgeFault {
    /// The reader failed, or the file could not be opened.
    Read,
    /// The writer failed.
    Write,
    /// An allocation was refused.
    OutOfMemory,
}

impl JudgeFault {
    /// The fault's number: 71 for `Read`, 72 for `Write`, 99 for `OutOfMemory`.
    pub fn number(&self) -> u32
        ensures { result ≡ number_of self.now }
    {
        match self {
            JudgeFault::Read => 71,
            JudgeFault::Write => 72,
            JudgeFault::OutOfMemory => 99,
        }
    }
}

impl Display for JudgeFault {
    ghost use Rattle.std.specs.Prelude.{Some};
    ghost use Rattle.ov_io.specs.Refusal.{refusal_text};
    ghost use Rattle.ov_check.specs.Faults.{number_of};

    ghost output = { λ fault. Some (refusal_text (number_of fault)) };

    fn fmt<W: Write>(&self, f: &mut Formatter<W>) -> Result {
        let number = self.number();
        write!(f, "refused {number}")
    }
}

impl Error for JudgeFault {}

impl From<ReadFault> for JudgeFault {
    ghost from_gives = { λ fault e. e ≡ fault_of_read fault };

    fn from(fault: ReadFault) -> JudgeFault {
        match fault {
            ReadFault::Read => JudgeFault::Read,
            ReadFault::OutOfMemory => JudgeFault::OutOfMemory,
        }
    }
}

impl From<OutOfMemory> for JudgeFault {
    ghost from_gives = { λ _ e. e ≡ out_of_memory };

    fn from(_fault: OutOfMemory) -> JudgeFault {
        JudgeFault::OutOfMemory
    }
}

impl From<AllocError> for JudgeFault {
    ghost from_gives = { λ _ e. e ≡ out_of_memory };

    fn from(_fault: AllocError) -> JudgeFault {
        JudgeFault::OutOfMemory
    }
}

impl From<WriteFault> for JudgeFault {
    ghost from_gives = { λ _ e. e ≡ not_written };

    fn from(_fault: WriteFault) -> JudgeFault {
        JudgeFault::Write
    }
}
