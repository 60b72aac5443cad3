ghost use Rattle.std.specs.Prelude.{◌≡◌};
ghost use Rattle.ov_commands.specs.Faults.{command_number};
ghost use Rattle.ov_commands.specs.declared.conversion_fault.ConversionFault.TheVariants.{OutOfMemory as no_room};
ghost use Rattle.ov_commands.specs.declared.conversion_fault.ConversionFault.TheVariants.{Write as write_failed};

use ov_ids::OutOfMemory;
use ov_io::WriteFault;
use std::alloc::{AllocError, AllocFailed};
use std::fmt::{Display, Formatter, Result as Printed, Write};

/// Why a command that turns one file into another ended before its end. It is shown as the line that is printed on
/// standard error. (The numbers are chosen here.)
#[derive(Clone, Copy, Debug, PartialEq, Eq)]
pub enum ConversionFault {
    /// What the file says is refused, with this number.
    Refused { number: u32 },
    /// The result can't be written (72).
    Write,
    /// An allocation was refused (99).
    OutOfMemory,
}

impl ConversionFault {
    /// The fault's number.
    pub fn number(&self) -> u32
        ensures { result ≡ command_number self.now }
    {
        match self {
            ConversionFault::Refused { number } => *number,
            ConversionFault::Write => 72,
            ConversionFault::OutOfMemory => 99,
        }
    }
}

impl Display for ConversionFault {
    ghost use Rattle.std.specs.Prelude.{Some};
    ghost use Rattle.ov_io.specs.Refusal.{refusal_text};

    ghost output = { λ fault. Some (refusal_text (command_number fault)) };

    fn fmt<W: Write>(&self, f: &mut Formatter<W>) -> Printed {
        let number = self.number();
        write!(f, "refused {number}")
    }
}

impl From<WriteFault> for ConversionFault {
    ghost from_gives = { λ _ e. e ≡ write_failed };

    fn from(_fault: WriteFault) -> ConversionFault {
        ConversionFault::Write
    }
}

impl From<OutOfMemory> for ConversionFault {
    ghost from_gives = { λ _ e. e ≡ no_room };

    fn from(_fault: OutOfMemory) -> ConversionFault {
        ConversionFault::OutOfMemory
    }
}

impl From<AllocError> for ConversionFault {
    ghost from_gives = { λ _ e. e ≡ no_room };

    fn from(_error: AllocError) -> ConversionFault {
        ConversionFault::OutOfMemory
    }
}

impl<T: Drop> From<AllocFailed<T>> for ConversionFault {
    ghost from_gives = { λ _ e. e ≡ no_room };

    fn from(_error: AllocFailed<T>) -> ConversionFault {
        ConversionFault::OutOfMemory
    }
}
