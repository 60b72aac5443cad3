ghost use Rattle.std.specs.Prelude.{◌≡◌};
ghost use Rattle.ov_grow_commands.specs.GrowFaults.{fault_of_sweep, growth_number};
ghost use Rattle.ov_grow_commands.specs.declared.grow_command_fault.GrowCommandFault.TheVariants.{OutOfMemory as no_memory};
ghost use Rattle.ov_grow_commands.specs.declared.grow_command_fault.GrowCommandFault.TheVariants.{Growing};
ghost use Rattle.ov_grow_commands.specs.declared.grow_command_fault.GrowCommandFault.TheVariants.{Write as write_failed};

use ov_grow::GrowFault;
use ov_ids::OutOfMemory;
use ov_io::WriteFault;
use ov_sweep::SweepFault;
use std::alloc::{AllocError, AllocFailed};
use std::fmt::{Display, Formatter, Result as Printed, Write};

/// Why `overlay grow` or `overlay sweep` ended before its end. It is shown as the line that is printed on standard
/// error.
#[derive(Clone, Copy, Debug, PartialEq, Eq)]
pub enum GrowCommandFault {
    /// The words after the command can't be read.
    Arguments,
    /// Growing was refused.
    Growing(GrowFault),
    /// A file of rows has a line that is none.
    Row,
    /// A file of rows can't be read.
    Read,
    /// Something can't be written.
    Write,
    /// An allocation was refused.
    OutOfMemory,
}

impl GrowCommandFault {
    /// The fault's number.
    pub fn number(&self) -> u32
        ensures { result ≡ growth_number self.now }
    {
        match self {
            GrowCommandFault::Arguments => 73,
            GrowCommandFault::Growing(fault) => fault.number(),
            GrowCommandFault::Row => 70,
            GrowCommandFault::Read => 71,
            GrowCommandFault::Write => 72,
            GrowCommandFault::OutOfMemory => 99,
        }
    }
}

impl Display for GrowCommandFault {
    ghost use Rattle.std.specs.Prelude.{Some};
    ghost use Rattle.ov_io.specs.Refusal.{refusal_text};
    ghost use Rattle.ov_grow_commands.specs.GrowFaults.{growth_number};

    ghost output = { λ fault. Some (refusal_text (growth_number fault)) };

    fn fmt<W: Write>(&self, f: &mut Formatter<W>) -> Printed {
        let number = self.number();
        write!(f, "refused {number}")
    }
}

impl From<GrowFault> for GrowCommandFault {
    ghost from_gives = { λ fault e. e ≡ Growing fault };

    fn from(fault: GrowFault) -> GrowCommandFault {
        GrowCommandFault::Growing(fault)
    }
}

impl From<SweepFault> for GrowCommandFault {
    ghost from_gives = { λ fault e. e ≡ fault_of_sweep fault };

    fn from(fault: SweepFault) -> GrowCommandFault {
        match fault {
            SweepFault::Run(refused) => GrowCommandFault::Growing(refused.fault),
            SweepFault::Write => GrowCommandFault::Write,
            SweepFault::OutOfMemory => GrowCommandFault::OutOfMemory,
        }
    }
}

impl From<WriteFault> for GrowCommandFault {
    ghost from_gives = { λ _ e. e ≡ write_failed };

    fn from(_fault: WriteFault) -> GrowCommandFault {
        GrowCommandFault::Write
    }
}

impl From<OutOfMemory> for GrowCommandFault {
    ghost from_gives = { λ _ e. e ≡ no_memory };

    fn from(_fault: OutOfMemory) -> GrowCommandFault {
        GrowCommandFault::OutOfMemory
    }
}

impl From<AllocError> for GrowCommandFault {
    ghost from_gives = { λ _ e. e ≡ no_memory };

    fn from(_error: AllocError) -> GrowCommandFault {
        GrowCommandFault::OutOfMemory
    }
}

impl<T: Drop> From<AllocFailed<T>> for GrowCommandFault {
    ghost from_gives = { λ _ e. e ≡ no_memory };

    fn from(_error: AllocFailed<T>) -> GrowCommandFault {
        GrowCommandFault::OutOfMemory
    }
}
