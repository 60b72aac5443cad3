ghost use Rattle.std.specs.Prelude.{◌≡◌};
ghost use Rattle.overlay.specs.Program.{exit_status};
ghost use Rattle.ov_commands.specs.declared.command_fault.CommandFault.TheVariants.{Run};
ghost use Rattle.overlay.specs.declared.fault_and_exit_status.OverlayFault.TheVariants.{Arguments, Command, Growth};

use ov_arguments::ArgumentsFault;
use ov_commands::CommandFault;
use ov_grow_commands::GrowCommandFault;
use ov_run_meaning::RunFault;
use std::error::Error;
use std::fmt::{Display, Formatter, Result as Printed, Write};

/// Why the program `overlay` ended before its end. It is shown as the line that the program prints on standard error.
#[derive(Clone, Copy, Debug, PartialEq, Eq)]
pub(crate) enum OverlayFault {
    /// The arguments are refused, or reading them was out of memory.
    Arguments(ArgumentsFault),
    /// `overlay run`, `analyse`, `import`, `picture` or `graph` ended before its end.
    Command(CommandFault),
    /// `overlay grow` or `overlay sweep` ended before its end.
    Growth(GrowCommandFault),
}

impl From<ArgumentsFault> for OverlayFault {
    ghost from_gives = { λ fault e. e ≡ Arguments fault };

    fn from(fault: ArgumentsFault) -> OverlayFault {
        OverlayFault::Arguments(fault)
    }
}

impl From<CommandFault> for OverlayFault {
    ghost from_gives = { λ fault e. e ≡ Command fault };

    fn from(fault: CommandFault) -> OverlayFault {
        OverlayFault::Command(fault)
    }
}

impl From<RunFault> for OverlayFault {
    ghost from_gives = { λ fault e. e ≡ Command (Run fault) };

    fn from(fault: RunFault) -> OverlayFault {
        OverlayFault::Command(CommandFault::Run(fault))
    }
}

impl From<GrowCommandFault> for OverlayFault {
    ghost from_gives = { λ fault e. e ≡ Growth fault };

    fn from(fault: GrowCommandFault) -> OverlayFault {
        OverlayFault::Growth(fault)
    }
}

impl Display for OverlayFault {
    ghost use Rattle.std.specs.Prelude.{Some};
    ghost use Rattle.overlay.specs.Program.{program_fault_text};

    ghost output = { λ fault. Some (program_fault_text fault) };

    fn fmt<W: Write>(&self, f: &mut Formatter<W>) -> Printed {
        match self {
            OverlayFault::Arguments(fault) => write!(f, "{fault}"),
            OverlayFault::Command(fault) => write!(f, "{fault}"),
            OverlayFault::Growth(fault) => write!(f, "{fault}"),
        }
    }
}

impl Error for OverlayFault {}

/// The program's status: that of the run or the analysis, 2 if the arguments can't be read, and 1 after another
/// fault.
pub(crate) fn exit_status(answer: &Result<u8, OverlayFault>) -> u8
    ensures { result ≡ exit_status answer.now }
{
    match answer {
        Ok(status) => *status,
        Err(OverlayFault::Arguments(ArgumentsFault::BadArguments)) => 2,
        Err(OverlayFault::Growth(GrowCommandFault::Arguments)) => 2,
        Err(_) => 1,
    }
}
