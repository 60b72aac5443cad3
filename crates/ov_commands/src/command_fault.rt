ghost use Rattle.std.specs.Prelude.{◌≡◌};
ghost use Rattle.ov_commands.specs.declared.command_fault.CommandFault.TheVariants.{Group, OfFile, Run};

use crate::conversion_fault::ConversionFault;
use ov_graphfile::GroupFault;
use ov_run_meaning::RunFault;
use std::fmt::{Display, Formatter, Result as Printed, Write};

/// Why a command ended before its end. It is shown as the line that is printed on standard error.
#[derive(Clone, Copy, Debug, PartialEq, Eq)]
pub enum CommandFault {
    /// A run or an analysis ended before its end, or a file can't be read.
    Run(RunFault),
    /// A text names no group of the nodes of a graph file.
    Group(GroupFault),
    /// `overlay import`, `overlay picture` or `overlay graph` ended before its end.
    OfFile(ConversionFault),
}

impl From<RunFault> for CommandFault {
    ghost from_gives = { λ fault e. e ≡ Run fault };

    fn from(fault: RunFault) -> CommandFault {
        CommandFault::Run(fault)
    }
}

impl From<GroupFault> for CommandFault {
    ghost from_gives = { λ fault e. e ≡ Group fault };

    fn from(fault: GroupFault) -> CommandFault {
        CommandFault::Group(fault)
    }
}

impl From<ConversionFault> for CommandFault {
    ghost from_gives = { λ fault e. e ≡ OfFile fault };

    fn from(fault: ConversionFault) -> CommandFault {
        CommandFault::OfFile(fault)
    }
}

impl Display for CommandFault {
    ghost use Rattle.std.specs.Prelude.{Some};
    ghost use Rattle.ov_commands.specs.Faults.{command_fault_text};

    ghost output = { λ fault. Some (command_fault_text fault) };

    fn fmt<W: Write>(&self, f: &mut Formatter<W>) -> Printed {
        match self {
            CommandFault::Run(fault) => write!(f, "{fault}"),
            CommandFault::Group(fault) => {
                let number = fault.number();
                write!(f, "refused {number}")
            }
            CommandFault::OfFile(fault) => write!(f, "{fault}"),
        }
    }
}
