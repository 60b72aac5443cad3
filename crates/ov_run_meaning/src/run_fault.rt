ghost use Rattle.std.specs.Prelude.{◌≡◌};
ghost use Rattle.ov_run_meaning.specs.Faults.{number_of, line_number_of, printed_number_of, fault_of_read};
ghost use Rattle.ov_run_meaning.specs.Faults.{fault_of_graph_file, fault_of_scenario};
ghost use Rattle.ov_run_meaning.specs.declared.run_fault.RunFault.TheVariants.{OutOfMemory as out_of_memory};
ghost use Rattle.ov_run_meaning.specs.declared.run_fault.RunFault.TheVariants.{Write as not_written};

use crate::refusal::Refusal;
use ov_graph::GraphFault;
use ov_graphfile::{GraphFileFault, UnreadLine};
use ov_ids::OutOfMemory;
use ov_io::{ReadFault, WriteFault};
use ov_scenario::{FaultyLine, LineFault, ScenarioFault};
use std::alloc::{AllocError, AllocFailed};
use std::error::Error;
use std::fmt::{Display, Formatter, Result, Write};

/// Why a scenario is not run to its end, or a graph file not analysed. It is shown as the line that `overlay` prints of
/// it on standard error. The numbers are chosen here.
#[derive(Clone, Copy, Debug, PartialEq, Eq)]
pub enum RunFault {
    /// This line of the file, counted from 1, is the first at fault: it can't be read, or comes too late or too early
    /// (70). `faulty_lines` and `unread_lines` say what is wrong with it.
    Line(usize),
    /// This line of the scenario file, counted from 1, is the first at fault: its parameters are out of their limits
    /// (21).
    Params(usize),
    /// The nodes and links of the graph file are no graph (31 to 33). The line has the node or the link at fault.
    Graph { fault: GraphFault, line: usize },
    /// The reader failed, or there is none (71).
    Read,
    /// The writer failed (72).
    Write,
    /// The run is strict, and this line of the scenario file, counted from 1, is the first that was refused as it ran
    /// (74). It is shown with the number of its refusal.
    Refused { line: usize, refusal: Refusal },
    /// An allocation was refused (99).
    OutOfMemory,
}

impl RunFault {
    /// The fault's number.
    pub fn number(&self) -> u32
        ensures { result ≡ number_of self.now }
    {
        match self {
            RunFault::Line(_) => 70,
            RunFault::Params(_) => 21,
            RunFault::Graph { fault, .. } => fault.number(),
            RunFault::Read => 71,
            RunFault::Write => 72,
            RunFault::Refused { .. } => 74,
            RunFault::OutOfMemory => 99,
        }
    }

    /// The number that the fault is printed with: its own, or, of a line that was refused, that of the refusal.
    pub fn printed_number(&self) -> u32
        ensures { result ≡ printed_number_of self.now }
    {
        match self {
            RunFault::Refused { refusal, .. } => refusal.number(),
            RunFault::Line(_)
            | RunFault::Params(_)
            | RunFault::Graph { .. }
            | RunFault::Read
            | RunFault::Write
            | RunFault::OutOfMemory => self.number(),
        }
    }

    /// The number of the line that the fault is printed with, counted from 1, if it is printed with one.
    pub fn line(&self) -> Option<usize>
        ensures { result ≡ line_number_of self.now }
    {
        match self {
            RunFault::Line(line) | RunFault::Params(line) => Some(*line),
            RunFault::Refused { line, .. } => Some(*line),
            RunFault::Graph { .. } | RunFault::Read | RunFault::Write | RunFault::OutOfMemory =>
                None,
        }
    }

    /// The fault of a run by the fault of its scenario file.
    pub fn of_scenario(fault: &ScenarioFault) -> RunFault
        ensures { result ≡ fault_of_scenario fault.now }
    {
        match fault {
            ScenarioFault::Line(FaultyLine { line, fault }) => match fault {
                LineFault::OutOfLimits(_) => RunFault::Params(*line),
                LineFault::Unread(_)
                | LineFault::BehindEvent { .. }
                | LineFault::SetBefore { .. }
                | LineFault::NoEventNext { .. }
                | LineFault::NoEnd
                | LineFault::NotInSection
                | LineFault::TooManySections { .. }
                | LineFault::NotHeld { .. } => RunFault::Line(*line),
            },
            ScenarioFault::OutOfMemory => RunFault::OutOfMemory,
        }
    }

    /// The fault of an analysis by the fault of its graph file.
    pub fn of_graph_file(fault: &GraphFileFault) -> RunFault
        ensures { result ≡ fault_of_graph_file fault.now }
    {
        match fault {
            GraphFileFault::Line(UnreadLine { line, .. }) => RunFault::Line(*line),
            GraphFileFault::Graph { fault, line } => RunFault::Graph {
                fault: *fault,
                line: *line,
            },
            GraphFileFault::OutOfMemory => RunFault::OutOfMemory,
        }
    }
}

impl Display for RunFault {
    ghost use Rattle.std.specs.Prelude.{Some};
    ghost use Rattle.ov_run_meaning.specs.Faults.{run_fault_text};

    ghost output = { λ fault. Some (run_fault_text fault) };

    #[tactic(auto, unfolding(crate::specs::Faults::run_fault_text))]
    fn fmt<W: Write>(&self, f: &mut Formatter<W>) -> Result {
        let number = self.printed_number();
        match self.line() {
            Some(line) => write!(f, "line {line}: refused {number}"),
            None => write!(f, "refused {number}"),
        }
    }
}

impl Error for RunFault {}

impl From<AllocError> for RunFault {
    ghost from_gives = { λ _ e. e ≡ out_of_memory };

    fn from(_error: AllocError) -> RunFault {
        RunFault::OutOfMemory
    }
}

impl<T: Drop> From<AllocFailed<T>> for RunFault {
    ghost from_gives = { λ _ e. e ≡ out_of_memory };

    fn from(_error: AllocFailed<T>) -> RunFault {
        RunFault::OutOfMemory
    }
}

impl From<OutOfMemory> for RunFault {
    ghost from_gives = { λ _ e. e ≡ out_of_memory };

    fn from(_fault: OutOfMemory) -> RunFault {
        RunFault::OutOfMemory
    }
}

impl From<ReadFault> for RunFault {
    ghost from_gives = { λ fault e. e ≡ fault_of_read fault };

    fn from(fault: ReadFault) -> RunFault {
        match fault {
            ReadFault::Read => RunFault::Read,
            ReadFault::OutOfMemory => RunFault::OutOfMemory,
        }
    }
}

impl From<WriteFault> for RunFault {
    ghost from_gives = { λ _ e. e ≡ not_written };

    fn from(_fault: WriteFault) -> RunFault {
        RunFault::Write
    }
}
