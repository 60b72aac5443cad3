ghost use Rattle.std.specs.Prelude.{◌≡◌};
ghost use Rattle.ov_graphfile.specs.Faults.{number_of};
ghost use Rattle.ov_graphfile.specs.declared.fault.GraphFileFault.TheVariants.{OutOfMemory as out_of_memory};

use ov_graph::GraphFault;
use ov_ids::OutOfMemory;
use ov_lines::Unread;
use std::alloc::{AllocError, AllocFailed};
use std::error::Error;
use std::fmt::{Display, Formatter, Result, Write};

/// A line of a graph file that can't be read.
#[derive(Clone, Copy, Debug, PartialEq, Eq)]
pub struct UnreadLine {
    /// Its number among all lines of the file. These are counted from 1.
    pub line: usize,
    /// Where it can't be read, and what may be there.
    pub unread: Unread,
}

/// Why a file says no graph. It is shown as the line that `overlay` prints of it on standard error. The numbers of the
/// first and the last fault are chosen here.
#[derive(Clone, Copy, Debug, PartialEq, Eq)]
pub enum GraphFileFault {
    /// 70: this line can't be read.
    Line(UnreadLine),
    /// 31 to 33: the nodes and links of the file are no graph.
    Graph {
        fault: GraphFault,
        /// The number of the line of the node or link at fault. If there are too many nodes, that of the first node too
        /// many.
        line: usize,
    },
    /// 99: an allocation was refused.
    OutOfMemory,
}

impl GraphFileFault {
    /// The fault's number.
    pub fn number(&self) -> u32
        ensures { result ≡ number_of self.now }
    {
        match self {
            GraphFileFault::Line(_) => 70,
            GraphFileFault::Graph { fault, .. } => fault.number(),
            GraphFileFault::OutOfMemory => 99,
        }
    }
}

impl Display for GraphFileFault {
    ghost use Rattle.std.specs.Prelude.{Some};
    ghost use Rattle.ov_graphfile.specs.Faults.{graph_file_fault_text};

    ghost output = { λ fault. Some (graph_file_fault_text fault) };

    #[tactic(auto, unfolding(crate::specs::Faults::graph_file_fault_text))]
    fn fmt<W: Write>(&self, f: &mut Formatter<W>) -> Result {
        let number = self.number();
        match self {
            GraphFileFault::Line(UnreadLine { line, .. }) => write!(
                f,
                "line {line}: refused {number}"
            ),
            GraphFileFault::Graph { .. } | GraphFileFault::OutOfMemory => write!(
                f,
                "refused {number}"
            ),
        }
    }
}

impl Error for GraphFileFault {}

impl From<AllocError> for GraphFileFault {
    ghost from_gives = { λ _ e. e ≡ out_of_memory };

    fn from(_error: AllocError) -> GraphFileFault {
        GraphFileFault::OutOfMemory
    }
}

impl<T: Drop> From<AllocFailed<T>> for GraphFileFault {
    ghost from_gives = { λ _ e. e ≡ out_of_memory };

    fn from(_error: AllocFailed<T>) -> GraphFileFault {
        GraphFileFault::OutOfMemory
    }
}

impl From<OutOfMemory> for GraphFileFault {
    ghost from_gives = { λ _ e. e ≡ out_of_memory };

    fn from(_fault: OutOfMemory) -> GraphFileFault {
        GraphFileFault::OutOfMemory
    }
}
