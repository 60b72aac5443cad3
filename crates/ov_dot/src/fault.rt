ghost use Rattle.std.specs.Prelude.{◌≡◌};
ghost use Rattle.ov_dot.specs.FaultNumbers.{number_of};

use crate::token_reading::TextFault;
use ov_ids::OutOfMemory;
use std::alloc::{AllocError, AllocFailed};
use thiserror::Error;

/// Why a DOT text can't be read as a graph.
#[derive(Clone, Copy, Debug, PartialEq, Eq, Error)]
pub enum DotFault {
    /// 70: a line can't be read. Lines are counted from 1.
    #[error("line {line}: {why}")]
    UnreadLine { line: u64, why: Why },
    /// 99: an allocation was refused.
    #[error("out of memory")]
    OutOfMemory,
}

/// What can't be read of a line.
#[derive(Clone, Copy, Debug, PartialEq, Eq, Error)]
pub enum Why {
    #[error("nothing of DOT begins here, or it has no end: a name as a.example.org needs quotes, a # its own line")]
    NoToken,
    #[error("it is several words to DOT: a name as 10.0.0.1, oslo-1 or oslo:7946, or a value as 1e-05, needs quotes")]
    TornName,
    #[error("a graph begins with `graph` or `digraph`, maybe with `strict` before it")]
    NoGraph,
    #[error("an opening brace is missing")]
    NoBrace,
    #[error("a name is missing")]
    NoName,
    #[error("no statement begins so")]
    NoStatement,
    #[error("an attribute has the form name=value, and a list of them [name=value, name=value]")]
    BadAttributes,
    #[error("an edge of a graph is written --, and an edge of a digraph ->")]
    WrongEdge,
    #[error("an edge has a name at each end: in place of a subgraph, write an edge for each of its nodes")]
    SubgraphAsEnd,
    #[error("an HTML text can't stand here")]
    HtmlText,
    #[error("only comments may follow the closing brace, and no second graph")]
    BehindGraph,
    #[error("the text ends before the closing brace")]
    Unclosed,
    #[error("a name is not in UTF-8")]
    NotUtf8,
}

impl DotFault {
    /// The fault's number.
    pub fn number(&self) -> u32
        ensures { result ≡ number_of self.now }
    {
        match self {
            DotFault::UnreadLine { .. } => 70,
            DotFault::OutOfMemory => 99,
        }
    }
}

impl From<TextFault> for DotFault {
    ghost use Rattle.ov_dot.specs.Code.TokenFaults.{fault_of};

    ghost from_gives = { λ fault e. e ≡ fault_of fault };

    fn from(fault: TextFault) -> DotFault {
        match fault {
            TextFault::NoToken { line } => DotFault::UnreadLine {
                line,
                why: Why::NoToken,
            },
            TextFault::TornName { line } => DotFault::UnreadLine {
                line,
                why: Why::TornName,
            },
            TextFault::OutOfMemory => DotFault::OutOfMemory,
        }
    }
}

impl From<OutOfMemory> for DotFault {
    ghost use Rattle.ov_dot.specs.declared.fault.DotFault.TheVariants.{OutOfMemory as out_of_memory};

    ghost from_gives = { λ _ e. e ≡ out_of_memory };

    fn from(_fault: OutOfMemory) -> DotFault {
        DotFault::OutOfMemory
    }
}

impl From<AllocError> for DotFault {
    ghost use Rattle.ov_dot.specs.declared.fault.DotFault.TheVariants.{OutOfMemory as out_of_memory};

    ghost from_gives = { λ _ e. e ≡ out_of_memory };

    fn from(_error: AllocError) -> DotFault {
        DotFault::OutOfMemory
    }
}

impl<T: Drop> From<AllocFailed<T>> for DotFault {
    ghost use Rattle.ov_dot.specs.declared.fault.DotFault.TheVariants.{OutOfMemory as out_of_memory};

    ghost from_gives = { λ _ e. e ≡ out_of_memory };

    fn from(_error: AllocFailed<T>) -> DotFault {
        DotFault::OutOfMemory
    }
}
