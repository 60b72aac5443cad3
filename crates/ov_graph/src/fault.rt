ghost use Rattle.std.specs.Prelude.{◌≡◌};
ghost use Rattle.ov_graph.specs.Faults.{number_of};
ghost use Rattle.ov_graph.specs.declared.fault.GraphFault.TheVariants.{OutOfMemory};

use ov_ids::NodeId;
use std::alloc::{AllocError, AllocFailed};
use thiserror::Error;

/// Why nodes and links are refused as a graph. Places count from 0.
#[derive(Clone, Copy, Debug, PartialEq, Eq, Error)]
pub enum GraphFault {
    /// 31: there are more nodes than a graph may have.
    #[error("{count} nodes, and a graph may have {most} at most")]
    TooManyNodes {
        count: usize,
        most: usize,
    },
    /// 32: the node at this place is not above the node before it.
    #[error("the node at place {at} is not above the node before it")]
    UnorderedNode {
        at: usize,
        node: NodeId,
        before: NodeId,
    },
    /// 33: the link at this place does not join a node to a higher one.
    #[error("the link at place {at} does not join a node to a higher one")]
    BadLink {
        at: usize,
        link: (NodeId, NodeId),
        flaw: LinkFlaw,
    },
    /// 32: the link at this place does not come after the link before it.
    #[error("the link at place {at} does not come after the link before it")]
    UnorderedLink {
        at: usize,
        link: (NodeId, NodeId),
        before: (NodeId, NodeId),
    },
    /// 99: an allocation was refused.
    #[error("out of memory")]
    OutOfMemory,
}

/// What is wrong with a link that does not join a node to a higher one.
#[derive(Clone, Copy, Debug, PartialEq, Eq)]
pub enum LinkFlaw {
    /// Its second id is not above its first.
    NotUpward,
    /// This id is no node.
    NoNode(NodeId),
}

impl GraphFault {
    /// The number of the fault.
    pub fn number(&self) -> u32
        ensures { result ≡ number_of self.now }
    {
        match self {
            GraphFault::TooManyNodes { .. } => 31,
            GraphFault::UnorderedNode { .. } => 32,
            GraphFault::BadLink { .. } => 33,
            GraphFault::UnorderedLink { .. } => 32,
            GraphFault::OutOfMemory => 99,
        }
    }
}

impl From<AllocError> for GraphFault {
    ghost from_gives = { λ _ e. e ≡ OutOfMemory };

    fn from(_error: AllocError) -> GraphFault {
        GraphFault::OutOfMemory
    }
}

impl<T: Drop> From<AllocFailed<T>> for GraphFault {
    ghost from_gives = { λ _ e. e ≡ OutOfMemory };

    fn from(_error: AllocFailed<T>) -> GraphFault {
        GraphFault::OutOfMemory
    }
}
