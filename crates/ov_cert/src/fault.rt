ghost use Rattle.std.specs.Prelude.{◌≡◌};
ghost use Rattle.ov_cert.specs.Number.{number_of};

use ov_ids::NodeId;
use thiserror::Error;

/// Why a certificate is not valid. Nodes are named by their ids.
#[derive(Clone, Copy, Debug, PartialEq, Eq, Error)]
pub enum CheckFault {
    #[error("the count is wrong")]
    Count,
    #[error("the cut is no set of nodes")]
    Cut,
    #[error("the side is not cut off")]
    Side,
    #[error("the paths from {} to {} do not hold", .i.0, .j.0)]
    Pair { i: NodeId, j: NodeId },
    #[error("the fan of {} does not hold", .j.0)]
    Fan { j: NodeId },
    #[error("more entries than are expected")]
    Extra,
    #[error("two members are not linked")]
    NotLinked,
    #[error("no node")]
    NoNodes,
    #[error("no group of the graph")]
    BadGroup,
}

impl CheckFault {
    /// The fault's number.
    pub fn number(&self) -> u32
        ensures { result ≡ number_of self.now }
    {
        match self {
            CheckFault::Count => 40,
            CheckFault::Cut => 41,
            CheckFault::Side => 42,
            CheckFault::Pair { .. } => 43,
            CheckFault::Fan { .. } => 44,
            CheckFault::Extra => 45,
            CheckFault::NotLinked => 46,
            CheckFault::NoNodes => 47,
            CheckFault::BadGroup => 49,
        }
    }
}
