ghost use Rattle.std.specs.Prelude.{◌≡◌};
ghost use Rattle.ov_graphfile.specs.Groups.{number_of};
ghost use Rattle.ov_graphfile.specs.declared.group_names_fault.GroupFault.TheVariants.{OutOfMemory as out_of_memory};

use ov_ids::{NodeId, OutOfMemory};
use std::alloc::{AllocError, AllocFailed};

/// Why a text names no group. Places count from 0. The numbers are chosen here.
#[derive(Clone, Copy, Debug, PartialEq, Eq)]
pub enum GroupFault {
    /// 84: no node has the name that the part at this place is; and none has it as its id, or some name is a numeral.
    NoSuchName(usize),
    /// 85: two nodes have the name that the part at this place is.
    SharedName(usize),
    /// 34: two parts mean this node.
    NamedTwice(NodeId),
    /// 99: an allocation was refused.
    OutOfMemory,
}

impl GroupFault {
    /// The number of the fault.
    pub fn number(&self) -> u32
        ensures { result ≡ number_of self.now }
    {
        match self {
            GroupFault::NoSuchName(_) => 84,
            GroupFault::SharedName(_) => 85,
            GroupFault::NamedTwice(_) => 34,
            GroupFault::OutOfMemory => 99,
        }
    }
}

impl From<AllocError> for GroupFault {
    ghost from_gives = { λ _ e. e ≡ out_of_memory };

    fn from(_error: AllocError) -> GroupFault {
        GroupFault::OutOfMemory
    }
}

impl<T: Drop> From<AllocFailed<T>> for GroupFault {
    ghost from_gives = { λ _ e. e ≡ out_of_memory };

    fn from(_error: AllocFailed<T>) -> GroupFault {
        GroupFault::OutOfMemory
    }
}

impl From<OutOfMemory> for GroupFault {
    ghost from_gives = { λ _ e. e ≡ out_of_memory };

    fn from(_fault: OutOfMemory) -> GroupFault {
        GroupFault::OutOfMemory
    }
}
