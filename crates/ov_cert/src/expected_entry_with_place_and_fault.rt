ghost use Rattle.std.specs.Prelude.{◌≡◌};
ghost use Rattle.ov_cert.specs.Entries.{entry_fault};

use crate::fault::CheckFault;
use ov_ids::NodeId;

/// An entry that a certificate must have, with its place in its list, counted from 0. Nodes are named by their ids.
#[derive(Clone, Copy, Debug)]
pub enum Expected {
    /// The entry with the paths from `i` to `j`.
    Pair { at: usize, i: NodeId, j: NodeId },
    /// The entry with the fan of `j`.
    Fan { at: usize, j: NodeId },
}

impl Expected {
    /// The fault that is reported if this entry is missing or wrong.
    pub fn fault(&self) -> CheckFault
        ensures { result ≡ entry_fault self.now }
    {
        match self {
            Expected::Pair { i, j, .. } => CheckFault::Pair { i: *i, j: *j },
            Expected::Fan { j, .. } => CheckFault::Fan { j: *j },
        }
    }
}
