ghost use Rattle.std.specs.Prelude.{◌≡◌};
ghost use Rattle.ov_cert.specs.FrameFlaws.{flaw_fault};

use crate::fault::CheckFault;
use ov_ids::NodeId;

/// Why a list of ids is no set of nodes: the first id that does not fit. The ids before it are a set of nodes. Places
/// are counted from 0.
#[derive(Clone, Copy)]
pub enum SetFlaw {
    /// The id at this place is not above the id before it.
    NotAbove {
        at: usize,
        id: NodeId,
        before: NodeId,
    },
    /// The id at this place is no node.
    NoNode {
        at: usize,
        id: NodeId,
    },
}

/// Why near or far is no surviving member.
#[derive(Clone, Copy)]
pub enum EndFlaw {
    /// It is no member.
    NoMember,
    /// It is in the cut.
    InCut,
}

/// Why the side of a certificate is not cut off.
#[derive(Clone, Copy)]
pub enum SideFlaw {
    /// Near is no surviving member.
    Near(EndFlaw),
    /// Far is no surviving member.
    Far(EndFlaw),
    /// The side is no set of nodes.
    NoSet(SetFlaw),
    /// The id of the side at this place, counted from 0, is in the cut.
    InCut { at: usize, id: NodeId },
    /// Near is not on the side.
    NearOff,
    /// Far is on the side.
    FarOn,
    /// A link leads from the first of these nodes, which is on the side, to the second, which is neither on the side
    /// nor in the cut.
    WayOut(NodeId, NodeId),
}

/// What is wrong with the frame of a certificate: all of it but the entries.
#[derive(Clone, Copy)]
pub enum FrameFlaw {
    /// The graph has no node.
    NoNodes,
    /// The group has no member.
    NoMember,
    /// The group is no set of nodes.
    Group(SetFlaw),
    /// k does not fit this number. If the certificate says linked, it is the number of members, and k must be one less.
    /// If it says split, it is the number of nodes of the cut, and k must be the same.
    Count(usize),
    /// The certificate says linked, and these two members, the lower first, are not linked.
    NotLinked(NodeId, NodeId),
    /// The cut is no set of nodes.
    Cut(SetFlaw),
    /// The side is not cut off.
    Side(SideFlaw),
}

impl FrameFlaw {
    /// The fault that is reported of a certificate with this flaw.
    pub fn fault(&self) -> CheckFault
        ensures { result ≡ flaw_fault self.now }
    {
        match self {
            FrameFlaw::NoNodes => CheckFault::NoNodes,
            FrameFlaw::NoMember | FrameFlaw::Group(_) => CheckFault::BadGroup,
            FrameFlaw::Count(_) => CheckFault::Count,
            FrameFlaw::NotLinked(..) => CheckFault::NotLinked,
            FrameFlaw::Cut(_) => CheckFault::Cut,
            FrameFlaw::Side(_) => CheckFault::Side,
        }
    }
}
