ghost use Rattle.std.specs.Prelude.{◌≡◌, ◌≤◌, length};
ghost use Rattle.ov_fans.specs.Pieces.{level_of, member_at, source_place};

use ov_ids::NodeId;

/// A piece of Even's test for a group (Even, SIAM J. Comput. 4, 1975). It asks for `level` paths. Members are named by
/// their places in the group, counted from 1.
#[derive(Clone, Copy, Debug, PartialEq, Eq)]
pub enum Piece {
    /// Paths between the members at places `i` and `j`, unless they are linked. `i` is below `j`, and `j` at most
    /// `level`.
    Pair { level: u16, i: u16, j: u16 },
    /// A fan from the member at place `j` to the members before it. `j` is above `level`.
    Fan { level: u16, j: u16 },
}

impl Piece {
    /// How many paths the piece asks for.
    pub fn level(&self) -> u16
        ensures { result ≡ level_of self.now }
    {
        match self {
            Piece::Pair { level, .. } => *level,
            Piece::Fan { level, .. } => *level,
        }
    }

    /// The place in the group, counted from 1, of the member at which the paths begin.
    pub fn source(&self) -> u16
        ensures { result ≡ source_place self.now }
    {
        match self {
            Piece::Pair { i, .. } => *i,
            Piece::Fan { j, .. } => *j,
        }
    }
}

/// The member at a place in the group, counted from 1.
pub fn member(group: &[NodeId], place: u16) -> NodeId
    requires low { 1 ≤ place }
    requires high { place ≤ length group.now }
    ensures { result ≡ member_at group.now place }
{
    group[place as usize - 1]
}
