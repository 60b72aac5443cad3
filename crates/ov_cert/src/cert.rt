use ov_ids::{NodeId, Seq};
use ov_lists::Paths;

/// A claim about a group of nodes of a graph: k is the fewest node crashes that split the group.
#[derive(Debug, Drop)]
pub enum Cert {
    /// Every two members are linked, and k is one less than their number.
    Linked { k: u32 },
    /// Crashing the k nodes of the cut splits the group, and fewer crashes do not.
    Split(Split),
}

/// A cut with the side that it cuts off, and the paths that show that no smaller cut exists. Nodes are named by their
/// ids.
#[derive(Debug, Drop)]
pub struct Split {
    /// The number of nodes of the cut.
    pub k: u32,
    /// The nodes whose crash splits the group, ascending.
    pub cut: Seq<NodeId>,
    /// A member on the side.
    pub near: NodeId,
    /// A member that is outside the side and outside the cut.
    pub far: NodeId,
    /// Surviving nodes, near among them and far not, ascending. Every link out of the side ends in the cut.
    pub side: Seq<NodeId>,
    /// One entry for each unlinked pair among the first k members, with k paths.
    pub pairs: Seq<PairPaths>,
    /// One entry for each later member, with k paths to members below it.
    pub fans: Seq<FanPaths>,
}

/// Two unlinked members, and paths from `i` to `j` that share only `i` and `j`. Nodes are named by their ids.
#[derive(Debug, Drop)]
pub struct PairPaths {
    pub i: NodeId,
    pub j: NodeId,
    pub paths: Paths,
}

/// A member, and paths from it to distinct members below it that share only `j`. Nodes are named by their ids.
#[derive(Debug, Drop)]
pub struct FanPaths {
    pub j: NodeId,
    pub paths: Paths,
}
