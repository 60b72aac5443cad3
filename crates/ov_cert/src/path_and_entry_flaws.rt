use ov_ids::NodeId;

/// What is wrong with a path of an entry. The first of these that is true of the path is meant.
#[derive(Clone, Copy)]
pub enum PathFlaw {
    /// It has fewer than two nodes.
    TooShort,
    /// It begins at this node, and should begin at another.
    BeginsAt(NodeId),
    /// It ends at this node, and may not end there.
    EndsAt(NodeId),
    /// It goes from the first of these nodes to the second, and they are not linked.
    NoLink(NodeId, NodeId),
    /// It has this id, which is no node, or which it has twice, or which an earlier path of the entry has too.
    Taken(NodeId),
}

/// What is wrong with an entry of a certificate.
#[derive(Clone, Copy)]
pub enum EntryFlaw {
    /// There is no entry at the place.
    Missing,
    /// It names other nodes.
    NamesOthers,
    /// It names the right nodes, and the number of its paths is not k.
    Number,
    /// It has k paths. The path at this place, counted from 0, is the first that is wrong.
    Path { at: usize, flaw: PathFlaw },
}
