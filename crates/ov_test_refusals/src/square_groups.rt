//! The square, and its groups.
use ov_cert::Cert;
use ov_graph::{Graph, GraphFault};
use ov_ids::{NodeId, OutOfMemory, Seq};
use ov_test_kit::ids;
use std::alloc::Global;

/// A group of the square. The crashes of the nodes 2 and 4 part nodes 1 and 3, and no single crash splits the group.
pub(crate) struct Group {
    /// The members, or None for all nodes.
    pub(crate) members: Option<&'static [u32]>,
    /// How many pieces come before the one that decides, the pair of nodes 1 and 3 at level 3.
    pub(crate) before: u64,
    /// How many come behind it.
    pub(crate) behind: u64,
    /// The number of entries of its certificate, for pairs and for fans. Of nodes 1 and 2, which are linked, there is
    /// none; each later member has a fan.
    pub(crate) entries: (usize, usize),
}

/// Of each of the levels 1 and 2 come 3 pieces before, and the pair of nodes 1 and 2. Behind are the pair of nodes 2
/// and 3, and the fan of node 4, which comes to a cut too.
pub(crate) static ALL_NODES: Group = Group {
    members: None,
    before: 7,
    behind: 2,
    entries: (0, 2),
};

/// Of each of the levels 1 and 2 come 2 pieces before, and the pair of nodes 1 and 2. Behind is the pair of nodes 2 and
/// 3.
pub(crate) static THREE_NODES: Group = Group {
    members: Some(&[1, 2, 3]),
    before: 5,
    behind: 1,
    entries: (0, 1),
};

impl Group {
    /// What the story of an analysis of it is called.
    pub(crate) fn name(&self) -> &'static str {
        if self.members.is_some() {
            "analyse_group"
        } else {
            "analyse"
        }
    }

    /// How many pieces there are up to the one that decides.
    pub(crate) fn to_the_cut(&self) -> u64 {
        self.before.saturating_add(1)
    }

    /// The members of the group by their ids, ascending.
    pub(crate) fn ids(&self, alloc: Global) -> Result<Seq<NodeId>, OutOfMemory> {
        ids(alloc, self.members.unwrap_or(&[1, 2, 3, 4]))
    }

    /// The certificate has the cut that parts nodes 1 and 3, and all entries.
    pub(crate) fn has(&self, cert: &Cert) -> bool {
        let Cert::Split(split) = cert else {
            return false;
        };
        let found = (split.pairs.as_slice().len(), split.fans.as_slice().len());
        split.k == 2
            && split.cut.as_slice() == [NodeId(2), NodeId(4)].as_slice()
            && (split.near, split.far) == (NodeId(1), NodeId(3))
            && split.side.as_slice() == [NodeId(1)].as_slice()
            && found == self.entries
    }
}

/// The ring of the nodes 1 to 4.
pub(crate) fn square(alloc: Global) -> Result<Graph, GraphFault> {
    let [one, two, three, four] = [NodeId(1), NodeId(2), NodeId(3), NodeId(4)];
    let links = [(one, two), (one, four), (two, three), (three, four)];
    Graph::new(alloc, &[one, two, three, four], &links)
}
