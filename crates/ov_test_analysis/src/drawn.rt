//! Worked graphs in numbers.
use ov_graph::{Graph, GraphFault};
use ov_ids::NodeId;
use ov_test_kit::ids;
use std::alloc::Global;

/// A graph in numbers.
#[derive(Clone, Copy)]
pub(crate) struct Drawn {
    pub(crate) nodes: &'static [u32],
    pub(crate) links: &'static [(u32, u32)],
}

pub(crate) const PATH_OF_THREE: Drawn = Drawn {
    nodes: &[1, 2, 3],
    links: &[(1, 2), (2, 3)],
};

/// Four nodes in a ring.
pub(crate) const SQUARE: Drawn = Drawn {
    nodes: &[1, 2, 3, 4],
    links: &[(1, 2), (1, 4), (2, 3), (3, 4)],
};

/// They have node 3 in common.
pub(crate) const TWO_TRIANGLES: Drawn = Drawn {
    nodes: &[1, 2, 3, 4, 5],
    links: &[(1, 2), (1, 3), (2, 3), (3, 4), (3, 5), (4, 5)],
};

/// All linked but 1 and 2.
pub(crate) const FIVE_BUT_ONE: Drawn = Drawn {
    nodes: &[1, 2, 3, 4, 5],
    links: &[
        (1, 3),
        (1, 4),
        (1, 5),
        (2, 3),
        (2, 4),
        (2, 5),
        (3, 4),
        (3, 5),
        (4, 5),
    ],
};

/// The Petersen graph.
pub(crate) const PETERSEN: Drawn = Drawn {
    nodes: &[1, 2, 3, 4, 5, 6, 7, 8, 9, 10],
    links: &ov_test_kit::PETERSEN,
};

/// The shortest path from 1 to 2 is 1-3-4-2, and without its nodes 3 and 4 there is none. Two paths that share nothing
/// else are 1-5-6-4-2 and 1-3-7-8-2: the search for the second one gives up the step from 3 to 4.
pub(crate) const ONE_STEP_BACK: Drawn = Drawn {
    nodes: &[1, 2, 3, 4, 5, 6, 7, 8],
    links: &[
        (1, 3),
        (1, 5),
        (2, 4),
        (2, 8),
        (3, 4),
        (3, 7),
        (4, 6),
        (5, 6),
        (7, 8),
    ],
};

/// The shortest path from 1 to 2 is 1-3-4-5-2, and without its nodes 3, 4 and 5 there is none. Two paths that share
/// nothing else are 1-6-7-8-5-2 and 1-3-9-10-11-2: the search for the second one gives up the steps 3-4 and 4-5.
pub(crate) const TWO_STEPS_BACK: Drawn = Drawn {
    nodes: &[1, 2, 3, 4, 5, 6, 7, 8, 9, 10, 11],
    links: &[
        (1, 3),
        (1, 6),
        (2, 5),
        (2, 11),
        (3, 4),
        (3, 9),
        (4, 5),
        (5, 8),
        (6, 7),
        (7, 8),
        (9, 10),
        (10, 11),
    ],
};

/// The search takes the link of the lowest node first, and so finds 11-1-2-3-4 as the first path from 11 to 4 and 10,
/// and 11-5-6-7-4 as a walk to its end. In place of its last step the path then takes from 3 the link back to 2, whose
/// own step 1-2 it gives up in turn, and goes on over 1-8-9-10. So 2 and 3 come from each other, and are on no path: a
/// closed round, which must not be kept. Node 11 has two links, and 7 leads to 4 alone: there are no other two paths.
pub(crate) const ROUND_OF_TWO: Drawn = Drawn {
    nodes: &[1, 2, 3, 4, 5, 6, 7, 8, 9, 10, 11, 12],
    links: &[
        (1, 2),
        (1, 8),
        (1, 11),
        (2, 3),
        (3, 4),
        (4, 7),
        (4, 12),
        (5, 6),
        (5, 11),
        (6, 7),
        (8, 9),
        (9, 10),
        (10, 12),
    ],
};

/// The search finds 18-1-2-3-4 first, from 18 to 4, 9 and 17. The walk 18-5-6-7-4 leaves this path at 3, from where it
/// goes on to 8 and 9, though 2 and 8 are linked. The walk 18-10-11-12-13-14-9 then leaves it at 8, and takes this link
/// to 2, whose own step 1-2 is given up; the path goes on over 1-15-16-17. So 2, 3 and 8 come from each other, and are
/// on no path: a closed round. Node 18 has three links, and there are no other three paths.
pub(crate) const ROUND_OF_THREE: Drawn = Drawn {
    nodes: &[
        1, 2, 3, 4, 5, 6, 7, 8, 9, 10, 11, 12, 13, 14, 15, 16, 17, 18, 19,
    ],
    links: &[
        (1, 2),
        (1, 15),
        (1, 18),
        (2, 3),
        (2, 8),
        (3, 4),
        (3, 8),
        (4, 7),
        (4, 19),
        (5, 6),
        (5, 18),
        (6, 7),
        (8, 9),
        (9, 14),
        (9, 19),
        (10, 11),
        (10, 18),
        (11, 12),
        (12, 13),
        (13, 14),
        (15, 16),
        (16, 17),
        (17, 19),
    ],
};

/// The graph of these nodes and links, or its fault.
pub(crate) fn graph(alloc: Global, drawn: Drawn) -> Result<Graph, GraphFault> {
    let nodes = ids(alloc, drawn.nodes).map_err(|_| GraphFault::OutOfMemory)?;
    let mut links = Vec::with_capacity(alloc, drawn.links.len())?;
    for (low, high) in drawn.links {
        links.push((NodeId(*low), NodeId(*high)))?;
    }
    Graph::new(alloc, nodes.as_slice(), &links)
}
