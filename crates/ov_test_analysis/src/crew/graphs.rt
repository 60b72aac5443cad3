//! The graphs of the tests.
use ov_graph::{Graph, GraphFault};
use ov_ids::NodeId;
use ov_test_kit::PETERSEN;
use std::alloc::Global;

/// Which nodes are linked.
#[derive(Clone, Copy)]
pub(crate) enum Family {
    /// Those of the Petersen graph, of 10 nodes.
    Petersen,
    /// Each to the four next ones round a ring of 200 nodes.
    Ring,
    /// Each to the next one round a ring of 1,100 nodes.
    LongRing,
    /// Each odd node to each even one.
    TwoSides,
    /// Each to each.
    All,
    /// Each of the nodes 1 to 32 to each other one. Of the 16 arms, which are the nodes 33 to 48, the first one to the
    /// nodes 1 to 32, and each later one to two of them fewer. Each arm to the nodes from 49 on.
    Falling,
    /// Each of the nodes 1 to 3 to each other one.
    Hubs,
}

impl Family {
    /// Whether a node is linked to a higher one.
    fn links(self, low: u32, high: u32) -> bool {
        let apart = high.abs_diff(low);
        match self {
            Family::Petersen => PETERSEN.contains(&(low, high)),
            Family::Ring => apart <= 4 || apart >= 196,
            Family::LongRing => apart == 1 || apart == 1_099,
            Family::TwoSides => apart % 2 == 1,
            Family::All => true,
            Family::Falling => are_falling(low, high),
            Family::Hubs => low <= 3,
        }
    }
}

/// Whether a node of the family `Falling` is linked to a higher one.
fn are_falling(low: u32, high: u32) -> bool {
    if high <= 32 {
        return true;
    }
    if high <= 48 {
        return high
            .saturating_sub(33)
            .saturating_mul(2)
            .saturating_add(low)
            <= 32;
    }
    low > 32 && low <= 48
}

/// The graph of the nodes 1 to `last`, which may be more than 1,024.
pub(crate) fn of_size(alloc: Global, family: Family, last: u32) -> Result<Graph, GraphFault> {
    let mut nodes = Vec::new(alloc);
    let mut links = Vec::new(alloc);
    for low in 1..=last {
        nodes.push(NodeId(low))?;
        push_links(family, low, last, &mut links)?;
    }
    Graph::large(alloc, &nodes, &links)
}

/// Adds the links of a node to higher ones, ascending.
fn push_links(
    family: Family,
    low: u32,
    last: u32,
    links: &mut Vec<(NodeId, NodeId)>,
) -> Result<(), GraphFault> {
    for high in low..=last {
        if high > low && family.links(low, high) {
            links.push((NodeId(low), NodeId(high)))?;
        }
    }
    Ok(())
}
