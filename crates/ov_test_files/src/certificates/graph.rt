//! Graphs at their limits, and the first fault of nodes and links.
use ov_graph::Graph;
use ov_ids::NodeId;
use ov_test_kit::ids;
use std::alloc::{AllocError, Global};

/// The number of the fault of these nodes and links; 0 where there is none.
fn number_of(alloc: Global, nodes: &[NodeId], links: &[(NodeId, NodeId)]) -> u32 {
    let graph = Graph::new(alloc, nodes, links);
    match &graph {
        Ok(_) => 0,
        Err(fault) => fault.number(),
    }
}

/// So many nodes, which ascend or else descend.
fn many(alloc: Global, count: u32, ascend: bool) -> Result<Vec<NodeId>, AllocError> {
    let mut nodes = Vec::new(alloc);
    for number in 0..count {
        let node = if ascend { number } else { count - number };
        nodes.push(NodeId(node))?;
    }
    Ok(nodes)
}

/// Whether so many nodes, which ascend or else descend, have the fault of this number.
fn is_fault_of_many(alloc: Global, count: u32, ascend: bool, number: u32) -> bool {
    match many(alloc, count, ascend) {
        Ok(nodes) => number_of(alloc, &nodes, &[]) == number,
        Err(_) => false,
    }
}

/// How many nodes, whether they ascend, and the number of their fault.
static MANY: [(u32, bool, u32); 5] = [
    (257, true, 0),
    (1_024, true, 0),
    (1_024, false, 32),
    (1_025, true, 31),
    (1_025, false, 31),
];

/// Nodes, links, and the number of their fault; 0 where there is none.
type FaultRow = (&'static [u32], &'static [(u32, u32)], u32);

static FAULTS: [FaultRow; 11] = [
    (&[], &[], 0),
    (&[1, 2, 3, 9], &[(1, 3), (1, 9), (2, 3)], 0),
    (&[2, 1], &[], 32),
    (&[2, 2], &[], 32),
    (&[1, 2, 3, 9], &[(2, 1)], 33),
    (&[1, 2, 3, 9], &[(2, 2)], 33),
    (&[1, 2, 3, 9], &[(3, 4)], 33),
    (&[1, 2, 3, 9], &[(1, 3), (1, 2)], 32),
    (&[1, 2, 3, 9], &[(1, 2), (1, 2)], 32),
    (&[1, 2, 3, 9], &[(2, 1), (1, 2), (1, 2)], 33),
    (&[1, 2, 3, 9], &[(1, 3), (1, 2), (2, 1)], 32),
];

fn links_of(alloc: Global, pairs: &[(u32, u32)]) -> Result<Vec<(NodeId, NodeId)>, AllocError> {
    let mut links = Vec::new(alloc);
    for (low, high) in pairs {
        links.push((NodeId(*low), NodeId(*high)))?;
    }
    Ok(links)
}

/// Whether these nodes and links have the fault of this number.
fn is_fault_of(alloc: Global, nodes: &[NodeId], pairs: &[(u32, u32)], number: u32) -> bool {
    match links_of(alloc, pairs) {
        Ok(links) => number_of(alloc, nodes, &links) == number,
        Err(_) => false,
    }
}

/// Whether a row has its fault.
fn has_fault(alloc: Global, row: FaultRow) -> bool {
    let (nodes, pairs, number) = row;
    match ids(alloc, nodes) {
        Ok(nodes) => is_fault_of(alloc, nodes.as_slice(), pairs, number),
        Err(_) => false,
    }
}

#[test]
fn a_graph_has_at_most_1024_nodes_and_its_first_fault(rt: HostRuntime) {
    for (count, ascend, number) in &MANY {
        assert!(rt;
            is_fault_of_many(rt.alloc(), *count, *ascend, *number),
            "{count} nodes"
        );
    }
    for (place, row) in FAULTS.iter().enumerate() {
        assert!(rt; has_fault(rt.alloc(), *row), "in row {place}");
    }
}
