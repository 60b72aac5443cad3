//! The articulation points of small graphs, counted by hand.
use ov_articulations::articulation_points;
use ov_graph::Graph;
use ov_ids::NodeId;
use std::alloc::Global;

/// What a graph is, how many nodes it has, from 1 on, its links, and how many articulation points its largest component
/// has.
static GRAPHS: [(&str, u32, &[(u32, u32)], usize); 10] = [
    ("a single node", 1, &[], 0),
    ("two nodes", 2, &[(1, 2)], 0),
    ("three nodes without links", 3, &[], 0),
    ("a path", 4, &[(1, 2), (2, 3), (3, 4)], 2),
    ("a ring", 4, &[(1, 2), (1, 4), (2, 3), (3, 4)], 0),
    ("a star", 4, &[(1, 2), (1, 3), (1, 4)], 1),
    (
        "two triangles that share a node",
        5,
        &[(1, 2), (1, 3), (2, 3), (3, 4), (3, 5), (4, 5)],
        1,
    ),
    (
        "two triangles with a link between them",
        6,
        &[(1, 2), (1, 3), (2, 3), (3, 4), (4, 5), (4, 6), (5, 6)],
        2,
    ),
    (
        "a ring beside a longer path",
        7,
        &[(1, 2), (1, 3), (2, 3), (4, 5), (5, 6), (6, 7)],
        2,
    ),
    (
        "a ring before a path as large",
        6,
        &[(1, 2), (1, 3), (2, 3), (4, 5), (5, 6)],
        0,
    ),
];

/// How many articulation points a graph of these nodes and links has; None if memory ran out.
fn count(alloc: Global, nodes: u32, links: &[(u32, u32)]) -> Option<usize> {
    let mut ids = Vec::new(alloc);
    for number in 1..=nodes {
        if ids.push(NodeId(number)).is_err() {
            return None;
        }
    }
    let mut pairs = Vec::new(alloc);
    for (one, other) in links {
        if pairs.push((NodeId(*one), NodeId(*other))).is_err() {
            return None;
        }
    }
    match Graph::new(alloc, &ids, &pairs) {
        Ok(graph) if !graph.nodes().is_empty() => articulation_points(alloc, &graph).ok(),
        _ => None,
    }
}

#[test]
fn articulation_points_are_counted(rt: HostRuntime) {
    for (name, nodes, links, expected) in &GRAPHS {
        assert!(rt;
            count(rt.alloc(), *nodes, links) == Some(*expected),
            "{name}"
        );
    }
}
