//! Nodes 1 to 4, each linked to the next, and 4 to 1. Crashing 2 and 4 parts 1 from 3.
use ov_cert::{Cert, FanPaths, Split};
use ov_drawing::{ChosenEntry, Drawing, PictureFault, draw};
use ov_graph::{Graph, GraphFault};
use ov_ids::{NodeId, OutOfMemory, Seq};
use ov_lists::Paths;
use ov_test_kit::ids;
use std::alloc::Global;

/// The group: all nodes but 2.
pub(crate) const MEMBERS: [NodeId; 3] = [NodeId(1), NodeId(3), NodeId(4)];

/// The graph.
fn graph(alloc: Global) -> Result<Graph, GraphFault> {
    let nodes = [NodeId(1), NodeId(2), NodeId(3), NodeId(4)];
    let links = [
        (NodeId(1), NodeId(2)),
        (NodeId(1), NodeId(4)),
        (NodeId(2), NodeId(3)),
        (NodeId(3), NodeId(4)),
    ];
    Graph::new(alloc, &nodes, &links)
}

/// A fan of a node: two paths.
fn fan(alloc: Global, j: u32, one: &[NodeId], other: &[NodeId]) -> Result<FanPaths, OutOfMemory> {
    Ok(FanPaths {
        j: NodeId(j),
        paths: two_paths(alloc, one, other)?,
    })
}

fn two_paths(alloc: Global, one: &[NodeId], other: &[NodeId]) -> Result<Paths, OutOfMemory> {
    let mut paths = Paths::new(alloc);
    paths.push(one)?;
    paths.push(other)?;
    Ok(paths)
}

/// The fans of 3 and of 4.
fn fans(alloc: Global) -> Result<Seq<FanPaths>, OutOfMemory> {
    let mut fans = Vec::new(alloc);
    fans.push(fan(
        alloc,
        3,
        &[NodeId(3), NodeId(2)],
        &[NodeId(3), NodeId(4), NodeId(1)],
    )?)?;
    fans.push(fan(alloc, 4, &[NodeId(4), NodeId(1)], &[NodeId(4), NodeId(3)])?)?;
    Ok(Seq::new(fans))
}

/// The certificate.
fn cert(alloc: Global) -> Result<Cert, OutOfMemory> {
    let fans = fans(alloc)?;
    Ok(Cert::Split(Split {
        k: 2,
        cut: ids(alloc, &[2, 4])?,
        near: NodeId(1),
        far: NodeId(3),
        side: ids(alloc, &[1])?,
        pairs: Seq::new(Vec::new(alloc)),
        fans,
    }))
}

/// The drawing of the square, with the paths of an entry if one is chosen.
pub(crate) fn drawn_square(
    alloc: Global,
    entry: Option<ChosenEntry>,
) -> Result<Drawing, PictureFault> {
    let cert = cert(alloc)?;
    match graph(alloc) {
        Ok(graph) => draw(alloc, &graph, &MEMBERS, &cert, entry),
        Err(_) => Err(PictureFault::OutOfMemory),
    }
}

/// The drawing of the two nodes 1 and 2, which are linked.
pub(crate) fn drawn_pair(alloc: Global) -> Result<Drawing, PictureFault> {
    let links = [(NodeId(1), NodeId(2))];
    match Graph::new(alloc, &[NodeId(1), NodeId(2)], &links) {
        Ok(graph) => draw(alloc, &graph, graph.nodes(), &Cert::Linked { k: 1 }, None),
        Err(_) => Err(PictureFault::OutOfMemory),
    }
}
