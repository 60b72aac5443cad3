//! Paths are found as lists of places in the graph. A certificate names their nodes by ids.
ghost use Rattle.std.specs.Prelude.{◌≡◌, map, IfOk};
ghost use Rattle.ov_even.specs.Naming.{AreFound, named_of};

use ov_cert::Paths;
use ov_fans::{Piece, asked_paths};
use ov_flow::PlacePaths;
use ov_graph::Graph;
use ov_ids::{NodeId, OutOfMemory};
use std::alloc::Global;

/// A piece, and the paths that were found for it. Their nodes are named by places in the graph.
#[derive(Clone, Copy)]
pub struct FoundPaths<'a> {
    pub piece: Piece,
    pub paths: &'a PlacePaths,
}

/// A piece, and the paths that it asks for. Their nodes are named by ids.
#[derive(Drop)]
pub struct NamedPaths {
    pub piece: Piece,
    pub paths: Paths,
}

/// The same pieces in the same order, with their paths by ids. Faults: out of memory.
pub fn name_paths(
    alloc: Global,
    graph: &Graph,
    group: &[NodeId],
    found: &[FoundPaths<'_>],
) -> Result<Vec<NamedPaths>, OutOfMemory>
    requires { AreFound graph.now group.now found.now }
    ensures { IfOk result (λ named. named.items ≡ map (named_of graph.now group.now) found.now) }
{
    let mut named = Vec::with_capacity(alloc, found.len())?;
    for FoundPaths { piece, paths } in found {
        let paths = asked_paths(alloc, graph, group, *piece, paths)?;
        named.push_reserved(NamedPaths {
            piece: *piece,
            paths,
        });
    }
    Ok(named)
}
