//! The degrees at a quarter, at half and at three quarters of all nodes.
ghost use Rattle.std.specs.Prelude.{◌*◌, ◌<◌, ◌≤◌, length, IfOk};
ghost use Rattle.ov_graph.specs.Links.{HasNode};
ghost use Rattle.ov_graph.specs.Paths.{node_at};
ghost use Rattle.ov_graph.specs.Row.{word_bits};
ghost use Rattle.ov_shape.specs.Degrees.{IsDegree, AreDegrees};
ghost use Rattle.ov_shape.specs.Code.Found.{HasQuartiles};

use crate::place_sets::{count, words_in_use};
use ov_graph::Graph;
use ov_graph::bit_rows::ALL_WORDS;
use ov_ids::OutOfMemory;
use std::alloc::Global;

/// The quartiles of the degrees.
#[derive(Drop)]
pub(crate) struct Quartiles {
    pub first: usize,
    pub median: usize,
    pub third: usize,
}

/// The quartiles of the degrees of all nodes. OutOfMemory (99) if an allocation is refused.
pub(crate) fn quartiles_of<const W: usize>(
    alloc: Global,
    graph: &Graph,
) -> Result<Quartiles, OutOfMemory>
    requires node { HasNode graph.now }
    requires room { length graph.now.nodes ≤ word_bits * W }
    requires few { W ≤ ALL_WORDS }
    ensures { IfOk result (HasQuartiles graph.now) }
{
    let nodes = graph.nodes().len();
    let mut degrees = degrees_of::<W>(alloc, graph)?;
    degrees.sort_unstable();
    Ok(Quartiles {
        first: degrees[(nodes + 3) / 4 - 1],
        median: degrees[(2 * nodes + 3) / 4 - 1],
        third: degrees[(3 * nodes + 3) / 4 - 1],
    })
}

/// The degrees of all nodes, in the order of their ids.
fn degrees_of<const W: usize>(alloc: Global, graph: &Graph) -> Result<Vec<usize>, OutOfMemory>
    requires room { length graph.now.nodes ≤ word_bits * W }
    requires few { W ≤ ALL_WORDS }
    ensures { IfOk result (λ ds. AreDegrees graph.now ds.items) }
{
    let nodes = graph.nodes().len();
    let mut degrees = Vec::with_capacity(alloc, nodes)?;
    'places: for place in 0..nodes {
        degrees.push_reserved(degree_at::<W>(graph, place));
    }
    Ok(degrees)
}

/// The degree of the node at a place.
fn degree_at<const W: usize>(graph: &Graph, place: usize) -> usize
    requires place { place < length graph.now.nodes }
    requires room { length graph.now.nodes ≤ word_bits * W }
    requires few { W ≤ ALL_WORDS }
    ensures { IsDegree graph.now (node_at graph.now place) result }
{
    let neighbours: [u64; W] = graph.neighbour_set(place);
    count(&neighbours, words_in_use::<W>(graph))
}
