//! The clustering coefficient (Watts and Strogatz, Nature 393, 1998).
ghost use Rattle.std.specs.Prelude.{◌≡◌, ℕ, ◌-◌, ◌*◌, ◌<◌, ◌≤◌, length};
ghost use Rattle.ov_graph.specs.Links.{HasNode};
ghost use Rattle.ov_graph.specs.Paths.{node_at};
ghost use Rattle.ov_graph.specs.Row.{HasBit, picked, word_bits};
ghost use Rattle.ov_shape.specs.Sums.{IsSum, one_million};
ghost use Rattle.ov_shape.specs.Clustering.{IsCoefficient, IsClustering, HaveCommon};
ghost use Rattle.ov_shape.specs.Code.Found.{IsOfNodes, IsNeighbourSet};

use crate::place_sets::{count, words_in_use};
use ov_graph::Graph;
use ov_graph::bit_rows::{ALL_WORDS, first_from};

/// How many millionths are one.
const MILLION: usize = 1_000_000;

/// The mean of the coefficients of all nodes, in ten-thousandths, rounded down.
pub(crate) fn clustering<const W: usize>(graph: &Graph) -> usize
    requires node { HasNode graph.now }
    requires room { length graph.now.nodes ≤ word_bits * W }
    requires few { W ≤ ALL_WORDS }
    ensures { IsClustering graph.now result }
{
    let nodes = graph.nodes().len();
    let mut total = 0;
    'places: for place in 0..nodes {
        total += coefficient::<W>(graph, place);
    }
    total / (100 * nodes)
}

/// The coefficient of the node at a place, in millionths, rounded down.
fn coefficient<const W: usize>(graph: &Graph, place: usize) -> usize
    requires place { place < length graph.now.nodes }
    requires room { length graph.now.nodes ≤ word_bits * W }
    requires few { W ≤ ALL_WORDS }
    ensures value { IsCoefficient graph.now (node_at graph.now place) result }
    ensures few { result ≤ one_million }
{
    let neighbours: [u64; W] = graph.neighbour_set(place);
    let degree = count(&neighbours, words_in_use::<W>(graph));
    let linked = linked_pairs(graph, &neighbours, degree);
    if degree < 2 {
        return 0;
    }
    linked * MILLION / (degree * (degree - 1))
}

/// How many ordered pairs of neighbours of a node are linked. The set has the places of the neighbours, of which there
/// are `degree`.
fn linked_pairs<const W: usize>(graph: &Graph, neighbours: &[u64; W], degree: usize) -> usize
    requires within { IsOfNodes graph.now neighbours.now }
    requires room { length graph.now.nodes ≤ word_bits * W }
    requires degree { degree ≡ length (picked neighbours.now 0 graph.now.nodes) }
    ensures sum { (a : ℕ) → IsNeighbourSet graph.now a neighbours.now
        → IsSum (HaveCommon graph.now a) (picked neighbours.now 0 graph.now.nodes) result }
    ensures few { result ≤ degree * (degree - 1) }
{
    let words = words_in_use::<W>(graph);
    let mut linked = 0;
    let mut from = 0;
    'neighbours: while let Some(place) = first_from(neighbours, from, words) {
        linked += linked_within(graph, place, neighbours);
        from = place + 1;
    }
    linked
}

/// How many nodes whose places are in a set are linked to the node at a place. If its own place is in the set, these
/// are fewer than the set has.
fn linked_within<const W: usize>(graph: &Graph, place: usize, set: &[u64; W]) -> usize
    requires place { place < length graph.now.nodes }
    requires room { length graph.now.nodes ≤ word_bits * W }
    ensures common { (a : ℕ) → IsNeighbourSet graph.now a set.now
        → HaveCommon graph.now a (node_at graph.now place) result }
    ensures few { HasBit set.now place → result < length (picked set.now 0 graph.now.nodes) }
{
    prove!(graph.nodes().len() <= Graph::MOST_OF_ANY);
    let mut shared = 0;
    let mut after = 0;
    'common: while let Some(q) = graph.next_within(place, set, after) {
        shared += 1;
        after = q + 1;
    }
    shared
}
