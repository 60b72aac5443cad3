ghost use Rattle.std.specs.Prelude.{◌≡◌, ◌-◌, ◌*◌, ◌/◌, ◌<◌, ◌≤◌, [], length, IfOk, IfSome, IfNone};
ghost use Rattle.ov_graph.specs.Links.{HasNode, most_of_any_graph};
ghost use Rattle.ov_graph.specs.Row.{word_bits};
ghost use Rattle.ov_shape.specs.Clustering.{IsClustering};
ghost use Rattle.ov_graph.specs.Components.{HasLargest};
ghost use Rattle.ov_shape.specs.Degrees.{IsQuartile};
ghost use Rattle.ov_shape.specs.ShortestPaths.{HasDiameter, HasMeanPath};
ghost use Rattle.ov_shape.specs.Sums.{parts_of_one};
ghost use Rattle.ov_shape.specs.Code.Found.{IsShape};

use crate::clustering_coefficient::clustering;
use crate::component_search::{distances_within, largest_component};
use crate::degree_quartiles::quartiles_of;
use ov_graph::Graph;
use ov_graph::bit_rows::{ALL_WORDS, WORDS};
use ov_ids::OutOfMemory;
use std::alloc::Global;

/// How many parts one has in a number with four decimal digits.
const PARTS: usize = 10_000;

/// The shape of a graph, as `docs/GROWING.md` defines it. Means are in ten-thousandths, rounded down.
#[derive(Clone, Copy, Debug, PartialEq, Eq)]
pub struct Shape {
    /// How many nodes the largest component has. Of several as large, the one with the smallest id is meant.
    pub largest: usize,
    /// The mean clustering coefficient of all nodes, in ten-thousandths. Each node's is rounded down to a millionth
    /// before.
    pub clustering: usize,
    /// The mean number of links of a shortest path, over all ordered pairs of different nodes of the largest component,
    /// in ten-thousandths; None if it has one node.
    pub path: Option<usize>,
    /// The largest number of links of a shortest path within the largest component; 0 if it has one node.
    pub diameter: usize,
    /// The degree at place ⌈n / 4⌉ of those of all n nodes in ascending order, counted from 1.
    pub degree_25: usize,
    /// The degree at place ⌈n / 2⌉.
    pub degree_50: usize,
    /// The degree at place ⌈3 n / 4⌉.
    pub degree_75: usize,
}

/// The shape of a graph; None if it has no nodes. It measures what Watts and Strogatz (Nature 393, 1998) and
/// HyParView's paper (Leitão, Pereira and Rodrigues, DSN 2007) measure. It searches from each node of the largest
/// component. OutOfMemory (99) if an allocation is refused.
pub fn shape_of(alloc: Global, graph: &Graph) -> Result<Option<Shape>, OutOfMemory>
    ensures largest { IfOk result (λ r. IfSome r (λ s. HasLargest graph.now s.largest)) }
    ensures clustering { IfOk result (λ r. IfSome r (λ s. IsClustering graph.now s.clustering)) }
    ensures path { IfOk result (λ r. IfSome r (λ s. HasMeanPath graph.now s.path)) }
    ensures diameter { IfOk result (λ r. IfSome r (λ s. HasDiameter graph.now s.diameter)) }
    ensures degree_25 { IfOk result (λ r. IfSome r (λ s. IsQuartile graph.now 1 s.degree_25)) }
    ensures degree_50 { IfOk result (λ r. IfSome r (λ s. IsQuartile graph.now 2 s.degree_50)) }
    ensures degree_75 { IfOk result (λ r. IfSome r (λ s. IsQuartile graph.now 3 s.degree_75)) }
    ensures some { IfOk result (λ r. IfSome r (λ _. HasNode graph.now)) }
    ensures none { IfOk result (λ r. IfNone r (graph.now.nodes ≡ [])) }
{
    if graph.nodes().is_empty() {
        return Ok(None);
    }
    if graph.nodes().len() <= Graph::MOST_NODES {
        return Ok(Some(shape_by_sets::<WORDS>(alloc, graph)?));
    }
    prove!(graph.nodes().len() <= Graph::MOST_OF_ANY);
    Ok(Some(shape_by_sets::<ALL_WORDS>(alloc, graph)?))
}

/// The shape of a graph with a node, by sets of places of `W` words.
fn shape_by_sets<const W: usize>(alloc: Global, graph: &Graph) -> Result<Shape, OutOfMemory>
    requires node { HasNode graph.now }
    requires room { length graph.now.nodes ≤ word_bits * W }
    requires few { W ≤ ALL_WORDS }
    ensures { IfOk result (IsShape graph.now) }
{
    let degrees = quartiles_of::<W>(alloc, graph)?;
    let best = largest_component::<W>(graph);
    let all = distances_within(graph, &best);
    Ok(Shape {
        largest: best.count,
        clustering: clustering::<W>(graph),
        path: mean(all.total, best.count),
        diameter: all.far,
        degree_25: degrees.first,
        degree_50: degrees.median,
        degree_75: degrees.third,
    })
}

/// The mean of a sum over all ordered pairs of different nodes, in ten-thousandths, rounded down; None of one node.
fn mean(total: usize, nodes: usize) -> Option<usize>
    requires some { 0 < nodes }
    requires few { nodes ≤ most_of_any_graph }
    requires small { total ≤ most_of_any_graph * (most_of_any_graph * most_of_any_graph) }
    ensures none { IfNone result (nodes ≡ 1) }
    ensures value { IfSome result (λ m. (1 < nodes) × (m ≡ total * parts_of_one / (nodes * (nodes - 1)))) }
{
    if nodes == 1 {
        return None;
    }
    Some(total * PARTS / (nodes * (nodes - 1)))
}
