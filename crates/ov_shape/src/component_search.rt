//! The largest component, and the distances within it.
ghost use Rattle.std.specs.Prelude.{◌*◌, ◌≤◌, length};
ghost use Rattle.ov_graph.specs.Links.{HasNode, most_of_any_graph};
ghost use Rattle.ov_graph.specs.Row.{picked, word_bits};
ghost use Rattle.ov_shape.specs.ShortestPaths.{IsDistanceSum, IsLongest};
ghost use Rattle.ov_shape.specs.Code.Found.{IsLargestFound};

use crate::layered_search::{Found, search};
use crate::place_sets::{either, words_in_use};
use ov_graph::Graph;
use ov_graph::bit_rows::{first_from, has};

/// What the search from the first node of the largest component found. It searches from the first node of each
/// component.
pub(crate) fn largest_component<const W: usize>(graph: &Graph) -> Found<W>
    requires node { HasNode graph.now }
    requires room { length graph.now.nodes ≤ word_bits * W }
    ensures { IsLargestFound graph.now result.places result.count }
{
    let words = words_in_use::<W>(graph);
    let mut best = search(graph, 0);
    let mut seen = best.places;
    'places: for place in 1..graph.nodes().len() {
        if has(&seen, place) {
            continue;
        }
        let found = search(graph, place);
        seen = either(&seen, &found.places, words);
        if found.count > best.count {
            best = found;
        }
    }
    best
}

/// The distances within a component: their sum over all ordered pairs of nodes, and the largest one.
#[derive(Drop)]
pub(crate) struct Distances {
    pub total: usize,
    pub far: usize,
}

/// The distances within the largest component. It searches from each of its nodes.
pub(crate) fn distances_within<const W: usize>(graph: &Graph, component: &Found<W>) -> Distances
    requires found { IsLargestFound graph.now component.now.places component.now.count }
    requires room { length graph.now.nodes ≤ word_bits * W }
    ensures total { IsDistanceSum graph.now (picked component.now.places 0 graph.now.nodes) result.total }
    ensures far { IsLongest graph.now (picked component.now.places 0 graph.now.nodes) result.far }
    ensures few { result.total ≤ most_of_any_graph * (most_of_any_graph * most_of_any_graph) }
{
    let words = words_in_use::<W>(graph);
    let places = &component.places;
    let mut all = Distances { total: 0, far: 0 };
    let mut from = 0;
    'members: while let Some(place) = first_from(places, from, words) {
        let found = search::<W>(graph, place);
        all.total += found.total;
        all.far = all.far.max(found.far);
        from = place + 1;
    }
    all
}
