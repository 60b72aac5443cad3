//! The nodes that are joined to a node, layer by layer: in the next layer are the neighbours of this one that no layer
//! had before, and all nodes of a layer are at one distance.
ghost use Rattle.std.specs.Prelude.{◌↔◌, ◌⊎◌, ℕ, ◌*◌, ◌<◌, ◌≤◌, length};
ghost use Rattle.ov_graph.specs.Neighbours.{AreLinkedAt, IsOutside};
ghost use Rattle.ov_graph.specs.Paths.{node_at};
ghost use Rattle.ov_graph.specs.Row.{HasBit, word_bits};
ghost use Rattle.ov_shape.specs.Code.Found.{IsFound, IsOfNodes, IsBeside};

use crate::place_sets::{alone, count, words_in_use};
use ov_graph::Graph;
use ov_graph::bit_rows::{first_from, put};

/// What a search from a node found: the set of the places of its component, how many nodes this has, the sum of their
/// distances, and the largest distance.
#[derive(Clone, Copy)]
pub(crate) struct Found<const W: usize> {
    pub places: [u64; W],
    pub count: usize,
    pub total: usize,
    pub far: usize,
}

/// Searches from the node at a place. It looks at each link of the component twice at most.
pub(crate) fn search<const W: usize>(graph: &Graph, place: usize) -> Found<W>
    requires place { place < length graph.now.nodes }
    requires room { length graph.now.nodes ≤ word_bits * W }
    ensures { IsFound graph.now (node_at graph.now place) result }
{
    let words = words_in_use::<W>(graph);
    let mut front = alone(place);
    let mut found = Found {
        places: front,
        count: 1,
        total: 0,
        far: 0,
    };
    'layers: loop {
        let next = next_layer(graph, &front, &mut found.places);
        let more = count(&next, words);
        if more == 0 {
            return found;
        }
        found.far += 1;
        found.count += more;
        found.total += found.far * more;
        front = next;
    }
}

/// The neighbours of the nodes of a layer that were not reached before. They are added to what is reached.
fn next_layer<const W: usize>(graph: &Graph, front: &[u64; W], reached: &mut [u64; W]) -> [u64; W]
    requires within { IsOfNodes graph.now front.now }
    requires room { length graph.now.nodes ≤ word_bits * W }
    ensures next { (q : ℕ) → HasBit result q ↔ (IsBeside graph.now front.now q × ¬ HasBit reached.old q) }
    ensures reached { (q : ℕ) → HasBit reached.new q ↔ (HasBit reached.old q ⊎ HasBit result q) }
{
    let words = words_in_use::<W>(graph);
    let mut next = [0; W];
    let mut from = 0;
    'nodes: while let Some(place) = first_from(front, from, words) {
        reach_from(graph, place, reached, &mut next);
        from = place + 1;
    }
    next
}

/// Adds the neighbours of the node at a place that were not reached before to what is reached, and to the next layer.
fn reach_from<const W: usize>(
    graph: &Graph,
    place: usize,
    reached: &mut [u64; W],
    next: &mut [u64; W],
)
    requires place { place < length graph.now.nodes }
    requires room { length graph.now.nodes ≤ word_bits * W }
    ensures reached { (q : ℕ) → HasBit reached.new q ↔ (HasBit reached.old q ⊎ AreLinkedAt graph.now place q) }
    ensures next { (q : ℕ) → HasBit next.new q
        ↔ (HasBit next.old q ⊎ IsOutside graph.now place reached.old q) }
{
    prove!(graph.nodes().len() <= Graph::MOST_OF_ANY);
    let mut after = 0;
    'neighbours: while let Some(q) = graph.next_outside(place, reached, after) {
        put(reached, q);
        put(next, q);
        after = q + 1;
    }
}
