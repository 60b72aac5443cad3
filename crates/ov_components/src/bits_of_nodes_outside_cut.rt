//! The row of the nodes that survive a crash.
ghost use Rattle.std.specs.Prelude.{◌↔◌, ℕ, ◌<◌, ◌≤◌, ◌*◌, length};
ghost use Rattle.ov_ids.specs.Members.{Has};
ghost use Rattle.ov_graph.specs.Paths.{node_at};
ghost use Rattle.ov_graph.specs.Row.{HasBit, word_bits};

use ov_graph::Graph;
use ov_graph::bit_rows::{clear, put};
use ov_ids::NodeId;

/// The row of the nodes that are not in the cut.
pub(crate) fn row_of_survivors<const W: usize>(graph: &Graph, cut: &[NodeId]) -> [u64; W]
    requires { length graph.now.nodes ≤ word_bits * W }
    ensures { (p : ℕ) → HasBit result p ↔ ((p < length graph.now.nodes) × ¬ Has cut.now (node_at graph.now p)) }
{
    let mut left = all_places::<W>(graph);
    for id in cut {
        if let Some(place) = graph.place(*id) {
            clear(&mut left, place);
        }
    }
    left
}

/// The row of all nodes.
fn all_places<const W: usize>(graph: &Graph) -> [u64; W]
    requires { length graph.now.nodes ≤ word_bits * W }
    ensures { (p : ℕ) → HasBit result p ↔ p < length graph.now.nodes }
{
    let mut row = [0; W];
    for place in 0..graph.nodes().len() {
        put(&mut row, place);
    }
    row
}
