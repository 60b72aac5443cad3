//! How a component is grown from one of its nodes.
ghost use Rattle.std.specs.Prelude.{ℕ, ◌<◌, ◌≤◌, ◌*◌, List, length};
ghost use Rattle.ov_graph.specs.Links.{IsGraph};
ghost use Rattle.ov_graph.specs.Row.{HasBit, word_bits};
ghost use Rattle.ov_components.specs.Code.Rows.{IsWhole, TakesComponent};

use ov_graph::Graph;
use ov_graph::bit_rows::{clear, first_from, without, words_for};

/// Takes the component of the node at place `start` out of `left`, and returns the row of its nodes. The nodes in
/// `left` that are not in `unseen` are joined to the start; their links are still to be followed.
pub(crate) fn take_component<const W: usize>(
    graph: &Graph,
    left: &mut [u64; W],
    start: usize,
) -> [u64; W]
    requires room { length graph.now.nodes ≤ word_bits * W }
    requires graph { IsGraph graph.now }
    requires within { (p : ℕ) → HasBit left.old p → p < length graph.now.nodes }
    requires start { HasBit left.old start }
    ensures taken { (s : List ℕ) → IsWhole graph.now s left.old
        → TakesComponent graph.now s left.old start left.new result }
{
    let words = words_for::<W>(graph.nodes().len());
    let before = *left;
    let mut unseen = before;
    clear(&mut unseen, start);
    while let Some(place) = first_from(&without(left, &unseen, words), 0, words) {
        clear(left, place);
        unseen = without(&unseen, &graph.neighbour_set::<W>(place), words);
    }
    without(&before, left, words)
}
