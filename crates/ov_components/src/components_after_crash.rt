ghost use Rattle.std.specs.Prelude.{◌≡◌, ℕ, ◌<◌, ◌≤◌, ◌*◌, [], ◌∷◌, ◌++◌, length, IfOk, OnOk};
ghost use Rattle.ov_graph.specs.Row.{HasBit, picked, word_bits};
ghost use Rattle.ov_components.specs.Components.{AreComponents};

use crate::bits_of_nodes_outside_cut::row_of_survivors;
use crate::component_list::Components;
use crate::flood_fill::take_component;
use ov_graph::Graph;
use ov_graph::bit_rows::{ALL_WORDS, WORDS, first_from, has, words_for};
use ov_ids::{NodeId, OutOfMemory};
use ov_lists::PathsBuilder;
use std::alloc::Global;

/// The components that the crash of these nodes leaves: the survivors, of which two are in one component exactly if
/// they are joined without the crashed nodes. Ids ascend in a component, and components stand in the order of their
/// first ids. Ids in `cut` that are no nodes count for nothing, and their order does not matter. The time is linear in
/// the number of nodes and the words of a set of them. OutOfMemory (99) if an allocation is refused.
pub fn components_without(
    alloc: Global,
    graph: &Graph,
    cut: &[NodeId],
) -> Result<Components, OutOfMemory>
    ensures { IfOk result (AreComponents graph.now cut.now) }
{
    if graph.nodes().len() <= Graph::MOST_NODES {
        let mut left = [0; WORDS];
        return components_by(alloc, graph, cut, &mut left);
    }
    prove!(graph.nodes().len() <= Graph::MOST_OF_ANY);
    let mut left = [0; ALL_WORDS];
    components_by(alloc, graph, cut, &mut left)
}

/// The same, where `left` has room for a set of all nodes. What it has at first does not matter.
fn components_by<const W: usize>(
    alloc: Global,
    graph: &Graph,
    cut: &[NodeId],
    left: &mut [u64; W],
) -> Result<Components, OutOfMemory>
    requires { length graph.now.nodes ≤ word_bits * W }
    ensures { IfOk result (AreComponents graph.now cut.now) }
{
    let count = graph.nodes().len();
    *left = row_of_survivors::<W>(graph, cut);
    let mut lists = PathsBuilder::with_capacity(alloc, count, count)?;
    for start in 0..count {
        if has(left, start) {
            let component = take_component(graph, left, start);
            push_component(&mut lists, graph, &component)?;
        }
    }
    Ok(Components::new(lists.finish()))
}

/// Appends the nodes whose bits a row has, as one list.
fn push_component<const W: usize>(
    lists: &mut PathsBuilder,
    graph: &Graph,
    row: &[u64; W],
) -> Result<(), OutOfMemory>
    requires room { length graph.now.nodes ≤ word_bits * W }
    requires within { (p : ℕ) → HasBit row.now p → p < length graph.now.nodes }
    requires begun { lists.old.begun ≡ [] }
    ensures pushed { OnOk result (lists.new.paths ≡ lists.old.paths ++ picked row.now 0 graph.now.nodes ∷ []) }
    ensures ended { OnOk result (lists.new.begun ≡ []) }
{
    let nodes = graph.nodes();
    let words = words_for::<W>(nodes.len());
    let mut next = 0;
    while let Some(place) = first_from(row, next, words) {
        lists.push_id(nodes[place])?;
        next = place + 1;
    }
    lists.end_path()?;
    Ok(())
}
