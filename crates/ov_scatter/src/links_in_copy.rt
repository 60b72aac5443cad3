//! The links of a copy, by ascending key of their lower ends.
ghost use Rattle.std.specs.Prelude.{◌≡◌, ◌<◌, ◌≤◌, ◌+◌, ◌++◌, [], ℕ, length, slice_index, IfOk, OnOk};
ghost use Rattle.ov_graph.specs.Links.{most_of_any_graph};
ghost use Rattle.ov_graph.specs.Row.{HasBit};
ghost use Rattle.ov_scatter.specs.Code.Keys.{IsOrder, AreKeysOf, AreLinksByKey, AreKeysAbove, AreSomeAbove};
ghost use Rattle.ov_scatter.specs.Code.Keys.{HasKeysFrom, linked_to};

use crate::ids_in_copy::{place_of_key, put_in_order};
use ov_graph::Graph;
use ov_graph::bit_rows::{ALL_WORDS, clear, put};
use ov_ids::{NodeId, OutOfMemory};
use std::alloc::Global;

/// The links of a graph by the keys of the places of their ends, ascending, each with its lower key first. OutOfMemory
/// (99) if an allocation is refused.
pub(crate) fn links_by_key(
    alloc: Global,
    graph: &Graph,
    order: &[(u32, u32)],
    keys: &[NodeId],
) -> Result<Vec<(NodeId, NodeId)>, OutOfMemory>
    requires order { IsOrder (length order.now) order.now }
    requires places { length order.now ≡ length graph.now.nodes }
    requires keys { AreKeysOf order.now keys.now }
    ensures { IfOk result (λ links. AreLinksByKey graph.now keys.now most_of_any_graph links.items) }
{
    prove!(graph.nodes().len() <= Graph::MOST_OF_ANY);
    let mut links = Vec::new(alloc);
    let mut above = Vec::new(alloc);
    let mut left = all_places(graph.nodes().len());
    for key in 0..Graph::MOST_OF_ANY {
        let Some(place) = place_of_key(order, keys, key) else {
            continue;
        };
        clear(&mut left, place);
        find_keys_above(graph, keys, place, &left, &mut above)?;
        add_links(NodeId::new(key as u32), &above, &mut links)?;
    }
    Ok(links)
}

/// The set of as many places, as a row of bits.
fn all_places(count: usize) -> [u64; ALL_WORDS]
    requires { count ≤ most_of_any_graph }
    ensures { (q : ℕ) → q < count → HasBit result q }
{
    let mut all = [0; ALL_WORDS];
    for place in 0..count {
        put(&mut all, place);
    }
    all
}

/// The keys of the neighbours of the node at a place that are above its own, ascending. The places with keys above are
/// those that are left.
fn find_keys_above(
    graph: &Graph,
    keys: &[NodeId],
    place: usize,
    left: &[u64; ALL_WORDS],
    above: &mut Vec<NodeId>,
) -> Result<(), OutOfMemory>
    requires places { length keys.now ≡ length graph.now.nodes }
    requires place { place < length graph.now.nodes }
    requires left { HasKeysFrom graph.now keys.now (slice_index keys.now place + 1) left.now }
    ensures { OnOk result (AreKeysAbove graph.now keys.now place above.new.items) }
{
    above.clear();
    gather_keys_above(graph, keys, place, left, above)?;
    put_in_order(above);
    Ok(())
}

/// Puts the keys of the neighbours of the node at a place that are left into an empty list.
fn gather_keys_above(
    graph: &Graph,
    keys: &[NodeId],
    place: usize,
    left: &[u64; ALL_WORDS],
    above: &mut Vec<NodeId>,
) -> Result<(), OutOfMemory>
    requires places { length keys.now ≡ length graph.now.nodes }
    requires place { place < length graph.now.nodes }
    requires left { HasKeysFrom graph.now keys.now (slice_index keys.now place + 1) left.now }
    requires none { above.old.items ≡ [] }
    ensures { OnOk result (AreSomeAbove graph.now keys.now place (length graph.now.nodes) above.new.items) }
{
    prove!(graph.nodes().len() <= Graph::MOST_OF_ANY);
    let mut from = 0;
    while let Some(other) = graph.next_within(place, left, from) {
        above.push(keys[other])?;
        from = other + 1;
    }
    Ok(())
}

/// Adds a link from one key to each of these.
fn add_links(
    key: NodeId,
    above: &[NodeId],
    links: &mut Vec<(NodeId, NodeId)>,
) -> Result<(), OutOfMemory>
    ensures { OnOk result (links.new.items ≡ links.old.items ++ linked_to key above.now) }
{
    for other in above {
        links.push((key, *other))?;
    }
    Ok(())
}
