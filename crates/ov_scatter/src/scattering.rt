ghost use Rattle.std.specs.Prelude.{◌≡◌, ◌↔◌, ◌≤◌, ◌<◌, ℕ, length, IfOk};
ghost use Rattle.ov_graph.specs.Joined.{NoFewerSplit};
ghost use Rattle.ov_graph.specs.Links.{IsGraph, IsGroup, most_of_any_graph};
ghost use Rattle.ov_scatter.specs.Renaming.{IsRenamed, AreNewIds};
ghost use Rattle.ov_scatter.specs.Code.Keys.{AreIdsOf};

use crate::copy_with_other_ids::Scattered;
use crate::ids_in_copy::{keys_by_place, places_in_order, put_in_order};
use crate::links_in_copy::links_by_key;
use crate::search_order::search_turns;
use ov_graph::{Graph, GraphFault};
use ov_ids::{NodeId, OutOfMemory};
use std::alloc::Global;

/// A copy of a graph and of a group in it with other ids. A search goes through the graph from its first node, to a
/// neighbour each time as long as it can. The node that it comes to as the r-th, counted from 0, gets the id 20,251 r
/// modulo 32,768, which is about 0.618 of the way round with each node: nodes that are near each other get ids far
/// apart, whatever their ids were. Even's test takes members in the order of their ids. If ids go round a ring, each of
/// its fans has a path that leads round all of it. In the copy paths stay short, and the number k of the group is the
/// same. OutOfMemory (99) is returned if an allocation was refused.
pub fn scattered(alloc: Global, graph: &Graph, group: &[NodeId]) -> Result<Scattered, OutOfMemory>
    requires group { IsGroup graph.now group.now }
    ensures renamed { IfOk result (λ s. IsRenamed graph.now group.now s.graph s.group.items) }
    ensures group { IfOk result (λ s. IsGroup s.graph s.group.items) }
    ensures alike { IfOk result (λ s. (k : ℕ)
        → NoFewerSplit s.graph s.group.items k ↔ NoFewerSplit graph.now group.now k) }
    ensures keys { IfOk result (λ s. AreNewIds graph.now s.keys.items s.graph) }
{
    prove!(graph.nodes().len() <= Graph::MOST_OF_ANY);
    let turns = search_turns(alloc, graph)?;
    let order = places_in_order(alloc, &turns)?;
    let keys = keys_by_place(alloc, &order)?;
    let links = links_by_key(alloc, graph, &order, &keys)?;
    let mut nodes = Vec::from_slice(alloc, &keys)?;
    put_in_order(&mut nodes);
    let copy = graph_of(alloc, &nodes, &links)?;
    let members = ids_of_group(alloc, graph, &keys, group)?;
    Ok(Scattered {
        graph: copy,
        group: members,
        keys,
    })
}

/// The ids of members in the copy, ascending. Each place of the graph has one of these keys.
pub(crate) fn ids_of_group(
    alloc: Global,
    graph: &Graph,
    keys: &[NodeId],
    group: &[NodeId],
) -> Result<Vec<NodeId>, OutOfMemory>
    requires keys { length keys.now ≡ length graph.now.nodes }
    requires group { IsGroup graph.now group.now }
    ensures { IfOk result (λ ids. AreIdsOf graph.now keys.now group.now ids.items) }
{
    let mut ids = Vec::with_capacity(alloc, group.len())?;
    for member in group {
        match graph.place(*member) {
            Some(place) => ids.push(keys[place])?,
            None => unreachable!(),
        }
    }
    put_in_order(&mut ids);
    Ok(ids)
}

/// The graph of these nodes and links, which are those of a graph.
fn graph_of(
    alloc: Global,
    nodes: &[NodeId],
    links: &[(NodeId, NodeId)],
) -> Result<Graph, OutOfMemory>
    requires graph { IsGraph (record { nodes = nodes.now; links = links.now }) }
    requires few { length nodes.now ≤ most_of_any_graph }
    ensures { IfOk result (λ g. g ≡ record { nodes = nodes.now; links = links.now }) }
{
    match Graph::large(alloc, nodes, links) {
        Ok(graph) => Ok(graph),
        Err(fault) => match fault {
            GraphFault::OutOfMemory => Err(OutOfMemory),
            _ => unreachable!(),
        },
    }
}
