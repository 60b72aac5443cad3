ghost use Rattle.std.specs.Prelude.{◌≡◌, ◌≤◌, ◌<◌, ℕ, [], length, map, get_or, IfNone, IfOk, IfSome};
ghost use Rattle.ov_ids.specs.Members.{Has, Ordered};
ghost use Rattle.ov_graph.specs.Links.{most_of_any_graph};
ghost use Rattle.ov_dump.specs.Dumps.{AreNumbered, IsNameOf, numbers};
ghost use Rattle.ov_dump.specs.Names.{ComesBefore};
ghost use Rattle.ov_dump.specs.Code.Numbering.{AreByKey, AreByName, AreNodesAt, IsNumbering, place_of_key};

use crate::name::Name;
use ov_graph::Graph;
use ov_ids::{NodeId, OutOfMemory};
use std::alloc::Global;
use std::collections::HashMap;

/// As many keys as there may be places: 32,768.
const KEYS: usize = Graph::MOST_OF_ANY;

/// The number by which 20,251, the step of the keys, is multiplied to give 1 modulo `KEYS`.
const INVERSE: usize = 29459;

/// The names of nodes, and the node of each.
#[derive(Drop)]
pub(crate) struct Numbering {
    /// The names in the order of the nodes 1, 2 and so on.
    pub(crate) names: Vec<Name>,
    nodes: HashMap<Name, NodeId>,
}

/// Numbers the names, which ascend: nodes 1, 2 and so on have them in the order of the keys of their places.
pub(crate) fn numbered(alloc: Global, sorted: &[Name]) -> Result<Numbering, OutOfMemory>
    requires ascend { Ordered ComesBefore sorted.now }
    requires few { length sorted.now ≤ most_of_any_graph }
    ensures numbered { IfOk result (λ n. AreNumbered sorted.now n.names.items) }
    ensures few { IfOk result (λ n. length n.names.items ≤ length sorted.now) }
    ensures known { IfOk result IsNumbering }
{
    let order = places_by_key(alloc, sorted.len())?;
    let ids = nodes_at(alloc, sorted.len(), &order)?;
    let names = names_in_order(alloc, sorted, &order)?;
    let nodes = nodes_by_name(alloc, sorted, &ids)?;
    Ok(Numbering { names, nodes })
}

/// The places of this many names, in ascending order of their keys.
fn places_by_key(alloc: Global, count: usize) -> Result<Vec<usize>, OutOfMemory>
    requires few { count ≤ most_of_any_graph }
    ensures { IfOk result (λ places. AreByKey count most_of_any_graph places.items) }
{
    let mut places = Vec::new(alloc);
    for key in 0..KEYS {
        let place = place_of_key(count, key);
        if place >= count {
            continue;
        }
        places.push(place)?;
    }
    Ok(places)
}

/// The place, of this many names, that has this key. It need not be one of a name.
fn place_of_key(count: usize, key: usize) -> usize
    requires key { key < most_of_any_graph }
    ensures { result ≡ place_of_key count key }
{
    if count <= Graph::MOST_NODES {
        return key;
    }
    key * INVERSE % KEYS
}

/// The node at each of this many places, where node 1 is at the first place of `order`, node 2 at the second, and so
/// on.
fn nodes_at(alloc: Global, count: usize, order: &[usize]) -> Result<Vec<NodeId>, OutOfMemory>
    requires few { count ≤ most_of_any_graph }
    requires order { AreByKey count most_of_any_graph order.now }
    ensures { IfOk result (λ nodes. AreNodesAt count order.now nodes.items) }
{
    let mut nodes = Vec::from_elem(alloc, NodeId::new(0), count)?;
    for (at, place) in order.iter().enumerate() {
        nodes[*place] = NodeId::new(at as u32 + 1);
    }
    Ok(nodes)
}

/// The names at these places.
fn names_in_order(alloc: Global, sorted: &[Name], order: &[usize]) -> Result<Vec<Name>, OutOfMemory>
    requires few { length sorted.now ≤ most_of_any_graph }
    requires places { (p : ℕ) → Has order.now p → p < length sorted.now }
    ensures { IfOk result (λ names. names.items ≡ map (λ p. get_or sorted.now p []) order.now) }
{
    let mut names = Vec::new(alloc);
    for place in order {
        names.push(sorted[*place].copy(alloc)?)?;
    }
    Ok(names)
}

/// The nodes of these names, by name.
fn nodes_by_name(
    alloc: Global,
    sorted: &[Name],
    ids: &[NodeId],
) -> Result<HashMap<Name, NodeId>, OutOfMemory>
    requires each { length ids.now ≡ length sorted.now }
    ensures { IfOk result (AreByName sorted.now ids.now (length sorted.now)) }
{
    let mut nodes = HashMap::new(alloc);
    for (place, name) in sorted.iter().enumerate() {
        nodes.insert(name.copy(alloc)?, ids[place])?;
    }
    Ok(nodes)
}

/// The node that has this name, if one has.
pub(crate) fn node_of(numbering: &Numbering, name: &Name) -> Option<NodeId>
    requires numbering { IsNumbering numbering.now }
    ensures some { IfSome result (λ i. IsNameOf numbering.now.names.items i name.now) }
    ensures none { IfNone result (¬ Has numbering.now.names.items name.now) }
{
    numbering.nodes.get(name).copied()
}

/// The nodes 1, 2 and so on.
pub(crate) fn node_ids(alloc: Global, count: usize) -> Result<Vec<NodeId>, OutOfMemory>
    requires few { count ≤ most_of_any_graph }
    ensures { IfOk result (λ ids. ids.items ≡ numbers count) }
{
    let mut ids = Vec::new(alloc);
    for place in 0..count {
        ids.push(NodeId::new(place as u32 + 1))?;
    }
    Ok(ids)
}
