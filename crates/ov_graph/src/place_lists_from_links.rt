ghost use Rattle.std.specs.Prelude.{◌≡◌, ℕ, ◌<◌, ◌≤◌, ◌++◌, ◌∷◌, [], length, slice_set, IfOk, OnOk};
ghost use Rattle.ov_graph.specs.Links.{IsGraph, most_of_any_graph};
ghost use Rattle.ov_graph.specs.Code.Listed.{listed_at, AreListed};

use crate::node_places_by_id::place_in;
use crate::place_list::PlaceList;
use ov_ids::{NodeId, OutOfMemory};
use std::alloc::Global;

/// For each node of a graph the places of its neighbours, ascending.
pub(crate) fn lists_of(
    alloc: Global,
    nodes: &[NodeId],
    links: &[(NodeId, NodeId)],
) -> Result<Vec<PlaceList>, OutOfMemory>
    requires graph { IsGraph (record { nodes = nodes.now; links = links.now }) }
    requires few { length nodes.now ≤ most_of_any_graph }
    ensures { IfOk result (λ lists. AreListed nodes.now links.now lists.items) }
{
    let mut lists = empty_lists(alloc, nodes.len())?;
    list_all_links(nodes, links, &mut lists)?;
    Ok(lists)
}

/// So many lists without places.
fn empty_lists(alloc: Global, count: usize) -> Result<Vec<PlaceList>, OutOfMemory>
    ensures count { IfOk result (λ lists. length lists.items ≡ count) }
    ensures empty { IfOk result (λ lists. (p : ℕ) → listed_at lists.items p ≡ []) }
{
    let mut lists = Vec::with_capacity(alloc, count)?;
    for _place in 0..count {
        lists.push(PlaceList::new(alloc))?;
    }
    Ok(lists)
}

/// Puts the places of the ends of each link into the lists of each other. As the links ascend, the places in each list
/// do.
fn list_all_links(
    nodes: &[NodeId],
    links: &[(NodeId, NodeId)],
    lists: &mut [PlaceList],
) -> Result<(), OutOfMemory>
    requires graph { IsGraph (record { nodes = nodes.now; links = links.now }) }
    requires few { length nodes.now ≤ most_of_any_graph }
    requires none { AreListed nodes.now [] lists.old }
    ensures listed { OnOk result (AreListed nodes.now links.now lists.new) }
{
    for link in links {
        let p = place_in(nodes, link.0);
        let q = place_in(nodes, link.1);
        add(lists, p, q)?;
        add(lists, q, p)?;
    }
    Ok(())
}

/// Adds place `q` at the end of the list at `p`.
fn add(lists: &mut [PlaceList], p: usize, q: usize) -> Result<(), OutOfMemory>
    requires list { p < length lists.old }
    requires place { q < most_of_any_graph }
    ensures { OnOk result (lists.new ≡ slice_set lists.old p (listed_at lists.old p ++ q ∷ [])) }
{
    let list = &mut lists[p];
    list.push(q)
}
