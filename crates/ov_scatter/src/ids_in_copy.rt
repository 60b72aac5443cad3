//! The ids of a copy: a key for each place of the original graph. Places count its nodes from 0, in the order of ids.
ghost use Rattle.std.specs.Prelude.{◌≡◌, ◌↔◌, ◌≤◌, ◌<◌, ℕ, length, slice_index, IfOk, IfSome, IfNone};
ghost use Rattle.ov_ids.specs.Members.{Has, Ascends};
ghost use Rattle.ov_graph.specs.Links.{most_of_any_graph};
ghost use Rattle.ov_scatter.specs.Code.Keys.{IsOrder, AreKeysOf};

use ov_graph::Graph;
use ov_ids::{NodeId, OutOfMemory};
use std::alloc::Global;

/// As many keys as a graph may have nodes: 32,768.
const KEYS: usize = Graph::MOST_OF_ANY;

/// By how much the key goes on with each rank, modulo `KEYS`: about 0.618 of the way round.
const STEP: usize = 20251;

/// The number by which `STEP` is multiplied to give 1 modulo `KEYS`.
const INVERSE: usize = 29459;

/// The places in the order of the numbers that a guide gives them, and of themselves where these are the same. Each
/// entry is the number of a place, and the place. OutOfMemory (99) if an allocation is refused.
pub(crate) fn places_in_order(alloc: Global, guide: &[u32]) -> Result<Vec<(u32, u32)>, OutOfMemory>
    requires { length guide.now ≤ most_of_any_graph }
    ensures { IfOk result (λ order. IsOrder (length guide.now) order.items) }
{
    let mut order = numbered_places(alloc, guide)?;
    order.sort_unstable();
    Ok(order)
}

/// The places, each with its number.
fn numbered_places(alloc: Global, guide: &[u32]) -> Result<Vec<(u32, u32)>, OutOfMemory>
    requires { length guide.now ≤ most_of_any_graph }
    ensures { IfOk result (λ order. IsOrder (length guide.now) order.items) }
{
    let mut order = Vec::with_capacity(alloc, guide.len())?;
    for place in 0..guide.len() {
        order.push((guide[place], place as u32))?;
    }
    Ok(order)
}

/// For each place its key. The place of rank r, counted from 0 in this order, has the key 20,251 r modulo 32,768.
/// OutOfMemory (99) if an allocation is refused.
pub(crate) fn keys_by_place(alloc: Global, order: &[(u32, u32)]) -> Result<Vec<NodeId>, OutOfMemory>
    requires order { IsOrder (length order.now) order.now }
    requires few { length order.now ≤ most_of_any_graph }
    ensures { IfOk result (λ keys. AreKeysOf order.now keys.items) }
{
    let mut keys = Vec::from_elem(alloc, NodeId::new(0), order.len())?;
    for rank in 0..order.len() {
        let place = order[rank].1 as usize;
        keys[place] = NodeId::new((rank * STEP % KEYS) as u32);
    }
    Ok(keys)
}

/// The place that has this key, if there is one.
pub(crate) fn place_of_key(order: &[(u32, u32)], keys: &[NodeId], key: usize) -> Option<usize>
    requires order { IsOrder (length order.now) order.now }
    requires few { length order.now ≤ most_of_any_graph }
    requires keys { AreKeysOf order.now keys.now }
    requires key { key < most_of_any_graph }
    ensures some { IfSome result (λ p. (p < length keys.now) × (slice_index keys.now p ≡ key)) }
    ensures none { IfNone result (¬ Has keys.now key) }
{
    let rank = key * INVERSE % KEYS;
    if rank >= order.len() {
        return None;
    }
    let place = order[rank].1 as usize;
    if keys[place] != NodeId::new(key as u32) {
        return None;
    }
    Some(place)
}

/// Puts ids in ascending order, each once.
pub(crate) fn put_in_order(ids: &mut Vec<NodeId>)
    ensures ascend { Ascends ids.new.items }
    ensures each { (i : ℕ) → Has ids.new.items i ↔ Has ids.old.items i }
{
    ids.sort_unstable();
    ids.dedup();
}
