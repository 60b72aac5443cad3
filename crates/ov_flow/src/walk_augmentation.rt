//! The walk to a target that a search found, and the change of the table by its steps.
ghost use Rattle.std.specs.Prelude.{◌≡◌, ℕ, ◌-◌, ◌<◌, List, ◌∷◌, length, slice_index, Some};
ghost use Rattle.std.specs.Prelude.{None, true, ◌≤◌, vec_capacity, IfSome};
ghost use Rattle.ov_split.specs.SplitNetState.{SplitNetState};
ghost use Rattle.ov_split.specs.Code.Residual.{Table, AreHeld, IsTidy};
ghost use Rattle.ov_split.specs.Places.{net_by_place};
ghost use Rattle.ov_flow.specs.Code.Reached.{IsShaped, IsGrown};
ghost use Rattle.ov_flow.specs.Code.Walked.{table_of, IsWalkBy};
ghost use Rattle.ov_flow.specs.Code.Held.{IsReady};

use crate::place_table::PlaceTable;
use crate::search_tree::Tree;
use ov_split::SplitNet;

/// A step of a walk to `node`: by a link to `way`, or back along a path if there is no `way`.
#[derive(Clone, Copy)]
pub(crate) struct Hop {
    pub node: u16,
    pub way: Option<u16>,
}

/// Writes the walk from the source to the last node that is reached.
pub(crate) fn walk_back<const W: usize>(tree: &Tree<W>, hops: &mut Vec<Hop>)
    requires shaped { IsShaped tree.now.order.items tree.now.parents.items tree.now.ways.items }
    requires room { length tree.now.order.items ≤ vec_capacity hops.old }
    ensures walk { (n : SplitNetState) (from : Table) → IsGrown n from tree.now
        → IsWalkBy n from hops.new.items (slice_index tree.now.order.items (length tree.now.order.items - 1)) }
    ensures room { vec_capacity hops.new ≡ vec_capacity hops.old }
{
    hops.clear();
    let mut at = tree.order.len() - 1;
    while at > 0 {
        let node = tree.order[at];
        let way = tree.ways[at];
        hops.push_reserved(Hop { node, way });
        at = tree.parents[at] as usize;
    }
    hops.reverse();
}

/// Whether a step is by a link to a place on no path.
fn is_fresh(from: &PlaceTable, way: Option<u16>) -> bool
    requires { IfSome way (λ w. w < length from.now) }
    ensures { result ≡ true → (w : ℕ) × (way ≡ Some w) × (table_of from.now w ≡ None) }
{
    match way {
        Some(w) => from.get(w as usize).is_none(),
        None => false,
    }
}

/// Takes the steps of a walk from the source. True: the walk met no path, so each place in the table is still on a path
/// to an end.
pub(crate) fn take_hops<const W: usize>(
    net: &SplitNet<'_, W>,
    from: &mut PlaceTable,
    hops: &[Hop],
    target: u16,
) -> bool
    requires ready { IsReady W net.now }
    requires long { length from.old ≡ length net.now.graph.nodes }
    requires walk { IsWalkBy (net_by_place net.now) (table_of from.old) hops.now target }
    ensures held { (ends : List ℕ)
        → AreHeld (net_by_place net.now) (table_of from.old) ((net_by_place net.now).source ∷ ends)
        → AreHeld (net_by_place net.now) (table_of from.new) (target ∷ ends) }
    ensures tidy { result ≡ true → (ends : List ℕ) → IsTidy (table_of from.old) ends
        → IsTidy (table_of from.new) (target ∷ ends) }
    ensures long { length from.new ≡ length from.old }
{
    let mut at = net.source() as u16;
    let mut apart = true;
    for hop in hops.iter() {
        if !is_fresh(from, hop.way) {
            apart = false;
        }
        match hop.way {
            Some(w) => from.set(w as usize, at),
            None => from.forget(at as usize),
        }
        at = hop.node;
    }
    apart
}
