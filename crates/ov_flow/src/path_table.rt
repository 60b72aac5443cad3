//! After a walk is taken, the table is reduced to the paths to the ends.
ghost use Rattle.std.specs.Prelude.{◌≡◌, ◌≢◌, ℕ, length};
ghost use Rattle.ov_ids.specs.Members.{Has};
ghost use Rattle.ov_split.specs.Code.Residual.{AreHeld, IsFlow};
ghost use Rattle.ov_split.specs.Places.{net_by_place};
ghost use Rattle.ov_flow.specs.Code.Walked.{table_of, IsWalkBy, IsPathCopied, IsFlowBefore};
ghost use Rattle.ov_flow.specs.Code.Held.{IsReady};

use crate::place_table::PlaceTable;
use crate::walk_augmentation::{Hop, take_hops};
use ov_split::SplitNet;

/// Copies the path to `end` from one table to the other.
fn copy_path<const W: usize>(
    net: &SplitNet<'_, W>,
    from: &PlaceTable,
    next: &mut PlaceTable,
    ends: &[u16],
    end: u16,
)
    requires ready { IsReady W net.now }
    requires from { length from.now ≡ length net.now.graph.nodes }
    requires next { length next.old ≡ length net.now.graph.nodes }
    requires held { AreHeld (net_by_place net.now) (table_of from.now) ends.now }
    requires end { Has ends.now end }
    requires apart { end ≢ (net_by_place net.now).source }
    ensures copied { IsPathCopied (net_by_place net.now) (table_of from.now) (table_of next.old) (table_of next.new)
        end }
    ensures long { length next.new ≡ length next.old }
{
    let mut at = end as usize;
    for step in 0..from.len() {
        match from.get(at) {
            Some(before) => {
                next.set(at, before);
                at = before as usize;
            }
            None => return,
        }
    }
}

/// Copies the paths to the ends, and nothing else.
fn retrace<const W: usize>(
    net: &SplitNet<'_, W>,
    from: &PlaceTable,
    next: &mut PlaceTable,
    ends: &[u16],
)
    requires ready { IsReady W net.now }
    requires from { length from.now ≡ length net.now.graph.nodes }
    requires next { length next.old ≡ length net.now.graph.nodes }
    requires held { AreHeld (net_by_place net.now) (table_of from.now) ends.now }
    requires targets { (e : ℕ) → Has ends.now e → Has (net_by_place net.now).targets e }
    ensures flow { IsFlow (net_by_place net.now) (table_of next.new) ends.now }
    ensures long { length next.new ≡ length next.old }
{
    next.clear();
    for end in ends.iter() {
        copy_path(net, from, next, ends, *end);
    }
}

/// Reduces the table to the paths to the ends. `next` is a buffer for it.
pub(crate) fn keep_paths<const W: usize>(
    net: &SplitNet<'_, W>,
    from: &mut PlaceTable,
    next: &mut PlaceTable,
    ends: &[u16],
)
    requires ready { IsReady W net.now }
    requires from { length from.old ≡ length net.now.graph.nodes }
    requires next { length next.old ≡ length net.now.graph.nodes }
    requires held { AreHeld (net_by_place net.now) (table_of from.old) ends.now }
    requires targets { (e : ℕ) → Has ends.now e → Has (net_by_place net.now).targets e }
    ensures flow { IsFlow (net_by_place net.now) (table_of from.new) ends.now }
    ensures from { length from.new ≡ length from.old }
    ensures next { length next.new ≡ length next.old }
{
    retrace(net, from, next, ends);
    std::mem::swap(from, next);
}

/// Takes a walk to one more end. A walk that meets paths may leave cycles in the table. Then only the paths are kept.
pub(crate) fn replace_paths<const W: usize>(
    net: &SplitNet<'_, W>,
    from: &mut PlaceTable,
    next: &mut PlaceTable,
    ends: &[u16],
    hops: &[Hop],
    target: u16,
)
    requires ready { IsReady W net.now }
    requires from { length from.old ≡ length net.now.graph.nodes }
    requires next { length next.old ≡ length net.now.graph.nodes }
    requires walk { IsWalkBy (net_by_place net.now) (table_of from.old) hops.now target }
    requires target { Has (net_by_place net.now).targets target }
    requires flow { IsFlowBefore (net_by_place net.now) (table_of from.old) ends.now target }
    ensures flow { IsFlow (net_by_place net.now) (table_of from.new) ends.now }
    ensures from { length from.new ≡ length from.old }
    ensures next { length next.new ≡ length next.old }
{
    if take_hops(net, from, hops, target) {
        return;
    }
    keep_paths(net, from, next, ends);
}
