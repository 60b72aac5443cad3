//! Paths of two links.
ghost use Rattle.std.specs.Prelude.{◌≡◌, ◌↔◌, ℕ, ◌+◌, ◌<◌, ◌≤◌, ◌⊎◌, length, Some, IfSome};
ghost use Rattle.ov_ids.specs.Members.{Has};
ghost use Rattle.ov_graph.specs.Neighbours.{IsFirst};
ghost use Rattle.ov_graph.specs.Row.{HasBit};
ghost use Rattle.ov_split.specs.Placed.{LinksWithin};
ghost use Rattle.ov_split.specs.Places.{net_by_place};
ghost use Rattle.ov_flow.specs.Code.Walked.{table_of};
ghost use Rattle.ov_flow.specs.Code.Held.{IsReady, IsWorkOf, IsOneLinkEach, MayGoOver, IsFarTarget};

use crate::augmenting_paths::Work;
use ov_graph::bit_rows::{clear, has};
use ov_split::SplitNet;

/// Takes paths of two links from the source to targets, until `level` paths are held or no neighbour of the source is
/// left. Each path goes over a neighbour that is no target, to the first target in `free` that this one is linked to.
/// Only paths of one link are held before, and `free` has the targets that are neither avoided nor linked to the source.
pub(crate) fn take_two_links<const W: usize>(
    net: &SplitNet<'_, W>,
    level: usize,
    free: &mut [u64; W],
    work: &mut Work<W>,
)
    requires ready { IsReady W net.now }
    requires work { IsWorkOf net.now work.old }
    requires few { length work.old.ends.items ≤ level }
    requires one { IsOneLinkEach net.now work.old }
    requires far { (t : ℕ) → HasBit free.old t ↔ IsFarTarget (net_by_place net.now) t }
    ensures work { IsWorkOf net.now work.new }
    ensures few { length work.new.ends.items ≤ level }
{
    let source = net.source();
    let mut after = 0;
    while let Some(u) = net.next_outside(source, net.targets(), after) {
        if work.ends.len() >= level {
            return;
        }
        if let Some(t) = target_over(net, u, free) {
            take_over(net, u, t, work);
            clear(free, t);
        }
        after = u + 1;
    }
}

/// The first of these targets to which a path may go over `u`.
fn target_over<const W: usize>(net: &SplitNet<'_, W>, u: usize, free: &[u64; W]) -> Option<usize>
    requires ready { IsReady W net.now }
    requires u { u < length net.now.graph.nodes }
    ensures off { IfSome result (λ _. ¬ Has (net_by_place net.now).avoided u) }
    ensures first { IfSome result (IsFirst (LinksWithin (net_by_place net.now) u free.now) 0) }
{
    if has(net.avoided(), u) {
        return None;
    }
    net.next_within(u, free, 0)
}

/// Takes the path from the source over `u` to the target `t`.
fn take_over<const W: usize>(net: &SplitNet<'_, W>, u: usize, t: usize, work: &mut Work<W>)
    requires ready { IsReady W net.now }
    requires work { IsWorkOf net.now work.old }
    requires over { MayGoOver (net_by_place net.now) (table_of work.old.from) u t }
    ensures work { IsWorkOf net.now work.new }
    ensures one { length work.new.ends.items ≡ length work.old.ends.items + 1 }
    ensures used { (v a : ℕ) → table_of work.new.from v ≡ Some a
        → (v ≡ u) ⊎ ((v ≡ t) ⊎ (table_of work.old.from v ≡ Some a)) }
{
    work.ends.push_reserved(t as u16);
    work.from.set(u, net.source() as u16);
    work.from.set(t, u as u16);
}
