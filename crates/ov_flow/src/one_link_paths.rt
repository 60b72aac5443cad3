//! Paths of one link.
ghost use Rattle.std.specs.Prelude.{◌≡◌, ◌↔◌, ◌≤◌, ◌<◌, ℕ, [], length};
ghost use Rattle.ov_graph.specs.Row.{HasBit};
ghost use Rattle.ov_split.specs.Places.{net_by_place};
ghost use Rattle.ov_flow.specs.Code.Held.{IsReady, IsWorkOf, IsOneLinkEach, IsFarTarget};

use crate::augmenting_paths::Work;
use ov_graph::bit_rows::{clear, without};
use ov_split::SplitNet;

/// Takes paths of one link from the source to targets, at most `level` of them. No path is held before. If fewer than
/// `level` are held then, the result is the targets that are neither avoided nor linked to the source.
pub(crate) fn take_direct<const W: usize>(
    net: &SplitNet<'_, W>,
    level: usize,
    work: &mut Work<W>,
) -> [u64; W]
    requires ready { IsReady W net.now }
    requires work { IsWorkOf net.now work.old }
    requires empty { work.old.ends.items ≡ [] }
    ensures work { IsWorkOf net.now work.new }
    ensures few { length work.new.ends.items ≤ level }
    ensures one { IsOneLinkEach net.now work.new }
    ensures far { length work.new.ends.items < level → (t : ℕ) → HasBit result t ↔ IsFarTarget (net_by_place net.now) t }
{
    let source = net.source();
    let mut far = without(net.targets(), net.avoided(), net.words());
    let mut after = 0;
    while let Some(w) = net.next_within(source, &far, after) {
        if work.ends.len() >= level {
            return far;
        }
        work.ends.push_reserved(w as u16);
        work.from.set(w, source as u16);
        clear(&mut far, w);
        after = w + 1;
    }
    far
}
