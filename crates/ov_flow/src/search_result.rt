//! The result of a search for one more path.
ghost use Rattle.std.specs.Prelude.{length};
ghost use Rattle.ov_flow.specs.Code.Held.{IsReady, IsWorkOf, IsAtEnd};
ghost use Rattle.ov_flow.specs.Flow.{IsFullBy};

use crate::augmenting_paths::Work;
use ov_graph::bit_rows::without;
use ov_split::SplitNet;

/// Why there is no further path: the places of the nearest minimum cut, and of its side, the nodes that are reached
/// without it (Menger, Fund. Math. 10, 1927).
#[derive(Clone, Copy)]
pub struct CutRows<const W: usize> {
    pub cut: [u64; W],
    pub side: [u64; W],
}

/// One more path is held, or there is none.
#[derive(Clone, Copy)]
pub enum Augmentation<const W: usize> {
    Grew,
    Stuck(CutRows<W>),
}

/// The nearest minimum cut and its side, after a search that found no path.
pub(crate) fn stuck_at<const W: usize>(net: &SplitNet<'_, W>, work: &Work<W>) -> CutRows<W>
    requires ready { IsReady W net.now }
    requires work { IsWorkOf net.now work.now }
    requires end { IsAtEnd net.now work.now }
    ensures { IsFullBy net.now (length work.now.ends.items) result }
{
    let words = net.words();
    let tree = &work.tree;
    let next = without(&tree.seen, &tree.reached, words);
    CutRows {
        cut: without(&next, net.avoided(), words),
        side: tree.reached,
    }
}
