ghost use Rattle.std.specs.Prelude.{◌≡◌, ℕ, ◌<◌, List, map, length, IfOk, MatchOption};
ghost use Rattle.ov_graph.specs.Paths.{node_at};
ghost use Rattle.ov_split.specs.SplitNetState.{IsFanOf};
ghost use Rattle.ov_flow.specs.Flow.{FlowState, IsFullBy, IsAugmentation, ArePlaces};

use crate::augmenting_paths::{Work, augment, settle, work_in};
use crate::flat_paths::{PlacePaths, write_paths};
use crate::flow_room::FlowRoom;
use crate::search_result::{Augmentation, CutRows, stuck_at};
use ov_ids::OutOfMemory;
use ov_split::SplitNet;
use std::alloc::Global;
use std::marker::Model;

/// Paths of a net that share only the source. Each augmentation searches for one more (Even, SIAM J. Comput. 4, 1975).
/// Contracts see the net, and how many paths are held.
#[derive(Drop)]
pub struct Flow<'g, const W: usize> {
    net: SplitNet<'g, W>,
    work: Work<W>,
    alloc: Global,
}

impl<'g, const W: usize> Model for Flow<'g, W> {
    ghost use Rattle.std.specs.Prelude.{length};
    ghost use Rattle.ov_split.specs.SplitNetState.{IsSplitNet};
    ghost use Rattle.ov_flow.specs.Flow.{FlowState};
    ghost use Rattle.ov_flow.specs.Code.Held.{IsReady, IsWorkOf};

    ghost Value = { FlowState };

    ghost view = { λ f. record { net = f.net; held = length f.work.ends.items } };

    ghost invariant = { λ f. IsSplitNet f.net × IsReady W f.net × IsWorkOf f.net f.work };
}

impl<'g, const W: usize> Flow<'g, W> {
    /// Allocates the buffers for searches of this net, and of others of its graph. No path is held. OutOfMemory (99)
    /// if an allocation is refused.
    pub fn new(alloc: Global, net: SplitNet<'g, W>) -> Result<Flow<'g, W>, OutOfMemory>
        ensures { IfOk result (λ f. f ≡ record { net = net.entry; held = 0 }) }
    {
        let room = FlowRoom::new(alloc, net.places())?;
        Ok(Flow::in_room(net, room))
    }

    /// Makes the buffers for searches of this net, and of others of its graph, in room that is there. No path is held.
    #[inline(never)]
    pub fn in_room(net: SplitNet<'g, W>, room: FlowRoom<W>) -> Flow<'g, W>
        requires { room ≡ length net.graph.nodes }
        ensures { result ≡ record { net = net.entry; held = 0 } }
    {
        prove!(net.places() == room.work.from.len());
        Flow {
            net,
            alloc: room.alloc,
            work: work_in(room.work),
        }
    }

    /// How many paths are held.
    pub fn held(&self) -> usize
        ensures { result ≡ self.now.held }
    {
        self.work.ends.len()
    }

    /// Searches for one more path. If there is none, the result is the nearest minimum cut, whose size is the number of
    /// paths that are held (Menger, Fund. Math. 10, 1927). Nothing is allocated.
    pub fn augment(&mut self) -> Augmentation<W>
        ensures augmentation { IsAugmentation self.old self.new result }
        ensures fans { (paths : List (List ℕ)) × IsFanOf self.new.net self.new.held paths }
    {
        if augment(&self.net, &mut self.work) {
            return Augmentation::Grew;
        }
        Augmentation::Stuck(stuck_at(&self.net, &self.work))
    }

    /// Starts again with another net of the same graph, and searches for `level` paths: first those of one link and of
    /// two, then many by each search (Even and Tarjan, SIAM J. Comput. 4, 1975). The result is `None` if they are
    /// found. Otherwise fewer paths are held, no fan has more, and the result is the nearest minimum cut (Menger, Fund.
    /// Math. 10, 1927). Nothing is allocated.
    pub fn seek(&mut self, net: SplitNet<'g, W>, level: usize) -> Option<CutRows<W>>
        requires { net.graph ≡ self.old.net.graph }
        ensures net { self.new.net ≡ net.entry }
        ensures held { MatchOption result (self.new.held ≡ level)
            (λ s. (self.new.held < level) × IsFullBy self.new.net self.new.held s) }
        ensures fans { (paths : List (List ℕ)) × IsFanOf self.new.net self.new.held paths }
    {
        prove!(net.places() == self.work.from.len());
        self.net = net;
        if settle(&self.net, level, &mut self.work) {
            return None;
        }
        Some(stuck_at(&self.net, &self.work))
    }

    /// The paths that are held, which are a fan of the net. Each path is a list of places of nodes, counted from 0.
    /// OutOfMemory (99) if an allocation is refused.
    pub fn paths(&self) -> Result<PlacePaths, OutOfMemory>
        ensures fan { IfOk result (λ ps. IsFanOf self.now.net self.now.held
            (map (map (node_at self.now.net.graph)) ps)) }
        ensures places { IfOk result (λ ps. ArePlaces self.now.net.graph ps) }
    {
        Ok(write_paths(self.alloc, &self.net, &self.work.from, &self.work.ends)?)
    }
}
