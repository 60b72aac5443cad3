ghost use Rattle.std.specs.Prelude.{◌≡◌, IfOk, OnOk, OnErr};
ghost use Rattle.ov_peer.specs.Planning.{Follows, IsPlanFor};

use crate::boxed_plan::BoxedPlan;
use ov_ids::OutOfMemory;
use ov_peer::Peer;
use std::alloc::Global;
use std::marker::Model;

/// A live node's state in a box, so that it stays in its place when what holds it is moved. Contracts see the state.
#[derive(Drop)]
pub struct LivePeer {
    peer: Box<Peer>,
}

impl Model for LivePeer {
    ghost use Rattle.ov_peer.specs.Code.Codes.{peer_code};
    ghost use Rattle.ov_peer.specs.PeerState.{PeerState};

    ghost Value = { PeerState };

    ghost coded = { peer_code };

    ghost view = { λ a. a.peer.value };
}

impl LivePeer {
    /// Puts a state into a box, or is out of memory (99).
    pub(crate) fn new(alloc: Global, peer: Peer) -> Result<LivePeer, OutOfMemory>
        ensures { IfOk result (λ p. p ≡ peer) }
    {
        Ok(LivePeer {
            peer: Box::new(alloc, peer)?,
        })
    }

    /// The state.
    pub(crate) fn state(&self) -> &Peer
        ensures { result.now ≡ self.now }
    {
        &self.peer
    }

    /// Has the node follow a plan, which is one for it. Out of memory, the node is as it was.
    #[inline(always)]
    pub(crate) fn follow(&mut self, plan: BoxedPlan) -> Result<(), OutOfMemory>
        requires { IsPlanFor self.old plan }
        ensures ok { OnOk result (Follows self.old plan self.new) }
        ensures err { OnErr result (self.new ≡ self.old) }
    {
        let mut plan = plan.into_box();
        self.peer.follow(&mut plan)
    }
}
