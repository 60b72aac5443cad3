ghost use Rattle.std.specs.Prelude.{◌≡◌, OnOk, OnErr};
ghost use Rattle.ov_peer.specs.Planning.{IsPlanFor};
ghost use Rattle.ov_peer.specs.PeerState.{PeerState};
ghost use Rattle.ov_net.specs.Code.Effects.{MemberFollows};
ghost use Rattle.ov_net.specs.declared.member.Member.TheVariants.{Live};

use crate::boxed_live_peer::LivePeer;
use crate::boxed_plan::BoxedPlan;
use ov_ids::OutOfMemory;

/// A node that was born.
#[derive(Drop)]
pub enum Member {
    /// It is alive, and this is its state.
    Live(LivePeer),
    /// It crashed.
    Gone,
}

impl Member {
    /// Has the node, which is alive, follow a plan, which is one for it. Out of memory, the node is as it was.
    #[inline(always)]
    pub(crate) fn follow(&mut self, plan: BoxedPlan) -> Result<(), OutOfMemory>
        requires { (p : PeerState) × (self.old ≡ Live p) × IsPlanFor p plan }
        ensures ok { OnOk result (MemberFollows self.old plan self.new) }
        ensures err { OnErr result (self.new ≡ self.old) }
    {
        match self {
            Member::Live(peer) => peer.follow(plan),
            Member::Gone => unreachable!(),
        }
    }
}
