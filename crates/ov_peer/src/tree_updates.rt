ghost use Rattle.std.specs.Prelude.{◌≡◌, ◌≤◌, ◌+◌, [], length, IfOk};
ghost use Rattle.ov_views.specs.Allowed.{HyParViewState, Allowed, boots};
ghost use Rattle.ov_plum.specs.PlumState.{most_neighbours};
ghost use Rattle.ov_peer.specs.Code.Messages.{AreSendable};
ghost use Rattle.ov_peer.specs.Step.{Told};

use ov_ids::{NodeId, OutOfMemory};
use ov_plum::Plum;
use ov_views::ViewChange;
use ov_wire::{Body, Message};
use std::alloc::Global;

/// Changes the tree by these changes of the active view, one after another.
#[tactic(auto, using(crate::proofs::Changing::begun, crate::proofs::Changing::told_all))]
pub(crate) fn tell(plum: &mut Plum, changes: &[ViewChange])
    requires { length plum.old.branches.eager + length plum.old.branches.lazy + length changes.now ≤ most_neighbours }
    ensures { Told plum.old changes.now plum.new }
{
    let mut left = changes;
    while let Some((change, later)) = left.split_first() {
        match *change {
            ViewChange::Up(id) => plum.up(id),
            ViewChange::Down(id) => plum.down(id),
        }
        left = later;
    }
}

/// What a node sends when it starts: JOIN to its contact, if there is one.
pub(crate) fn joins(
    alloc: Global,
    me: NodeId,
    contact: Option<NodeId>,
) -> Result<Vec<(NodeId, Message)>, OutOfMemory>
    ensures allowed { IfOk result (λ v. (n : HyParViewState) → n.views.me ≡ me
        → Allowed n (boots contact) [] n [] v.items) }
    ensures sendable { IfOk result (λ v. AreSendable v.items) }
{
    let mut sends = Vec::new(alloc);
    if let Some(contact) = contact {
        let message = Message {
            from: me,
            body: Body::Join,
        };
        sends.push((contact, message))?;
    }
    Ok(sends)
}
