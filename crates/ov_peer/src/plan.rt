ghost use Rattle.std.specs.Prelude.{◌≡◌, [], None};
ghost use Rattle.ov_views.specs.Allowed.{HyParViewState};
ghost use Rattle.ov_peer.specs.Code.MovesPlan.{IsPlanOfMoves};
ghost use Rattle.ov_peer.specs.Planning.{hyparview_after};
ghost use Rattle.ov_peer.specs.Step.{delivery_at};
ghost use Rattle.ov_peer.specs.declared.plan.HyParViewChange.TheVariants.{Nothing};

use crate::input_and_output::Delivery;
use ov_ids::{MsgId, NodeId, Seq};
use ov_neighbor::Attempt;
use ov_plum::{PlumChange, PlumPlan, Spread};
use ov_shuffle::Sent;
use ov_views::{Moves, ViewChange, Views};
use ov_wire::Message;
use std::alloc::Global;
use std::mem;

/// The views and the attempt that a node is to have next.
#[derive(Drop)]
pub struct NextViews {
    pub views: Views,
    pub attempt: Attempt,
}

/// How a plan changes a node's views, its attempt and the list of its last shuffle. The next views lie in a box, so
/// that a plan is small and cheap to move.
#[derive(Drop)]
pub enum HyParViewChange {
    /// They all stay.
    Nothing,
    /// The views and the attempt become these.
    ViewsAndAttempt(Box<NextViews>),
    /// The list of the last shuffle becomes this one.
    Shuffle(Sent),
}

/// The plan of one step: the messages to send and their receivers, the changes of the active view, both in order, what
/// to deliver, and how the two parts of the node change. `Peer::plan` makes it; `Peer::apply` and `Peer::follow` follow
/// it.
#[derive(Drop)]
pub struct Plan {
    pub sends: Vec<(NodeId, Message)>,
    pub changes: Vec<ViewChange>,
    pub delivered: Option<Delivery>,
    pub views_change: HyParViewChange,
    pub plum_change: PlumChange,
}

impl Plan {
    /// The plan of a step of HyParView's part alone.
    #[inline(always)]
    pub(crate) fn of_moves(moves: Moves, views_change: HyParViewChange) -> Plan
        ensures { (n : HyParViewState) → IsPlanOfMoves moves n (hyparview_after n views_change) result }
    {
        Plan {
            sends: moves.sends,
            changes: moves.changes,
            delivered: None,
            views_change,
            plum_change: PlumChange::Nothing,
        }
    }

    /// The plan of a step of Plumtree's part alone, at the node `me`.
    #[inline(always)]
    pub(crate) fn of_tree(alloc: Global, me: NodeId, planned: PlumPlan) -> Plan
        ensures sends { result.sends ≡ planned.spread.sends }
        ensures changes { result.changes.items ≡ [] }
        ensures delivered { result.delivered ≡ delivery_at me planned.spread.delivered }
        ensures views_change { result.views_change ≡ Nothing }
        ensures plum_change { result.plum_change ≡ planned.plum_change }
    {
        let PlumPlan {
            spread,
            plum_change,
        } = planned;
        let Spread { sends, delivered } = spread;
        Plan {
            sends,
            changes: Vec::new(alloc),
            delivered: delivery_at(me, delivered),
            views_change: HyParViewChange::Nothing,
            plum_change,
        }
    }
}

/// What the node `me` delivers, with its id.
#[inline(always)]
fn delivery_at(me: NodeId, delivered: Option<(MsgId, Seq<u8>)>) -> Option<Delivery>
    ensures { result ≡ delivery_at me delivered }
{
    match delivered {
        Some((id, payload)) => Some(Delivery {
            node: me,
            id,
            payload,
        }),
        None => None,
    }
}

/// Changes a node's views, its attempt and the list of its last shuffle as a plan says.
#[inline(always)]
pub(crate) fn follow(
    views: &mut Views,
    attempt: &mut Attempt,
    sent: &mut Sent,
    views_change: HyParViewChange,
)
    ensures { record { views = views.new; attempt = attempt.new; sent = sent.new }
        ≡ hyparview_after (record { views = views.old; attempt = attempt.old; sent = sent.old }) views_change }
{
    match views_change {
        HyParViewChange::Nothing => {}
        HyParViewChange::ViewsAndAttempt(next) => take_over(views, attempt, next),
        HyParViewChange::Shuffle(list) => *sent = list,
    }
}

/// Puts the next views and the next attempt in the place of a node's own. Of the views only the members are copied, and
/// the node's attempt before goes with the box.
fn take_over(views: &mut Views, attempt: &mut Attempt, mut next: Box<NextViews>)
    ensures views { views.new ≡ next.value.views }
    ensures attempt { attempt.new ≡ next.value.attempt }
{
    let next = &mut *next;
    views.copy_from(&next.views);
    mem::swap(attempt, &mut next.attempt);
}
