ghost use Rattle.std.specs.Prelude.{◌≡◌, ◌≤◌, ◌+◌, length, vec_len, IfOk, IfSome, IfNone, OnErr};
ghost use Rattle.ov_wire.specs.Messages.{AreInRange, AreSendsInRange};
ghost use Rattle.ov_words.specs.Pick.{Drawn};
ghost use Rattle.ov_views.specs.Allowed.{Allowed, hears, hears_of_crash};
ghost use Rattle.ov_views.specs.Handling.{AttemptStep, ViewsStep};
ghost use Rattle.ov_peer.specs.Code.Messages.{AreSendable};
ghost use Rattle.ov_peer.specs.Code.GoodPlan.{most_words};

use crate::plan::NextViews;
use ov_ids::{NodeId, OutOfMemory};
use ov_neighbor::Attempt;
use ov_shuffle::Sent;
use ov_views::{Moves, Views};
use ov_wire::Body;
use ov_words::Draws;
use std::alloc::Global;

/// Hands a message to the handler of its kind in HyParView's part. A message of Plumtree does nothing here.
#[inline(always)]
pub(crate) fn hear(
    alloc: Global,
    views: &mut Views,
    attempt: &mut Attempt,
    sent: &Sent,
    draws: &mut Draws<'_>,
    from: NodeId,
    body: &Body,
) -> Result<Moves, OutOfMemory>
    requires words { most_words ≤ length draws.old }
    requires range { AreInRange (record { from = from; body = body.now }) }
    ensures allowed { IfOk result (λ m. Drawn draws.old draws.new (λ choices. Allowed
        (record { views = views.old; attempt = attempt.old; sent = sent.now }) (hears from body.now) choices
        (record { views = views.new; attempt = attempt.new; sent = sent.now }) m.changes.items m.sends.items)) }
    ensures words { length draws.old ≤ length draws.new + most_words }
    ensures sendable { IfOk result (λ m. AreSendable m.sends.items) }
    ensures err { OnErr result ((views.new ≡ views.old) × (attempt.new ≡ attempt.old) × (draws.new ≡ draws.old)) }
{
    match body {
        Body::Join => ov_join::on_join(alloc, views, draws, from),
        Body::ForwardJoin { node, ttl } => {
            ov_join::on_forward_join(alloc, views, draws, from, *node, *ttl)
        }
        Body::Joined => ov_join::on_joined(alloc, views, draws, from),
        Body::Neighbor { high } => ov_neighbor::on_neighbor(alloc, views, draws, from, *high),
        Body::NeighborReply { accepted } => {
            ov_neighbor::on_reply(alloc, views, attempt, draws, from, *accepted)
        }
        Body::Disconnect => ov_neighbor::on_disconnect(alloc, views, attempt, draws, from),
        Body::Shuffle { origin, ttl, ids } => {
            ov_shuffle::on_shuffle(alloc, views, draws, from, *origin, *ttl, ids.as_slice())
        }
        Body::ShuffleReply { ids } => {
            ov_shuffle::on_reply(alloc, views, sent, draws, from, ids.as_slice())
        }
        Body::Gossip { .. } | Body::IHave { .. } | Body::Graft { .. } | Body::Prune => {
            Moves::with_room(alloc, 0)
        }
    }
}

/// Hands a message to the handler of its kind, as `hear` does, where the views and the attempt lie together.
pub(crate) fn hear_next(
    alloc: Global,
    next: &mut NextViews,
    sent: &Sent,
    draws: &mut Draws<'_>,
    from: NodeId,
    body: &Body,
) -> Result<Moves, OutOfMemory>
    requires words { most_words ≤ length draws.old }
    requires range { AreInRange (record { from = from; body = body.now }) }
    ensures allowed { IfOk result (λ m. Drawn draws.old draws.new (λ choices. Allowed
        (record { views = next.old.views; attempt = next.old.attempt; sent = sent.now }) (hears from body.now) choices
        (record { views = next.new.views; attempt = next.new.attempt; sent = sent.now })
        m.changes.items m.sends.items)) }
    ensures words { length draws.old ≤ length draws.new + most_words }
    ensures sendable { IfOk result (λ m. AreSendable m.sends.items) }
{
    hear(
        alloc,
        &mut next.views,
        &mut next.attempt,
        sent,
        draws,
        from,
        body,
    )
}

/// Reports a crash to the handler of `ov_neighbor`, where the views and the attempt lie together.
pub(crate) fn hear_of_crash(
    alloc: Global,
    next: &mut NextViews,
    draws: &mut Draws<'_>,
    crashed: NodeId,
) -> Result<Moves, OutOfMemory>
    requires { most_words ≤ length draws.old }
    ensures allowed { IfOk result (AttemptStep next.old.views next.old.attempt draws.old (hears_of_crash crashed)
        next.new.views next.new.attempt draws.new) }
    ensures words { length draws.old ≤ length draws.new + 1 }
    ensures few { IfOk result (λ m. vec_len m.sends ≤ 1) }
    ensures ranges { IfOk result (λ m. AreSendsInRange m.sends.items) }
{
    ov_neighbor::on_crash_report(alloc, &mut next.views, &mut next.attempt, draws, crashed)
}

/// Hands a message whose walk only goes on from here to the next node. No view changes then. None if it is another
/// message, and then nothing is drawn.
#[inline(always)]
pub(crate) fn walk(
    alloc: Global,
    views: &Views,
    draws: &mut Draws<'_>,
    from: NodeId,
    body: &Body,
) -> Result<Option<Moves>, OutOfMemory>
    requires words { most_words ≤ length draws.old }
    requires range { AreInRange (record { from = from; body = body.now }) }
    ensures allowed { IfOk result (λ walked. IfSome walked
        (ViewsStep views.now draws.old (hears from body.now) views.now draws.new)) }
    ensures words { length draws.old ≤ length draws.new + most_words }
    ensures sendable { IfOk result (λ walked. IfSome walked (λ m. AreSendable m.sends.items)) }
    ensures none { IfOk result (λ walked. IfNone walked (draws.new ≡ draws.old)) }
    ensures err { OnErr result (draws.new ≡ draws.old) }
{
    match body {
        Body::ForwardJoin { node, ttl } => ov_join::walk(alloc, views, draws, from, *node, *ttl),
        Body::Shuffle { origin, ttl, ids } => {
            ov_shuffle::walk(alloc, views, draws, from, *origin, *ttl, ids.as_slice())
        }
        _ => Ok(None),
    }
}
