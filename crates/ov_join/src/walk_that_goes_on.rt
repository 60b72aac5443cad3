ghost use Rattle.std.specs.Prelude.{◌≡◌, ◌≤◌, ◌+◌, length, vec_len, is_some, IfOk, IfSome, IfNone, OnErr};
ghost use Rattle.ov_wire.specs.Messages.{AreSendsInRange, most_ttl};
ghost use Rattle.ov_views.specs.Allowed.{hears};
ghost use Rattle.ov_views.specs.Handling.{ViewsStep, step_words};
ghost use Rattle.ov_views.specs.JoinRows.{is_only_handed_on};
ghost use Rattle.ov_wire.specs.declared.message.Body.TheVariants.{ForwardJoin};

use crate::{ends_here, is_remembered, next_step};
use ov_ids::{NodeId, OutOfMemory};
use ov_views::{Moves, Views};
use ov_words::Draws;
use std::alloc::Global;

/// The effects of FORWARDJOIN, as `on_forward_join` has them, if its walk goes on from here and the new node does not
/// become passive: no view changes then, and they are only lent. None exactly otherwise, and then nothing is drawn.
/// OutOfMemory (99) if an allocation is refused, and then nothing has changed.
pub fn walk(
    alloc: Global,
    views: &Views,
    draws: &mut Draws<'_>,
    from: NodeId,
    node: NodeId,
    ttl: u8,
) -> Result<Option<Moves>, OutOfMemory>
    requires words { step_words ≤ length draws.old }
    requires ttl { ttl ≤ most_ttl }
    ensures allowed { IfOk result (λ walked. IfSome walked
        (ViewsStep views.now draws.old (hears from (ForwardJoin node ttl)) views.now draws.new)) }
    ensures words { length draws.old ≤ length draws.new + 1 }
    ensures few { IfOk result (λ walked. IfSome walked (λ m. vec_len m.sends ≤ 1)) }
    ensures ranges { IfOk result (λ walked. IfSome walked (λ m. AreSendsInRange m.sends.items)) }
    ensures handed_on { IfOk result (λ walked. is_some walked ≡ is_only_handed_on views.now from node ttl) }
    ensures none { IfOk result (λ walked. IfNone walked (draws.new ≡ draws.old)) }
    ensures err { OnErr result (draws.new ≡ draws.old) }
{
    let me = views.me();
    if from == me || node == me {
        return Ok(None);
    }
    if ends_here(views, from, node, ttl) || is_remembered(views, ttl) {
        return Ok(None);
    }
    let mut moves = Moves::to_send(alloc, 1)?;
    let (to, message) = next_step(views, draws, from, node, ttl);
    moves.send(to, message);
    Ok(Some(moves))
}
