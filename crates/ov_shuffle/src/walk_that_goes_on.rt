ghost use Rattle.std.specs.Prelude.{◌≡◌, ◌≤◌, ◌+◌, length, vec_len, is_some, IfOk, IfSome, IfNone, OnErr};
ghost use Rattle.ov_wire.specs.Messages.{AreSendsInRange, most_ttl, most_ids};
ghost use Rattle.ov_views.specs.Allowed.{hears};
ghost use Rattle.ov_views.specs.Handling.{ViewsStep, step_words};
ghost use Rattle.ov_views.specs.ShuffleRows.{is_handed_on};
ghost use Rattle.ov_wire.specs.declared.message.Body.TheVariants.{Shuffle};

use crate::{append, walks_on};
use ov_ids::{NodeId, OutOfMemory, Seq};
use ov_views::{Moves, Views};
use ov_wire::{Body, Message};
use ov_words::Draws;
use std::alloc::Global;

/// The effects of SHUFFLE, as `on_shuffle` has them, if its walk goes on from here: no view changes then, and they are
/// only lent. None exactly if the walk ends here, or the message is the node's own, and then nothing is drawn.
/// OutOfMemory (99) if an allocation is refused, and then nothing has changed.
pub fn walk(
    alloc: Global,
    views: &Views,
    draws: &mut Draws<'_>,
    from: NodeId,
    origin: NodeId,
    ttl: u8,
    ids: &[NodeId],
) -> Result<Option<Moves>, OutOfMemory>
    requires words { step_words ≤ length draws.old }
    requires ttl { ttl ≤ most_ttl }
    requires ids { length ids.now ≤ most_ids }
    ensures allowed { IfOk result (λ walked. IfSome walked
        (ViewsStep views.now draws.old (hears from (Shuffle origin ttl ids.now)) views.now draws.new)) }
    ensures words { length draws.old ≤ length draws.new + most_ids }
    ensures few { IfOk result (λ walked. IfSome walked (λ m. vec_len m.sends ≤ 1)) }
    ensures ranges { IfOk result (λ walked. IfSome walked (λ m. AreSendsInRange m.sends.items)) }
    ensures handed_on { IfOk result (λ walked. is_some walked ≡ is_handed_on views.now from ttl) }
    ensures none { IfOk result (λ walked. IfNone walked (draws.new ≡ draws.old)) }
    ensures err { OnErr result (draws.new ≡ draws.old) }
{
    let me = views.me();
    if from == me || !walks_on(views, ttl) {
        return Ok(None);
    }
    let mut moves = Moves::to_send(alloc, 1)?;
    let mut list = Vec::with_capacity(alloc, ids.len())?;
    append(&mut list, ids);
    let body = Body::Shuffle {
        origin,
        ttl: ttl - 1,
        ids: Seq::new(list),
    };
    match views.pick_but(&[from], draws) {
        Some(to) => moves.send(to, Message { from: me, body }),
        None => unreachable!(),
    }
    Ok(Some(moves))
}
