ghost use Rattle.std.specs.Prelude.{◌≡◌, ◌≤◌, ◌+◌, length, vec_len, IfOk, OnErr};
ghost use Rattle.ov_views.specs.Allowed.{hears};
ghost use Rattle.ov_views.specs.Handling.{ViewsStep, step_words};
ghost use Rattle.ov_views.specs.Sending.{say};
ghost use Rattle.ov_wire.specs.declared.message.Body.TheVariants.{Neighbor, NeighborReply};
ghost use Rattle.ov_wire.specs.Messages.{AreSendsInRange};

use ov_ids::{NodeId, OutOfMemory};
use ov_views::{Moves, Views};
use ov_wire::{Body, Message};
use ov_words::Draws;
use std::alloc::Global;

/// The effects of NEIGHBOR from a node, with high or low priority. The node is accepted if it is active, if its
/// priority is high, or if a place is free in the active view; it is then active. Otherwise it is rejected.
/// NEIGHBORREPLY says which. At most two random words are used. OutOfMemory (99) if an allocation is refused, and then
/// nothing has changed. (HyParView: Leitão, Pereira, Rodrigues, DSN 2007, Section 4.3; NEIGHBORREPLY as a message is
/// chosen here.)
pub fn on_neighbor(
    alloc: Global,
    views: &mut Views,
    draws: &mut Draws<'_>,
    from: NodeId,
    high: bool,
) -> Result<Moves, OutOfMemory>
    requires { step_words ≤ length draws.old }
    ensures allowed { IfOk result (ViewsStep views.old draws.old (hears from (Neighbor high)) views.new draws.new) }
    ensures words { length draws.old ≤ length draws.new + 2 }
    ensures few { IfOk result (λ m. vec_len m.sends ≤ 2) }
    ensures ranges { IfOk result (λ m. AreSendsInRange m.sends.items) }
    ensures err { OnErr result ((views.new ≡ views.old) × (draws.new ≡ draws.old)) }
{
    let mut moves = Moves::with_room(alloc, 2)?;
    let me = views.me();
    if from == me {
        return Ok(moves);
    }
    if views.is_active(from) || high || views.has_place() {
        let changes = views.add_active(from, draws);
        moves.tell(me, changes);
        moves.send(from, reply(me, true));
        return Ok(moves);
    }
    moves.send(from, reply(me, false));
    Ok(moves)
}

/// The answer to NEIGHBOR.
fn reply(me: NodeId, accepted: bool) -> Message
    ensures { result ≡ say me (NeighborReply accepted) }
{
    Message {
        from: me,
        body: Body::NeighborReply { accepted },
    }
}
