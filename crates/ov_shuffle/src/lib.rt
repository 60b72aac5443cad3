//! Shuffles: nodes exchange samples of their views, so that passive views come to have other members with time.
//!
//! Shuffles are HyParView's (Leitão, Pereira, Rodrigues, DSN 2007, Section 4.4). The order of a shuffle's choices is
//! chosen here. So is the rule that a node's own shuffle does nothing if it ends at that node. Every call makes all its
//! room before it changes anything, so nothing has changed if it is out of memory.
//!
//! The rules of these steps are in `ov_views/specs/ShuffleRows.antt`, and what a handler promises in `Handling.antt`
//! beside it.
#![tactic(auto)]

ghost use Rattle.std.specs.Prelude.{◌≡◌, ◌≤◌, ◌<◌, ◌+◌, ◌++◌, ◌∷◌, [], length, vec_len, vec_capacity};
ghost use Rattle.std.specs.Prelude.{IfOk, OnErr, IsTrue};
ghost use Rattle.ov_wire.specs.Messages.{AreSendsInRange, most_ttl, most_ids};
ghost use Rattle.ov_views.specs.Allowed.{hears, shuffles};
ghost use Rattle.ov_views.specs.Handling.{ViewsStep, SentStep, step_words};
ghost use Rattle.ov_views.specs.ShuffleRows.{walks_on};
ghost use Rattle.ov_wire.specs.declared.message.Body.TheVariants.{Shuffle, ShuffleReply};

mod sent;
mod walk_that_goes_on;

use ov_ids::{NodeId, OutOfMemory, Seq};
use ov_views::{Moves, View, Views};
use ov_wire::{Body, MOST_IDS, Message};
use ov_words::Draws;
pub use sent::Sent;
use std::alloc::Global;
pub use walk_that_goes_on::walk;

/// The effects of starting a shuffle. SHUFFLE goes to a random active member. It lists the node itself, then a sample
/// of its active members, then a sample of its passive members, and that list is kept as `sent`. If nobody is active,
/// nothing happens, and `sent` stays. No view changes. At most 17 random words are used. OutOfMemory (99) if an
/// allocation is refused, and then nothing has changed. (HyParView: Leitão, Pereira, Rodrigues, DSN 2007, Section 4.4;
/// the order of the choices is chosen here.)
pub fn start(
    alloc: Global,
    views: &Views,
    sent: &mut Sent,
    draws: &mut Draws<'_>,
) -> Result<Moves, OutOfMemory>
    requires { step_words ≤ length draws.old }
    ensures allowed { IfOk result (SentStep views.now sent.old draws.old shuffles views.now sent.new draws.new) }
    ensures words { length draws.old ≤ length draws.new + most_ids }
    ensures few { IfOk result (λ m. vec_len m.sends ≤ 1) }
    ensures ranges { IfOk result (λ m. AreSendsInRange m.sends.items) }
    ensures err { OnErr result ((sent.new ≡ sent.old) × (draws.new ≡ draws.old)) }
{
    let mut moves = Moves::to_send(alloc, 1)?;
    let mut kept = Vec::with_capacity(alloc, MOST_IDS as usize)?;
    let mut list = Vec::with_capacity(alloc, MOST_IDS as usize)?;
    let to = match draws.pick(views.active()) {
        Some(to) => to,
        None => return Ok(moves),
    };
    let me = views.me();
    let params = views.params();
    let actives = views.sample(View::Active, params.ka(), draws);
    let passives = views.sample(View::Passive, params.kp(), draws);
    write(&mut kept, me, actives.as_slice(), passives.as_slice());
    write(&mut list, me, actives.as_slice(), passives.as_slice());
    sent.keep(kept);
    let message = Message {
        from: me,
        body: Body::Shuffle {
            origin: me,
            ttl: params.shuffle_ttl(),
            ids: Seq::new(list),
        },
    };
    moves.send(to, message);
    Ok(moves)
}

/// Writes the node itself and then its samples into an empty list. Room for them must be there.
fn write(list: &mut Vec<NodeId>, me: NodeId, actives: &[NodeId], passives: &[NodeId])
    requires empty { list.old.items ≡ [] }
    requires room { length actives.now + length passives.now < vec_capacity list.old }
    ensures { list.new.items ≡ me ∷ (actives.now ++ passives.now) }
{
    append(list, &[me]);
    append(list, actives);
    append(list, passives);
}

/// Appends ids to a list. Room for them must be there.
fn append(list: &mut Vec<NodeId>, ids: &[NodeId])
    requires { vec_len list.old + length ids.now ≤ vec_capacity list.old }
    ensures items { list.new.items ≡ list.old.items ++ ids.now }
    ensures len { vec_len list.new ≡ vec_len list.old + length ids.now }
    ensures capacity { vec_capacity list.old ≤ vec_capacity list.new }
{
    match list.extend_from_slice(ids) {
        Ok(()) => {}
        Err(_) => unreachable!(),
    }
}

/// The effects of SHUFFLE of an origin, from a node, with `ttl` steps left. It walks on to a random active member, or
/// it ends here. If it ends and the origin is another node, the origin is sent a sample of passive members, as many as
/// the list has ids or all if there are fewer, and then the list is integrated. At most 17 random words are used: each
/// sampled member saves the word of one id. OutOfMemory (99) if an allocation is refused, and then nothing has changed.
/// (HyParView: Leitão, Pereira, Rodrigues, DSN 2007, Section 4.4; that a node's own shuffle does nothing if it ends
/// there is chosen here.)
pub fn on_shuffle(
    alloc: Global,
    views: &mut Views,
    draws: &mut Draws<'_>,
    from: NodeId,
    origin: NodeId,
    ttl: u8,
    ids: &[NodeId],
) -> Result<Moves, OutOfMemory>
    requires words { step_words ≤ length draws.old }
    requires ttl { ttl ≤ most_ttl }
    requires ids { length ids.now ≤ most_ids }
    ensures allowed { IfOk result
        (ViewsStep views.old draws.old (hears from (Shuffle origin ttl ids.now)) views.new draws.new) }
    ensures words { length draws.old ≤ length draws.new + most_ids }
    ensures few { IfOk result (λ m. vec_len m.sends ≤ 1) }
    ensures ranges { IfOk result (λ m. AreSendsInRange m.sends.items) }
    ensures err { OnErr result ((views.new ≡ views.old) × (draws.new ≡ draws.old)) }
{
    match walk(alloc, views, draws, from, origin, ttl, ids)? {
        Some(moves) => return Ok(moves),
        None => {}
    }
    let mut moves = Moves::to_send(alloc, 1)?;
    let mut list = Vec::with_capacity(alloc, ids.len())?;
    let me = views.me();
    if from == me || origin == me {
        return Ok(moves);
    }
    let those = views.sample(View::Passive, ids.len(), draws);
    append(&mut list, those.as_slice());
    views.integrate(ids, those.as_slice(), draws);
    let body = Body::ShuffleReply {
        ids: Seq::new(list),
    };
    moves.send(origin, Message { from: me, body });
    Ok(moves)
}

/// Whether the walk of a SHUFFLE goes on.
fn walks_on(views: &Views, ttl: u8) -> bool
    ensures value { result ≡ walks_on views.now ttl }
    ensures ttl { IsTrue result → 1 < ttl }
    ensures others { IsTrue result → 1 < length views.now.active }
{
    ttl > 1 && views.active().len() > 1
}

/// The effects of SHUFFLEREPLY from a node. The list is integrated, and the members that this node sent are given up
/// first. Nothing is sent. At most 17 random words are used. OutOfMemory (99) if an allocation is refused, and
/// then nothing has changed. (HyParView: Leitão, Pereira, Rodrigues, DSN 2007, Section 4.4.)
pub fn on_reply(
    alloc: Global,
    views: &mut Views,
    sent: &Sent,
    draws: &mut Draws<'_>,
    from: NodeId,
    ids: &[NodeId],
) -> Result<Moves, OutOfMemory>
    requires words { step_words ≤ length draws.old }
    requires ids { length ids.now ≤ most_ids }
    ensures allowed { IfOk result (SentStep views.old sent.now draws.old (hears from (ShuffleReply ids.now))
        views.new sent.now draws.new) }
    ensures words { length draws.old ≤ length draws.new + most_ids }
    ensures none { IfOk result (λ m. vec_len m.sends ≡ 0) }
    ensures err { OnErr result ((views.new ≡ views.old) × (draws.new ≡ draws.old)) }
{
    let moves = Moves::to_send(alloc, 0)?;
    if from == views.me() {
        return Ok(moves);
    }
    views.integrate(ids, sent.as_slice(), draws);
    Ok(moves)
}
