//! What a node does at JOIN, FORWARDJOIN and JOINED, by which a new node comes into the overlay.
//!
//! JOIN and FORWARDJOIN are HyParView's (Leitão, Pereira, Rodrigues, DSN 2007, Algorithm 1). JOINED, which says to the
//! new node which node made it active, is chosen here. Every call makes all its room before it changes anything, so
//! nothing has changed if it is out of memory.
//!
//! The rules of these steps are in `ov_views/specs/JoinRows.antt`, and what a handler promises in `Handling.antt`
//! beside it.
#![tactic(auto)]

ghost use Rattle.std.specs.Prelude.{◌≡◌, ◌==◌, ◌&&◌, ◌≤◌, ◌<◌, ◌+◌, ◌-◌, ◌++◌, [], ◌∷◌, false, not, length, vec_len};
ghost use Rattle.std.specs.Prelude.{IfOk, OnErr};
ghost use Rattle.std.specs.List.{list_any};
ghost use Rattle.ov_wire.specs.Messages.{AreSendsInRange, most_ttl, say};
ghost use Rattle.ov_words.specs.Pick.{AreDrawn, Drawn};
ghost use Rattle.ov_views.specs.Room.{HasRoom};
ghost use Rattle.ov_views.specs.Allowed.{hears};
ghost use Rattle.ov_views.specs.Handling.{ViewsStep, step_words, step_sends};
ghost use Rattle.ov_views.specs.JoinRows.{Remembers, forwards, walk_ends, walk_targets};
ghost use Rattle.ov_wire.specs.declared.message.Body.TheVariants.{Join, ForwardJoin, Joined};

mod walk_that_goes_on;

use ov_ids::{MOST_ACTIVE, NodeId, OutOfMemory};
use ov_views::{Moves, View, Views};
use ov_wire::{Body, Message};
use ov_words::Draws;
use std::alloc::Global;
pub use walk_that_goes_on::walk;

/// The most packets that one step sends: one to the node that joins, and one to each other active member.
const STEP_SENDS: usize = MOST_ACTIVE as usize + 1;

/// The effects of JOIN from a node. The node becomes active and is sent JOINED, and every other active member is sent
/// FORWARDJOIN with ARWL steps, in ascending order. At most two random words are used, and at most 17 messages are
/// sent. OutOfMemory (99) if an allocation is refused, and then nothing has changed. (HyParView: Leitão, Pereira,
/// Rodrigues, DSN 2007, Algorithm 1; JOINED and the order are chosen here.)
pub fn on_join(
    alloc: Global,
    views: &mut Views,
    draws: &mut Draws<'_>,
    from: NodeId,
) -> Result<Moves, OutOfMemory>
    requires { step_words ≤ length draws.old }
    ensures allowed { IfOk result (ViewsStep views.old draws.old (hears from Join) views.new draws.new) }
    ensures words { length draws.old ≤ length draws.new + 2 }
    ensures few { IfOk result (λ m. vec_len m.sends ≤ step_sends) }
    ensures ranges { IfOk result (λ m. AreSendsInRange m.sends.items) }
    ensures err { OnErr result ((views.new ≡ views.old) × (draws.new ≡ draws.old)) }
{
    let mut moves = Moves::with_room(alloc, STEP_SENDS)?;
    let me = views.me();
    if from == me {
        return Ok(moves);
    }
    let changes = views.add_active(from, draws);
    moves.tell(me, changes);
    let message = Message {
        from: me,
        body: Body::Joined,
    };
    moves.send(from, message);
    let ttl = views.params().arwl();
    let others = views.all_but(View::Active, &[from]);
    forward(&mut moves, me, from, ttl, others.as_slice());
    Ok(moves)
}

/// Sends FORWARDJOIN to each member.
fn forward(moves: &mut Moves, me: NodeId, node: NodeId, ttl: u8, members: &[NodeId])
    requires { HasRoom moves.old (length members.now) 0 }
    ensures sends { moves.new.sends.items ≡ moves.old.sends.items ++ forwards me node ttl members.now }
    ensures len { vec_len moves.new.sends ≡ vec_len moves.old.sends + length members.now }
    ensures changes { moves.new.changes ≡ moves.old.changes }
{
    for member in members {
        let message = Message {
            from: me,
            body: Body::ForwardJoin { node, ttl },
        };
        moves.send(*member, message);
    }
}

/// The effects of FORWARDJOIN for a new node, from another node, with `ttl` steps left. If the walk ends here, the new
/// node becomes active and is sent JOINED. Otherwise the walk goes on with one step less to a random active member, and
/// the new node becomes passive if PRWL steps are left. At most two random words are used, and at most two messages are
/// sent. OutOfMemory (99) if an allocation is refused, and then nothing has changed. (HyParView: Leitão, Pereira,
/// Rodrigues, DSN 2007, Algorithm 1; JOINED, and that a walk which can go nowhere ends, are chosen here.)
pub fn on_forward_join(
    alloc: Global,
    views: &mut Views,
    draws: &mut Draws<'_>,
    from: NodeId,
    node: NodeId,
    ttl: u8,
) -> Result<Moves, OutOfMemory>
    requires words { step_words ≤ length draws.old }
    requires ttl { ttl ≤ most_ttl }
    ensures allowed { IfOk result
        (ViewsStep views.old draws.old (hears from (ForwardJoin node ttl)) views.new draws.new) }
    ensures words { length draws.old ≤ length draws.new + 2 }
    ensures few { IfOk result (λ m. vec_len m.sends ≤ 2) }
    ensures ranges { IfOk result (λ m. AreSendsInRange m.sends.items) }
    ensures err { OnErr result ((views.new ≡ views.old) × (draws.new ≡ draws.old)) }
{
    let mut moves = Moves::with_room(alloc, 2)?;
    let me = views.me();
    if from == me || node == me {
        return Ok(moves);
    }
    if ends_here(views, from, node, ttl) {
        moves.tell(me, views.add_active(node, draws));
        let message = Message {
            from: me,
            body: Body::Joined,
        };
        moves.send(node, message);
        return Ok(moves);
    }
    remember(views, draws, node, ttl);
    let (to, message) = next_step(views, draws, from, node, ttl);
    moves.send(to, message);
    Ok(moves)
}

/// Takes a node into the passive view if PRWL steps are left.
fn remember(views: &mut Views, draws: &mut Draws<'_>, node: NodeId, ttl: u8)
    requires { 1 ≤ length draws.old }
    ensures drawn { Drawn draws.old draws.new (λ choices. Remembers views.old node ttl choices views.new) }
    ensures words { length draws.old ≤ length draws.new + 1 }
{
    if is_remembered(views, ttl) {
        views.add_passive(node, draws);
    }
}

/// Whether so many steps are left that a node is taken into the passive view.
fn is_remembered(views: &Views, ttl: u8) -> bool
    ensures { result ≡ (ttl == views.now.params.prwl) }
{
    ttl == views.params().prwl()
}

/// Whether the walk of FORWARDJOIN ends here. Otherwise a step is left, and there is somebody to go on to.
fn ends_here(views: &Views, from: NodeId, node: NodeId, ttl: u8) -> bool
    ensures value { result ≡ walk_ends views.now from node ttl }
    ensures steps { result ≡ false → 0 < ttl }
    ensures targets { result ≡ false → 0 < length (walk_targets views.now from node) }
{
    ttl == 0 || views.active().len() <= 1 || !has_target(views, from, node)
}

/// Whether there is an active member other than these two.
fn has_target(views: &Views, from: NodeId, node: NodeId) -> bool
    ensures { result ≡ list_any (λ member. not (member == from) && not (member == node)) views.now.active }
{
    views
        .active()
        .iter()
        .any(|member| *member != from && *member != node)
}

/// The message by which the walk of FORWARDJOIN goes on, and a random active member that it goes to: neither of these
/// two, and there must be one.
fn next_step(
    views: &Views,
    draws: &mut Draws<'_>,
    from: NodeId,
    node: NodeId,
    ttl: u8,
) -> (NodeId, Message)
    requires word { 0 < length draws.old }
    requires steps { 0 < ttl }
    requires targets { 0 < length (walk_targets views.now from node) }
    ensures drawn { AreDrawn (record { from = walk_targets views.now from node; member = result.0 } ∷ [])
        draws.old draws.new }
    ensures words { length draws.old ≡ length draws.new + 1 }
    ensures message { result.1 ≡ say views.now.me (ForwardJoin node (ttl - 1)) }
{
    match views.pick_but(&[from, node], draws) {
        Some(to) => {
            let message = Message {
                from: views.me(),
                body: Body::ForwardJoin { node, ttl: ttl - 1 },
            };
            (to, message)
        }
        None => unreachable!(),
    }
}

/// The effects of JOINED from a node, which has made this one active: it becomes active here. At most two random
/// words are used, and at most one message is sent. OutOfMemory (99) if an allocation is refused, and then nothing
/// has changed. (JOINED is chosen here, so that active views are symmetric.)
pub fn on_joined(
    alloc: Global,
    views: &mut Views,
    draws: &mut Draws<'_>,
    from: NodeId,
) -> Result<Moves, OutOfMemory>
    requires { step_words ≤ length draws.old }
    ensures allowed { IfOk result (ViewsStep views.old draws.old (hears from Joined) views.new draws.new) }
    ensures words { length draws.old ≤ length draws.new + 2 }
    ensures few { IfOk result (λ m. vec_len m.sends ≤ 1) }
    ensures ranges { IfOk result (λ m. AreSendsInRange m.sends.items) }
    ensures err { OnErr result ((views.new ≡ views.old) × (draws.new ≡ draws.old)) }
{
    let mut moves = Moves::with_room(alloc, 1)?;
    let me = views.me();
    if from == me {
        return Ok(moves);
    }
    moves.tell(me, views.add_active(from, draws));
    Ok(moves)
}
