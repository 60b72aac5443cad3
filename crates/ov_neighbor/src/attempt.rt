ghost use Rattle.std.specs.Prelude.{◌≡◌, ◌≤◌, ◌<◌, ◌+◌, [], length, vec_len, vec_capacity, IfOk, OnErr};
ghost use Rattle.ov_ids.specs.Sets.{IsSet, IsIn, adding};
ghost use Rattle.ov_views.specs.Allowed.{hears, hears_of_crash};
ghost use Rattle.ov_views.specs.Handling.{AttemptStep, step_words};
ghost use Rattle.ov_views.specs.NeighborRows.{GoesOnAsking, IsAttempt, ProfileDisconnect, starts_attempt};
ghost use Rattle.ov_views.specs.Room.{HasRoom};
ghost use Rattle.ov_wire.specs.Messages.{AreSendsInRange};
ghost use Rattle.ov_ids.specs.declared.refill_rule.Refill.TheVariants.{Never};
ghost use Rattle.ov_wire.specs.declared.message.Body.TheVariants.{NeighborReply, Disconnect};
ghost use Rattle.ov_words.specs.Pick.{Drawn};

use ov_ids::{NodeId, OutOfMemory, Refill, place_for};
use ov_views::{Moves, View, Views};
use ov_wire::{Body, Message};
use ov_words::Draws;
use std::alloc::Global;
use std::marker::Model;

/// An attempt to find an active member, or none. Contracts see the node that it asked and waits for, and the set of the
/// nodes that it has tried. The asked node is one of them, and if nobody is asked, nobody is tried.
#[derive(Drop)]
pub struct Attempt {
    asked: Option<NodeId>,
    tried: Vec<NodeId>,
}

impl Model for Attempt {
    ghost use Rattle.ov_views.specs.NeighborRows.{AttemptState, IsAttempt};

    ghost Value = { AttemptState };

    ghost view = { λ a. record { asked = a.asked; tried = a.tried.items } };

    ghost invariant = { λ a. IsAttempt (record { asked = a.asked; tried = a.tried.items }) };
}

impl Attempt {
    ghost use Rattle.ov_views.specs.NeighborRows.{IsAttempt, idle, awaits};

    /// No attempt. Nothing is allocated.
    pub fn new(alloc: Global) -> Attempt
        ensures { result ≡ idle }
    {
        Attempt {
            asked: None,
            tried: Vec::new(alloc),
        }
    }

    /// An equal attempt. OutOfMemory (99) if the allocation is refused.
    pub fn copy(&self) -> Result<Attempt, OutOfMemory>
        ensures { IfOk result (λ copy. copy ≡ self.now) }
    {
        let tried = &self.tried;
        Ok(Attempt {
            asked: self.asked,
            tried: Vec::from_slice(*tried.allocator(), tried.as_slice())?,
        })
    }

    /// The node that the attempt asked and waits for. None if there is no attempt.
    pub fn asked(&self) -> Option<NodeId>
        ensures { result ≡ self.now.asked }
    {
        self.asked
    }

    /// The nodes that the attempt has tried, ascending. The list is empty if there is no attempt.
    pub fn tried(&self) -> &[NodeId]
        ensures value { result.now ≡ self.now.tried }
        ensures attempt { IsAttempt self.now }
    {
        self.tried.as_slice()
    }

    /// Whether the attempt waits for this node.
    fn awaits(&self, id: NodeId) -> bool
        ensures { result ≡ awaits self.now id }
    {
        match self.asked {
            Some(asked) => asked == id,
            None => false,
        }
    }

    /// Ends the attempt.
    fn end(&mut self)
        ensures { self.new ≡ idle }
    {
        self.asked = None;
        self.tried.clear();
    }
}

/// Makes a node one of the tried nodes. Room for it must be there.
fn enter(tried: &mut Vec<NodeId>, id: NodeId)
    requires untried { ¬ IsIn tried.old.items id }
    requires room { vec_len tried.old < vec_capacity tried.old }
    ensures { tried.new.items ≡ adding id tried.old.items }
{
    let at = place_for(tried.as_slice(), id);
    if tried.insert(at, id).is_err() {
        unreachable!();
    }
}

/// Goes on with an attempt that tried these nodes. It asks a random passive member that it has not tried, or ends if
/// there is nobody to ask. Room for one more tried node must be there. Returns the node that it asked.
fn go_on(
    tried: &mut Vec<NodeId>,
    views: &Views,
    draws: &mut Draws<'_>,
    moves: &mut Moves,
) -> Option<NodeId>
    requires words { 0 < length draws.old }
    requires room { vec_len tried.old < vec_capacity tried.old }
    requires sends { HasRoom moves.old 1 0 }
    requires none { moves.old.sends.items ≡ [] }
    requires set { IsSet tried.old.items }
    ensures allowed { Drawn draws.old draws.new (λ choices. GoesOnAsking views.now tried.old.items choices
        (record { asked = result; tried = tried.new.items }) moves.new.sends.items) }
    ensures attempt { IsAttempt (record { asked = result; tried = tried.new.items }) }
    ensures changes { moves.new.changes ≡ moves.old.changes }
    ensures words { length draws.old ≤ length draws.new + 1 }
    ensures few { vec_len moves.new.sends ≤ 1 }
    ensures ranges { AreSendsInRange moves.new.sends.items }
{
    let untried = views.all_but(View::Passive, tried.as_slice());
    if !views.has_place() || untried.len() == 0 {
        tried.clear();
        return None;
    }
    match draws.pick(untried.as_slice()) {
        Some(next) => {
            enter(tried, next);
            let message = Message {
                from: views.me(),
                body: Body::Neighbor {
                    high: views.active().is_empty(),
                },
            };
            moves.send(next, message);
            Some(next)
        }
        None => unreachable!(),
    }
}

/// Begins a new attempt, which has tried nobody yet. Room for one tried node must be there. Returns the node that it
/// asked.
fn begin_anew(
    tried: &mut Vec<NodeId>,
    views: &Views,
    draws: &mut Draws<'_>,
    moves: &mut Moves,
) -> Option<NodeId>
    requires words { 0 < length draws.old }
    requires room { 0 < vec_capacity tried.old }
    requires sends { HasRoom moves.old 1 0 }
    requires none { moves.old.sends.items ≡ [] }
    ensures allowed { Drawn draws.old draws.new (λ choices. GoesOnAsking views.now [] choices
        (record { asked = result; tried = tried.new.items }) moves.new.sends.items) }
    ensures attempt { IsAttempt (record { asked = result; tried = tried.new.items }) }
    ensures changes { moves.new.changes ≡ moves.old.changes }
    ensures words { length draws.old ≤ length draws.new + 1 }
    ensures few { vec_len moves.new.sends ≤ 1 }
    ensures ranges { AreSendsInRange moves.new.sends.items }
{
    tried.clear();
    go_on(tried, views, draws, moves)
}

/// The effects of NEIGHBORREPLY from a node. If the attempt waits for that node, its yes ends the attempt and makes it
/// active, and after its no the attempt goes on. A yes from any other node that is not active is answered by
/// DISCONNECT. Any other reply does nothing. At most two random words are used. OutOfMemory (99) if an allocation is
/// refused, and then nothing has changed. (NEIGHBOR and its answer are HyParView's; how an attempt goes on is chosen
/// here.)
pub fn on_reply(
    alloc: Global,
    views: &mut Views,
    attempt: &mut Attempt,
    draws: &mut Draws<'_>,
    from: NodeId,
    accepted: bool,
) -> Result<Moves, OutOfMemory>
    requires { step_words ≤ length draws.old }
    ensures allowed { IfOk result (AttemptStep views.old attempt.old draws.old (hears from (NeighborReply accepted))
        views.new attempt.new draws.new) }
    ensures words { length draws.old ≤ length draws.new + 2 }
    ensures few { IfOk result (λ m. vec_len m.sends ≤ 1) }
    ensures ranges { IfOk result (λ m. AreSendsInRange m.sends.items) }
    ensures err { OnErr result ((views.new ≡ views.old) × (attempt.new ≡ attempt.old) × (draws.new ≡ draws.old)) }
{
    attempt.tried.reserve(1)?;
    let mut moves = Moves::with_room(alloc, 1)?;
    let me = views.me();
    if from == me {
        return Ok(moves);
    }
    if attempt.awaits(from) {
        if accepted {
            attempt.end();
            let changes = views.add_active(from, draws);
            moves.tell(me, changes);
            return Ok(moves);
        }
        attempt.asked = go_on(&mut attempt.tried, views, draws, &mut moves);
        return Ok(moves);
    }
    if accepted && !views.is_active(from) {
        let message = Message {
            from: me,
            body: Body::Disconnect,
        };
        moves.send(from, message);
    }
    Ok(moves)
}

/// The effects of a report that a node crashed. The node leaves the view that has it. If it was active, it goes down,
/// and a new attempt begins with nobody tried, in place of one that waits. Otherwise, if the attempt waits for it, the
/// attempt goes on. At most one random word is used. OutOfMemory (99) if an allocation is refused, and then nothing has
/// changed. (That a lost active member is replaced by a passive one is HyParView's; how an attempt goes on is chosen
/// here.)
pub fn on_crash_report(
    alloc: Global,
    views: &mut Views,
    attempt: &mut Attempt,
    draws: &mut Draws<'_>,
    crashed: NodeId,
) -> Result<Moves, OutOfMemory>
    requires { step_words ≤ length draws.old }
    ensures allowed { IfOk result (AttemptStep views.old attempt.old draws.old (hears_of_crash crashed)
        views.new attempt.new draws.new) }
    ensures words { length draws.old ≤ length draws.new + 1 }
    ensures few { IfOk result (λ m. vec_len m.sends ≤ 1) }
    ensures ranges { IfOk result (λ m. AreSendsInRange m.sends.items) }
    ensures err { OnErr result ((views.new ≡ views.old) × (attempt.new ≡ attempt.old) × (draws.new ≡ draws.old)) }
{
    attempt.tried.reserve(1)?;
    let mut moves = Moves::with_room(alloc, 1)?;
    let was_active = views.is_active(crashed);
    let changes = views.forget(crashed);
    moves.tell_changes(changes);
    if was_active {
        attempt.asked = begin_anew(&mut attempt.tried, views, draws, &mut moves);
        return Ok(moves);
    }
    if attempt.awaits(crashed) {
        attempt.asked = go_on(&mut attempt.tried, views, draws, &mut moves);
    }
    Ok(moves)
}

/// Whether the loss of an active member by DISCONNECT starts an attempt. `views` are those without that member.
fn starts_attempt(views: &Views) -> bool
    ensures { result ≡ starts_attempt views.now.params.refill views.now }
{
    match views.params().refill() {
        Refill::Never => false,
        Refill::Alone => views.active().is_empty(),
        Refill::Always => true,
    }
}

/// The effects of DISCONNECT from a node. If the node is active, it goes down and then becomes passive. Where the rule
/// of the parameters says so, a new attempt then begins with nobody tried, in place of one that waits; by the profile's
/// rule none does, and nothing is sent. At most two random words are used. OutOfMemory (99) if an allocation is
/// refused, and then nothing has changed. (HyParView: Leitão, Pereira, Rodrigues, DSN 2007, Algorithm 1; the rules are
/// chosen here.)
pub fn on_disconnect(
    alloc: Global,
    views: &mut Views,
    attempt: &mut Attempt,
    draws: &mut Draws<'_>,
    from: NodeId,
) -> Result<Moves, OutOfMemory>
    requires { step_words ≤ length draws.old }
    ensures allowed { IfOk result (AttemptStep views.old attempt.old draws.old (hears from Disconnect)
        views.new attempt.new draws.new) }
    ensures profile { views.old.params.refill ≡ Never → IfOk result (λ m. (attempt.new ≡ attempt.old)
        × Drawn draws.old draws.new (λ choices.
        ProfileDisconnect views.old from choices views.new m.changes.items m.sends.items)) }
    ensures words { length draws.old ≤ length draws.new + 2 }
    ensures few { IfOk result (λ m. vec_len m.sends ≤ 1) }
    ensures ranges { IfOk result (λ m. AreSendsInRange m.sends.items) }
    ensures err { OnErr result ((views.new ≡ views.old) × (attempt.new ≡ attempt.old) × (draws.new ≡ draws.old)) }
{
    attempt.tried.reserve(1)?;
    let mut moves = Moves::with_room(alloc, 1)?;
    if from == views.me() || !views.is_active(from) {
        return Ok(moves);
    }
    let changes = views.remove_active(from);
    moves.tell_changes(changes);
    let starts = starts_attempt(views);
    views.add_passive(from, draws);
    if starts {
        attempt.asked = begin_anew(&mut attempt.tried, views, draws, &mut moves);
        return Ok(moves);
    }
    Ok(moves)
}
