ghost use Rattle.std.specs.Prelude.{◌≡◌, ◌<◌, ◌≤◌, ◌+◌, ◌↔◌, [], false, length, vec_len};
ghost use Rattle.std.specs.Prelude.{None, Ok, Err, IfOk, IsOk, OnOk, OnErr, option_map};
ghost use Rattle.std.specs.FinMap as map;
ghost use Rattle.std.specs.FinSet as set;
ghost use Rattle.ov_wire.specs.Messages.{most_payload, say};
ghost use Rattle.ov_wire.specs.declared.message.Body.TheVariants.{Gossip, IHave, Graft, Prune};
ghost use Rattle.ov_plum.specs.PlumChange.{IsPlumChange, IsPlumPlan, IsPlumStep, plum_after, may_allocate};
ghost use Rattle.ov_plum.specs.PlumRows.{AllowedTree, receives, broadcasts, fires, goes_up, goes_down};
ghost use Rattle.ov_plum.specs.PlumState.{IsPlum, most_broadcasts, most_neighbours, newborn_plum};
ghost use Rattle.ov_plum.specs.declared.plum_change.PlumChange.TheVariants.{Nothing};
ghost use Rattle.ov_plum.specs.declared.timer_fault.TimerFault.TheVariants.{NoTimer};

use crate::eager_and_lazy_neighbours::Branches;
use crate::held_message::Held;
use crate::map_by_id::ById;
use crate::plum_change::{PlumChange, PlumPlan};
use crate::step_effects::{Spread, whole_message};
use crate::timer_fault::TimerFault;
use crate::waiting::Waiting;
use ov_ids::{MsgId, NodeId, OutOfMemory, Seq};
use ov_wire::{Body, Message};
use std::alloc::Global;
use std::marker::Model;

/// What Plumtree keeps at a node: its neighbours, eager or lazy, the messages that it holds, those that it waits for,
/// and the number of its next broadcast. Contracts see a `PlumState`, and `IsPlum` is always kept. The steps are
/// Plumtree's (Leitão, Pereira, Rodrigues, SRDS 2007); `PlumRows` says what is chosen here. Out of memory, no call
/// changes anything.
#[derive(Drop)]
pub struct Plum {
    me: NodeId,
    branches: Branches,
    held: ById<Held>,
    waiting: Waiting,
    made: u32,
}

impl Model for Plum {
    ghost use Rattle.ov_plum.specs.Code.Codes.{plum_code};
    ghost use Rattle.ov_plum.specs.Code.Waiting.{plum_of};
    ghost use Rattle.ov_plum.specs.PlumState.{PlumState, IsPlum};

    ghost Value = { PlumState };

    ghost coded = { plum_code };

    ghost view = { λ a. plum_of a.me a.branches a.held a.waiting a.made };

    ghost invariant = { λ a. IsPlum (plum_of a.me a.branches a.held a.waiting a.made) };
}

impl Plum {
    /// A node without neighbours that has seen no message. Nothing is allocated.
    pub fn new(alloc: Global, me: NodeId) -> Plum
        ensures { result ≡ newborn_plum me }
    {
        Plum {
            me,
            branches: Branches::new(),
            held: ById::new(alloc),
            waiting: Waiting::new(alloc),
            made: 0,
        }
    }

    /// An equal value. The payloads of held messages are shared. OutOfMemory (99) if an allocation is refused.
    pub fn copy(&self) -> Result<Plum, OutOfMemory>
        ensures { IfOk result (λ p. p ≡ self.now) }
    {
        Ok(Plum {
            me: self.me,
            branches: self.branches.copy(),
            held: self.held.copy()?,
            waiting: self.waiting.copy()?,
            made: self.made,
        })
    }

    /// The neighbours to whom whole messages go at once, ascending.
    pub fn eager(&self) -> &[NodeId]
        ensures value { result.now ≡ self.now.branches.eager }
        ensures kept { IsPlum self.now }
    {
        self.branches.eager()
    }

    /// The neighbours to whom a message is only announced, ascending.
    pub fn lazy(&self) -> &[NodeId]
        ensures value { result.now ≡ self.now.branches.lazy }
        ensures kept { IsPlum self.now }
    {
        self.branches.lazy()
    }

    /// The number of the next broadcast of the node's own: how many it has made, at most 4,096.
    pub fn made(&self) -> u32
        ensures value { result ≡ self.now.made }
        ensures kept { IsPlum self.now }
    {
        self.made
    }

    /// Whether the timer of an id runs.
    pub fn has_timer(&self, id: MsgId) -> bool
        ensures value { result ≡ set.contains self.now.running id }
        ensures kept { IsPlum self.now }
    {
        self.waiting.runs(&id)
    }

    /// The round with which the node holds a message, if it holds it: 0 if it made the message, and else how many links
    /// the message came over, up to 65,535.
    pub fn held_round(&self, id: MsgId) -> Option<u16>
        ensures { result ≡ option_map (λ h. h.round) (map.get self.now.held id) }
    {
        match self.held.get(&id) {
            Some(held) => Some(held.round()),
            None => None,
        }
    }

    /// Plans a broadcast of the node's own, of at most 1,024 bytes, which is not its 4,097th: it is to be held,
    /// delivered and sent on. OutOfMemory (99) if an allocation is refused.
    pub fn plan_broadcast(&self, payload: Seq<u8>) -> Result<PlumPlan, OutOfMemory>
        requires payload { length payload ≤ most_payload }
        requires made { self.now.made < most_broadcasts }
        ensures { IfOk result (IsPlumPlan self.now (broadcasts payload)) }
    {
        let alloc = self.held.allocator();
        let id = MsgId {
            origin: self.me,
            seq: self.made,
        };
        let held = Held::new(alloc, 0, payload)?;
        let spread = Spread::whole(alloc, self.me, &id, &held, &self.branches)?;
        let next = self.made + 1;
        Ok(PlumPlan {
            spread,
            plum_change: PlumChange::Makes { id, held, next },
        })
    }

    /// Plans the step at GOSSIP from a node, with a payload of at most 1,024 bytes. If the message is held, the sender
    /// is to become lazy and to get PRUNE. Otherwise it is to be delivered, held and sent on to all but the sender; the
    /// sender is to become eager, the notes of the message are to go, and its timer is to stop. GOSSIP from the node
    /// itself does nothing. OutOfMemory (99) if an allocation is refused.
    pub fn plan_gossip(
        &self,
        from: NodeId,
        id: MsgId,
        round: u16,
        payload: Seq<u8>,
    ) -> Result<PlumPlan, OutOfMemory>
        requires { length payload ≤ most_payload }
        ensures { IfOk result
            (IsPlumPlan self.now (receives (say from (Gossip id round payload)))) }
    {
        if from == self.me {
            return Ok(self.nothing());
        }
        let alloc = self.held.allocator();
        if self.held.contains(&id) {
            return Ok(PlumPlan {
                spread: Spread::one(alloc, from, self.say(Body::Prune))?,
                plum_change: PlumChange::Lazy(from),
            });
        }
        let held = Held::new(alloc, round.saturating_add(1), payload)?;
        let mut others = self.branches.copy();
        others.down(from);
        let spread = Spread::whole(alloc, self.me, &id, &held, &others)?;
        Ok(PlumPlan {
            spread,
            plum_change: PlumChange::Holds { id, held, from },
        })
    }

    /// Plans the step at IHAVE from a node. Nothing is to happen if the message is held, or if the sender is no
    /// neighbour or the node itself. Otherwise the sender is to be noted after the older notes of the message, unless
    /// it is noted already, and the timer is to run. Nothing is allocated.
    pub fn plan_ihave(&self, from: NodeId, id: MsgId) -> PlumPlan
        ensures { IsPlumPlan self.now (receives (say from (IHave id))) result }
    {
        if from == self.me || self.held.contains(&id) || !self.branches.is_linked(from) {
            return self.nothing();
        }
        self.quiet(PlumChange::Awaits { id, from })
    }

    /// Plans the step at GRAFT from a node: it is to become eager, and to get the message if that is held. GRAFT from
    /// the node itself does nothing. OutOfMemory (99) if an allocation is refused.
    pub fn plan_graft(&self, from: NodeId, id: MsgId) -> Result<PlumPlan, OutOfMemory>
        ensures { IfOk result (IsPlumPlan self.now (receives (say from (Graft id)))) }
    {
        if from == self.me {
            return Ok(self.nothing());
        }
        let alloc = self.held.allocator();
        let spread = match self.held.get(&id) {
            Some(held) => Spread::one(alloc, from, whole_message(alloc, self.me, id, held)?)?,
            None => Spread::quiet(alloc),
        };
        Ok(PlumPlan {
            spread,
            plum_change: PlumChange::Eager(from),
        })
    }

    /// Plans the step at PRUNE from a node: it is to become lazy. PRUNE from the node itself does nothing. Nothing is
    /// allocated, neither here nor when the plan is applied.
    pub fn plan_prune(&self, from: NodeId) -> PlumPlan
        ensures allowed { IsPlumPlan self.now (receives (say from Prune)) result }
        ensures room { may_allocate result.plum_change ≡ false }
    {
        if from == self.me {
            return self.nothing();
        }
        self.quiet(PlumChange::Lazy(from))
    }

    /// Plans the step at which the timer of an id fires. If there is a note of the id, the oldest is to go, and its
    /// sender is to become eager and to get GRAFT. If there is none, the timer is to stop. NoTimer (18) if the timer
    /// does not run; OutOfMemory (99) if an allocation is refused.
    pub fn plan_timer(&self, id: MsgId) -> Result<PlumPlan, TimerFault>
        ensures allowed { IfOk result (IsPlumPlan self.now (fires id)) }
        ensures no_timer { result ≡ Err NoTimer ↔ set.contains self.now.running id ≡ false }
    {
        if !self.has_timer(id) {
            return Err(TimerFault::NoTimer);
        }
        let Some(from) = self.waiting.oldest(&id) else {
            return Ok(self.quiet(PlumChange::Clears(id)));
        };
        let alloc = self.held.allocator();
        Ok(PlumPlan {
            spread: Spread::one(alloc, from, self.say(Body::Graft { id }))?,
            plum_change: PlumChange::Asks { id, from },
        })
    }

    /// Makes a planned change, which must be that of a step from the state as it now is. The change of a plan is one
    /// while nothing changed since it was planned. Only a change by which a message is held, waited for or asked for
    /// may allocate. Out of memory (99), nothing has changed.
    pub fn apply(&mut self, plum_change: PlumChange) -> Result<(), OutOfMemory>
        requires { IsPlumChange self.old plum_change }
        ensures ok { OnOk result (self.new ≡ plum_after self.old plum_change) }
        ensures err { OnErr result (self.new ≡ self.old) }
        ensures room { may_allocate plum_change ≡ false → IsOk result }
    {
        match plum_change {
            PlumChange::Nothing => {}
            PlumChange::Makes { id, held, next } => {
                self.held.insert(id, held)?;
                self.made = next;
            }
            PlumChange::Holds { id, held, from } => {
                self.held.insert(id, held)?;
                self.waiting.clear(&id);
                self.branches.make_eager(from);
            }
            PlumChange::Eager(id) => self.branches.make_eager(id),
            PlumChange::Lazy(id) => self.branches.make_lazy(id),
            PlumChange::Awaits { id, from } => self.waiting.note(id, from)?,
            PlumChange::Asks { id, from } => {
                self.waiting.take_oldest(id)?;
                self.branches.make_eager(from);
            }
            PlumChange::Clears(id) => self.waiting.clear(&id),
        }
        Ok(())
    }

    /// Plans a broadcast of the node's own by `plan_broadcast`, and applies it. It has at most 1,024 bytes, and is not
    /// the node's 4,097th. Out of memory (99), nothing has changed.
    pub fn broadcast(&mut self, payload: Seq<u8>) -> Result<Spread, OutOfMemory>
        requires payload { length payload ≤ most_payload }
        requires made { self.old.made < most_broadcasts }
        ensures ok { IfOk result (IsPlumStep self.old (broadcasts payload) self.new) }
        ensures err { OnErr result (self.new ≡ self.old) }
    {
        let plan = self.plan_broadcast(payload)?;
        Ok(self.follow(plan)?)
    }

    /// Plans the step by `plan_gossip`, and applies it. The payload has at most 1,024 bytes. Out of memory (99),
    /// nothing has changed.
    pub fn on_gossip(
        &mut self,
        from: NodeId,
        id: MsgId,
        round: u16,
        payload: Seq<u8>,
    ) -> Result<Spread, OutOfMemory>
        requires { length payload ≤ most_payload }
        ensures ok { IfOk result
            (IsPlumStep self.old (receives (say from (Gossip id round payload))) self.new) }
        ensures err { OnErr result (self.new ≡ self.old) }
    {
        let plan = self.plan_gossip(from, id, round, payload)?;
        Ok(self.follow(plan)?)
    }

    /// Plans the step by `plan_ihave`, and applies it. Out of memory (99), nothing has changed.
    pub fn on_ihave(&mut self, from: NodeId, id: MsgId) -> Result<Spread, OutOfMemory>
        ensures ok { IfOk result (IsPlumStep self.old (receives (say from (IHave id))) self.new) }
        ensures err { OnErr result (self.new ≡ self.old) }
    {
        let plan = self.plan_ihave(from, id);
        Ok(self.follow(plan)?)
    }

    /// Plans the step by `plan_graft`, and applies it. Out of memory (99), nothing has changed.
    pub fn on_graft(&mut self, from: NodeId, id: MsgId) -> Result<Spread, OutOfMemory>
        ensures ok { IfOk result (IsPlumStep self.old (receives (say from (Graft id))) self.new) }
        ensures err { OnErr result (self.new ≡ self.old) }
    {
        let plan = self.plan_graft(from, id)?;
        Ok(self.follow(plan)?)
    }

    /// Plans the step by `plan_prune`, and applies it. Nothing is allocated.
    pub fn on_prune(&mut self, from: NodeId) -> Spread
        ensures { IsPlumStep self.old (receives (say from Prune)) self.new result }
    {
        let plan = self.plan_prune(from);
        match self.follow(plan) {
            Ok(spread) => spread,
            Err(_) => unreachable!(),
        }
    }

    /// Plans the step by `plan_timer`, and applies it. NoTimer (18) if the timer does not run; OutOfMemory (99) if an
    /// allocation is refused. After a fault nothing has changed.
    pub fn on_timer(&mut self, id: MsgId) -> Result<Spread, TimerFault>
        ensures ok { IfOk result (IsPlumStep self.old (fires id) self.new) }
        ensures no_timer { result ≡ Err NoTimer ↔ set.contains self.old.running id ≡ false }
        ensures err { OnErr result (self.new ≡ self.old) }
    {
        let plan = self.plan_timer(id)?;
        Ok(self.follow(plan)?)
    }

    /// A node becomes a neighbour: it is eager. There must be fewer than 64 neighbours. Nothing is allocated.
    pub fn up(&mut self, id: NodeId)
        requires { length self.old.branches.eager + length self.old.branches.lazy < most_neighbours }
        ensures { AllowedTree self.old (goes_up id) self.new [] None }
    {
        self.branches.up(id);
    }

    /// A node is no longer a neighbour, and the notes by it go. Timers run on. Nothing is allocated.
    pub fn down(&mut self, id: NodeId)
        ensures { AllowedTree self.old (goes_down id) self.new [] None }
    {
        self.branches.down(id);
        self.waiting.forget(id);
    }

    /// Applies a plan, and returns its effects. Out of memory (99), nothing has changed.
    fn follow(&mut self, plan: PlumPlan) -> Result<Spread, OutOfMemory>
        requires { IsPlumChange self.old plan.plum_change }
        ensures spread { IfOk result (λ effects. effects ≡ plan.spread) }
        ensures ok { OnOk result (self.new ≡ plum_after self.old plan.plum_change) }
        ensures err { OnErr result (self.new ≡ self.old) }
        ensures room { may_allocate plan.plum_change ≡ false → IsOk result }
    {
        let PlumPlan {
            spread,
            plum_change,
        } = plan;
        self.apply(plum_change)?;
        Ok(spread)
    }

    /// A message of this node.
    fn say(&self, body: Body) -> Message
        ensures { result ≡ record { from = self.now.me; body = body } }
    {
        Message {
            from: self.me,
            body,
        }
    }

    /// A plan of this change, by which nothing is sent or delivered.
    fn quiet(&self, plum_change: PlumChange) -> PlumPlan
        ensures sends { result.spread.sends.items ≡ [] }
        ensures len { vec_len result.spread.sends ≡ 0 }
        ensures delivered { result.spread.delivered ≡ None }
        ensures plum_change { result.plum_change ≡ plum_change }
    {
        PlumPlan {
            spread: Spread::quiet(self.held.allocator()),
            plum_change,
        }
    }

    /// A plan by which nothing is sent, delivered or changed.
    fn nothing(&self) -> PlumPlan
        ensures sends { result.spread.sends.items ≡ [] }
        ensures len { vec_len result.spread.sends ≡ 0 }
        ensures delivered { result.spread.delivered ≡ None }
        ensures plum_change { result.plum_change ≡ Nothing }
    {
        self.quiet(PlumChange::Nothing)
    }
}
