ghost use Rattle.std.specs.Prelude.{◌≡◌, ◌≤◌, ℕ, List, length, vec_len, None, false, IfOk, IfErr, IsOk};
ghost use Rattle.std.specs.Prelude.{OnOk, OnErr, option_map};
ghost use Rattle.std.specs.FinMap as map;
ghost use Rattle.std.specs.FinSet as set;
ghost use Rattle.ov_ids.specs.FaultOrder.{IsRefusedBy};
ghost use Rattle.ov_wire.specs.Messages.{AreInRange, AreSendsInRange};
ghost use Rattle.ov_views.specs.Changes.{after_changes};
ghost use Rattle.ov_views.specs.ViewsState.{AreViews};
ghost use Rattle.ov_plum.specs.PlumChange.{may_allocate};
ghost use Rattle.ov_plum.specs.PlumState.{AreBranches, IsPlum};
ghost use Rattle.ov_peer.specs.Code.GoodPlan.{IsGoodPlan, most_words};
ghost use Rattle.ov_peer.specs.Code.Messages.{IsOfHyParView};
ghost use Rattle.ov_peer.specs.Faults.{IsFaultOf, IsInputInRange};
ghost use Rattle.ov_peer.specs.Limits.{DrawnFrom, most_sends};
ghost use Rattle.ov_peer.specs.PeerState.{IsPeer, newborn};
ghost use Rattle.ov_peer.specs.Planning.{Plans, IsPlanFor, Follows, output_of};
ghost use Rattle.ov_peer.specs.Step.{PeerStep, IsPeerStep};
ghost use Rattle.ov_peer.specs.declared.fault.PeerFault.TheVariants.{OutOfMemory as out_of_memory};
ghost use Rattle.ov_peer.specs.declared.input_and_output.Input.TheVariants as input;
ghost use Rattle.ov_peer.specs.declared.input_and_output.Input.TheVariants.{Boot, Receive, CrashReport, Broadcast};
ghost use Rattle.ov_peer.specs.declared.input_and_output.Input.TheVariants.{Timer};

use crate::fault::PeerFault;
use crate::hyparview_message_dispatch::{hear_next, hear_of_crash, walk};
use crate::input_and_output::{Input, Output};
use crate::plan::{HyParViewChange, NextViews, Plan, follow};
use crate::tree_updates::{joins, tell};
use ov_ids::{MsgId, NodeId, OutOfMemory, Params, Seq};
use ov_neighbor::Attempt;
use ov_plum::{Plum, PlumChange};
use ov_shuffle::Sent;
use ov_views::Views;
use ov_wire::{Body, MOST_PAYLOAD, Message};
use ov_words::{Draws, Words};
use std::alloc::Global;
use std::marker::Model;
use std::mem;

/// How many broadcasts a node may make, as `most_broadcasts` of `ov_plum` says. (Chosen here.)
pub const MOST_BROADCASTS: u32 = 4096;

/// A node: its views, its attempt, the list of its last shuffle, and its part of Plumtree's tree. The neighbours in the
/// tree are always the active members. Contracts see a `PeerState`.
pub struct Peer {
    alloc: Global,
    views: Views,
    attempt: Attempt,
    sent: Sent,
    plum: Plum,
}

impl Drop for Peer {
    /// Drops the parts. It is written by hand since a call is proved faster than the same drops at each exit.
    fn drop(self) {
        let Peer {
            alloc: _,
            views: _,
            attempt: _,
            sent: _,
            plum: _,
        } = self;
    }
}

impl Model for Peer {
    ghost use Rattle.ov_peer.specs.Code.Codes.{peer_code};
    ghost use Rattle.ov_peer.specs.PeerState.{PeerState, IsPeer};

    ghost Value = { PeerState };

    ghost coded = { peer_code };

    ghost view = { λ a. record {
      hyparview = record { views = a.views; attempt = a.attempt; sent = a.sent };
      tree = a.plum;
    } };

    ghost invariant = { λ a. IsPeer (record {
      hyparview = record { views = a.views; attempt = a.attempt; sent = a.sent };
      tree = a.plum;
    }) };
}

impl Peer {
    /// A node at its birth, which knows nobody. Nothing is allocated.
    pub fn new(alloc: Global, me: NodeId, params: Params) -> Peer
        ensures { result ≡ newborn me params }
    {
        Peer {
            alloc,
            views: Views::new(me, params),
            attempt: Attempt::new(alloc),
            sent: Sent::new(alloc),
            plum: Plum::new(alloc, me),
        }
    }

    /// An equal node. Both nodes share the payloads that they hold. OutOfMemory (99) if an allocation is refused.
    pub fn copy(&self) -> Result<Peer, OutOfMemory>
        ensures { IfOk result (λ p. p ≡ self.now) }
    {
        Ok(Peer {
            alloc: self.alloc,
            views: self.views.copy(),
            attempt: self.attempt.copy()?,
            sent: self.sent.copy()?,
            plum: self.plum.copy()?,
        })
    }

    /// The active members, ascending.
    pub fn active(&self) -> &[NodeId]
        ensures value { result.now ≡ self.now.hyparview.views.active }
        ensures views { AreViews self.now.hyparview.views }
        ensures whole { IsPeer self.now }
    {
        self.views.active()
    }

    /// The passive members, ascending.
    pub fn passive(&self) -> &[NodeId]
        ensures value { result.now ≡ self.now.hyparview.views.passive }
        ensures views { AreViews self.now.hyparview.views }
    {
        self.views.passive()
    }

    /// The eager members, ascending: the active members to whom whole messages go at once.
    pub fn eager(&self) -> &[NodeId]
        ensures value { result.now ≡ self.now.tree.branches.eager }
        ensures branches { AreBranches self.now.tree.branches }
        ensures whole { IsPeer self.now }
    {
        self.plum.eager()
    }

    /// The lazy members, ascending: the active members to whom a message is only announced.
    pub fn lazy(&self) -> &[NodeId]
        ensures value { result.now ≡ self.now.tree.branches.lazy }
        ensures branches { AreBranches self.now.tree.branches }
        ensures whole { IsPeer self.now }
    {
        self.plum.lazy()
    }

    /// The number of the node's next broadcast. That is also how many broadcasts it has made, at most 4,096.
    pub fn made(&self) -> u32
        ensures value { result ≡ self.now.tree.made }
        ensures kept { IsPlum self.now.tree }
    {
        self.plum.made()
    }

    /// Whether the timer of this message runs.
    pub fn has_timer(&self, id: MsgId) -> bool
        ensures { result ≡ set.contains self.now.tree.running id }
    {
        self.plum.has_timer(id)
    }

    /// The round with which the node holds this message, if it holds it: 0 if it made the message, and else how many
    /// links the message came over, up to 65,535.
    pub fn held_round(&self, id: MsgId) -> Option<u16>
        ensures { result ≡ option_map (λ h. h.round) (map.get self.now.tree.held id) }
    {
        self.plum.held_round(id)
    }

    /// Plans one step, in which the node takes an input. Random choices are drawn from the words. The node is not
    /// changed: its change is returned as a plan. Of the messages that it holds only what is sent is copied.
    ///
    /// A step uses at most 40 random words and sends at most 64 messages. Faults, the first applicable refusal: NoTimer
    /// (18) if the timer does not run; of a broadcast PayloadTooLong (19) if it has more than 1,024 bytes, then
    /// TooManyMessages (20) if the node has made 4,096. Out of memory (99) only if none of these applies.
    pub fn plan(&self, input: Input, words: &Words) -> Result<Plan, PeerFault>
        requires { IsInputInRange input }
        ensures planned { IfOk result (λ g. DrawnFrom words.now (λ choices. Plans self.now input choices g)) }
        ensures fits { IfOk result (IsPlanFor self.now) }
        ensures few { IfOk result (λ g. vec_len g.sends ≤ most_sends) }
        ensures ranges { IfOk result (λ g. AreSendsInRange g.sends.items) }
        ensures judged { IfOk result (λ _. IsFaultOf self.now input None) }
        ensures refused { IfErr result (IsRefusedBy out_of_memory (IsFaultOf self.now input)) }
    {
        let mut draws = Draws::new(words);
        // handed on as it is: `?` would copy the plan twice
        self.plan_by(input, &mut draws)
    }

    /// Plans one step, with random choices by the next words.
    #[inline(always)]
    fn plan_by(&self, input: Input, draws: &mut Draws<'_>) -> Result<Plan, PeerFault>
        requires words { most_words ≤ length draws.old }
        requires range { IsInputInRange input }
        ensures plan { IfOk result (IsGoodPlan self.now input draws.old draws.new) }
        ensures judged { IfOk result (λ _. IsFaultOf self.now input None) }
        ensures refused { IfErr result (IsRefusedBy out_of_memory (IsFaultOf self.now input)) }
    {
        match input {
            Input::Boot(contact) => Ok(self.boot(contact)?),
            Input::Receive(message) => Ok(self.receive(message, draws)?),
            Input::CrashReport(crashed) => Ok(self.crash_report(crashed, draws)?),
            Input::Shuffle => Ok(self.shuffle(draws)?),
            Input::Broadcast(payload) => self.broadcast(payload),
            Input::Timer(id) => self.timer(id),
        }
    }

    /// Follows a plan, which must be one for the node as it now is. So the node takes a step, and what is returned is
    /// what this step sends, changes and delivers: what the plan says. It is the step that was planned if the node has
    /// not changed since. Out of memory (99), the node is as it was. That happens only if the plan's change of the tree
    /// may allocate.
    pub fn apply(&mut self, plan: Plan) -> Result<Output, OutOfMemory>
        requires { IsPlanFor self.old plan }
        ensures follows { OnOk result (Follows self.old plan self.new) }
        ensures step { IfOk result (λ o. IsPeerStep self.old self.new o.sends.items o.changes.items o.delivered) }
        ensures output { IfOk result (λ o. o ≡ output_of plan) }
        ensures err { OnErr result (self.new ≡ self.old) }
        ensures room { may_allocate plan.plum_change ≡ false → IsOk result }
    {
        let mut plan = plan;
        self.follow(&mut plan)?;
        Ok(Output {
            sends: plan.sends,
            changes: plan.changes,
            delivered: plan.delivered,
        })
    }

    /// Follows a plan as `apply` does, with the same fault. What becomes part of the node is taken out of the plan,
    /// also if there is a fault; what the step sends, changes and delivers stays in it. So nothing large is moved.
    pub fn follow(&mut self, plan: &mut Plan) -> Result<(), OutOfMemory>
        requires { IsPlanFor self.old plan.old }
        ensures follows { OnOk result (Follows self.old plan.old self.new) }
        ensures step { OnOk result (IsPeerStep self.old self.new
            plan.old.sends.items plan.old.changes.items plan.old.delivered) }
        ensures output { output_of plan.new ≡ output_of plan.old }
        ensures err { OnErr result (self.new ≡ self.old) }
        ensures room { may_allocate plan.old.plum_change ≡ false → IsOk result }
    {
        let plum_change = mem::replace(&mut plan.plum_change, PlumChange::Nothing);
        let views_change = mem::replace(&mut plan.views_change, HyParViewChange::Nothing);
        self.plum.apply(plum_change)?;
        prove!(self.plum.eager().len() + self.plum.lazy().len() <= self.views.active().len());
        tell(&mut self.plum, &plan.changes);
        follow(
            &mut self.views,
            &mut self.attempt,
            &mut self.sent,
            views_change,
        );
        Ok(())
    }

    /// One step: the node takes an input. Random choices are drawn from the words. After a fault the node is as it was.
    ///
    /// A step uses at most 40 random words and sends at most 64 messages. Its faults are those of `plan`.
    pub fn step(&mut self, input: Input, words: &Words) -> Result<Output, PeerFault>
        requires { IsInputInRange input }
        ensures allowed { IfOk result (λ o. DrawnFrom words.now
            (λ choices. PeerStep self.old input choices self.new o.sends.items o.changes.items o.delivered)) }
        ensures told { IfOk result (λ o. self.new.hyparview.views.active
            ≡ after_changes o.changes.items self.old.hyparview.views.active) }
        ensures few { IfOk result (λ o. vec_len o.sends ≤ most_sends) }
        ensures ranges { IfOk result (λ o. AreSendsInRange o.sends.items) }
        ensures judged { IfOk result (λ _. IsFaultOf self.old input None) }
        ensures refused { IfErr result (IsRefusedBy out_of_memory (IsFaultOf self.old input)) }
        ensures err { OnErr result (self.new ≡ self.old) }
    {
        let plan = self.plan(input, words)?;
        Ok(self.apply(plan)?)
    }

    /// The node starts: it is to send JOIN to its contact, if there is one.
    #[inline(always)]
    fn boot(&self, contact: Option<NodeId>) -> Result<Plan, OutOfMemory>
        ensures { IfOk result (λ g. (words : List ℕ) → IsGoodPlan self.now (Boot contact) words words g) }
    {
        Ok(Plan {
            sends: joins(self.alloc, self.views.me(), contact)?,
            changes: Vec::new(self.alloc),
            delivered: None,
            views_change: HyParViewChange::Nothing,
            plum_change: PlumChange::Nothing,
        })
    }

    /// The node starts a shuffle.
    #[inline(always)]
    fn shuffle(&self, draws: &mut Draws<'_>) -> Result<Plan, OutOfMemory>
        requires { most_words ≤ length draws.old }
        ensures { IfOk result (IsGoodPlan self.now input.Shuffle draws.old draws.new) }
    {
        let mut sent = self.sent.copy()?;
        let moves = ov_shuffle::start(self.alloc, &self.views, &mut sent, draws)?;
        Ok(Plan::of_moves(moves, HyParViewChange::Shuffle(sent)))
    }

    /// The node's views and attempt, which a handler is to change, in the box in which a plan has them.
    #[inline(always)]
    fn next_views(&self) -> Result<Box<NextViews>, OutOfMemory>
        ensures { IfOk result (λ n. n.value
            ≡ record { views = self.now.hyparview.views; attempt = self.now.hyparview.attempt }) }
    {
        let attempt = self.attempt.copy()?;
        let views = self.views.copy();
        Ok(Box::new(self.alloc, NextViews { views, attempt })?)
    }

    /// A node is reported to have crashed.
    #[inline(always)]
    fn crash_report(&self, crashed: NodeId, draws: &mut Draws<'_>) -> Result<Plan, OutOfMemory>
        requires { most_words ≤ length draws.old }
        ensures { IfOk result (IsGoodPlan self.now (CrashReport crashed) draws.old draws.new) }
    {
        let mut next = self.next_views()?;
        let moves = hear_of_crash(self.alloc, &mut next, draws, crashed)?;
        Ok(Plan::of_moves(moves, HyParViewChange::ViewsAndAttempt(next)))
    }

    /// A message comes.
    #[inline(always)]
    fn receive(&self, message: Message, draws: &mut Draws<'_>) -> Result<Plan, OutOfMemory>
        requires words { most_words ≤ length draws.old }
        requires range { AreInRange message }
        ensures { IfOk result (IsGoodPlan self.now (Receive message) draws.old draws.new) }
    {
        let from = message.from;
        let planned = match message.body {
            Body::Gossip { id, round, payload } => {
                self.plum.plan_gossip(from, id, round, payload)?
            }
            Body::IHave { id } => self.plum.plan_ihave(from, id),
            Body::Graft { id } => self.plum.plan_graft(from, id)?,
            Body::Prune => self.plum.plan_prune(from),
            body => return self.hear(from, &body, draws),
        };
        Ok(Plan::of_tree(self.alloc, self.views.me(), planned))
    }

    /// A message of HyParView comes. If its walk only goes on, the views are not copied.
    #[inline(always)]
    fn hear(&self, from: NodeId, body: &Body, draws: &mut Draws<'_>) -> Result<Plan, OutOfMemory>
        requires words { most_words ≤ length draws.old }
        requires range { AreInRange (record { from = from; body = body.now }) }
        requires kind { IsOfHyParView body.now }
        ensures { IfOk result
            (IsGoodPlan self.now (Receive (record { from = from; body = body.now })) draws.old draws.new) }
    {
        let walked = walk(self.alloc, &self.views, draws, from, body)?;
        match walked {
            Some(moves) => Ok(Plan::of_moves(moves, HyParViewChange::Nothing)),
            None => self.handle(from, body, draws),
        }
    }

    /// A message of HyParView comes, and may change the views and the attempt.
    #[inline(always)]
    fn handle(&self, from: NodeId, body: &Body, draws: &mut Draws<'_>) -> Result<Plan, OutOfMemory>
        requires words { most_words ≤ length draws.old }
        requires range { AreInRange (record { from = from; body = body.now }) }
        requires kind { IsOfHyParView body.now }
        ensures { IfOk result
            (IsGoodPlan self.now (Receive (record { from = from; body = body.now })) draws.old draws.new) }
    {
        let mut next = self.next_views()?;
        let moves = hear_next(self.alloc, &mut next, &self.sent, draws, from, body)?;
        Ok(Plan::of_moves(moves, HyParViewChange::ViewsAndAttempt(next)))
    }

    /// The node broadcasts a payload.
    #[inline(always)]
    fn broadcast(&self, payload: Seq<u8>) -> Result<Plan, PeerFault>
        ensures plan { IfOk result (λ g. (words : List ℕ) → IsGoodPlan self.now (Broadcast payload) words words g) }
        ensures judged { IfOk result (λ _. IsFaultOf self.now (Broadcast payload) None) }
        ensures refused { IfErr result (IsRefusedBy out_of_memory (IsFaultOf self.now (Broadcast payload))) }
    {
        if payload.as_slice().len() > MOST_PAYLOAD as usize {
            return Err(PeerFault::PayloadTooLong);
        }
        if self.plum.made() >= MOST_BROADCASTS {
            return Err(PeerFault::TooManyMessages);
        }
        let planned = self.plum.plan_broadcast(payload)?;
        Ok(Plan::of_tree(self.alloc, self.views.me(), planned))
    }

    /// The timer of a message fires.
    #[inline(always)]
    fn timer(&self, id: MsgId) -> Result<Plan, PeerFault>
        ensures plan { IfOk result (λ g. (words : List ℕ) → IsGoodPlan self.now (Timer id) words words g) }
        ensures judged { IfOk result (λ _. IsFaultOf self.now (Timer id) None) }
        ensures refused { IfErr result (IsRefusedBy out_of_memory (IsFaultOf self.now (Timer id))) }
    {
        let planned = self.plum.plan_timer(id)?;
        Ok(Plan::of_tree(self.alloc, self.views.me(), planned))
    }
}
