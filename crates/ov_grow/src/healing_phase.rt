ghost use Rattle.std.specs.Prelude.{◌≡◌, ◌≢◌, ◌+◌, ◌≤◌, ℕ, false, drop, length, take, IfErr, IfNone, IfOk, IfSome};
ghost use Rattle.std.specs.Prelude.{OnOk};
ghost use Rattle.ov_ids.specs.Members.{Ascends};
ghost use Rattle.ov_net.specs.Journal.{changes_of};
ghost use Rattle.ov_net.specs.Net.{IsGone};
ghost use Rattle.ov_grow_options.specs.Limits.{most_rounds};
ghost use Rattle.ov_grow.specs.Faults.{IsFull};
ghost use Rattle.ov_grow.specs.Growth.{AreLive, IsFirstOf, SomebodyLives};
ghost use Rattle.ov_grow.specs.Phases.{AreFirst, AreTold, HasNone, Heal, IsCrashedNeighbour, ReportCrashes};
ghost use Rattle.ov_grow.specs.Code.Standing.{Goes, HasCrashed, HaveMade, HaveNone, IsAnswered, IsNoWay};
ghost use Rattle.ov_grow.specs.Code.Standing.{TakeNoCrashed, TakesNoCrashed, growth_of};

use crate::fault::GrowFault;
use crate::growth_in_progress::Growing;
use crate::phase_moment_and_deliveries::PhaseEnd;
use crate::phase_rules::PhaseRules;
use ov_grow_options::GrowOptions;
use ov_ids::NodeId;
use ov_net::Change;
use ov_script::Act;

/// A live node that has a crashed node in its active view.
#[derive(Clone, Copy)]
struct Found {
    /// The place of the live node among all live ones.
    place: usize,
    /// The live node.
    node: NodeId,
    /// The crashed node.
    crashed: NodeId,
}

impl Growing {
    /// The overlay heals. Some node must live.
    pub(crate) fn heal(&mut self, options: &GrowOptions) -> Result<PhaseEnd, GrowFault>
        requires live { SomebodyLives (growth_of self.old) }
        requires made { HaveMade (most_rounds + most_rounds) (growth_of self.old) }
        ensures goes { IfOk result (λ phase. Goes (λ s u. Heal options.now s phase u) self.old self.new) }
        ensures answered { IfOk result (λ phase. IsAnswered self.new.recording.core phase.moment) }
        ensures refused { IfErr result (IsNoWay (λ s u. (phase : PhaseEnd) × Heal options.now s phase u) self.old) }
        ensures full { IfErr result IsFull }
    {
        let rules = PhaseRules::healing(options);
        self.comment("heal")?;
        self.tell_crashes(options.detect, &rules)?;
        self.rounds(options.heal.get(), &rules)?;
        self.end_phase(options.broadcasts.get(), &rules)
    }

    /// Nodes are told of crashes, unless they learn of them only by sending.
    fn tell_crashes(&mut self, detect: bool, rules: &PhaseRules) -> Result<(), GrowFault>
        ensures goes { OnOk result (Goes (AreTold detect rules.now) self.old self.new) }
        ensures refused { IfErr result (IsNoWay (AreTold detect rules.now) self.old) }
        ensures full { IfErr result IsFull }
    {
        if detect {
            return Ok(());
        }
        self.report_crashes(rules)
    }

    /// Crash reports, one after the other, until no live node has a crashed node in its active view. After a report and
    /// its packets the search goes on where it was, unless the journal says that a node took in a crashed one.
    fn report_crashes(&mut self, rules: &PhaseRules) -> Result<(), GrowFault>
        ensures goes { OnOk result (Goes (ReportCrashes rules.now) self.old self.new) }
        ensures refused { IfErr result (IsNoWay (ReportCrashes rules.now) self.old) }
        ensures full { IfErr result IsFull }
    {
        let nodes = self.live()?;
        let mut from = 0;
        while let Some(found) = self.first_with_crashed(&nodes, from) {
            let before = self.world().journal().len();
            self.act(Act::CrashReport(found.node, found.crashed))?;
            self.run_out(rules)?;
            let _journal = self.world().journal();
            from = self.search_from(found.place, before);
        }
        Ok(())
    }

    /// Of the live nodes, by ascending ids, the first that has a crashed node in its active view, with its place, and
    /// the first such. None before the place `from` may have one.
    fn first_with_crashed(&self, nodes: &[NodeId], from: usize) -> Option<Found>
        requires live { AreLive (growth_of self.now) nodes.now }
        requires none { HaveNone (HasCrashed (growth_of self.now)) (take from nodes.now) }
        ensures some { IfSome result (λ found. AreFirst (growth_of self.now) found.node found.crashed) }
        ensures before { IfSome result (λ found. HaveNone (HasCrashed (growth_of self.now)) (take found.place
            nodes.now)) }
        ensures none { IfNone result (HasNone (growth_of self.now)) }
    {
        let mut place = from;
        while place < nodes.len() {
            let node = nodes[place];
            match self.first_crashed_at(node) {
                Some(crashed) => {
                    return Some(Found {
                        place,
                        node,
                        crashed,
                    });
                }
                None => place += 1,
            }
        }
        None
    }

    /// From which place on the search goes on, when the journal has entries behind so many: from the same one, or from
    /// the first one if an entry tells that a node took in a crashed one.
    fn search_from(&self, place: usize, before: usize) -> usize
        requires { before ≤ length self.now.recording.core.world.journal }
        ensures kept { result ≢ 0 → result ≡ place }
        ensures quiet { result ≢ 0 → TakeNoCrashed self.now.recording.core.world.net
            (changes_of (drop before self.now.recording.core.world.journal)) }
    {
        if self.took_crashed(before) {
            return 0;
        }
        place
    }

    /// Whether an entry behind so many tells that a node took a crashed one into its active view.
    fn took_crashed(&self, before: usize) -> bool
        requires { before ≤ length self.now.recording.core.world.journal }
        ensures { result ≡ false → TakeNoCrashed self.now.recording.core.world.net
            (changes_of (drop before self.now.recording.core.world.journal)) }
    {
        for entry in &self.world().journal()[before..] {
            if self.take_crashed(entry.changes.as_slice()) {
                return true;
            }
        }
        false
    }

    /// Whether one of these changes is that a node took a crashed one into its active view.
    fn take_crashed(&self, changes: &[Change]) -> bool
        ensures { result ≡ false → TakeNoCrashed self.now.recording.core.world.net changes.now }
    {
        for change in changes {
            if self.takes_crashed(*change) {
                return true;
            }
        }
        false
    }

    /// Whether a change is that a node took a crashed one into its active view.
    fn takes_crashed(&self, change: Change) -> bool
        ensures { result ≡ false → TakesNoCrashed self.now.recording.core.world.net change }
    {
        match change {
            Change::Up(_, taken) => self.has_crashed(taken),
            Change::Born(_) | Change::Down(_, _) | Change::Gone(_) => false,
        }
    }

    /// The first crashed node in the active view of a live node, by ascending ids.
    fn first_crashed_at(&self, node: NodeId) -> Option<NodeId>
        ensures some { IfSome result (λ a. IsCrashedNeighbour (growth_of self.now) node a) }
        ensures least { IfSome result (λ a. (b : ℕ) → IsCrashedNeighbour (growth_of self.now) node b → a ≤ b) }
        ensures none { IfNone result ((b : ℕ) → ¬ IsCrashedNeighbour (growth_of self.now) node b) }
    {
        match self.world().peer(node) {
            Some(peer) => self.first_crashed_of(peer.active()),
            None => None,
        }
    }

    /// The first of these nodes that crashed. Their ids must ascend.
    fn first_crashed_of(&self, nodes: &[NodeId]) -> Option<NodeId>
        requires { Ascends nodes.now }
        ensures some { IfSome result (IsFirstOf (IsGone self.now.recording.core.world.net) nodes.now) }
        ensures none { IfNone result (HaveNone (IsGone self.now.recording.core.world.net) nodes.now) }
    {
        for node in nodes {
            if self.has_crashed(*node) {
                return Some(*node);
            }
        }
        None
    }
}
