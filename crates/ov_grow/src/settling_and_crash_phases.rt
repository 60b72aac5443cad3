ghost use Rattle.std.specs.Prelude.{◌+◌, IfErr, IfOk, OnOk};
ghost use Rattle.ov_script.specs.declared.recordable_event.Act.TheVariants as act;
ghost use Rattle.ov_grow_options.specs.Limits.{most_rounds};
ghost use Rattle.ov_grow.specs.Faults.{IsFull};
ghost use Rattle.ov_grow.specs.Growth.{SomebodyLives};
ghost use Rattle.ov_grow.specs.Phases.{AreShareOfLive, AreToCrash, CrashNodes, IsCutAt, Settle};
ghost use Rattle.ov_grow.specs.Rounds.{DoesEach};
ghost use Rattle.ov_grow.specs.Code.Standing.{Goes, HaveMade, IsAnswered, IsNoWay, MayCrash, StillLive, growth_of};

use crate::fault::GrowFault;
use crate::growth_in_progress::Growing;
use crate::phase_moment_and_deliveries::PhaseEnd;
use crate::phase_rules::PhaseRules;
use ov_cert::Cert;
use ov_grow_options::{Crash, GrowOptions, Share};
use ov_ids::{NodeId, OutOfMemory};
use ov_script::Act;

impl Growing {
    /// The overlay settles. Some node must live, and none may have made a broadcast.
    pub(crate) fn settle(&mut self, options: &GrowOptions) -> Result<PhaseEnd, GrowFault>
        requires live { SomebodyLives (growth_of self.old) }
        requires made { HaveMade 0 (growth_of self.old) }
        ensures goes { IfOk result (λ phase. Goes (λ s u. Settle options.now s phase u) self.old self.new) }
        ensures answered { IfOk result (λ phase. IsAnswered self.new.recording.core phase.moment) }
        ensures live { OnOk result (SomebodyLives (growth_of self.new)) }
        ensures made { OnOk result (HaveMade most_rounds (growth_of self.new)) }
        ensures lasting { IfOk result (λ phase. StillLive phase.moment (growth_of self.new)) }
        ensures refused { IfErr result (IsNoWay (λ s u. (phase : PhaseEnd) × Settle options.now s phase u) self.old) }
        ensures full { IfErr result IsFull }
    {
        let rules = PhaseRules::settling(options);
        self.comment("settle")?;
        self.rounds(options.rounds.get(), &rules)?;
        self.end_phase(options.broadcasts.get(), &rules)
    }

    /// Nodes crash. A report of the moment at which the overlay had settled must be filed, and who lived then must
    /// live.
    pub(crate) fn crash(
        &mut self,
        settled: u32,
        options: &GrowOptions,
    ) -> Result<PhaseEnd, GrowFault>
        requires answered { IsAnswered self.old.recording.core settled }
        requires live { SomebodyLives (growth_of self.old) }
        requires made { HaveMade most_rounds (growth_of self.old) }
        requires lasting { StillLive settled (growth_of self.old) }
        ensures goes { IfOk result (λ phase. Goes (λ s u. CrashNodes options.now settled s phase u) self.old self.new) }
        ensures answered { IfOk result (λ phase. IsAnswered self.new.recording.core phase.moment) }
        ensures live { OnOk result (SomebodyLives (growth_of self.new)) }
        ensures made { OnOk result (HaveMade (most_rounds + most_rounds) (growth_of self.new)) }
        ensures refused { IfErr result
            (IsNoWay (λ s u. (phase : PhaseEnd) × CrashNodes options.now settled s phase u) self.old) }
        ensures full { IfErr result IsFull }
    {
        let rules = PhaseRules::crashing(options);
        self.comment("crash")?;
        let nodes = self.to_crash(options.crash, settled)?;
        self.crash_each(&nodes)?;
        self.end_phase(options.broadcasts.get(), &rules)
    }

    /// The nodes that are to crash, in order. OutOfMemory (99) is returned if an allocation was refused.
    fn to_crash(&mut self, crash: Crash, settled: u32) -> Result<Vec<NodeId>, OutOfMemory>
        requires answered { IsAnswered self.old.recording.core settled }
        requires live { SomebodyLives (growth_of self.old) }
        requires lasting { StillLive settled (growth_of self.old) }
        ensures goes { IfOk result (λ nodes. Goes (λ s u. AreToCrash crash settled s nodes.items u) self.old self.new) }
        ensures may { IfOk result (λ nodes. MayCrash nodes.items (growth_of self.new)) }
    {
        match crash {
            Crash::Share(share) => self.share_of_live(share),
            Crash::Cut => self.cut_at(settled),
        }
    }

    /// So many of 100 live nodes, in a random order. OutOfMemory (99) is returned if an allocation was refused.
    fn share_of_live(&mut self, share: Share) -> Result<Vec<NodeId>, OutOfMemory>
        requires { SomebodyLives (growth_of self.old) }
        ensures goes { IfOk result (λ nodes. Goes (λ s u. AreShareOfLive share s nodes.items u) self.old self.new) }
        ensures may { IfOk result (λ nodes. MayCrash nodes.items (growth_of self.new)) }
    {
        let mut order = self.live_in_order()?;
        let count = order.len() as u128 * share.get() as u128 / 100;
        order.truncate(count as usize);
        Ok(order)
    }

    /// The cut that the report of a moment names, or no node. OutOfMemory (99) is returned if an allocation was
    /// refused.
    fn cut_at(&self, moment: u32) -> Result<Vec<NodeId>, OutOfMemory>
        requires { IsAnswered self.now.recording.core moment }
        ensures { IfOk result (λ cut. IsCutAt self.now.recording.core.world.journal moment cut.items) }
    {
        let core = self.recording.core();
        let _world = core.world();
        let Some(report) = core.report(moment) else {
            return Ok(Vec::new(self.alloc));
        };
        match report.checked().cert() {
            Cert::Split(split) => Ok(split.cut.as_slice().to_vec(self.alloc)?),
            Cert::Linked { .. } => Ok(Vec::new(self.alloc)),
        }
    }

    /// Each of these nodes crashes. All of them must live, none may stand twice, and some other node must live.
    fn crash_each(&mut self, nodes: &[NodeId]) -> Result<(), GrowFault>
        requires { MayCrash nodes.now (growth_of self.old) }
        ensures goes { OnOk result (Goes (DoesEach act.Crash nodes.now) self.old self.new) }
        ensures refused { IfErr result (IsNoWay (DoesEach act.Crash nodes.now) self.old) }
        ensures full { IfErr result IsFull }
    {
        for node in nodes {
            self.act(Act::Crash(*node))?;
        }
        Ok(())
    }
}
