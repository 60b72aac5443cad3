ghost use Rattle.std.specs.Prelude.{◌≡◌, ◌≤◌, ◌⊎◌, ℕ, drop, length, IfErr, IfOk, OnOk};
ghost use Rattle.ov_script.specs.WrittenLines.{analysis_line};
ghost use Rattle.ov_script.specs.declared.recordable_event.Act.TheVariants as act;
ghost use Rattle.ov_grow.specs.Faults.{IsFull};
ghost use Rattle.ov_grow.specs.Growth.{Does, SomebodyLives, Writes};
ghost use Rattle.ov_grow.specs.Phases.{EndsPhase, IsAnalysedAt, deliveries_in};
ghost use Rattle.ov_grow.specs.Code.Standing.{Goes, IsAnswered, IsFresh, IsNoWay, MayMake, StillLive, growth_of};
ghost use Rattle.ov_grow.specs.declared.fault.GrowFault.TheVariants.{OutOfMemory as out_of_memory};

use crate::fault::GrowFault;
use crate::growth_in_progress::Growing;
use crate::phase_moment_and_deliveries::PhaseEnd;
use crate::phase_rules::PhaseRules;
use ov_script::Act;

impl Growing {
    /// A phase ends: a snapshot is taken and analysed, and then there are so many broadcasts. Some node must live.
    pub(crate) fn end_phase(
        &mut self,
        broadcasts: u32,
        rules: &PhaseRules,
    ) -> Result<PhaseEnd, GrowFault>
        requires live { SomebodyLives (growth_of self.old) }
        requires made { MayMake broadcasts (growth_of self.old) }
        ensures ends { IfOk result (λ phase. Goes (λ s u. EndsPhase rules.now broadcasts s phase u) self.old self.new) }
        ensures answered { IfOk result (λ phase. IsAnswered self.new.recording.core phase.moment) }
        ensures lasting { IfOk result (λ phase. StillLive phase.moment (growth_of self.new)) }
        ensures refused { IfErr result
            (IsNoWay (λ s u. (phase : PhaseEnd) × EndsPhase rules.now broadcasts s phase u) self.old) }
        ensures full { IfErr result IsFull }
    {
        let moment = self.analyse_now()?;
        self.broadcasts(broadcasts, rules)?;
        let deliveries = self.deliveries_after(moment);
        Ok(PhaseEnd { moment, deliveries })
    }

    /// Takes a snapshot and analyses it. The moment is returned. Some node must live.
    fn analyse_now(&mut self) -> Result<u32, GrowFault>
        requires { SomebodyLives (growth_of self.old) }
        ensures goes { IfOk result (λ m. Goes (λ s u. IsAnalysedAt m s u) self.old self.new) }
        ensures answered { IfOk result (λ m. IsAnswered self.new.recording.core m) }
        ensures live { OnOk result (SomebodyLives (growth_of self.new)) }
        ensures within { IfOk result (λ m. m ≤ length self.new.recording.core.world.journal) }
        ensures lasting { IfOk result (λ m. StillLive m (growth_of self.new)) }
        ensures refused { IfErr result (IsNoWay (λ s u. (m : ℕ) × IsAnalysedAt m s u) self.old) }
        ensures full { IfErr result IsFull }
    {
        self.take_snapshot()?;
        let moment = self.entries();
        self.analyse(moment)?;
        let _journal = self.world().journal();
        Ok(moment)
    }

    /// Takes a snapshot.
    fn take_snapshot(&mut self) -> Result<(), GrowFault>
        ensures goes { OnOk result (Goes (λ s u. Does s act.Snapshot u) self.old self.new) }
        ensures fresh { OnOk result (IsFresh self.new.recording.core) }
        ensures refused { IfErr result (IsNoWay (λ s u. Does s act.Snapshot u) self.old) }
        ensures full { IfErr result IsFull }
    {
        let _world = self.recording.core().world();
        let before = self.packets();
        self.recording.act(Act::Snapshot)?;
        self.log
            .tell(self.alloc, &Act::Snapshot, None, before, &self.recording)?;
        let _script = self.recording.script();
        Ok(())
    }

    /// Analyses the links of now, of which a snapshot was just taken.
    fn analyse(&mut self, moment: u32) -> Result<(), GrowFault>
        requires now { moment ≡ length self.old.recording.core.world.journal }
        requires fresh { IsFresh self.old.recording.core }
        ensures goes { OnOk result (Goes (λ s u. Writes s (analysis_line moment) u) self.old self.new) }
        ensures answered { OnOk result (IsAnswered self.new.recording.core moment) }
        ensures live { OnOk result (SomebodyLives (growth_of self.new)) }
        ensures refused { IfErr result (λ f. (f ≡ out_of_memory) ⊎ ¬ SomebodyLives (growth_of self.old)) }
    {
        let _journal = self.world().journal();
        self.recording.analyse(moment)?;
        Ok(())
    }

    /// How many entries the journal has.
    fn entries(&self) -> u32
        ensures { result ≡ length self.now.recording.core.world.journal }
    {
        self.world().journal().len() as u32
    }

    /// How many entries after this one tell a delivery.
    fn deliveries_after(&self, moment: u32) -> u32
        requires { moment ≤ length self.now.recording.core.world.journal }
        ensures { result ≡ deliveries_in (drop moment self.now.recording.core.world.journal) }
    {
        let later = &self.world().journal()[moment as usize..];
        later
            .iter()
            .filter(|entry| entry.delivery.is_some())
            .count() as u32
    }
}
