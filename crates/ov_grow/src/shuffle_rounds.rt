ghost use Rattle.std.specs.Prelude.{IfErr, IfOk, OnOk};
ghost use Rattle.ov_script.specs.declared.recordable_event.Act.TheVariants as act;
ghost use Rattle.ov_grow.specs.Faults.{IsFull};
ghost use Rattle.ov_grow.specs.Rounds.{AreLiveInOrder, DoesEach, Round, Rounds};
ghost use Rattle.ov_grow.specs.Code.Standing.{AllLive, Goes, IsNoWay, growth_of};

use crate::fault::GrowFault;
use crate::growth_in_progress::Growing;
use crate::phase_rules::PhaseRules;
use ov_ids::{NodeId, OutOfMemory};
use ov_script::Act;

impl Growing {
    /// So many rounds of shuffles.
    pub(crate) fn rounds(&mut self, count: u32, rules: &PhaseRules) -> Result<(), GrowFault>
        ensures goes { OnOk result (Goes (Rounds rules.now count) self.old self.new) }
        ensures refused { IfErr result (IsNoWay (Rounds rules.now count) self.old) }
        ensures full { IfErr result IsFull }
    {
        for _round in 0..count {
            self.round(rules)?;
        }
        Ok(())
    }

    /// A round of shuffles.
    fn round(&mut self, rules: &PhaseRules) -> Result<(), GrowFault>
        ensures goes { OnOk result (Goes (Round rules.now) self.old self.new) }
        ensures refused { IfErr result (IsNoWay (Round rules.now) self.old) }
        ensures full { IfErr result IsFull }
    {
        let order = self.live_in_order()?;
        self.shuffle(&order)?;
        self.run_out(rules)
    }

    /// The live nodes in a random order. OutOfMemory (99) is returned if an allocation was refused.
    pub(crate) fn live_in_order(&mut self) -> Result<Vec<NodeId>, OutOfMemory>
        ensures { IfOk result (λ order. Goes (λ s u. AreLiveInOrder s order.items u) self.old self.new) }
    {
        let live = self.live()?;
        self.choices.order(self.alloc, &live)
    }

    /// Each of these nodes starts a shuffle. All of them must live.
    fn shuffle(&mut self, nodes: &[NodeId]) -> Result<(), GrowFault>
        requires { AllLive nodes.now (growth_of self.old) }
        ensures goes { OnOk result (Goes (DoesEach act.Shuffle nodes.now) self.old self.new) }
        ensures refused { IfErr result (IsNoWay (DoesEach act.Shuffle nodes.now) self.old) }
        ensures full { IfErr result IsFull }
    {
        for node in nodes {
            self.act(Act::Shuffle(*node))?;
        }
        Ok(())
    }
}
