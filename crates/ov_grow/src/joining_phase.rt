ghost use Rattle.std.specs.Prelude.{◌≡◌, ◌-◌, IfErr, OnOk};
ghost use Rattle.std.specs.FinMap.{empty};
ghost use Rattle.ov_grow.specs.Faults.{IsFull};
ghost use Rattle.ov_grow.specs.Growing.{params_for};
ghost use Rattle.ov_grow.specs.Phases.{Births, Join, joining, turns_between};
ghost use Rattle.ov_grow.specs.Code.Standing.{AreBorn, Goes, IsNoWay, MayBear, growth_of};

use crate::fault::GrowFault;
use crate::growth_in_progress::Growing;
use crate::phase_rules::PhaseRules;
use ov_grow_options::{GrowOptions, Pace};
use ov_ids::NodeId;
use ov_script::Act;

/// The most turns between two births, if no other number is asked for. (Chosen here.)
const MOST_TURNS: u32 = 1000;

impl Growing {
    /// Nodes join. None may be born before.
    pub(crate) fn join(&mut self, options: &GrowOptions) -> Result<(), GrowFault>
        requires unborn { self.old.recording.core.world.net.nodes ≡ empty }
        requires params { self.old.recording.core.world.net.params ≡ params_for options.now }
        ensures goes { OnOk result (Goes (Join options.now) self.old self.new) }
        ensures refused { IfErr result (IsNoWay (Join options.now) self.old) }
        ensures full { IfErr result IsFull }
    {
        let rules = PhaseRules::joining(options);
        self.comment("join")?;
        self.act(Act::Boot(NodeId::new(1), None))?;
        self.births(options.nodes.get(), turns_between(options.pace), &rules)?;
        self.run_out(&rules)
    }

    /// The nodes from 2 on are born, and there are turns before each birth. Only node 1 may be born before.
    fn births(&mut self, nodes: u32, pace: u32, rules: &PhaseRules) -> Result<(), GrowFault>
        requires few { MayBear nodes (growth_of self.old) }
        requires born { AreBorn 1 (growth_of self.old) }
        ensures goes { OnOk result (Goes (Births rules.now pace 2 (nodes - 1)) self.old self.new) }
        ensures refused { IfErr result (IsNoWay (Births rules.now pace 2 (nodes - 1)) self.old) }
        ensures full { IfErr result IsFull }
    {
        for id in 2..nodes + 1 {
            self.turns(pace, rules)?;
            let contact = 1 + self.choices.one_of(id as usize - 1) as u32;
            self.act(Act::Boot(NodeId::new(id), Some(NodeId::new(contact))))?;
        }
        Ok(())
    }
}

/// How many turns there are between two births, at most.
fn turns_between(pace: Option<Pace>) -> u32
    ensures { result ≡ turns_between pace }
{
    match pace {
        Some(pace) => pace.get(),
        None => MOST_TURNS,
    }
}
