ghost use Rattle.std.specs.Prelude.{IfOk, IfErr};
ghost use Rattle.ov_ids.specs.FaultOrder.{IsRefusedBy};
ghost use Rattle.ov_snap.specs.Refusals.{BeginJudged, GroupBeginJudged};
ghost use Rattle.ov_snap.specs.declared.refused_core_call.CoreFault.TheVariants.{OutOfMemory as out_of_memory};
ghost use Rattle.ov_snap.specs.Logs.{IsLog, core_made};
ghost use Rattle.ov_snap.specs.DriverSteps.{HasBegun, HasBegunForGroup, HasLooked};

use crate::core_shared_by_drivers::Hall;
use crate::driver_passes::Pass;
use crate::ghost_log_rule::HallName;
use ov_ids::NodeId;
use ov_snap::{Core, CoreFault, Snapshot};
use std::sync::Wait;

impl<N: HallName> Hall<N> {
    /// What an analysis of all nodes of this moment is given, as by `Core::begin`, with the same faults. The graph is
    /// shared and not copied, and the analysis itself goes on without the lock.
    pub fn begin(
        &self,
        rt: &impl Wait,
        pass: Pass<N>,
        moment: u32,
    ) -> (Result<Snapshot, CoreFault>, Pass<N>)
        ensures begun { IfOk result.0 (λ s. HasBegun (core_made N.params result.1.seen) moment s) }
        ensures refused { IfErr result.0
            (IsRefusedBy out_of_memory (BeginJudged (core_made N.params result.1.seen) moment)) }
        ensures seen { HasLooked pass result.1 }
        ensures log { IsLog N.params N.drivers result.1.seen }
    {
        self.look_at(
            rt,
            pass,
            |core: &Core| -> Result<Snapshot, CoreFault>
                ensures begun { IfOk result (λ s. HasBegun core.now moment s) }
                ensures refused { IfErr result (IsRefusedBy out_of_memory (BeginJudged core.now moment)) }
            { core.begin(moment) },
        )
    }

    /// What an analysis of a group of the nodes of this moment is given, as by `Core::begin_group`, with the same
    /// faults. The graph is shared and not copied, and the analysis itself goes on without the lock.
    pub fn begin_group(
        &self,
        rt: &impl Wait,
        pass: Pass<N>,
        moment: u32,
        group: &[NodeId],
    ) -> (Result<Snapshot, CoreFault>, Pass<N>)
        ensures begun { IfOk result.0
            (λ s. HasBegunForGroup (core_made N.params result.1.seen) moment group.now s) }
        ensures refused { IfErr result.0
            (IsRefusedBy out_of_memory (GroupBeginJudged (core_made N.params result.1.seen) moment group.now)) }
        ensures seen { HasLooked pass result.1 }
        ensures log { IsLog N.params N.drivers result.1.seen }
    {
        self.look_at(
            rt,
            pass,
            |core: &Core| -> Result<Snapshot, CoreFault>
                ensures begun { IfOk result (λ s. HasBegunForGroup core.now moment group.entry.now s) }
                ensures refused { IfErr result
                    (IsRefusedBy out_of_memory (GroupBeginJudged core.now moment group.entry.now)) }
            { core.begin_group(moment, group) },
        )
    }
}
