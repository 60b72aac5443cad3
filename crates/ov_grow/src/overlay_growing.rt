ghost use Rattle.std.specs.Prelude.{IfErr, IfOk};
ghost use Rattle.ov_snap.specs.CoreState.{HasReportOfAll};
ghost use Rattle.ov_snap.specs.ReportState.{ReportState};
ghost use Rattle.ov_grow.specs.Replay.{Replays};
ghost use Rattle.ov_grow.specs.Growing.{Grows, IsGrowRefusal};

use crate::fault::GrowFault;
use crate::growing_with_broadcast_log::grow_logged;
use crate::phase_moment_and_deliveries::PhaseEnd;
use ov_grow_options::GrowOptions;
use ov_script::Script;
use ov_snap::Core;
use std::alloc::Global;

/// A grown overlay.
pub struct Grown {
    /// The scenario that makes it, whose text is written when it is asked for.
    pub script: Script,
    /// The core that the scenario makes.
    pub core: Core,
    /// How the phase ended in which the overlay settled.
    pub settled: PhaseEnd,
    /// How the phase ended in which nodes crashed.
    pub crashed: PhaseEnd,
    /// How the phase ended in which the overlay healed.
    pub healed: PhaseEnd,
}

impl Drop for Grown {
    /// Drops the parts. It is written by hand since a call is proved faster than the same drops at each exit.
    fn drop(self) {
        let Grown {
            script: _,
            core: _,
            settled: _,
            crashed: _,
            healed: _,
        } = self;
    }
}

/// Grows an overlay with these options: nodes join, the overlay settles, nodes crash, and the overlay heals. The script
/// is a scenario that begins with the options' parameters and seed, and the core is the one that it makes, each line
/// accepted. For the moment at the end of each phase a report of all nodes is filed. How an overlay is grown is chosen
/// here.
///
/// A fault ends growing, and nothing is returned: an event is refused since the journal is full (16) or too few places
/// for packets are free (15), or memory ran out (99). No other fault comes. After 15 and 16 no overlay can be grown
/// with these options, by whatever scenario.
pub fn grow(alloc: Global, options: &GrowOptions) -> Result<Grown, GrowFault>
    ensures grows { IfOk result
        (λ g. Grows options.now g.script.text g.core.world g.settled g.crashed g.healed) }
    ensures replays { IfOk result (λ g. Replays g.script.text g.core) }
    ensures settled { IfOk result (λ g. (r : ReportState) × HasReportOfAll g.core g.settled.moment r) }
    ensures crashed { IfOk result (λ g. (r : ReportState) × HasReportOfAll g.core g.crashed.moment r) }
    ensures healed { IfOk result (λ g. (r : ReportState) × HasReportOfAll g.core g.healed.moment r) }
    ensures refused { IfErr result (IsGrowRefusal options.now) }
{
    let logged = grow_logged(alloc, options, false)?;
    Ok(logged.into_grown())
}
