ghost use Rattle.std.specs.Prelude.{◌≡◌, IfErr, IfOk};
ghost use Rattle.ov_snap.specs.CoreState.{HasReportOfAll};
ghost use Rattle.ov_snap.specs.ReportState.{ReportState};
ghost use Rattle.ov_grow.specs.Replay.{Replays};
ghost use Rattle.ov_grow.specs.Growing.{IsGrowRefusalFrom, begins};
ghost use Rattle.ov_grow.specs.GrowingWithLog.{IsLoggedGrowth};

use crate::core_recorded_as_script::Recorded;
use crate::fault::GrowFault;
use crate::growth_in_progress::Growing;
use crate::message_cost::MessageCost;
use crate::overlay_growing::Grown;
use ov_grow_options::GrowOptions;
use std::alloc::Global;

/// A grown overlay, and what the broadcasts of each phase cost if a log of them was kept.
pub struct LoggedGrowth {
    /// The overlay.
    pub grown: Grown,
    /// What the broadcasts cost of the phase in which the overlay settled.
    pub settle_costs: Vec<MessageCost>,
    /// What those cost of the phase in which nodes crashed.
    pub crash_costs: Vec<MessageCost>,
    /// What those cost of the phase in which the overlay healed.
    pub heal_costs: Vec<MessageCost>,
}

impl Drop for LoggedGrowth {
    /// Drops the parts. It is written by hand since a call is proved faster than the same drops at each exit.
    fn drop(self) {
        let LoggedGrowth {
            grown: _,
            settle_costs: _,
            crash_costs: _,
            heal_costs: _,
        } = self;
    }
}

impl LoggedGrowth {
    /// The overlay alone.
    pub(crate) fn into_grown(self) -> Grown
        ensures { result ≡ self.grown }
    {
        let LoggedGrowth {
            grown,
            settle_costs: _,
            crash_costs: _,
            heal_costs: _,
        } = self;
        grown
    }
}

/// Grows an overlay as `grow` does, and keeps a log of broadcasts if one is asked for. The faults are those of `grow`.
pub fn grow_logged(
    alloc: Global,
    options: &GrowOptions,
    logged: bool,
) -> Result<LoggedGrowth, GrowFault>
    ensures grows { IfOk result (IsLoggedGrowth logged options.now) }
    ensures replays { IfOk result (λ g. Replays g.grown.script.text g.grown.core) }
    ensures settled { IfOk result (λ g. (r : ReportState) × HasReportOfAll g.grown.core g.grown.settled.moment r) }
    ensures crashed { IfOk result (λ g. (r : ReportState) × HasReportOfAll g.grown.core g.grown.crashed.moment r) }
    ensures healed { IfOk result (λ g. (r : ReportState) × HasReportOfAll g.grown.core g.grown.healed.moment r) }
    ensures refused { IfErr result (IsGrowRefusalFrom (begins logged options.now) options.now) }
{
    let mut growing = Growing::new(alloc, options, logged)?;
    growing.join(options)?;
    let settled = growing.settle(options)?;
    let settle_costs = growing.message_costs()?;
    let crashed = growing.crash(settled.moment, options)?;
    let crash_costs = growing.message_costs()?;
    let healed = growing.heal(options)?;
    let heal_costs = growing.message_costs()?;
    let Recorded { script, core } = growing.finish();
    let grown = Grown {
        script,
        core,
        settled,
        crashed,
        healed,
    };
    Ok(LoggedGrowth {
        grown,
        settle_costs,
        crash_costs,
        heal_costs,
    })
}
