ghost use Rattle.std.specs.Prelude.{◌≡◌, ◌<◌, ◌≤◌, length, IfOk, IfErr, OnOk};
ghost use Rattle.ov_hall.specs.Faults.{number_of};
ghost use Rattle.ov_hall.specs.Histories.{IsHistory};
ghost use Rattle.ov_snap.specs.Logs.{IsLog};
ghost use Rattle.ov_hall.specs.Passes.{AllBegin, AreDrivers};

use crate::core_shared_by_drivers::{Gathered, Hall};
use crate::driver_passes::Pass;
use crate::ghost_log_rule::HallName;
use crate::hall_at_rest::Whole;
use thiserror::Error;

/// Why a hall is not gathered.
#[derive(Clone, Copy, Debug, PartialEq, Eq, Error)]
pub enum GatherFault {
    /// There are fewer passes than drivers.
    #[error("the pass of a driver is missing")]
    MissingPass,
}

impl GatherFault {
    /// The fault's number (chosen here).
    pub fn number(&self) -> u32
        ensures { result ≡ number_of self.now }
    {
        match self {
            GatherFault::MissingPass => 56,
        }
    }
}

/// A hall that is not gathered, with all that was handed in.
#[derive(Drop)]
pub struct NotGathered<N: HallName> {
    /// Why it is not gathered.
    pub fault: GatherFault,
    /// The hall.
    pub hall: Hall<N>,
    /// The passes.
    pub passes: Vec<Pass<N>>,
}

impl<N: HallName> Hall<N> {
    /// Ends the hall: the core, and the drivers of its entries and of its reports. What each pass has seen begins the
    /// log of the core, and has all that its driver did. It is refused exactly if there are fewer passes than drivers
    /// (56), and all is handed back. Nothing is allocated, and nobody waits.
    pub fn gather(self, passes: Vec<Pass<N>>) -> Result<Gathered, NotGathered<N>>
        ensures gathered { IfOk result (λ g. (log : _)
            × IsHistory N.params N.drivers log g.core g.entry_drivers.items g.report_drivers.items
            × AllBegin passes.items log) }
        ensures all { OnOk result (N.drivers ≤ length passes.items) }
        ensures missing { IfErr result (λ m. length passes.items < N.drivers) }
        ensures back { IfErr result (λ m. m.passes.items ≡ passes.items) }
    {
        if (passes.len() as u64) < self.drivers {
            return Err(NotGathered {
                fault: GatherFault::MissingPass,
                hall: self,
                passes,
            });
        }
        let Hall {
            table,
            state,
            drivers: _,
        } = self;
        let mut state = state.into_inner();
        let mut stand = state.nobody(&table.shared).join_all(&table.shared, passes);
        state.look(&table.shared, &mut stand);
        Ok(Gathered::of(state))
    }

    /// The hall at rest, by the passes of all drivers, in the order of their numbers. What each pass has seen begins
    /// the hall's log, and has all that its driver did. Nothing is allocated, and nobody waits.
    pub fn unite(self, passes: Vec<Pass<N>>) -> Whole<N>
        requires all { AreDrivers N.drivers passes.items }
        ensures log { IsLog N.params N.drivers result }
        ensures began { AllBegin passes.items result }
    {
        let Hall {
            table,
            state,
            drivers,
        } = self;
        let mut state = state.into_inner();
        let mut stand = state.nobody(&table.shared).join_all(&table.shared, passes);
        state.look(&table.shared, &mut stand);
        Whole {
            table,
            state,
            drivers,
            stand,
        }
    }
}
