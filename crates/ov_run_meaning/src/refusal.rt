ghost use Rattle.std.specs.Prelude.{◌≡◌};
ghost use Rattle.ov_run_meaning.specs.Refusals.{number_of};

use ov_net::NetFault;
use ov_snap::CoreFault;

/// Why a line of a scenario is refused as it runs. Nothing has changed then.
#[derive(Clone, Copy, Debug, PartialEq, Eq)]
pub enum Refusal {
    /// The world refuses the event, or has no such node to show.
    World(NetFault),
    /// The core refuses the analysis, or has no such report.
    Core(CoreFault),
}

impl Refusal {
    /// The number that is printed of it: that of its fault.
    pub fn number(&self) -> u32
        ensures { result ≡ number_of self.now }
    {
        match self {
            Refusal::World(fault) => fault.number(),
            Refusal::Core(fault) => fault.number(),
        }
    }
}
