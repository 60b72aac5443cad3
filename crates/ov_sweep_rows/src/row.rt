ghost use Rattle.std.specs.Prelude.{◌≡◌, ◌<◌, ◌↔◌, IsTrue, Some, slice_get};
ghost use Rattle.ov_sweep_rows.specs.Rows.{phase_name};
ghost use Rattle.ov_sweep_rows.specs.Writing.{asks_further, has_costs, has_shape};

use crate::{DeliveredShare, Measures, PhaseCosts, PhaseShape};
use ov_grow_options::GrowOptions;

/// The phases after each of which a run is looked at.
#[derive(Clone, Copy, PartialEq)]
pub enum Phase {
    /// The nodes have joined, and the overlay has settled.
    Settle,
    /// Some nodes have crashed, and none was told.
    Crash,
    /// The overlay has healed.
    Heal,
}

impl Phase {
    /// All phases, in their order.
    pub const ALL: [Phase; 3] = [Phase::Settle, Phase::Crash, Phase::Heal];

    /// The word for it in rows.
    pub(crate) fn name(&self) -> &'static str
        ensures { result.now ≡ phase_name self.now }
    {
        match self {
            Phase::Settle => "settle",
            Phase::Crash => "crash",
            Phase::Heal => "heal",
        }
    }
}

/// One run of a sweep: the options that it was grown with, its seed among them, and what it came to after each phase.
#[derive(Clone, Copy, PartialEq)]
pub struct Row {
    /// The options of the run.
    pub options: GrowOptions,
    /// What it came to after each phase, in the order of `Phase::ALL`.
    pub phases: [PhaseRow; 3],
}

impl Row {
    ghost use Rattle.ov_sweep_rows.specs.Rows.{place_of};

    /// Whether a further option was asked for.
    pub(crate) fn asks_further(&self) -> bool
        ensures { result ≡ asks_further self.now }
    {
        let options = self.options;
        options.sequential || options.sender.is_some() || options.detect
    }

    /// What is measured of each phase: what its broadcasts cost, its shape.
    pub(crate) fn measured(&self) -> Measures
        ensures costs { result.costs ≡ has_costs self.now }
        ensures shape { result.shape ≡ has_shape self.now }
    {
        let mut costs = true;
        let mut shape = true;
        for phase in &self.phases {
            costs &= phase.costs.is_some();
            shape &= phase.shape.is_some();
        }
        Measures { costs, shape }
    }

    /// What the run came to after a phase.
    pub fn after(&self, phase: Phase) -> &PhaseRow
        ensures { slice_get self.now.phases (place_of phase) ≡ Some result.now }
    {
        match phase {
            Phase::Settle => &self.phases[0],
            Phase::Crash => &self.phases[1],
            Phase::Heal => &self.phases[2],
        }
    }
}

/// What a run came to after one phase.
#[derive(Clone, Copy, PartialEq)]
pub struct PhaseRow {
    /// How many nodes live.
    pub nodes: u32,
    /// The number of the report: the fewest crashes that split the overlay, 0 if it is split; if every two nodes are
    /// linked, one less than their number.
    pub k: u32,
    /// How many links the node has that has the fewest.
    pub least_degree: u32,
    /// How many links there are.
    pub links: u32,
    /// The moment of the snapshot: how many entries the journal has.
    pub entries: u32,
    /// The delivered share, if there were broadcasts.
    pub delivered: Option<DeliveredShare>,
    /// What its broadcasts cost, if that was measured.
    pub costs: Option<PhaseCosts>,
    /// The shape of the links, if it was measured.
    pub shape: Option<PhaseShape>,
}

impl PhaseRow {
    /// Whether the overlay is split: its k is 0, and more than one node lives.
    pub fn is_split(&self) -> bool
        ensures { IsTrue result ↔ ((self.now.k ≡ 0) × (1 < self.now.nodes)) }
    {
        self.k == 0 && self.nodes > 1
    }
}
