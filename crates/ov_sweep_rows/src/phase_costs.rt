//! The group `costs` of a phase's columns: what its broadcasts cost.
ghost use Rattle.std.specs.Prelude.{◌≡◌, IfSome, Some};
ghost use Rattle.ov_sweep_rows.specs.PhaseCosts.{cost_cells};
ghost use Rattle.ov_sweep_rows.specs.Code.Taking.{EqualFrom, TakeFrom};
ghost use Rattle.ov_sweep_rows.specs.Code.Written.{AreReadBack, cost_forms};

use crate::cell::Cell;
use crate::cells_to_row::{self, cell_at, decimals};
use crate::row_cells::{decimals_cell, number};
use crate::{FieldForm, FourDecimals, PhaseColumn};

/// What the broadcasts of a phase cost: how many messages of each kind nodes sent for them, as GROWING counts them.
#[derive(Clone, Copy, PartialEq)]
pub struct PhaseCosts {
    /// How many GOSSIP.
    pub gossip: u32,
    /// How many IHAVE.
    pub ihave: u32,
    /// How many GRAFT.
    pub graft: u32,
    /// How many PRUNE.
    pub prune: u32,
    /// The mean of the broadcasts' hops, if there were broadcasts.
    pub hops: Option<FourDecimals>,
    /// The mean of the broadcasts' relative redundancies, if one has one.
    pub redundancy: Option<FourDecimals>,
}

/// The columns of what the broadcasts of a phase cost.
pub(crate) const COST_COLUMNS: [PhaseColumn; 6] = [
    PhaseColumn {
        name: "gossip",
        takes: FieldForm::Number,
        head: "gossip",
    },
    PhaseColumn {
        name: "ihave",
        takes: FieldForm::Number,
        head: "ihave",
    },
    PhaseColumn {
        name: "graft",
        takes: FieldForm::Number,
        head: "graft",
    },
    PhaseColumn {
        name: "prune",
        takes: FieldForm::Number,
        head: "prune",
    },
    PhaseColumn {
        name: "hops",
        takes: FieldForm::DecimalsOrNothing,
        head: "hops",
    },
    PhaseColumn {
        name: "redundancy",
        takes: FieldForm::DecimalsOrNothing,
        head: "redundancy",
    },
];

/// What they mean, for people.
pub(crate) const COSTS_MEANING: &str = "\
gossip, ihave, graft, prune: how many messages of these kinds were sent for the broadcasts of the phase.
hops: the mean over the broadcasts of the most links by which a node got the message.
redundancy: the mean over the broadcasts that n nodes got, n being 2 or more, of GOSSIP / (n - 1) - 1: 0 if each got
the message once.
";

impl PhaseCosts {
    /// The costs with these cells. What would stand for a cell that its column does not take is never needed.
    pub(crate) fn with_cells(cells: &[Cell]) -> PhaseCosts
        ensures { TakeFrom cells.now 0 cost_forms → EqualFrom cells.now 0 (cost_cells (Some result)) }
    {
        PhaseCosts {
            gossip: cells_to_row::number(cell_at(cells, 0)),
            ihave: cells_to_row::number(cell_at(cells, 1)),
            graft: cells_to_row::number(cell_at(cells, 2)),
            prune: cells_to_row::number(cell_at(cells, 3)),
            hops: decimals(cell_at(cells, 4)),
            redundancy: decimals(cell_at(cells, 5)),
        }
    }
}

/// The cells of what the broadcasts of a phase cost, in the order of their columns; empty if that is not known.
pub(crate) fn cost_cells(costs: Option<PhaseCosts>) -> [Cell; 6]
    ensures cells { result ≡ cost_cells costs }
    ensures back { IfSome costs (λ c. AreReadBack cost_forms result) }
{
    match costs {
        None => [Cell::Empty; 6],
        Some(costs) => [
            number(costs.gossip),
            number(costs.ihave),
            number(costs.graft),
            number(costs.prune),
            decimals_cell(costs.hops),
            decimals_cell(costs.redundancy),
        ],
    }
}
