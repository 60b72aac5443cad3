ghost use Rattle.std.specs.Prelude.{◌≡◌};
ghost use Rattle.ov_sweep_rows.specs.Cells.{cell_at};
ghost use Rattle.ov_sweep_rows.specs.RowCells.{measured_cells};

use crate::cell::Cell;
use crate::cells_to_row::cell_at;
use crate::columns::DELIVERED;
use crate::phase_costs::{COST_COLUMNS, COSTS_MEANING, cost_cells};
use crate::phase_shape::{SHAPE_COLUMNS, SHAPE_MEANING, shape_cells};
use crate::row_cells::share_cell;
use crate::{PhaseColumn, PhaseRow, Row};

/// The column of the delivered share alone.
const SHARE_COLUMNS: [PhaseColumn; 1] = [DELIVERED];

/// What it means, for people.
const DELIVERED_MEANING: &str = "\
delivered: how often a node delivered a broadcast of the phase, over broadcasts times live nodes.
";

/// What is told of a phase by means.
#[derive(Clone, Copy)]
pub enum Measured {
    /// The delivered share.
    Delivered,
    /// What its broadcasts cost.
    Costs,
    /// Its shape.
    Shape,
}

impl Measured {
    /// All that is told by means, in the order of their columns.
    pub const ALL: [Measured; 3] = [Measured::Delivered, Measured::Costs, Measured::Shape];

    /// The columns that a phase has for it, in their order.
    pub fn columns(self) -> &'static [PhaseColumn] {
        match self {
            Measured::Delivered => &SHARE_COLUMNS,
            Measured::Costs => &COST_COLUMNS,
            Measured::Shape => &SHAPE_COLUMNS,
        }
    }

    /// What these columns mean, for people.
    pub fn meaning(self) -> &'static str {
        match self {
            Measured::Delivered => DELIVERED_MEANING,
            Measured::Costs => COSTS_MEANING,
            Measured::Shape => SHAPE_MEANING,
        }
    }

    /// The cell at a place among those that a phase has of it, in the order of their columns, counted from 0; nothing
    /// behind the last.
    pub fn cell(self, phase: &PhaseRow, place: usize) -> Cell
        ensures { result ≡ cell_at (measured_cells self phase.now) place }
    {
        match self {
            Measured::Delivered => cell_at(&[share_cell(phase.delivered)], place),
            Measured::Costs => cell_at(&cost_cells(phase.costs), place),
            Measured::Shape => cell_at(&shape_cells(phase.shape), place),
        }
    }

    /// Whether it is known of a phase of one of these runs.
    pub fn is_known(self, runs: &[&Row]) -> bool {
        for run in runs {
            for phase in &run.phases {
                if self.is_of(phase) {
                    return true;
                }
            }
        }
        false
    }

    /// Whether a phase has it.
    fn is_of(self, phase: &PhaseRow) -> bool {
        match self {
            Measured::Delivered => phase.delivered.is_some(),
            Measured::Costs => phase.costs.is_some(),
            Measured::Shape => phase.shape.is_some(),
        }
    }
}
