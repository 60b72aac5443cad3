//! The group `shape` of a phase's columns: the shape of the links of its snapshot.
ghost use Rattle.std.specs.Prelude.{◌≡◌, IfSome, Some};
ghost use Rattle.ov_sweep_rows.specs.PhaseShape.{shape_cells};
ghost use Rattle.ov_sweep_rows.specs.Code.Taking.{EqualFrom, TakeFrom};
ghost use Rattle.ov_sweep_rows.specs.Code.Written.{AreReadBack, shape_forms};

use crate::cell::Cell;
use crate::cells_to_row::{self, cell_at, clustering};
use crate::row_cells::{decimals, decimals_cell, number};
use crate::{FieldForm, FourDecimals, PhaseColumn};

/// The shape of the links of a phase's snapshot.
#[derive(Clone, Copy, PartialEq)]
pub struct PhaseShape {
    /// How many nodes the largest component has.
    pub largest: u32,
    /// The mean of all nodes' clustering coefficients.
    pub clustering: FourDecimals,
    /// The mean number of links of a shortest path between two nodes of the largest component, if it has two.
    pub path: Option<FourDecimals>,
    /// The largest number of links of such a path, 0 if there is none.
    pub diameter: u32,
    /// Of the numbers of links of all nodes, in ascending order, the one that a quarter of them do not exceed.
    pub degree_25: u32,
    /// The one that half of them do not exceed.
    pub degree_50: u32,
    /// The one that three quarters of them do not exceed.
    pub degree_75: u32,
    /// How many articulation points the largest component has: nodes whose single crash splits it.
    pub articulations: u32,
}

/// The columns of the shape of a phase.
pub(crate) const SHAPE_COLUMNS: [PhaseColumn; 8] = [
    PhaseColumn {
        name: "largest",
        takes: FieldForm::Number,
        head: "largest",
    },
    PhaseColumn {
        name: "clustering",
        takes: FieldForm::Decimals,
        head: "clustering",
    },
    PhaseColumn {
        name: "path",
        takes: FieldForm::DecimalsOrNothing,
        head: "path",
    },
    PhaseColumn {
        name: "diameter",
        takes: FieldForm::Number,
        head: "diameter",
    },
    PhaseColumn {
        name: "degree_25",
        takes: FieldForm::Number,
        head: "degree 25 %",
    },
    PhaseColumn {
        name: "degree_50",
        takes: FieldForm::Number,
        head: "degree 50 %",
    },
    PhaseColumn {
        name: "degree_75",
        takes: FieldForm::Number,
        head: "degree 75 %",
    },
    PhaseColumn {
        name: "articulations",
        takes: FieldForm::Number,
        head: "articulations",
    },
];

/// What they mean, for people.
pub(crate) const SHAPE_MEANING: &str = "\
largest: nodes of the largest component; path, diameter: the mean and the longest shortest path in it.
clustering: the share of pairs of a node's neighbours that are linked, the mean over all nodes.
degree 25 %: a quarter of the nodes have so many links at most.
articulations: nodes whose single crash splits the largest component.
";

impl PhaseShape {
    /// The shape with these cells. What would stand for a cell that its column does not take is never needed.
    pub(crate) fn with_cells(cells: &[Cell]) -> PhaseShape
        ensures { TakeFrom cells.now 0 shape_forms → EqualFrom cells.now 0 (shape_cells (Some result)) }
    {
        PhaseShape {
            largest: cells_to_row::number(cell_at(cells, 0)),
            clustering: clustering(cell_at(cells, 1)),
            path: cells_to_row::decimals(cell_at(cells, 2)),
            diameter: cells_to_row::number(cell_at(cells, 3)),
            degree_25: cells_to_row::number(cell_at(cells, 4)),
            degree_50: cells_to_row::number(cell_at(cells, 5)),
            degree_75: cells_to_row::number(cell_at(cells, 6)),
            articulations: cells_to_row::number(cell_at(cells, 7)),
        }
    }
}

/// The cells of a shape, in the order of their columns; empty if it is not known.
pub(crate) fn shape_cells(shape: Option<PhaseShape>) -> [Cell; 8]
    ensures cells { result ≡ shape_cells shape }
    ensures back { IfSome shape (λ s. AreReadBack shape_forms result) }
{
    match shape {
        None => [Cell::Empty; 8],
        Some(shape) => [
            number(shape.largest),
            decimals(shape.clustering),
            decimals_cell(shape.path),
            number(shape.diameter),
            number(shape.degree_25),
            number(shape.degree_50),
            number(shape.degree_75),
            number(shape.articulations),
        ],
    }
}
