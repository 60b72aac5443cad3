ghost use Rattle.std.specs.Prelude.{◌≡◌};
ghost use Rattle.ov_sweep_rows.specs.Writing.{form_of_rows, form_with};

use crate::{Measures, Row};

/// Which columns rows have, beside those of the setting, the seed, and what a run came to after each phase.
#[derive(Clone, Copy)]
pub struct RowForm {
    /// The further options.
    pub further: bool,
    /// What the broadcasts of each phase cost.
    pub costs: bool,
    /// The shape of each phase.
    pub shape: bool,
}

impl RowForm {
    /// All forms.
    pub const ALL: [RowForm; 8] = [
        RowForm {
            further: false,
            costs: false,
            shape: false,
        },
        RowForm {
            further: false,
            costs: false,
            shape: true,
        },
        RowForm {
            further: false,
            costs: true,
            shape: false,
        },
        RowForm {
            further: false,
            costs: true,
            shape: true,
        },
        RowForm {
            further: true,
            costs: false,
            shape: false,
        },
        RowForm {
            further: true,
            costs: false,
            shape: true,
        },
        RowForm {
            further: true,
            costs: true,
            shape: false,
        },
        RowForm {
            further: true,
            costs: true,
            shape: true,
        },
    ];

    /// The form with the columns of what is measured, and with those of the further options if one is asked for or if
    /// something is measured.
    pub fn with(measures: Measures, asks_further: bool) -> RowForm
        ensures { result ≡ form_with measures.costs measures.shape asks_further }
    {
        RowForm {
            further: asks_further || measures.costs || measures.shape,
            costs: measures.costs,
            shape: measures.shape,
        }
    }

    /// The form with the columns that these rows need: those of costs and of shapes if each row has them, and those of
    /// the further options if a row asks for one.
    pub fn of_rows(rows: &[Row]) -> RowForm
        ensures { result ≡ form_of_rows rows.now }
    {
        let mut costs = !rows.is_empty();
        let mut shape = !rows.is_empty();
        let mut further = false;
        for row in rows {
            let measured = row.measured();
            costs &= measured.costs;
            shape &= measured.shape;
            further |= row.asks_further();
        }
        RowForm::with(Measures { costs, shape }, further)
    }
}
