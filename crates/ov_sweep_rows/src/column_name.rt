use crate::Phase;
use std::fmt::{Display, Formatter, Result, Write};

/// The name of a column. If it is of a phase, the phase stands before it, as in `settle_k`.
#[derive(Clone, Copy, PartialEq)]
pub struct ColumnName {
    /// The phase that it is of.
    pub phase: Option<Phase>,
    /// The name without the phase.
    pub name: &'static str,
}

impl Display for ColumnName {
    ghost use Rattle.std.specs.Prelude.{Some};
    ghost use Rattle.ov_sweep_rows.specs.Columns.{column_name};

    ghost output = { λ column. Some (column_name column) };

    fn fmt<W: Write>(&self, f: &mut Formatter<W>) -> Result {
        if let Some(phase) = self.phase {
            f.write_str(phase.name())?;
            f.write_str("_")?;
        }
        f.write_str(self.name)
    }
}
