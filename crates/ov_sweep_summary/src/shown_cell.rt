use ov_sweep_rows::Cell;
use std::fmt::{Display, Formatter, Result, Write};

/// What people read in a cell of a setting: `none` where nothing is given.
#[derive(Clone, Copy)]
pub struct ShownCell(pub Cell);

impl Display for ShownCell {
    fn fmt<W: Write>(&self, f: &mut Formatter<W>) -> Result {
        match self.0 {
            Cell::Empty => f.write_str("none"),
            cell => write!(f, "{cell}"),
        }
    }
}
