ghost use Rattle.std.specs.Prelude.{◌≡◌};
ghost use Rattle.ov_sweep_rows.specs.Cells.{order_name};

use crate::{FourDecimals, Phase};
use ov_grow_options::Order;
use ov_ids::Refill;
use std::fmt::{Display, Formatter, Result, Write};

/// What stands in one column of a row.
#[derive(Clone, Copy, PartialEq)]
pub enum Cell {
    /// Nothing: an option that was not given, or a share without broadcasts.
    Empty,
    /// A number, in decimal digits.
    Number(u64),
    /// A number with four decimal digits.
    Decimals(FourDecimals),
    /// The rule at DISCONNECT.
    Refill(Refill),
    /// Whose turn is next.
    Order(Order),
    /// That those nodes crash that the report names as the cut.
    Cut,
    /// A phase.
    Phase(Phase),
}

impl Display for Cell {
    ghost use Rattle.std.specs.Prelude.{Some};
    ghost use Rattle.ov_sweep_rows.specs.Cells.{cell_text};

    ghost output = { λ cell. Some (cell_text cell) };

    fn fmt<W: Write>(&self, f: &mut Formatter<W>) -> Result {
        match self {
            Cell::Empty => Ok(()),
            Cell::Number(number) => write!(f, "{number}"),
            Cell::Decimals(number) => write!(f, "{number}"),
            Cell::Refill(rule) => write!(f, "{rule}"),
            Cell::Order(order) => f.write_str(order_name(*order)),
            Cell::Cut => f.write_str("cut"),
            Cell::Phase(phase) => f.write_str(phase.name()),
        }
    }
}

/// The word for whose turn is next.
fn order_name(order: Order) -> &'static str
    ensures { result.now ≡ order_name order }
{
    match order {
        Order::Random => "random",
        Order::Oldest => "oldest",
    }
}
