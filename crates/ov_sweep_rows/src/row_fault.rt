ghost use Rattle.std.specs.Prelude.{◌≡◌};
ghost use Rattle.ov_sweep_rows.specs.Rows.{number_of};

use crate::ColumnName;
use csv::{Error as CsvError, ErrorKind};
use std::alloc::{AllocError, AllocFailed};
use std::fmt::{Display, Formatter, Result, Write};

/// Why a text of rows is refused. (The numbers are chosen here.)
#[derive(Clone, Copy, PartialEq)]
pub enum RowFault {
    /// The first line is not the header (70).
    Header,
    /// The row at this line has so many fields, and not one for each column (70).
    FieldCount {
        line: u64,
        fields: u64,
        columns: u64,
    },
    /// A field of the row at this line is not what its column takes (70).
    Field {
        line: u64,
        field: FieldFault,
    },
    /// An allocation was refused (99).
    OutOfMemory,
}

impl RowFault {
    /// The fault's number.
    pub fn number(&self) -> u32
        ensures { result ≡ number_of self.now }
    {
        match self {
            RowFault::Header | RowFault::FieldCount { .. } | RowFault::Field { .. } => 70,
            RowFault::OutOfMemory => 99,
        }
    }
}

/// A field that is not what its column takes.
#[derive(Clone, Copy, PartialEq)]
pub struct FieldFault {
    /// The place of the column, counted from 0.
    pub place: usize,
    /// Its name.
    pub column: ColumnName,
    /// What it takes.
    pub takes: FieldForm,
}

/// What a column takes.
#[derive(Clone, Copy, PartialEq)]
pub enum FieldForm {
    /// A number of nodes to grow.
    Nodes,
    /// The last of parameters that are within their limits.
    Params,
    /// The rule at DISCONNECT.
    Refill,
    /// A chance of 100.
    Chance,
    /// A share of 100.
    Share,
    /// Whose turn is next.
    Order,
    /// Turns between two births, or nothing.
    Pace,
    /// Rounds or broadcasts.
    Count,
    /// Which nodes crash.
    Crash,
    /// A number of 64 bits.
    Seed,
    /// A number of 32 bits.
    Number,
    /// A number with four decimal digits.
    Decimals,
    /// A number with four decimal digits, or nothing.
    DecimalsOrNothing,
    /// Whether an option is asked for.
    Flag,
    /// A node that makes broadcasts, or nothing.
    Sender,
}

impl Display for RowFault {
    fn fmt<W: Write>(&self, f: &mut Formatter<W>) -> Result {
        match self {
            RowFault::Header => f.write_str(
                "line 1 must be the header of the rows, nodes,active,passive and so on",
            ),
            RowFault::FieldCount {
                line,
                fields,
                columns,
            } => {
                write!(
                    f,
                    "line {line}: the row has {fields} fields and must have {columns}"
                )
            }
            RowFault::Field { line, field } => write!(f, "line {line}: {field}"),
            RowFault::OutOfMemory => f.write_str("out of memory"),
        }
    }
}

impl Display for FieldForm {
    fn fmt<W: Write>(&self, f: &mut Formatter<W>) -> Result {
        f.write_str(match self {
            FieldForm::Nodes => "a number from 1 to 32768",
            FieldForm::Params => "a number from 1 to 15, after parameters within their limits",
            FieldForm::Refill => "never, alone or always",
            FieldForm::Chance => "a number from 0 to 100",
            FieldForm::Share => "a number from 0 to 99",
            FieldForm::Order => "random or oldest",
            FieldForm::Pace => "a number from 0 to 65536, or empty",
            FieldForm::Count => "a number from 0 to 1000",
            FieldForm::Crash => "a number from 0 to 99, or cut",
            FieldForm::Seed => "a number below 2 to the power of 64",
            FieldForm::Number => "a number below 2 to the power of 32",
            FieldForm::Decimals => "a number with four decimal digits",
            FieldForm::DecimalsOrNothing => "a number with four decimal digits, or empty",
            FieldForm::Flag => "0 or 1",
            FieldForm::Sender => "a number from 1 to 32768, or empty",
        })
    }
}

impl Display for FieldFault {
    fn fmt<W: Write>(&self, f: &mut Formatter<W>) -> Result {
        let FieldFault { column, takes, .. } = *self;
        write!(f, "{column} must be {takes}")
    }
}

impl From<AllocError> for RowFault {
    ghost use Rattle.std.specs.Prelude.{◌≡◌};
    ghost use Rattle.ov_sweep_rows.specs.declared.row_fault.RowFault.TheVariants.{OutOfMemory};

    ghost from_gives = { λ _ e. e ≡ OutOfMemory };

    fn from(_error: AllocError) -> RowFault {
        RowFault::OutOfMemory
    }
}

impl<T: Drop> From<AllocFailed<T>> for RowFault {
    ghost use Rattle.std.specs.Prelude.{◌≡◌};
    ghost use Rattle.ov_sweep_rows.specs.declared.row_fault.RowFault.TheVariants.{OutOfMemory};

    ghost from_gives = { λ _ e. e ≡ OutOfMemory };

    fn from(_error: AllocFailed<T>) -> RowFault {
        RowFault::OutOfMemory
    }
}

/// A text in memory can't be read as CSV for two reasons alone: a row has another number of fields than the header, or
/// an allocation was refused.
impl From<CsvError> for RowFault {
    ghost use Rattle.csv.specs.Reading.{error_kind};
    ghost use Rattle.ov_sweep_rows.specs.Code.Taking.{IsFaultOf};

    ghost from_gives = { λ error e. IsFaultOf (error_kind error) e };

    fn from(error: CsvError) -> RowFault {
        match error.kind() {
            ErrorKind::UnequalLengths {
                pos,
                expected_len,
                len,
            } => RowFault::FieldCount {
                line: pos.map_or(0, |at| at.line),
                fields: *len,
                columns: *expected_len,
            },
            _ => RowFault::OutOfMemory,
        }
    }
}
