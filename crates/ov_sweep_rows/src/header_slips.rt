//! Where a header parts from those that rows have.
ghost use Rattle.std.specs.Prelude.{ℕ, ◌≡◌, ◌<◌, ◌⊎◌, IfOk, IfSome, Some, map, option_map, slice_get};
ghost use Rattle.csv.specs.Records.{fields_of};
ghost use Rattle.ov_sweep_rows.specs.Columns.{column_name};
ghost use Rattle.ov_sweep_rows.specs.Fields.{text_at};
ghost use Rattle.ov_sweep_rows.specs.Refusals.{IsHeaderSlip, IsSlipOf};

use crate::columns::{Column, columns_of};
use crate::row_reading::{records_of, text_at};
use crate::row_writing::names_of;
use crate::{ColumnName, RowForm};
use csv::ByteRecord;
use ov_ids::OutOfMemory;
use std::alloc::{AllocError, Global};
use std::fmt::{Display, Formatter, Result as Printed, Write};

/// Where a header parts from that header of rows with which it has most columns in common.
#[derive(Clone, Copy)]
pub struct HeaderSlip {
    /// How many columns they have in common, at their beginning.
    pub place: usize,
    /// The column that must stand behind these. None: nothing may.
    pub column: Option<ColumnName>,
}

impl Display for HeaderSlip {
    fn fmt<W: Write>(&self, f: &mut Formatter<W>) -> Printed {
        let place = self.place;
        match self.column {
            Some(column) => {
                let number = place.saturating_add(1);
                write!(f, "column {number} must be {column}")
            }
            None => write!(f, "nothing may stand behind column {place}"),
        }
    }
}

/// Where the first line of a text parts from the headers of rows. None is returned if it has not even their first
/// column. OutOfMemory (99) if an allocation is refused.
pub fn header_slip(alloc: Global, text: &[u8]) -> Result<Option<HeaderSlip>, OutOfMemory>
    ensures { IfOk result (λ slip. IfSome slip (IsHeaderSlip text.now)) }
{
    match records_of(alloc, text).next() {
        Some(Ok(fields)) => Ok(slip_of(alloc, &fields)?),
        Some(Err(_)) | None => Ok(None),
    }
}

/// Where these fields part from the headers of rows.
fn slip_of(alloc: Global, fields: &ByteRecord) -> Result<Option<HeaderSlip>, AllocError>
    ensures { IfOk result (λ slip. IfSome slip (IsSlipOf (fields_of fields.now))) }
{
    let mut slip = None;
    for form in &RowForm::ALL {
        let columns = columns_of(alloc, *form)?;
        let names = names_of(alloc, &columns)?;
        let place = alike(fields, &names);
        let column = name_at(&columns, place);
        slip = longer(slip, HeaderSlip { place, column });
    }
    Ok(slip)
}

/// The slip that comes later in its header; the first one if neither does. None is returned if nothing comes before them.
fn longer(slip: Option<HeaderSlip>, next: HeaderSlip) -> Option<HeaderSlip>
    ensures { (result ≡ slip) ⊎ (result ≡ Some next) }
{
    let place = match slip {
        Some(slip) => slip.place,
        None => 0,
    };
    if next.place > place {
        return Some(next);
    }
    slip
}

/// The name of the column at a place; none behind the last.
fn name_at(columns: &[Column], place: usize) -> Option<ColumnName>
    ensures { option_map column_name result
        ≡ slice_get (map (λ column. column_name column.name) columns.now) place }
{
    match columns.get(place) {
        Some(column) => Some(column.name),
        None => None,
    }
}

/// How many fields two records have in common, at their beginning.
fn alike(one: &ByteRecord, other: &ByteRecord) -> usize
    ensures { (i : ℕ) → i < result → text_at (fields_of one.now) i ≡ text_at (fields_of other.now) i }
{
    let most = one.len().min(other.len());
    for place in 0..most {
        if text_at(one, place) != text_at(other, place) {
            return place;
        }
    }
    most
}
