ghost use Rattle.std.specs.Prelude.{ℕ, ◌≡◌, ◌<◌, ◌↔◌, ◌++◌, ◌∷◌, [], List, IfErr, IfOk, IsTrue, OnOk};
ghost use Rattle.std.specs.Prelude.{Some, length, map};
ghost use Rattle.csv.specs.Records.{fields_of};
ghost use Rattle.ov_sweep_rows.specs.Cells.{cells_read};
ghost use Rattle.ov_sweep_rows.specs.Columns.{columns, table};
ghost use Rattle.ov_sweep_rows.specs.Fields.{SayRow, text_at};
ghost use Rattle.ov_sweep_rows.specs.Reading.{AreRowsOf};
ghost use Rattle.ov_sweep_rows.specs.Refusals.{IsRowRefusal};
ghost use Rattle.ov_sweep_rows.specs.Writing.{IsReadBack, IsRefusedForMemory};
ghost use Rattle.ov_sweep_rows.specs.Code.Named.{name_and_form};
ghost use Rattle.ov_sweep_rows.specs.Code.Standing.{IsUnread};
ghost use Rattle.ov_sweep_rows.specs.Code.Taking.{IsAt, IsLackOf, IsLastParameter, IsNoHeader, IsRowFault};
ghost use Rattle.ov_sweep_rows.specs.Code.Taking.{IsTakeFault, WasTaken};
ghost use Rattle.ov_sweep_rows.specs.declared.row_fault.RowFault.TheVariants.{OutOfMemory};

use crate::cell::Cell;
use crate::cells_to_row::row_with;
use crate::columns::{Column, columns_of};
use crate::row_writing::names_of;
use crate::{ColumnName, FieldFault, FieldForm, Row, RowFault, RowForm};
use csv::{ByteRecord, ByteRecordsIntoIter, ReaderBuilder};
use std::alloc::Global;

/// Reads the rows of a text: a header, and one row of its form a line, as `header_text` and `row_text` write them. The
/// same header between rows is skipped, so that files of rows may be put together. A row that is not of this form is
/// refused with its line, counted from 1.
///
/// `Header` (70): the text does not begin with a header. `FieldCount`, `Field` (70): the first row that is not of the
/// form; `Field` names its first column that lacks its form.
/// `OutOfMemory` (99): an allocation was refused.
///
/// Not proved: that a fault names the line of its row; that there is memory.
pub fn read_rows(alloc: Global, text: &[u8]) -> Result<Vec<Row>, RowFault>
    ensures rows { IfOk result (λ rows. AreRowsOf text.now rows.items) }
    ensures fault { IfErr result (IsRowRefusal text.now) }
    ensures back { IfOk result (λ rows. IsReadBack text.now rows.items) }
    ensures refused { IfErr result (IsRefusedForMemory text.now) }
{
    rows_in(alloc, text)
}

/// The rows of a text.
fn rows_in(alloc: Global, text: &[u8]) -> Result<Vec<Row>, RowFault>
    ensures rows { IfOk result (λ rows. AreRowsOf text.now rows.items) }
    ensures fault { IfErr result (IsRowRefusal text.now) }
{
    let mut records = records_of(alloc, text);
    let mut rows = Vec::new(alloc);
    take_records(alloc, &mut rows, &mut records)?;
    Ok(rows)
}

/// The records of a text, the first of which is one like the others.
pub(crate) fn records_of(alloc: Global, text: &[u8]) -> ByteRecordsIntoIter<&[u8]>
    ensures { IsUnread text.now result.rdr result.left }
{
    ReaderBuilder::new()
        .has_headers(false)
        .from_reader(alloc, text)
        .into_byte_records()
}

/// Adds the rows that the records of a text say, none of which was read.
fn take_records(
    alloc: Global,
    rows: &mut Vec<Row>,
    records: &mut ByteRecordsIntoIter<&[u8]>,
) -> Result<(), RowFault>
    requires begun { (text : List ℕ) × IsUnread text records.old.rdr records.old.left }
    requires none { rows.old.items ≡ [] }
    ensures rows { OnOk result ((text : List ℕ) → IsUnread text records.old.rdr records.old.left
        → AreRowsOf text rows.new.items) }
    ensures fault { IfErr result (λ fault. (text : List ℕ) → IsUnread text records.old.rdr records.old.left
        → IsRowRefusal text fault) }
{
    let Some(first) = records.next() else {
        return Err(RowFault::Header);
    };
    let header = header_of(alloc, &first?)?;
    for record in records {
        take_record(alloc, rows, &header, &record?)?;
    }
    Ok(())
}

/// A header: the form of its rows, their columns, and the names of these.
#[derive(Drop)]
struct Header {
    form: RowForm,
    columns: Vec<Column>,
    names: ByteRecord,
}

/// The header that a record is. `Header`: it is that of no form.
fn header_of(alloc: Global, fields: &ByteRecord) -> Result<Header, RowFault>
    ensures header { IfOk result (λ header. fields_of fields.now ≡ columns header.form) }
    ensures columns { IfOk result (λ header. map name_and_form header.columns.items ≡ table header.form) }
    ensures names { IfOk result (λ header. fields_of header.names ≡ columns header.form) }
    ensures fault { IfErr result (IsNoHeader (fields_of fields.now)) }
{
    for form in &RowForm::ALL {
        let columns = columns_of(alloc, *form)?;
        let names = names_of(alloc, &columns)?;
        if are_same(fields, &names) {
            return Ok(Header {
                form: *form,
                columns,
                names,
            });
        }
    }
    Err(RowFault::Header)
}

/// Adds the row that a record under this header says. The header says none.
fn take_record(
    alloc: Global,
    rows: &mut Vec<Row>,
    header: &Header,
    fields: &ByteRecord,
) -> Result<(), RowFault>
    requires columns { map name_and_form header.now.columns.items ≡ table header.now.form }
    requires names { fields_of header.now.names ≡ columns header.now.form }
    requires whole { length (fields_of fields.now) ≡ length (columns header.now.form) }
    ensures taken { OnOk result (WasTaken header.now.form (fields_of fields.now) rows.old.items rows.new.items) }
    ensures fault { IfErr result (IsTakeFault header.now.form (fields_of fields.now)) }
{
    if are_same(fields, &header.names) {
        return Ok(());
    }
    match row_of(alloc, header, fields) {
        Ok(row) => push_row(rows, row),
        Err(fault) => Err(fault),
    }
}

/// Adds a row.
fn push_row(rows: &mut Vec<Row>, row: Row) -> Result<(), RowFault>
    ensures added { OnOk result (rows.new.items ≡ rows.old.items ++ (row ∷ [])) }
    ensures fault { IfErr result (λ fault. fault ≡ OutOfMemory) }
{
    rows.extend_from_slice(&[row])?;
    Ok(())
}

/// Whether two records have the same fields.
fn are_same(one: &ByteRecord, other: &ByteRecord) -> bool
    ensures { IsTrue result ↔ (fields_of one.now ≡ fields_of other.now) }
{
    if one.len() != other.len() {
        return false;
    }
    for place in 0..one.len() {
        if text_at(one, place) != text_at(other, place) {
            return false;
        }
    }
    true
}

/// The row that a record under this header says.
fn row_of(alloc: Global, header: &Header, fields: &ByteRecord) -> Result<Row, RowFault>
    requires columns { map name_and_form header.now.columns.items ≡ table header.now.form }
    requires whole { length (fields_of fields.now) ≡ length (columns header.now.form) }
    ensures row { IfOk result (SayRow header.now.form (fields_of fields.now)) }
    ensures fault { IfErr result (IsRowFault header.now.form (fields_of fields.now)) }
{
    let cells = read_cells(alloc, &header.columns, fields)?;
    match row_with(header.form, &cells) {
        Some(row) => Ok(row),
        None => Err(params_fault(fields)),
    }
}

/// What columns read in the fields of a record.
fn read_cells(alloc: Global, columns: &[Column], fields: &ByteRecord) -> Result<Vec<Cell>, RowFault>
    requires { length (fields_of fields.now) ≡ length columns.now }
    ensures cells { IfOk result
        (λ cells. cells_read (map (λ column. column.takes) columns.now) (fields_of fields.now) ≡ Some cells.items) }
    ensures fault { IfErr result (IsLackOf (map name_and_form columns.now) (fields_of fields.now)) }
{
    let mut cells = Vec::new(alloc);
    for (place, column) in columns.iter().enumerate() {
        match column.takes.read(text_at(fields, place)) {
            Some(cell) => cells.push(cell)?,
            None => return Err(fault_at(fields, place, *column)),
        }
    }
    Ok(cells)
}

/// The text in the column at this place; it is empty behind the last.
pub(crate) fn text_at(fields: &ByteRecord, place: usize) -> &[u8]
    ensures { result.now ≡ text_at (fields_of fields.now) place }
{
    match fields.get(place) {
        Some(text) => text,
        None => &[],
    }
}

/// That the parameters are not within their limits: what the last of them is not.
fn params_fault(fields: &ByteRecord) -> RowFault
    ensures { IsLastParameter result }
{
    let ttl = ColumnName {
        phase: None,
        name: "ttl",
    };
    fault_at(
        fields,
        7,
        Column {
            name: ttl,
            takes: FieldForm::Params,
        },
    )
}

/// That the field at this place is not what its column takes.
fn fault_at(fields: &ByteRecord, place: usize, column: Column) -> RowFault
    ensures { IsAt place (name_and_form column) result }
{
    RowFault::Field {
        line: fields.position().map_or(0, |at| at.line),
        field: FieldFault {
            place,
            column: column.name,
            takes: column.takes,
        },
    }
}
