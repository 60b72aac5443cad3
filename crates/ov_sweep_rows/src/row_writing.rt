ghost use Rattle.std.specs.Prelude.{◌≡◌, ◌++◌, [], IfOk, OnOk, map};
ghost use Rattle.csv.specs.Records.{fields_of};
ghost use Rattle.csv.specs.Writing.{default_writer, row_text};
ghost use Rattle.ov_ids.specs.ParamsState.{AreWithinLimits};
ghost use Rattle.ov_sweep_rows.specs.Cells.{cell_text};
ghost use Rattle.ov_sweep_rows.specs.Columns.{column_name, forms, if_asked};
ghost use Rattle.ov_sweep_rows.specs.RowCells.{cells};
ghost use Rattle.ov_sweep_rows.specs.Writing.{HasColumns, IsLineOf, header_line, row_in_form, row_line};
ghost use Rattle.ov_sweep_rows.specs.Code.Written.{AreReadBack};

use crate::cell::Cell;
use crate::columns::{Column, columns_of, columns_of_options};
use crate::phase_costs::cost_cells;
use crate::phase_shape::shape_cells;
use crate::row_cells::{further_cells, message_cells, phase_cells, seed_cell, setting_cells};
use crate::{MessageRow, Phase, Row, RowForm};
use csv::{ByteRecord, WriterBuilder};
use ov_ids::OutOfMemory;
use std::alloc::{AllocError, Global};
use std::fmt::Write;

/// The header of rows of this form: the names of their columns, with one comma between two, and a line feed.
/// OutOfMemory (99) if an allocation is refused.
pub fn header_text(alloc: Global, form: RowForm) -> Result<Vec<u8>, OutOfMemory>
    ensures { IfOk result (λ text. text.items ≡ header_line form) }
{
    let columns = columns_of(alloc, form)?;
    let names = names_of(alloc, &columns)?;
    text_of(alloc, &names)
}

/// A record of the names of these columns.
pub(crate) fn names_of(alloc: Global, columns: &[Column]) -> Result<ByteRecord, AllocError>
    ensures { IfOk result (λ names. fields_of names ≡ map (λ column. column_name column.name) columns.now) }
{
    let mut names = ByteRecord::new(alloc);
    for column in columns {
        let name = column.name;
        let text = format!(in alloc; "{name}")?;
        names.push_field(text.as_bytes())?;
    }
    Ok(names)
}

/// A row of this form: its cells in the order of the columns, with one comma between two, and a line feed. Behind their
/// header, `read_rows` reads such rows back. OutOfMemory (99) if an allocation is refused.
pub fn row_text(alloc: Global, form: RowForm, row: &Row) -> Result<Vec<u8>, OutOfMemory>
    ensures text { IfOk result (λ text. text.items ≡ row_line form row.now) }
    ensures back { IfOk result (λ text. HasColumns form row.now → IsLineOf form (row_in_form form row.now) text.items) }
{
    let cells = cells_of(alloc, form, row)?;
    text_of_cells(alloc, &cells)
}

/// The cells of a row of this form.
fn cells_of(alloc: Global, form: RowForm, row: &Row) -> Result<Vec<Cell>, AllocError>
    ensures cells { IfOk result (λ made. made.items ≡ cells form row.now) }
    ensures back { IfOk result (λ made. HasColumns form row.now → AreReadBack (forms form) made.items) }
    ensures within { IfOk result (λ made. AreWithinLimits row.now.options.params) }
{
    let mut cells = Vec::new(alloc);
    push_cells(&mut cells, form, row)?;
    Ok(cells)
}

/// Adds the cells of a row of this form.
fn push_cells(made: &mut Vec<Cell>, form: RowForm, row: &Row) -> Result<(), AllocError>
    ensures cells { OnOk result (made.old.items ≡ [] → made.new.items ≡ cells form row.now) }
    ensures back { OnOk result (HasColumns form row.now → AreReadBack (forms form) (cells form row.now)) }
    ensures within { OnOk result (AreWithinLimits row.now.options.params) }
{
    let settle = row.after(Phase::Settle);
    let crash = row.after(Phase::Crash);
    let heal = row.after(Phase::Heal);
    made.extend_from_slice(&setting_cells(&row.options))?;
    made.push(seed_cell(row.options.seed))?;
    made.extend_from_slice(&phase_cells(settle))?;
    made.extend_from_slice(&phase_cells(crash))?;
    made.extend_from_slice(&phase_cells(heal))?;
    push_asked(made, form.further, &further_cells(&row.options))?;
    push_thrice(
        made,
        form.costs,
        &cost_cells(settle.costs),
        &cost_cells(crash.costs),
        &cost_cells(heal.costs),
    )?;
    push_thrice(
        made,
        form.shape,
        &shape_cells(settle.shape),
        &shape_cells(crash.shape),
        &shape_cells(heal.shape),
    )
}

/// Adds cells, if they are asked for.
fn push_asked(cells: &mut Vec<Cell>, asked: bool, more: &[Cell]) -> Result<(), AllocError>
    ensures { OnOk result (cells.new.items ≡ cells.old.items ++ if_asked asked more.now) }
{
    if !asked {
        return Ok(());
    }
    Ok(cells.extend_from_slice(more)?)
}

/// Adds the cells of each phase, if they are asked for.
#[tactic(auto, using(crate::proofs::Gathering::appended_thrice))]
fn push_thrice(
    cells: &mut Vec<Cell>,
    asked: bool,
    settle: &[Cell],
    crash: &[Cell],
    heal: &[Cell],
) -> Result<(), AllocError>
    ensures { OnOk result
        (cells.new.items ≡ cells.old.items ++ if_asked asked (settle.now ++ (crash.now ++ heal.now))) }
{
    if !asked {
        return Ok(());
    }
    cells.extend_from_slice(settle)?;
    cells.extend_from_slice(crash)?;
    Ok(cells.extend_from_slice(heal)?)
}

/// The columns of a broadcast behind those of its run.
const MESSAGE_COLUMNS: [&str; 10] = [
    "phase",
    "number",
    "origin",
    "live",
    "delivered",
    "hops",
    "gossip",
    "ihave",
    "graft",
    "prune",
];

/// The header of the rows of broadcasts: the names of the columns of the options and the further options of their run,
/// and of their own, with one comma between two, and a line feed. OutOfMemory (99) if an allocation is refused.
pub fn message_header_text(alloc: Global) -> Result<Vec<u8>, OutOfMemory> {
    let columns = columns_of_options(alloc)?;
    let mut names = names_of(alloc, &columns)?;
    for name in &MESSAGE_COLUMNS {
        names.push_field(name.as_bytes())?;
    }
    text_of(alloc, &names)
}

/// The row of a broadcast: its cells in the order of the columns, with one comma between two, and a line feed.
/// OutOfMemory (99) if an allocation is refused.
pub fn message_row_text(alloc: Global, message: &MessageRow) -> Result<Vec<u8>, OutOfMemory> {
    let mut cells = Vec::new(alloc);
    push_message(&mut cells, message)?;
    text_of_cells(alloc, &cells)
}

/// Adds the cells of a broadcast.
fn push_message(cells: &mut Vec<Cell>, message: &MessageRow) -> Result<(), AllocError> {
    let options = &message.options;
    cells.extend_from_slice(&setting_cells(options))?;
    cells.push(seed_cell(options.seed))?;
    cells.extend_from_slice(&further_cells(options))?;
    Ok(cells.extend_from_slice(&message_cells(message))?)
}

/// The record of cells, with its end.
fn text_of_cells(alloc: Global, cells: &[Cell]) -> Result<Vec<u8>, OutOfMemory>
    ensures { IfOk result (λ text. text.items ≡ row_text default_writer (map cell_text cells.now)) }
{
    let mut fields = ByteRecord::new(alloc);
    for cell in cells {
        let text = format!(in alloc; "{cell}")?;
        fields.push_field(text.as_bytes())?;
    }
    text_of(alloc, &fields)
}

/// The record, with its end. A writer into memory fails only if an allocation was refused.
fn text_of(alloc: Global, fields: &ByteRecord) -> Result<Vec<u8>, OutOfMemory>
    ensures { IfOk result (λ text. text.items ≡ row_text default_writer (fields_of fields.now)) }
{
    let mut writer = WriterBuilder::new().from_writer(Vec::new(alloc));
    if let Err(_error) = writer.write_byte_record(fields) {
        return Err(OutOfMemory);
    }
    match writer.into_inner() {
        Ok(text) => Ok(text),
        Err(_error) => Err(OutOfMemory),
    }
}
