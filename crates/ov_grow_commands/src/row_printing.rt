ghost use Rattle.std.specs.Prelude.{◌≡◌, ◌<◌, [], IfErr, OnOk};
ghost use Rattle.std.specs.Io.KnownBytes.{Appends};
ghost use Rattle.ov_io.specs.Device.{AppendsPrefixOf, most_faults};
ghost use Rattle.ov_sweep.specs.Sweeps.{WereGiven};
ghost use Rattle.ov_grow_commands.specs.WrittenRows.{row_lines, rows_file};
ghost use Rattle.ov_grow_commands.specs.KeptRows.{asked_measures, needs_rows};
ghost use Rattle.ov_grow_commands.specs.Code.Keeping.{IsOfNoRun, kept_rows};

use crate::sweep_progress::RunProgress;
use ov_arguments::{Printed, SweepRequest};
use ov_io::Sink;
use ov_sweep::{RowTaker, SweepFault};
use ov_sweep_rows::{Measures, Row, RowForm, header_text, row_text};
use std::alloc::Global;
use std::io::Write;

/// Prints the rows of a sweep as they come, unless a summary or an answer is asked for, and keeps those that are needed
/// at the end.
#[derive(Drop)]
pub(crate) struct RowPrinter<'a> {
    rt: &'a HostRuntime,
    request: &'a SweepRequest,
    kept: Vec<Row>,
    progress: RunProgress<'a>,
    done: u64,
}

/// What is measured beside the numbers that each row has.
pub(crate) fn measures_asked(request: &SweepRequest) -> Measures
    ensures { result ≡ asked_measures request.now }
{
    Measures {
        costs: request.costs,
        shape: request.shape,
    }
}

/// Which columns the rows of what is grown have.
fn form_asked(request: &SweepRequest) -> RowForm {
    RowForm::with(measures_asked(request), request.asks_further())
}

/// Whether the rows are needed at the end, for a summary, an answer or a picture.
fn needs_rows(request: &SweepRequest) -> bool
    ensures { result ≡ needs_rows request.now }
{
    match request.printed {
        Printed::Summary | Printed::Answer => true,
        Printed::Rows | Printed::Messages | Printed::List { .. } => request.svg.is_some(),
    }
}

impl<'a> RowPrinter<'a> {
    /// A printer to which no row was given.
    pub(crate) fn new(rt: &'a HostRuntime, request: &'a SweepRequest) -> RowPrinter<'a>
        ensures { kept_rows result.request.now result.kept.items ≡ kept_rows request.now [] }
    {
        RowPrinter {
            rt,
            request,
            kept: Vec::new(rt.alloc()),
            progress: RunProgress::new(rt, request.progress),
            done: 0,
        }
    }

    /// Prints the header of the rows, if rows are asked for.
    pub(crate) fn print_header(&self) -> Result<(), SweepFault> {
        if self.request.printed != Printed::Rows {
            return Ok(());
        }
        let text = header_text(self.rt.alloc(), form_asked(self.request))?;
        Ok(Sink::new(self.rt.stdout()).write_all(&text)?)
    }

    /// Prints rows, if they are asked for. Each is written by itself, so that a signal leaves whole rows.
    fn print(&self, rows: &[Row]) -> Result<(), SweepFault>
        ensures { IfErr result IsOfNoRun }
    {
        if self.request.printed != Printed::Rows {
            return Ok(());
        }
        let mut sink = Sink::new(self.rt.stdout());
        write_rows(self.rt.alloc(), form_asked(self.request), rows, &mut sink)
    }

    /// Keeps rows, if a summary, an answer or a picture needs them.
    fn keep(&mut self, rows: &[Row]) -> Result<(), SweepFault>
        ensures { WereGiven rows.now (kept_rows self.old.request.now self.old.kept.items)
            (kept_rows self.new.request.now self.new.kept.items) result }
    {
        if needs_rows(self.request) {
            self.kept.extend_from_slice(rows)?;
        }
        Ok(())
    }

    /// Tells how far the sweep has come, once so many runs more are done.
    fn tell(&mut self, count: usize)
        ensures rows { self.new.kept.items ≡ self.old.kept.items }
        ensures request { self.new.request ≡ self.old.request }
    {
        self.done = self.done.saturating_add(count as u64);
        if self.done > 0 {
            self.progress.sees(self.done, self.request.len());
        }
    }

    /// The rows that were kept.
    pub(crate) fn into_kept(self) -> Vec<Row>
        ensures { result ≡ self.entry.kept }
    {
        let RowPrinter {
            rt: _,
            request: _,
            kept,
            progress: _,
            done: _,
        } = self;
        kept
    }
}

impl<'a> RowTaker for RowPrinter<'a> {
    ghost use Rattle.ov_grow_commands.specs.Code.Keeping.{kept_rows};

    ghost taken = { λ printer. kept_rows printer.request.now printer.kept.items };

    fn take(&mut self, rows: &[Row]) -> Result<(), SweepFault> {
        let printed = self.print(rows);
        if printed.is_err() {
            return printed;
        }
        self.tell(rows.len());
        self.keep(rows)
    }
}

/// Writes the header of these rows, with the columns that all of them have, and then the rows.
pub(crate) fn write_file<W: Write>(
    alloc: Global,
    rows: &[Row],
    sink: &mut Sink<W>,
) -> Result<(), SweepFault>
    requires { sink.old.faults < most_faults }
    ensures fault { IfErr result IsOfNoRun }
    ensures file { OnOk result (Appends (W.contents sink.old.writer) (W.contents sink.new.writer)
        (rows_file rows.now)) }
    ensures prefix { AppendsPrefixOf (rows_file rows.now) (W.contents sink.old.writer) (W.contents sink.new.writer) }
{
    let form = RowForm::of_rows(rows);
    let header = header_text(alloc, form)?;
    sink.write_all(&header)?;
    write_rows(alloc, form, rows, sink)
}

/// Writes rows of this form, one after the other. That a write failed is not passed over.
fn write_rows<W: Write>(
    alloc: Global,
    form: RowForm,
    rows: &[Row],
    sink: &mut Sink<W>,
) -> Result<(), SweepFault>
    requires { sink.old.faults < most_faults }
    ensures fault { IfErr result IsOfNoRun }
    ensures unfailed { OnOk result (sink.new.faults ≡ sink.old.faults) }
    ensures lines { OnOk result (Appends (W.contents sink.old.writer) (W.contents sink.new.writer)
        (row_lines form rows.now)) }
    ensures prefix { AppendsPrefixOf (row_lines form rows.now) (W.contents sink.old.writer)
        (W.contents sink.new.writer) }
{
    for row in rows {
        let text = row_text(alloc, form, row)?;
        sink.write_all(&text)?;
    }
    Ok(())
}
