ghost use Rattle.std.specs.Prelude.{IsTrue};
ghost use Rattle.ov_grow_commands.specs.KeptRows.{AreGrown, asked_measures, needs_rows};

use crate::grow_command::{print_refusal, told};
use crate::grow_command_fault::GrowCommandFault;
use crate::message_row_printing::print_messages;
use crate::picture_file::opened_picture;
use crate::row_files::rows_of_files;
use crate::row_printing::{RowPrinter, measures_asked, write_file};
use crate::sweep_report::{print_report, tell_none, tell_repeated, tell_too_few};
use ov_arguments::{Printed, SweepBlock, SweepRequest};
use ov_io::Sink;
use ov_sweep::{RefusedRun, SweepFault, sweep};
use ov_sweep_rows::Row;
use std::fs::File;
use std::thread::Threads;

/// Does what is asked of a sweep.
pub(crate) fn sweep_asked<T: Threads + Sync>(
    rt: &HostRuntime,
    threads: &T,
    request: &SweepRequest,
) -> Result<(), GrowCommandFault> {
    match request.printed {
        Printed::List { block } => print_list(rt, request, block),
        Printed::Messages => print_messages(rt, request),
        Printed::Rows | Printed::Summary | Printed::Answer => print_sweep(rt, threads, request),
    }
}

/// Prints the commands of all blocks of runs. Prints why it ended before its end.
fn print_list(rt: &HostRuntime, request: &SweepRequest, most: u32) -> Result<(), GrowCommandFault> {
    for block in request.blocks(most) {
        if let Err(fault) = print_block(rt, &block) {
            return Err(told(rt, fault));
        }
    }
    Ok(())
}

/// Prints the command of a block of runs.
fn print_block(rt: &HostRuntime, block: &SweepBlock) -> Result<(), GrowCommandFault> {
    let mut line = block.command(rt.alloc())?;
    line.push('\n')?;
    Ok(Sink::new(rt.stdout()).write_all(line.as_bytes())?)
}

/// Prints the rows of a sweep, or what is told of them, and writes the picture if one is asked for, whose file is
/// opened before all else.
fn print_sweep<T: Threads + Sync>(
    rt: &HostRuntime,
    threads: &T,
    request: &SweepRequest,
) -> Result<(), GrowCommandFault> {
    let mut picture = opened_picture(rt, request.svg.as_deref())?;
    match &request.read {
        Some(files) => {
            let rows = read_and_print(rt, request, files)?;
            print_report(rt, request, &rows, &mut picture)
        }
        None => {
            tell_too_few(rt, request);
            grow_and_print(rt, threads, request, &mut picture)
        }
    }
}

/// The rows of files, which are printed too unless a summary or an answer is asked for.
fn read_and_print(
    rt: &HostRuntime,
    request: &SweepRequest,
    files: &[String],
) -> Result<Vec<Row>, GrowCommandFault> {
    let rows = rows_of_files(rt, files)?;
    tell_none(rt, &rows);
    tell_repeated(rt, &rows)?;
    if request.printed == Printed::Rows {
        if let Err(fault) = print_rows(rt, &rows) {
            return Err(told(rt, fault));
        }
    }
    Ok(rows)
}

/// Prints the header, and these rows, with the columns that all of them have.
fn print_rows(rt: &HostRuntime, rows: &[Row]) -> Result<(), GrowCommandFault> {
    match write_file(rt.alloc(), rows, &mut Sink::new(rt.stdout())) {
        Ok(()) => Ok(()),
        Err(fault) => Err(GrowCommandFault::from(fault)),
    }
}

/// Grows the overlays of a sweep, and prints their rows, or what is told of them, and writes the picture if one is
/// asked for. If a run is refused, all this is of the runs before it. Prints why it ended before its end.
fn grow_and_print<T: Threads + Sync>(
    rt: &HostRuntime,
    threads: &T,
    request: &SweepRequest,
    picture: &mut Option<File>,
) -> Result<(), GrowCommandFault> {
    let Swept { rows, done } = rows_swept(rt, threads, request);
    match done {
        Ok(()) => print_report(rt, request, &rows, picture),
        Err(SweepFault::Run(refused)) => {
            if !rows.is_empty() {
                print_report(rt, request, &rows, picture)?;
            }
            Err(refused_run(rt, &refused))
        }
        Err(fault) => Err(told(rt, GrowCommandFault::from(fault))),
    }
}

/// What came of a sweep.
#[derive(Drop)]
struct Swept {
    /// The rows, if they are needed for a summary, an answer or a picture.
    rows: Vec<Row>,
    /// How it ended.
    done: Result<(), SweepFault>,
}

/// Grows the overlays of a sweep, and prints their rows, unless a summary or an answer is asked for. The rows are
/// returned if they are needed at the end.
fn rows_swept<T: Threads + Sync>(rt: &HostRuntime, threads: &T, request: &SweepRequest) -> Swept
    ensures { IsTrue (needs_rows request.now) → AreGrown (asked_measures request.now) result.rows.items }
{
    let mut printer = RowPrinter::new(rt, request);
    if let Err(fault) = printer.print_header() {
        return Swept {
            rows: Vec::new(rt.alloc()),
            done: Err(fault),
        };
    }
    let done = sweep(
        threads,
        rt.alloc(),
        request.runs(),
        request.workers,
        measures_asked(request),
        &mut printer,
    );
    Swept {
        rows: printer.into_kept(),
        done,
    }
}

/// Ends a sweep at a run that was refused. Prints the command of the run, and why.
pub(crate) fn refused_run(rt: &HostRuntime, refused: &RefusedRun) -> GrowCommandFault {
    let (options, fault) = (refused.options, refused.fault);
    let ended = GrowCommandFault::from(fault);
    let _ = eprintln!(rt; "{ended}\n{options}");
    print_refusal(rt, &fault);
    ended
}
