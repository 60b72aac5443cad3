ghost use Rattle.std.specs.Prelude.{◌≡◌, ◌≤◌, ◌↔◌, ◌⊎◌, IfErr, IfOk, IfSome, IsTrue};
ghost use Rattle.ov_grow_commands.specs.Code.RowFiles.{IsUnreadRows};
ghost use Rattle.ov_grow_commands.specs.GrowFaults.{fault_of_rows};
ghost use Rattle.ov_grow_commands.specs.declared.grow_command_fault.GrowCommandFault.TheVariants.{OutOfMemory, Read};
ghost use Rattle.ov_sweep_rows.specs.Reading.{AreRowsOf};

use crate::grow_command::told;
use crate::grow_command_fault::GrowCommandFault;
use ov_grow_options::GrowOptions;
use ov_io::{ReadFault, Source, shown_name, unopened_text, unread_text};
use ov_sweep_rows::{Row, RowFault, header_slip, read_rows};
use std::fs::File;
use std::io::{self, IsTerminal, Read};

/// The rows of files, one file after the other. Prints why, if a file can't be read or has a line that is no row, or if
/// memory runs out.
pub(crate) fn rows_of_files(
    rt: &HostRuntime,
    files: &[String],
) -> Result<Vec<Row>, GrowCommandFault> {
    let mut rows = Vec::new(rt.alloc());
    for file in files {
        let more = rows_of_file(rt, file.as_str())?;
        if rows.extend_from_slice(&more).is_err() {
            return Err(told(rt, GrowCommandFault::OutOfMemory));
        }
    }
    Ok(rows)
}

/// The rows of a file, or of standard input. Prints why, if it can't be read or has a line that is no row, or if memory
/// runs out.
fn rows_of_file(rt: &HostRuntime, name: &str) -> Result<Vec<Row>, GrowCommandFault> {
    if name == STANDARD_INPUT {
        tell_typing(rt);
        return rows_from(rt, name, rt.stdin());
    }
    match File::open(rt, name) {
        Ok(file) => rows_from(rt, name, file),
        Err(error) => Err(not_opened(rt, name, &error)),
    }
}

/// The rows of a reader that has this name.
fn rows_from<R: Read + Drop>(
    rt: &HostRuntime,
    name: &str,
    reader: R,
) -> Result<Vec<Row>, GrowCommandFault>
    ensures rows { IfOk result (λ rows. IfSome (R.remaining reader) (λ xs. AreRowsOf xs rows.items)) }
    ensures fault { IfErr result (IsUnreadRows (R.remaining reader)) }
{
    let bytes = all_bytes(rt, name, reader)?;
    match read_rows(rt.alloc(), &bytes) {
        Ok(rows) => Ok(rows),
        Err(fault) => Err(no_rows(rt, name, &bytes, fault)),
    }
}

/// The options of a row that is named as FILE:N. Prints why, if there is no such row, or if memory runs out.
pub(crate) fn options_of_row(rt: &HostRuntime, row: &str) -> Result<GrowOptions, GrowCommandFault> {
    let Some((file, number)) = row.rsplit_once(":") else {
        return Err(no_row(rt, row, "a row is named FILE:N, as rows.csv:12"));
    };
    let Ok(number) = number.parse::<usize>() else {
        return Err(no_row(rt, row, "a row is named FILE:N, as rows.csv:12"));
    };
    let rows = rows_of_file(rt, file)?;
    match rows.get(number.wrapping_sub(1)) {
        Some(found) if has_its_sender(&found.options) => Ok(found.options),
        Some(_) => Err(no_row(rt, row, "its sender is none of its nodes")),
        None => Err(no_row(rt, row, "the file has no such row; they are counted from 1")),
    }
}

/// Whether the sender, if there is one, is one of the nodes. Rows are read without asking for that.
fn has_its_sender(options: &GrowOptions) -> bool
    ensures { IsTrue result ↔ IfSome options.now.sender (λ node. node ≤ options.now.nodes) }
{
    match options.sender {
        Some(node) => node.number() <= options.nodes.get(),
        None => true,
    }
}

/// Ends if a row that is asked for is not there. Prints its name, and why.
fn no_row(rt: &HostRuntime, row: &str, reason: &str) -> GrowCommandFault {
    let ended = GrowCommandFault::Row;
    let _ = eprintln!(rt; "{ended}");
    if let Ok(shown) = shown_name(rt.alloc(), row) {
        let _ = eprintln!(rt; "{shown}: {reason}");
    }
    ended
}

/// The name that stands for standard input.
const STANDARD_INPUT: &str = "-";

/// Ends if a file can't be opened. Prints its name, with the cause.
fn not_opened(rt: &HostRuntime, name: &str, error: &io::Error) -> GrowCommandFault
    ensures { result ≡ Read }
{
    let ended = GrowCommandFault::Read;
    let _ = eprintln!(rt; "{ended}");
    if let Ok(text) = unopened_text(rt.alloc(), name, error) {
        let _ = eprintln!(rt; "{text}");
    }
    ended
}

/// Prints that rows are read from standard input, if that is a terminal.
fn tell_typing(rt: &HostRuntime) {
    if rt.stdin().is_terminal() {
        let _ = eprintln!(rt; "reading rows from standard input, to its end (Ctrl-D)");
    }
}

/// All bytes of a reader that has this name.
fn all_bytes<R: Read + Drop>(
    rt: &HostRuntime,
    name: &str,
    reader: R,
) -> Result<Vec<u8>, GrowCommandFault>
    ensures bytes { IfOk result (λ bytes. IfSome (R.remaining reader) (λ xs. bytes.items ≡ xs)) }
    ensures fault { IfErr result (λ fault. (fault ≡ Read) ⊎ (fault ≡ OutOfMemory)) }
{
    match Source::new(reader).read_all(rt.alloc()) {
        Ok(bytes) => Ok(bytes),
        Err(ReadFault::OutOfMemory) => Err(told(rt, GrowCommandFault::OutOfMemory)),
        Err(ReadFault::Read) => {
            let ended = GrowCommandFault::Read;
            let _ = eprintln!(rt; "{ended}");
            if let Ok(text) = unread_text(rt.alloc(), name) {
                let _ = eprintln!(rt; "{text}");
            }
            Err(ended)
        }
    }
}

/// Ends if a file of these bytes has a line that is no row. Prints its name, and which line.
fn no_rows(rt: &HostRuntime, name: &str, bytes: &[u8], fault: RowFault) -> GrowCommandFault
    ensures { result ≡ fault_of_rows fault }
{
    if fault == RowFault::OutOfMemory {
        return told(rt, GrowCommandFault::OutOfMemory);
    }
    let ended = GrowCommandFault::Row;
    let _ = eprintln!(rt; "{ended}");
    if let Ok(shown) = shown_name(rt.alloc(), name) {
        print_reason(rt, &shown, bytes, fault);
    }
    ended
}

/// Prints why the file of this name and of these bytes is refused; of a header, which column is missing.
fn print_reason(rt: &HostRuntime, shown: &str, bytes: &[u8], fault: RowFault) {
    let slip = match fault {
        RowFault::Header => header_slip(rt.alloc(), bytes),
        _ => Ok(None),
    };
    let _ = match slip {
        Ok(Some(slip)) => eprintln!(rt; "{shown}: {fault}: {slip}"),
        Ok(None) | Err(_) => eprintln!(rt; "{shown}: {fault}"),
    };
}
