ghost use Rattle.std.specs.Prelude.{◌≡◌, ◌⊎◌, IfOk, IfErr, IfSome};

use crate::fault_printing::print_fault;
use crate::which_command_tips::print_folder_tip;
use ov_io::{Source, unopened_text, unread_text};
use ov_lines::{FileKind, is_folder};
use ov_run_meaning::RunFault;
use std::fs::File;
use std::io::{self, IsTerminal, Read};

/// The name of what is read if no file is named.
pub const STANDARD_INPUT: &str = "standard input";

/// Prints that a file of this kind is read from standard input, if none is named and standard input is a terminal.
pub fn tell_typing(rt: &HostRuntime, file: Option<&str>, kind: FileKind) {
    if file.is_none() && rt.stdin().is_terminal() {
        let what = kind.words();
        let _ = eprintln!(rt; "reading {what} from standard input, to its end (Ctrl-D)");
    }
}

/// Opens a file. If that fails, or a folder has this name, prints why.
pub fn opened(rt: &HostRuntime, path: &str) -> Result<File, RunFault>
    ensures { IfErr result (λ fault. fault ≡ RunFault.Read) }
{
    match File::open(rt, path) {
        Ok(file) => no_folder(rt, path, file),
        Err(error) => Err(not_opened(rt, path, error)),
    }
}

/// The file that was opened, unless a folder has its name.
fn no_folder(rt: &HostRuntime, path: &str, file: File) -> Result<File, RunFault>
    ensures { IfErr result (λ fault. fault ≡ RunFault.Read) }
{
    if !is_folder(rt, path) {
        return Ok(file);
    }
    let ended = not_read(rt, path, RunFault::Read);
    print_folder_tip(rt, path);
    Err(ended)
}

/// Ends if a file can't be opened. Prints its name, with the cause.
fn not_opened(rt: &HostRuntime, path: &str, error: io::Error) -> RunFault
    ensures { result ≡ RunFault.Read }
{
    let ended = print_fault(rt, RunFault::Read);
    if let Ok(text) = unopened_text(rt.alloc(), path, &error) {
        let _ = eprintln!(rt; "{text}");
    }
    ended
}

/// All bytes of a reader. If it can't be read, prints that, with its name.
///
/// `Read` (71): the reader failed. `OutOfMemory` (99): an allocation was refused.
pub fn bytes_of<R: Read + Drop>(
    rt: &HostRuntime,
    reader: R,
    name: &str,
) -> Result<Vec<u8>, RunFault>
    ensures bytes { IfOk result (λ v. IfSome (R.remaining reader) (λ xs. v.items ≡ xs)) }
    ensures fault { IfErr result (λ fault. (fault ≡ RunFault.Read) ⊎ (fault ≡ RunFault.OutOfMemory)) }
{
    let mut source = Source::new(reader);
    match source.read_all(rt.alloc()) {
        Ok(bytes) => Ok(bytes),
        Err(fault) => Err(not_read(rt, name, RunFault::from(fault))),
    }
}

/// Ends if a file can't be read. Prints its name, unless an allocation was refused.
fn not_read(rt: &HostRuntime, name: &str, fault: RunFault) -> RunFault
    ensures { result ≡ fault }
{
    let is_memory = matches!(&fault, RunFault::OutOfMemory);
    let ended = print_fault(rt, fault);
    if is_memory {
        let _ = eprintln!(rt; "out of memory");
    } else if let Ok(text) = unread_text(rt.alloc(), name) {
        let _ = eprintln!(rt; "{text}");
    }
    ended
}
