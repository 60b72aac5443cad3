use ov_check_reasons::form_tip;
use ov_lines::{FileKind, file_tip, folder_tip, looks_like};
use ov_run_meaning::RunFault;
use std::alloc::AllocError;

/// Prints which command reads a file of these bytes, if it is another one than that of this kind of file; or which one
/// makes UTF-8 of it. The file has this name, or is standard input.
pub fn print_file_tip(rt: &HostRuntime, bytes: &[u8], file: Option<&str>, wanted: FileKind) {
    print_tip(rt, form_tip(rt.alloc(), bytes, file));
    let kind = looks_like(bytes);
    if kind != wanted && !(kind.is_dump() && wanted.is_dump()) {
        print_tip(rt, file_tip(rt.alloc(), kind, file));
    }
}

/// Prints which command reads these bytes, if a line of them can't be read and they do not look like this kind of file.
pub fn print_unread_tip(
    rt: &HostRuntime,
    bytes: &[u8],
    file: Option<&str>,
    fault: &RunFault,
    wanted: FileKind,
) {
    if let RunFault::Line(_) = fault {
        print_file_tip(rt, bytes, file, wanted);
    }
}

/// Prints that the name of a file is that of a folder.
pub fn print_folder_tip(rt: &HostRuntime, path: &str) {
    print_tip(rt, folder_tip(rt.alloc(), path));
}

/// Prints the line of a tip. Prints nothing if an allocation for it was refused.
pub fn print_tip(rt: &HostRuntime, tip: Result<String, AllocError>) {
    if let Ok(tip) = tip {
        let _ = eprint!(rt; "{tip}");
    }
}
