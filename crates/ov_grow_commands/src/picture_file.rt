use crate::grow_command::told;
use crate::grow_command_fault::GrowCommandFault;
use ov_io::{Sink, unopened_text};
use std::fs::{File, OpenFile, OpenOptions};
use std::io::ErrorKind;

/// The file for a picture, if one is asked for, with what it has: it is emptied when the picture is written. Prints
/// why, if it can't be opened.
pub(crate) fn opened_picture(
    rt: &HostRuntime,
    path: Option<&str>,
) -> Result<Option<File>, GrowCommandFault> {
    let Some(path) = path else {
        return Ok(None);
    };
    let mut options = OpenOptions::new();
    options.write(true).create(true);
    match options.open(rt, path) {
        Ok(file) => Ok(Some(file)),
        Err(error) => {
            let ended = GrowCommandFault::Write;
            let _ = eprintln!(rt; "{ended}");
            if let Ok(text) = unopened_text(rt.alloc(), path, &error) {
                let _ = eprintln!(rt; "{text}");
            }
            Err(ended)
        }
    }
}

/// Writes a picture into its file, in place of what that has. Prints why, if it can't be written.
pub(crate) fn write_picture(
    rt: &HostRuntime,
    file: File,
    picture: &str,
) -> Result<(), GrowCommandFault> {
    if !is_emptied(&file) {
        return Err(told(rt, GrowCommandFault::Write));
    }
    match Sink::new(file).write_all(picture.as_bytes()) {
        Ok(()) => Ok(()),
        Err(_) => Err(told(rt, GrowCommandFault::Write)),
    }
}

/// Empties a file. A pipe or a device has nothing to be taken away.
fn is_emptied(file: &File) -> bool {
    match file.set_len(0) {
        Ok(()) => true,
        Err(error) => error.kind() == ErrorKind::InvalidInput,
    }
}
