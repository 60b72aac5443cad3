use crate::file_kinds::{FileKind, looks_like};
use std::fs::{File, Files};
use std::io::Read;

/// How many bytes of a file are looked at.
const HEAD: usize = 4096;

/// What the file of this name looks like, by its first 4,096 bytes at most. None if it can't be read. Only a plain file
/// is opened: a pipe would wait for its writer.
pub fn kind_of_file<R: Files>(rt: &R, path: &str) -> Option<FileKind> {
    if !rt.metadata(path).ok()?.is_file() {
        return None;
    }
    let mut file = File::open(rt, path).ok()?;
    let mut head = [0u8; HEAD];
    let count = file.read(&mut head).ok()?;
    Some(looks_like(&head[..count]))
}

/// Whether a folder has this name.
pub fn is_folder<R: Files>(rt: &R, path: &str) -> bool {
    match rt.metadata(path) {
        Ok(about) => about.is_dir(),
        Err(_) => false,
    }
}
