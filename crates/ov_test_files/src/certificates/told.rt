//! The line of a file by both judges, and rows that change a part of a file.
use ov_check::{judge, judge_parallel};
use ov_ids::OutOfMemory;
use ov_io::{Sink, Source};
use std::alloc::Global;
use std::thread::Threads;

/// The text is this line with a line feed, and the status is that of the line.
fn is_line(status: u8, text: &[u8], line: &str) -> bool {
    let expected = if line.starts_with("holds ") { 0 } else { 1 };
    status == expected
        && matches!(text.split_last(), Some((b'\n', before)) if before == line.as_bytes())
}

/// One thread judges the bytes, and prints this line.
pub(crate) fn is_judged(alloc: Global, bytes: &[u8], line: &str) -> bool {
    let mut source = Source::new(bytes);
    let mut sink = Sink::new(Vec::new(alloc));
    let answer = judge(alloc, &mut source, &mut sink);
    match answer {
        Ok(status) => is_line(status, &sink.into_writer(), line),
        Err(_) => false,
    }
}

/// Many threads judge the bytes, and print this line.
fn is_judged_by_threads(
    rt: &(impl AllocGlobal + Threads + Sync),
    bytes: &[u8],
    line: &str,
) -> bool {
    let mut source = Source::new(bytes);
    let mut sink = Sink::new(Vec::new(rt.alloc()));
    let answer = judge_parallel(rt, &mut source, &mut sink);
    match answer {
        Ok(status) => is_line(status, &sink.into_writer(), line),
        Err(_) => false,
    }
}

/// One thread and many judge the bytes, and print this line.
pub(crate) fn has_line(rt: &(impl AllocGlobal + Threads + Sync), bytes: &[u8], line: &str) -> bool {
    is_judged(rt.alloc(), bytes, line) && is_judged_by_threads(rt, bytes, line)
}

/// The three parts of a row.
fn parts(row: &str) -> Option<(&str, &str, &str)> {
    let (old, rest) = row.split_once(" => ")?;
    let (new, told) = rest.split_once(" => ")?;
    Some((old, new, told))
}

/// The file with one part in place of another, which must stand in the file. It is empty if that does not.
pub(crate) fn changed(
    alloc: Global,
    file: &str,
    old: &str,
    new: &str,
) -> Result<String, OutOfMemory> {
    if !file.contains(old) {
        return Ok(String::new(alloc));
    }
    Ok(file.replace(alloc, old, new)?)
}

/// The file that the row changes has the line of the row.
pub(crate) fn has_row(rt: &(impl AllocGlobal + Threads + Sync), file: &str, row: &str) -> bool {
    let Some((old, new, line)) = parts(row) else {
        return false;
    };
    match changed(rt.alloc(), file, old, new) {
        Ok(text) => has_line(rt, text.as_bytes(), line),
        Err(_) => false,
    }
}
