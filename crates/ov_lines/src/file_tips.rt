use crate::file_kinds::FileKind;
use ov_io::shown_name;
use std::alloc::{AllocError, Global};

/// What a tip says of a certificate file. In each of these lists the file's name stands between two parts.
static OF_CERTIFICATE: [&str; 3] = [
    "`overlay-check",
    "` checks it, and `overlay graph",
    "` prints its graph\n",
];

static OF_REPORT: [&str; 2] = [
    "if that has a certificate, `tail -n 1",
    "` prints it alone\n",
];

static OF_DUMP: [&str; 2] = ["`overlay import", "` makes a graph file of it\n"];

static OF_GRAPH: [&str; 2] = ["`overlay analyse", "` analyses it\n"];

static OF_SCENARIO: [&str; 2] = ["`overlay run", "` runs it\n"];

/// The line that says which command reads a file of this kind. Without a name it is standard input. The line ends with
/// a line feed; for an unknown kind it is empty. AllocError if an allocation is refused.
pub fn file_tip(alloc: Global, kind: FileKind, file: Option<&str>) -> Result<String, AllocError> {
    match file {
        Some(path) => shown_file_tip(alloc, kind, Some(shown_name(alloc, path)?.as_str())),
        None => shown_file_tip(alloc, kind, None),
    }
}

/// The line that says which command reads a file that was named without a command. It ends with a line feed. AllocError
/// if an allocation is refused.
pub fn command_tip(alloc: Global, kind: FileKind, path: &str) -> Result<String, AllocError> {
    if kind != FileKind::Unknown {
        return file_tip(alloc, kind, Some(path));
    }
    let name = shown_name(alloc, path)?;
    format!(in alloc; "tip: a command stands before the file, as in `overlay run {name}`\n")
}

/// The line that says that a folder has this name. It ends with a line feed. AllocError if an allocation is refused.
pub fn folder_tip(alloc: Global, path: &str) -> Result<String, AllocError> {
    let name = shown_name(alloc, path)?;
    format!(in alloc; "tip: {name} is a folder; name a file\n")
}

/// The line of a file whose name is shown so.
fn shown_file_tip(alloc: Global, kind: FileKind, name: Option<&str>) -> Result<String, AllocError> {
    let parts = parts_of(kind);
    if parts.is_empty() {
        return Ok(String::new(alloc));
    }
    let shown = name.unwrap_or("standard input");
    let mut text = format!(in alloc; "tip: {shown} looks like {}: ", kind.words())?;
    push_parts(&mut text, parts, name)?;
    Ok(text)
}

/// What a tip says of a file of this kind: nothing of an unknown one.
fn parts_of(kind: FileKind) -> &'static [&'static str] {
    match kind {
        FileKind::Certificate => &OF_CERTIFICATE,
        FileKind::Report => &OF_REPORT,
        FileKind::Views | FileKind::Dot => &OF_DUMP,
        FileKind::Graph => &OF_GRAPH,
        FileKind::Scenario => &OF_SCENARIO,
        FileKind::Unknown => &[],
    }
}

/// Appends these parts, with the file's name, if there is one, between two.
fn push_parts(text: &mut String, parts: &[&str], name: Option<&str>) -> Result<(), AllocError> {
    for (place, part) in parts.iter().enumerate() {
        if place > 0 {
            push_behind(text, name)?;
        }
        text.push_str(part)?;
    }
    Ok(())
}

/// Appends a file's name behind the words of a command.
fn push_behind(text: &mut String, name: Option<&str>) -> Result<(), AllocError> {
    if let Some(name) = name {
        text.push_str(" ")?;
        text.push_str(name)?;
    }
    Ok(())
}
