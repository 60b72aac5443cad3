//! Certificate files that are read: by their tokens, by their JSON value, and such that are refused.
use crate::files::FILE;
use Says::{Fault, File};
use ov_certfile::{FileFault, Filed, from_text, to_text_group};
use std::alloc::Global;
use std::test::Fail;

/// The moment of each file.
const MOMENT: u32 = 3;

/// The square's group of the nodes 1, 2 and 3, and an entry that is none of theirs: reading does not judge.
const GROUP_FILE: &str =
    r#"{"cut":[2,4],"fans":[{"j":3,"paths":[[3,2],[3,4,1]]}],"far":3,"group":[1,2,3],"k":2,"links":[[1,2],[1,4],[2,3],[3,4]],"moment":3,"near":1,"nodes":[1,2,3,4],"pairs":[{"i":1,"j":2,"paths":[[],[1]]}],"side":[1],"verdict":"split","version":2}"#;

const LINKED: &str =
    r#"{"k":1,"links":[[1,2]],"moment":3,"nodes":[1,2],"verdict":"linked","version":1}"#;

/// What a text says.
#[derive(Clone, Copy)]
enum Says {
    /// The file that is written as this text.
    File(&'static str),
    /// The fault with this number.
    Fault(u32),
}

/// What a call is called, its text, and what this says.
type Row = (&'static str, &'static str, Says);

/// The first four are as they are written, with white space in one. The next two have a key elsewhere or twice, so
/// that their JSON value is read; of those behind it each has a fault.
static ROWS: [Row; 13] = [
    ("read, linked", LINKED, File(LINKED)),
    (
        "read, linked",
        "{ \"k\":1,\"links\":[[ 1,2]],\n\"moment\":3,\"nodes\":[1,2],\"verdict\":\"linked\",\"version\":1}\n",
        File(LINKED),
    ),
    ("read, of all nodes", FILE, File(FILE)),
    ("read, of a group", GROUP_FILE, File(GROUP_FILE)),
    (
        "read, keys turned round",
        r#"{"version":1,"verdict":"linked","nodes":[1,2],"moment":3,"links":[[1,2]],"k":1}"#,
        File(LINKED),
    ),
    (
        "read, a key twice",
        r#"{"k":null,"k":1,"links":[[1,2]],"moment":3,"nodes":[1,2],"verdict":"linked","version":1}"#,
        File(LINKED),
    ),
    (
        "read, no JSON",
        r#"{"k":1,"links":[[1,2]],"moment":3,"nodes":[1,2],"verdict":"linked","version":1"#,
        Fault(60),
    ),
    (
        "read, a key missing",
        r#"{"k":1,"links":[[1,2]],"moment":3,"verdict":"linked","version":1}"#,
        Fault(61),
    ),
    (
        "read, a key unknown",
        r#"{"k":1,"links":[[1,2]],"moment":3,"name":"a","nodes":[1,2],"verdict":"linked","version":1}"#,
        Fault(62),
    ),
    (
        "read, a value of another form",
        r#"{"k":1,"links":[[1,2]],"moment":3,"nodes":[1,-2],"verdict":"linked","version":1}"#,
        Fault(63),
    ),
    (
        "read, another version",
        r#"{"k":1,"links":[[1,2]],"moment":3,"nodes":[1,2],"verdict":"linked","version":3}"#,
        Fault(64),
    ),
    (
        "read, nodes out of order",
        r#"{"k":1,"links":[[1,2]],"moment":3,"nodes":[2,1],"verdict":"linked","version":1}"#,
        Fault(32),
    ),
    (
        "read, a link to no node",
        r#"{"k":1,"links":[[1,3]],"moment":3,"nodes":[1,2],"verdict":"linked","version":1}"#,
        Fault(33),
    ),
];

/// A file that is written anew has this text.
fn is_file(alloc: Global, filed: &Filed, text: &str) -> Result<bool, Fail> {
    let group = filed.group.as_slice();
    let written = to_text_group(alloc, &filed.cert, &filed.graph, group, MOMENT)?;
    Ok(filed.moment == MOMENT && written.as_str() == text)
}

/// An answer is what a text says.
fn is_said(alloc: Global, answer: &Result<Filed, FileFault>, says: Says) -> Result<bool, Fail> {
    match (answer, says) {
        (Ok(filed), File(text)) => is_file(alloc, filed, text),
        (Err(fault), Fault(number)) => Ok(fault.number() == number),
        _ => Ok(false),
    }
}

/// A text is read as what it says, the second time if memory is refused the first time. Tells whether it was refused.
fn is_refused_once(alloc: Global, row: &Row) -> Result<bool, Fail> {
    let (_, text, says) = *row;
    let first = from_text(alloc, text);
    let is_refused = matches!(&first, Err(FileFault::OutOfMemory));
    let answer = if is_refused {
        from_text(alloc, text)
    } else {
        first
    };
    if is_said(alloc, &answer, says)? {
        Ok(is_refused)
    } else {
        Err("a text is read as something else".into())
    }
}

/// A text for which memory is refused is read as what it says when it is read again.
#[test]
fn out_of_memory_changes_no_reading(rt: HostRuntime) -> Result<(), Fail> {
    for row in &ROWS {
        if is_refused_once(rt.alloc(), row)? {
            let call = row.0;
            let _ = println!(rt; "seen: {call}: refused 99, then the row's answer");
        }
    }
    Ok(())
}
