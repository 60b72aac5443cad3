//! Of each line that can't be read something is said.
use ov_graph::SizeLimit;
use ov_graphfile::{GraphFileFault, read_graph};
use ov_reasons::{graph_reasons, scenario_reasons};
use std::alloc::{AllocError, Global};

/// What lines may begin with.
static NAMES: [&str; 26] = [
    "params",
    "seed",
    "refill",
    "scale",
    "words",
    "boot",
    "deliver",
    "lose",
    "repeat",
    "crash",
    "report",
    "shuffle",
    "broadcast",
    "timer",
    "snapshot",
    "analyse",
    "certificate",
    "show",
    "packets",
    "node",
    "link",
    "Boot",
    "boots",
    "  crash",
    "#",
    "",
];

/// What may follow.
static TAILS: [&str; 48] = [
    "",
    " ",
    " 1",
    "  1  ",
    " 1 2",
    " 1 2 3",
    " 1 2 3 4",
    " 1 2 3 1 5 6 7",
    " 1 2 3 4 5 6 7 8",
    " x",
    " 1 x",
    " -1",
    " +1",
    " 0x1",
    " 1.0",
    " 4294967295",
    " 4294967296",
    " 18446744073709551615",
    " 18446744073709551616",
    " 000000000000000000000000000001",
    " 1 by 2",
    " 1 by",
    " 1 by x",
    " 1 by 2 3",
    " 1 BY 2",
    " 1 group 1,2",
    " 1 group",
    " 1 group 1,",
    " 1 group ,1",
    " 1 group 1,2 3",
    " 1 group 1,4294967296",
    " 1 group 1, 2",
    "\t1",
    " 1\t",
    " 1\r",
    "\r",
    " 1 #",
    " \u{e4}",
    " 1 \u{e4}",
    " 1 group -",
    " 1 workers 1",
    " 1 workers 64 group 1,2",
    " 1 workers 0",
    " 1 workers 65",
    " 1 workers",
    " 1 group 1 workers 2",
    " alone",
    " large",
];

/// What is said of the second line if nothing is.
const NOTHING: &str = "line 2: \n";

/// Whether something is said of each line of a scenario file that is at fault.
fn has_words_of_scenario(alloc: Global, file: &[u8]) -> bool {
    match scenario_reasons(alloc, file) {
        Ok(text) => !text.as_str().contains(NOTHING),
        Err(_) => false,
    }
}

/// Whether something is said of each line of a graph file that is at fault, if this is its fault.
fn has_words_of_fault(alloc: Global, file: &[u8], fault: &GraphFileFault) -> bool {
    match graph_reasons(alloc, file, fault) {
        Ok(text) => !text.as_str().contains(NOTHING),
        Err(_) => false,
    }
}

/// Whether something is said of each line of a graph file that is at fault.
fn has_words_of_graph(alloc: Global, file: &[u8]) -> bool {
    let read = read_graph(alloc, SizeLimit::Usual, file);
    match &read {
        Ok(_) => false,
        Err(fault) => has_words_of_fault(alloc, file, fault),
    }
}

/// A file of this line, behind one that can't be read.
fn second(alloc: Global, name: &str, tail: &str) -> Result<String, AllocError> {
    let mut file = String::from_str(alloc, "foo\n")?;
    file.push_str(name)?;
    file.push_str(tail)?;
    Ok(file)
}

/// Whether something is said of this line in a scenario file and in a graph file, if it is at fault there.
fn has_words(alloc: Global, name: &str, tail: &str) -> bool {
    match second(alloc, name, tail) {
        Ok(file) => {
            has_words_of_scenario(alloc, file.as_bytes())
                && has_words_of_graph(alloc, file.as_bytes())
        }
        Err(_) => false,
    }
}

#[test]
fn something_is_said_of_each_line_at_fault(rt: HostRuntime) {
    for name in &NAMES {
        for tail in &TAILS {
            assert!(rt; has_words(rt.alloc(), name, tail), "at {name}{tail}");
        }
    }
}
