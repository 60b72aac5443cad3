//! What the words after `overlay grow` and `overlay sweep` ask for. More of it is an example (`tables` of `examples`).
use ov_arguments::{
    GrowArgumentsFault, Printed, SweepRequest, read_grow_arguments, read_sweep_arguments,
};
use ov_grow_options::GrowOptions;
use ov_ids::Workers;
use std::alloc::{AllocError, Global};

/// The words of a line, with one space between two. The empty line has none.
fn words_of(alloc: Global, line: &str) -> Result<Vec<String>, AllocError> {
    let mut words = Vec::new(alloc);
    if line.is_empty() {
        return Ok(words);
    }
    for word in line.split(' ') {
        words.push(String::from_str(alloc, word)?)?;
    }
    Ok(words)
}

/// The options that the words of this line ask for.
fn grown(alloc: Global, line: &str) -> Option<GrowOptions> {
    let Ok(words) = words_of(alloc, line) else {
        return None;
    };
    match read_grow_arguments(alloc, &words) {
        Ok(request) => Some(request.options),
        Err(_) => None,
    }
}

/// Words after `overlay grow`, and the command that says their options.
static GROWN: [(&str, &str); 4] = [
    (
        "--nodes 256 --active=16 --passive 64 --arwl 15 --prwl 15 --ka 8 --kp 8 --ttl 15 --seed 18446744073709551615",
        "overlay grow --nodes 256 --active 16 --passive 64 --arwl 15 --prwl 15 --ka 8 --kp 8 --ttl 15 --seed 18446744073709551615",
    ),
    (
        "--broadcasts 1000 --heal 1000 --crash 99 --rounds 1000 --pace 65536 --order oldest --repeat 99 --loss 100 --loss-join 100",
        "overlay grow --loss-join 100 --loss 100 --repeat 99 --order oldest --pace 65536 --rounds 1000 --crash 99 --heal 1000 --broadcasts 1000",
    ),
    ("--crash-cut", "overlay grow --crash-cut"),
    ("--crash cut --pace none", "overlay grow --crash-cut"),
];

/// Whether this command says the options.
fn is_command(alloc: Global, options: GrowOptions, command: &str) -> bool {
    match options.to_string(alloc) {
        Ok(text) => text.as_str() == command,
        Err(_) => false,
    }
}

#[test]
fn grow_words_are_read(rt: HostRuntime) {
    for (line, command) in &GROWN {
        let is_read = match grown(rt.alloc(), line) {
            Some(options) => is_command(rt.alloc(), options, command),
            None => false,
        };
        assert!(rt; is_read, "{line}");
    }
    assert!(rt; grown(rt.alloc(), "") == Some(GrowOptions::default()));
}

/// What a sweep with the words of this line asks for.
fn sweep(alloc: Global, line: &str) -> Result<SweepRequest, GrowArgumentsFault> {
    match words_of(alloc, line) {
        Ok(words) => read_sweep_arguments(alloc, &words),
        Err(_) => Err(GrowArgumentsFault::OutOfMemory),
    }
}

/// How many runs a sweep with the words of this line asks for, or the number of the fault.
pub(crate) fn runs_of(alloc: Global, line: &str) -> Result<u64, u32> {
    match sweep(alloc, line) {
        Ok(request) => Ok(request.len()),
        Err(fault) => Err(fault.number()),
    }
}

/// Whether a sweep asks for the rows of 30 runs by one worker and no more.
fn is_bare(request: &SweepRequest) -> bool {
    request.len() == 30
        && request.workers == Workers::ONE
        && request.printed == Printed::Rows
        && !request.progress
        && !request.costs
        && !request.shape
        && request.svg.is_none()
        && request.read.is_none()
}

/// Whether a sweep asks for these measures, and prints that.
fn is_measured(alloc: Global, line: &str, measures: (bool, bool), printed: Printed) -> bool {
    match sweep(alloc, line) {
        Ok(request) => (request.costs, request.shape) == measures && request.printed == printed,
        Err(_) => false,
    }
}

/// What words of a sweep measure, and what it prints.
const MEASURED: [(&str, bool, bool, Printed); 4] = [
    ("--costs --broadcasts 1", true, false, Printed::Rows),
    ("--shape --summary", false, true, Printed::Summary),
    (
        "--shape --costs --broadcasts 0 --list 5",
        true,
        true,
        Printed::List { block: 5 },
    ),
    (
        "--sequential --messages --broadcasts 1",
        false,
        false,
        Printed::Messages,
    ),
];

#[test]
fn measures_are_asked_for(rt: HostRuntime) {
    for (line, costs, shape, printed) in MEASURED {
        assert!(rt;
            is_measured(rt.alloc(), line, (costs, shape), printed),
            "{line}"
        );
    }
}

/// Whether a sweep asks for a summary of two files, and a picture.
fn is_of_files(request: &SweepRequest) -> bool {
    let (Some(svg), Some(read)) = (&request.svg, &request.read) else {
        return false;
    };
    request.printed == Printed::Summary && svg.as_str() == "p.svg" && read.len() == 2
}

#[test]
fn sweep_words_are_read(rt: HostRuntime) {
    let is_bare = matches!(&sweep(rt.alloc(), ""), Ok(request) if is_bare(request));
    assert!(rt; is_bare);
    let files = "--read a b --svg p.svg --summary";
    let is_of_files = matches!(&sweep(rt.alloc(), files), Ok(request) if is_of_files(request));
    assert!(rt; is_of_files);
}
