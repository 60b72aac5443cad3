//! Devices of which one call fails and no other one: what a run answers, and what the next run does.
use ov_io::{Sink, Source};
use ov_run::{RunFault, run};
use ov_test_kit::FailsOnce;
use std::io::ErrorKind;
use std::sync::Wait;
use std::thread::Threads;

/// Two nodes join, and the two moments are analysed.
const JOIN_AND_ANALYSE: &str = "boot 1
boot 2 by 1
deliver 0
snapshot
deliver 0
snapshot
analyse 4
analyse 6
";

/// A line for each of these lines.
const JOIN_AND_ANALYSE_PRINTS: &str = "entry 1 born 1
entry 2 born 2
entry 3 up 1 2
entry 4
entry 5 up 2 1
entry 6
report 4 split k 0 cut - near 2 far 1 side 2
report 6 linked k 1
";

/// The read after so many others fails. The answer is Read, and nothing was written.
fn fails_at_read(
    rt: &(impl AllocGlobal + Threads + Wait + Sync),
    reads: usize,
    kind: ErrorKind,
) -> bool {
    let alloc = rt.alloc();
    let device = FailsOnce::new(alloc, JOIN_AND_ANALYSE.as_bytes(), reads, Some(kind));
    let mut source = Source::new(device);
    let mut sink = Sink::new(Vec::new(alloc));
    let answer = run(rt, alloc, &mut source, &mut sink);
    answer == Err(RunFault::Read)
        && source.faults() == 1
        && sink.faults() == 0
        && sink.into_writer().is_empty()
}

/// How a read may fail.
const READ_ERRORS: [ErrorKind; 3] = [
    ErrorKind::Interrupted,
    ErrorKind::WouldBlock,
    ErrorKind::Other,
];

#[test]
fn each_read_fails_once(rt: HostRuntime) {
    let reads = JOIN_AND_ANALYSE.len() + 1;
    for kind in READ_ERRORS {
        for calls in 0..reads {
            assert!(rt; fails_at_read(&rt, calls, kind), "at {calls}");
        }
    }
}

/// The first read fails, and the next run reads and prints all.
fn goes_on_after_a_read(rt: &(impl AllocGlobal + Threads + Wait + Sync)) -> bool {
    let alloc = rt.alloc();
    let error = Some(ErrorKind::Interrupted);
    let mut source = Source::new(FailsOnce::new(alloc, JOIN_AND_ANALYSE.as_bytes(), 0, error));
    let mut sink = Sink::new(Vec::new(alloc));
    let failed = run(rt, alloc, &mut source, &mut sink);
    if source.faults() != 1 || sink.faults() != 0 {
        return false;
    }
    let next = run(rt, alloc, &mut source, &mut sink);
    failed == Err(RunFault::Read)
        && next == Ok(0)
        && source.faults() == 1
        && sink.into_writer().as_slice() == JOIN_AND_ANALYSE_PRINTS.as_bytes()
}

/// The bytes are the first ones that are printed, so many, and then all that is printed.
fn are_cut_and_whole(bytes: &[u8], count: usize) -> bool {
    let prints = JOIN_AND_ANALYSE_PRINTS.as_bytes();
    let (front, back) = bytes.split_at(count.min(bytes.len()));
    front.len() == count && prints.starts_with(front) && back == prints
}

/// The write after so many others fails. The answer is Write, and what was taken before it stands. The next run prints
/// all.
fn fails_at_write(
    rt: &(impl AllocGlobal + Threads + Wait + Sync),
    writes: usize,
    error: Option<ErrorKind>,
) -> bool {
    let alloc = rt.alloc();
    let mut sink = Sink::new(FailsOnce::new(alloc, &[], writes, error));
    let mut source = Source::new(JOIN_AND_ANALYSE.as_bytes());
    let failed = run(rt, alloc, &mut source, &mut sink);
    if sink.faults() != 1 {
        return false;
    }
    let mut again = Source::new(JOIN_AND_ANALYSE.as_bytes());
    let next = run(rt, alloc, &mut again, &mut sink);
    failed == Err(RunFault::Write)
        && next == Ok(0)
        && sink.faults() == 1
        && are_cut_and_whole(&sink.into_writer().taken, writes)
}

/// How a write may fail. Without an error it takes nothing.
const WRITE_ERRORS: [Option<ErrorKind>; 3] = [
    Some(ErrorKind::Interrupted),
    Some(ErrorKind::BrokenPipe),
    None,
];

#[test]
fn each_write_fails_once(rt: HostRuntime) {
    for error in WRITE_ERRORS {
        for calls in 0..JOIN_AND_ANALYSE_PRINTS.len() {
            assert!(rt; fails_at_write(&rt, calls, error), "at {calls}");
        }
    }
}

/// No call of the devices fails: all is read and printed, a byte a call.
fn fails_never(rt: &(impl AllocGlobal + Threads + Wait + Sync)) -> bool {
    let alloc = rt.alloc();
    let device = FailsOnce::new(alloc, JOIN_AND_ANALYSE.as_bytes(), usize::MAX, None);
    let mut source = Source::new(device);
    let mut sink = Sink::new(FailsOnce::new(alloc, &[], usize::MAX, None));
    let answer = run(rt, alloc, &mut source, &mut sink);
    answer == Ok(0)
        && source.faults() == 0
        && sink.faults() == 0
        && sink.into_writer().taken.as_slice() == JOIN_AND_ANALYSE_PRINTS.as_bytes()
}

#[test]
fn a_run_goes_on_by_bytes_and_after_a_failure(rt: HostRuntime) {
    assert!(rt; fails_never(&rt));
    assert!(rt; goes_on_after_a_read(&rt));
}
