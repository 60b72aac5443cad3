//! Devices of which one call fails and no other one: what a judge answers to that call, and what it does when it is
//! called once more.
ghost use Rattle.std.specs.Prelude.{◌<◌};
ghost use Rattle.ov_io.specs.Device.{most_faults};

use crate::certificates::files::SQUARE;
use ov_check::{JudgeFault, judge, judge_parallel};
use ov_io::{Sink, Source};
use ov_test_kit::FailsOnce;
use std::io::{ErrorKind, Read, Write};
use std::thread::Threads;

/// The line of the square.
const LINE: &str = "holds 0 split k 2 cut 2,4 near 1 far 3 side 1\n";

/// What one thread answers, or what many do.
fn judged<R: Read, W: Write>(
    rt: &(impl AllocGlobal + Threads + Sync),
    by_threads: bool,
    source: &mut Source<R>,
    sink: &mut Sink<W>,
) -> Result<u8, JudgeFault>
    requires reads { source.old.faults < most_faults }
    requires writes { sink.old.faults < most_faults }
{
    if by_threads {
        judge_parallel(rt, source, sink)
    } else {
        judge(rt.alloc(), source, sink)
    }
}

/// The read after so many others fails. The answer is Read and nothing is written. The next call judges the bytes that
/// are left, which are no JSON unless they are all.
fn fails_at_read(
    rt: &(impl AllocGlobal + Threads + Sync),
    by_threads: bool,
    reads: usize,
    kind: ErrorKind,
) -> bool {
    let device = FailsOnce::new(rt.alloc(), SQUARE.as_bytes(), reads, Some(kind));
    let mut source = Source::new(device);
    let mut sink = Sink::new(Vec::new(rt.alloc()));
    let failed = judged(rt, by_threads, &mut source, &mut sink);
    if source.faults() != 1 || sink.faults() != 0 {
        return false;
    }
    let next = judged(rt, by_threads, &mut source, &mut sink);
    let (status, line) = if reads == 0 {
        (0, LINE)
    } else {
        (1, "refused 60\n")
    };
    failed == Err(JudgeFault::Read)
        && next == Ok(status)
        && source.faults() == 1
        && sink.into_writer().as_slice() == line.as_bytes()
}

/// How a read may fail.
const READ_ERRORS: [ErrorKind; 3] = [
    ErrorKind::Interrupted,
    ErrorKind::WouldBlock,
    ErrorKind::Other,
];

#[test]
fn each_read_fails_once(rt: HostRuntime) {
    let reads = SQUARE.len() + 1;
    for kind in READ_ERRORS {
        for calls in 0..reads {
            for by_threads in [false, true] {
                assert!(rt; fails_at_read(&rt, by_threads, calls, kind), "at {calls}");
            }
        }
    }
}

/// The bytes are the first ones of the line, so many, and then the whole line.
fn are_cut_and_whole(bytes: &[u8], count: usize) -> bool {
    let (front, back) = bytes.split_at(count.min(bytes.len()));
    front.len() == count && LINE.as_bytes().starts_with(front) && back == LINE.as_bytes()
}

/// The write after so many others fails. The answer is Write, and what was taken before it stands. The next call writes
/// the whole line.
fn fails_at_write(
    rt: &(impl AllocGlobal + Threads + Sync),
    by_threads: bool,
    writes: usize,
    error: Option<ErrorKind>,
) -> bool {
    let mut sink = Sink::new(FailsOnce::new(rt.alloc(), &[], writes, error));
    let mut source = Source::new(SQUARE.as_bytes());
    let failed = judged(rt, by_threads, &mut source, &mut sink);
    if sink.faults() != 1 {
        return false;
    }
    let mut again = Source::new(SQUARE.as_bytes());
    let next = judged(rt, by_threads, &mut again, &mut sink);
    failed == Err(JudgeFault::Write)
        && next == Ok(0)
        && sink.faults() == 1
        && are_cut_and_whole(&sink.into_writer().taken, writes)
}

/// How a write may fail. Without an error it takes nothing.
const WRITE_ERRORS: [Option<ErrorKind>; 3] = [
    Some(ErrorKind::Interrupted),
    Some(ErrorKind::BrokenPipe),
    None,
];

#[test]
fn each_write_fails_once(rt: HostRuntime) {
    for error in WRITE_ERRORS {
        for calls in 0..LINE.len() {
            for by_threads in [false, true] {
                assert!(rt; fails_at_write(&rt, by_threads, calls, error), "at {calls}");
            }
        }
    }
}

/// No call of the device fails: all is read and the line is written, a byte a call.
fn fails_never(rt: &(impl AllocGlobal + Threads + Sync), by_threads: bool) -> bool {
    let alloc = rt.alloc();
    let reader = FailsOnce::new(alloc, SQUARE.as_bytes(), usize::MAX, None);
    let mut source = Source::new(reader);
    let mut sink = Sink::new(FailsOnce::new(alloc, &[], usize::MAX, None));
    let answer = judged(rt, by_threads, &mut source, &mut sink);
    answer == Ok(0)
        && source.faults() == 0
        && sink.faults() == 0
        && sink.into_writer().taken.as_slice() == LINE.as_bytes()
}

#[test]
fn a_byte_a_call_is_no_failure(rt: HostRuntime) {
    for by_threads in [false, true] {
        assert!(rt; fails_never(&rt, by_threads));
    }
}
