//! What the watcher of a run is told of each line, when the writer of a run is asked to hand on what it keeps back, and
//! runs in blocks.
use Strictness::{Lenient, Strict};
use ov_io::Sink;
use ov_run::{RanLine, Refusal, RunFault, RunWatcher, Strictness, run_bytes, run_in_blocks};
use ov_snap::Core;
use std::alloc::Global;
use std::io::{self, ErrorKind, Write};
use std::sync::Wait;
use std::thread::Threads;

/// What is told of a line: its number, whether it is an event, and if it was refused, the number of the refusal, and
/// the length of the journal unless the line stands in a section.
type Told = (usize, bool, Option<(u32, Option<usize>)>);

/// Keeps what it is told.
#[derive(Drop)]
struct Listener {
    told: Vec<Told>,
}

impl Listener {
    fn new(alloc: Global) -> Listener {
        Listener {
            told: Vec::new(alloc),
        }
    }
}

impl RunWatcher for Listener {
    fn accepted(&mut self, line: &RanLine<'_>) {
        let _ = self.told.push((line.number, line.is_event, None));
    }

    fn refused(&mut self, core: &Core, line: &RanLine<'_>, refusal: Refusal) {
        let refused = (refusal.number(), Some(core.world().journal().len()));
        let _ = self.told.push((line.number, line.is_event, Some(refused)));
    }

    fn refused_in_section(&mut self, line: &RanLine<'_>, refusal: Refusal) {
        let refused = (refusal.number(), None);
        let _ = self.told.push((line.number, line.is_event, Some(refused)));
    }
}

/// Scenarios, and what is told of each line that runs.
static RUNS: [(&str, &[Told]); 9] = [
    ("", &[]),
    (
        "boot 1\nboot 1\nshow 1\nshow 2\n",
        &[
            (1, true, None),
            (2, true, Some((11, Some(1)))),
            (3, false, None),
            (4, false, Some((10, Some(1)))),
        ],
    ),
    (
        "boot 1\ncrash 1\nshow 1\nboot 1\nreport 1 1\n",
        &[
            (1, true, None),
            (2, true, None),
            (3, false, Some((12, Some(2)))),
            (4, true, Some((11, Some(2)))),
            (5, true, Some((12, Some(2)))),
        ],
    ),
    (
        "# nobody\nseed 7\nsnapshot\n\ndeliver 0\npackets\ncertificate 1\nanalyse 1\nanalyse 2\n",
        &[
            (3, true, None),
            (5, true, Some((14, Some(1)))),
            (6, false, None),
            (7, false, Some((50, Some(1)))),
            (8, false, Some((30, Some(1)))),
            (9, false, Some((50, Some(1)))),
        ],
    ),
    (
        "boot 1\nsnapshot\nanalyse 2 group 3\nanalyse 2\nanalyse 2\ncertificate 2\n",
        &[
            (1, true, None),
            (2, true, None),
            (3, false, Some((34, Some(2)))),
            (4, false, None),
            (5, false, Some((52, Some(2)))),
            (6, false, None),
        ],
    ),
    ("boot 1\nfly\n", &[]),
    ("together\nend\n", &[(1, false, None)]),
    (
        "boot 1\nshow 1\ntogether\nboot 2\nboot 2\ncrash 9\nalso\nalso\nanalyse 7\nboot 3\nend\nshow 2\n",
        &[
            (1, true, None),
            (2, false, None),
            (3, false, None),
            (4, true, None),
            (5, true, Some((11, None))),
            (6, true, Some((10, None))),
            (9, false, Some((50, None))),
            (10, true, None),
            (12, false, None),
        ],
    ),
    (
        "boot 1\nsnapshot\ntogether\nanalyse 2\nanalyse 2\nalso\nboot 1\nend\nanalyse 2\n",
        &[
            (1, true, None),
            (2, true, None),
            (3, false, None),
            (4, false, None),
            (5, false, Some((52, None))),
            (7, true, Some((11, None))),
            (9, false, Some((52, Some(2)))),
        ],
    ),
];

/// The watcher of a run of this file is told this.
fn tells(rt: &(impl AllocGlobal + Threads + Wait + Sync), file: &str, told: &[Told]) -> bool {
    let mut listener = Listener::new(rt.alloc());
    let mut sink = Sink::new(Vec::new(rt.alloc()));
    let bytes = file.as_bytes();
    let _ = run_bytes(rt, rt.alloc(), bytes, &mut sink, Lenient, &mut listener);
    listener.told.as_slice() == told
}

#[test]
fn a_watcher_is_told_of_each_line(rt: HostRuntime) {
    for (file, told) in &RUNS {
        assert!(rt; tells(&rt, file, told), "at {file}");
    }
}

/// How a run ended: the line and the number of the refusal at which a strict run ended, or 0 and 72 if a write failed,
/// or 0 and 0 after the last line.
type Ended = (usize, u32);

const AT_THE_END: Ended = (0, 0);

const AT_A_WRITE: Ended = (0, 72);

fn ended(answer: Result<u8, RunFault>) -> Ended {
    match answer {
        Ok(0) => AT_THE_END,
        Err(RunFault::Refused { line, refusal }) => (line, refusal.number()),
        Err(RunFault::Write) => AT_A_WRITE,
        _ => (0, 1),
    }
}

/// Counts the bytes that it takes, and keeps how many there were at each flush.
#[derive(Drop)]
struct Flushed {
    taken: usize,
    flushes: Vec<usize>,
}

impl Write for Flushed {
    fn write(&mut self, buf: &[u8]) -> io::Result<usize> {
        self.taken = self.taken.saturating_add(buf.len());
        Ok(buf.len())
    }

    fn flush(&mut self) -> io::Result<()> {
        let _ = self.flushes.push(self.taken);
        Ok(())
    }
}

/// A scenario of one node, with an analysis after its second line, and what it prints up to there and from there on.
const ANALYSED: &str = "boot 1\nsnapshot\nanalyse 2\nshow 1\n";

const BEFORE_ANALYSIS: &str = "entry 1 born 1\nentry 2\n";

const FROM_ANALYSIS: &str = "report 2 linked k 0\nnode 1 active - passive - eager - lazy -\n";

/// A scenario with a block after its first line, and a last line that is refused; what it prints up to the block, of
/// the block, and of the last line.
const TOGETHER: &str = "boot 1\ntogether\nboot 2\nend\nshow 3\n";

const BEFORE_BLOCK: &str = "entry 1 born 1\n";

const OF_BLOCK: &str = "together 1 accepted 1 refused 0\n";

const OF_REFUSAL: &str = "refused 10\n";

/// A run of this file ends so, and its writer has taken so many bytes at its two flushes.
fn flushes_at(
    rt: &(impl AllocGlobal + Threads + Wait + Sync),
    file: &str,
    strictness: Strictness,
    end: Ended,
    flushes: [usize; 2],
) -> bool {
    let mut listener = Listener::new(rt.alloc());
    let mut sink = Sink::new(Flushed {
        taken: 0,
        flushes: Vec::new(rt.alloc()),
    });
    let bytes = file.as_bytes();
    let answer = run_bytes(rt, rt.alloc(), bytes, &mut sink, strictness, &mut listener);
    ended(answer) == end && sink.into_writer().flushes.as_slice() == flushes.as_slice()
}

#[test]
fn a_writer_is_flushed_before_an_analysis_and_at_the_end(rt: HostRuntime) {
    let before = BEFORE_ANALYSIS.len();
    let all = before + FROM_ANALYSIS.len();
    assert!(rt; flushes_at(&rt, ANALYSED, Lenient, AT_THE_END, [before, all]));
}

#[test]
fn a_writer_is_flushed_before_a_block_and_at_a_refused_line(rt: HostRuntime) {
    let before = BEFORE_BLOCK.len();
    let block = before + OF_BLOCK.len();
    let all = block + OF_REFUSAL.len();
    assert!(rt; flushes_at(&rt, TOGETHER, Lenient, AT_THE_END, [before, all]));
    assert!(rt; flushes_at(&rt, TOGETHER, Strict, (5, 10), [before, block]));
}

/// What is printed of the scenario with an analysis stands in these bytes.
fn is_printed(written: &[u8]) -> bool {
    let (before, after) = written.split_at(BEFORE_ANALYSIS.len().min(written.len()));
    before == BEFORE_ANALYSIS.as_bytes() && after == FROM_ANALYSIS.as_bytes()
}

/// Whether a run in blocks of so many bytes writes what the scenario prints into the writer itself.
fn is_in_the_writer(rt: &(impl AllocGlobal + Threads + Wait + Sync), size: usize) -> bool {
    let alloc = rt.alloc();
    let Ok(sink) = Sink::new(Vec::new(alloc)).in_blocks(alloc, size) else {
        return false;
    };
    let mut listener = Listener::new(alloc);
    let bytes = ANALYSED.as_bytes();
    let (sink, answer) = run_in_blocks(rt, alloc, bytes, sink, Lenient, &mut listener);
    answer == Ok(0) && is_printed(&sink.into_writer())
}

#[test]
fn a_run_in_blocks_keeps_nothing_back(rt: HostRuntime) {
    for size in [0, 1, 16, 1024] {
        assert!(rt; is_in_the_writer(&rt, size), "blocks of {size} bytes");
    }
}

/// Takes so many bytes and no more, and counts the writes that it fails.
#[derive(Drop)]
struct Full {
    room: usize,
    failed: u64,
}

impl Write for Full {
    fn write(&mut self, buf: &[u8]) -> io::Result<usize> {
        let count = buf.len().min(self.room);
        if count == 0 {
            self.failed = self.failed.saturating_add(1);
            return Err(io::Error::from(ErrorKind::Other));
        }
        self.room -= count;
        Ok(count)
    }

    fn flush(&mut self) -> io::Result<()> {
        Ok(())
    }
}

/// A run in blocks of so many bytes, whose writer has so much room, ends so; so many writes failed, and its sink counts
/// as many faults.
fn ends_in_room(
    rt: &(impl AllocGlobal + Threads + Wait + Sync),
    size: usize,
    room: usize,
    end: Ended,
    count: u64,
) -> bool {
    let alloc = rt.alloc();
    let Ok(sink) = Sink::new(Full { room, failed: 0 }).in_blocks(alloc, size) else {
        return false;
    };
    let mut listener = Listener::new(alloc);
    let bytes = ANALYSED.as_bytes();
    let (sink, answer) = run_in_blocks(rt, alloc, bytes, sink, Lenient, &mut listener);
    ended(answer) == end && sink.faults() == count && sink.into_writer().failed == count
}

#[test]
fn nothing_is_written_after_a_write_that_failed(rt: HostRuntime) {
    let all = BEFORE_ANALYSIS.len() + FROM_ANALYSIS.len();
    for size in [0, 16, 1024] {
        for room in [0, BEFORE_ANALYSIS.len(), all - 1] {
            let is_ended = ends_in_room(&rt, size, room, AT_A_WRITE, 1);
            assert!(rt; is_ended, "blocks of {size} bytes, room for {room}");
        }
        assert!(rt; ends_in_room(&rt, size, all, AT_THE_END, 0));
    }
}

/// Takes all bytes, and fails at a flush after so many that do not fail.
#[derive(Drop)]
struct Unflushed {
    flushes_left: usize,
}

impl Write for Unflushed {
    fn write(&mut self, buf: &[u8]) -> io::Result<usize> {
        Ok(buf.len())
    }

    fn flush(&mut self) -> io::Result<()> {
        if self.flushes_left == 0 {
            return Err(io::Error::from(ErrorKind::Other));
        }
        self.flushes_left -= 1;
        Ok(())
    }
}

/// With a writer whose flush fails after so many flushes, a run of this file ends so, and its sink counts so many
/// faults.
fn ends_unflushed(
    rt: &(impl AllocGlobal + Threads + Wait + Sync),
    file: &str,
    strictness: Strictness,
    flushes_left: usize,
    end: Ended,
    faults: u64,
) -> bool {
    let mut listener = Listener::new(rt.alloc());
    let mut sink = Sink::new(Unflushed { flushes_left });
    let bytes = file.as_bytes();
    let answer = run_bytes(rt, rt.alloc(), bytes, &mut sink, strictness, &mut listener);
    ended(answer) == end && sink.faults() == faults
}

/// A scenario whose second line is refused.
const REFUSED: &str = "boot 1\nshow 2\n";

#[test]
fn a_flush_that_fails_ends_a_run(rt: HostRuntime) {
    assert!(rt; ends_unflushed(&rt, ANALYSED, Lenient, 0, AT_A_WRITE, 1));
    assert!(rt; ends_unflushed(&rt, ANALYSED, Lenient, 1, AT_A_WRITE, 1));
    assert!(rt; ends_unflushed(&rt, ANALYSED, Lenient, 2, AT_THE_END, 0));
    assert!(rt; ends_unflushed(&rt, REFUSED, Strict, 0, AT_A_WRITE, 1));
    assert!(rt; ends_unflushed(&rt, REFUSED, Strict, 1, (2, 10), 0));
}
