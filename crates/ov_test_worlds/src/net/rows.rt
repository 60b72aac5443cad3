use super::Line::{
    Boot, BootBy, Broadcast, Crash, Deliver, Links, Lose, Packets, Repeat, Report, Show, Shuffle,
    Snapshot, Timer,
};
use super::{Line, goes};
use ov_net::World;
use ov_test_kit::sized;
use std::test::Fail;

/// Nodes 1, 3 and 7 come to hold each other.
pub(super) static TRIANGLE: [(Line, &str); 14] = [
    (Boot(1), "entry 1 born 1"),
    (BootBy(3, 1), "entry 2 born 3"),
    (Deliver(0), "entry 3 up 1 3"),
    (Deliver(0), "entry 4 up 3 1"),
    (BootBy(7, 1), "entry 5 born 7"),
    (Deliver(0), "entry 6 up 1 7"),
    (
        Packets,
        "packet 0 to 7 010300000001; packet 1 to 3 0102000000010000000706; ",
    ),
    (Deliver(0), "entry 7 up 7 1"),
    (Deliver(0), "entry 8 up 3 7"),
    (Repeat(0), "entry 9"),
    (
        Packets,
        "packet 0 to 7 010300000003; packet 1 to 7 010300000003; ",
    ),
    (Lose(0), "entry 10"),
    (Deliver(0), "entry 11 up 7 3"),
    (Packets, ""),
];

/// A broadcast goes round, and the third side falls silent.
pub(super) static SPREAD: [(Line, &str); 11] = [
    (Broadcast(1, b"hi"), "entry 12 delivered 1 1 0"),
    (Deliver(0), "entry 13 delivered 3 1 0"),
    (
        Packets,
        "packet 0 to 7 0109000000010000000100000000000000026869; \
         packet 1 to 7 0109000000030000000100000000000100026869; ",
    ),
    (Deliver(0), "entry 14 delivered 7 1 0"),
    (Deliver(0), "entry 15"),
    (Deliver(0), "entry 16"),
    (
        Packets,
        "packet 0 to 3 010c00000007; packet 1 to 7 010c00000003; ",
    ),
    (Deliver(0), "entry 17"),
    (Deliver(0), "entry 18"),
    (Show(3), "node 3 active 1,7 passive - eager 1 lazy 7"),
    (Show(7), "node 7 active 1,3 passive - eager 1 lazy 3"),
];

/// Node 7 misses the next one, and waits for it.
pub(super) static MISSED: [(Line, &str); 5] = [
    (Broadcast(1, b""), "entry 19 delivered 1 1 1"),
    (Lose(1), "entry 20"),
    (Deliver(0), "entry 21 delivered 3 1 1"),
    (Packets, "packet 0 to 7 010a000000030000000100000001; "),
    (Deliver(0), "entry 22"),
];

/// It asks for it and gets it; node 3 crashes, which node 1 hears, and node 1 shuffles.
static ASKED: [(Line, &str); 21] = [
    (Timer(7, 1, 1), "entry 23"),
    (Show(7), "node 7 active 1,3 passive - eager 1,3 lazy -"),
    (Packets, "packet 0 to 3 010b000000070000000100000001; "),
    (Deliver(0), "entry 24"),
    (
        Packets,
        "packet 0 to 7 010900000003000000010000000100010000; ",
    ),
    (Deliver(0), "entry 25 delivered 7 1 1"),
    (Deliver(0), "entry 26"),
    (Show(1), "node 1 active 3,7 passive - eager 3 lazy 7"),
    (Timer(7, 1, 1), "refused 18"),
    (Crash(3), "entry 27 gone 3"),
    (Report(1, 3), "entry 28 down 1 3"),
    (Shuffle(1), "entry 29"),
    (Snapshot, "entry 30"),
    (Links, "nodes 1,7 links 1-7"),
    (Show(1), "node 1 active 7 passive - eager - lazy 7"),
    (
        Packets,
        "packet 0 to 7 010c00000001; packet 1 to 7 0107000000010000000104020000000100000007; ",
    ),
    (Deliver(1), "entry 31"),
    (
        Packets,
        "packet 0 to 7 010c00000001; packet 1 to 3 0107000000070000000103020000000100000007; ",
    ),
    (Deliver(1), "entry 32"),
    (Packets, "packet 0 to 7 010c00000001; "),
    (Broadcast(3, b"hi"), "refused 12"),
];

/// Each kind of event in one run.
#[test]
fn every_kind_of_event(rt: HostRuntime) -> Result<(), Fail> {
    let mut world = World::new(rt.alloc(), sized(2, 30)?);
    for lines in [TRIANGLE.as_slice(), &SPREAD, &MISSED, &ASKED] {
        goes(&rt, rt.alloc(), &mut world, lines);
    }
    Ok(())
}
