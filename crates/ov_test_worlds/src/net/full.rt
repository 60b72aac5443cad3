use super::Line::{
    Boot, BootBy, Broadcast, Crash, Deliver, Lose, Repeat, Report, Shuffle, Snapshot, Timer,
};
use super::rows::{MISSED, SPREAD, TRIANGLE};
use super::{Line, event_of, goes, step};
use ov_net::World;
use ov_test_kit::sized;
use std::alloc::Global;
use std::process::Abort;
use std::test::Fail;

/// Beside the three nodes of the triangle, where node 7 waits for a message: a packet to a node that crashed, and one
/// to a node that lives.
static BAG: [(Line, &str); 4] = [
    (Boot(2), "entry 23 born 2"),
    (BootBy(9, 2), "entry 24 born 9"),
    (Crash(2), "entry 25 gone 2"),
    (BootBy(8, 1), "entry 26 born 8"),
];

/// The bag has 65,472 packets, and after the first line too few places.
static BAG_FULL: [(Line, &str); 27] = [
    (Repeat(1), "entry 65497"),
    (Repeat(1), "refused 15"),
    (Repeat(65472), "refused 15"),
    (Repeat(65473), "refused 14"),
    (Deliver(0), "refused 15"),
    (Deliver(1), "refused 15"),
    (Deliver(65472), "refused 15"),
    (Deliver(65473), "refused 14"),
    (Lose(65473), "refused 14"),
    (Boot(300), "refused 15"),
    (BootBy(300, 1), "refused 15"),
    (BootBy(300, 2), "refused 12"),
    (BootBy(300, 300), "refused 10"),
    (BootBy(2, 300), "refused 11"),
    (Report(1, 2), "refused 15"),
    (Report(1, 3), "refused 17"),
    (Report(1, 999), "refused 10"),
    (Report(2, 1), "refused 12"),
    (Shuffle(1), "refused 15"),
    (Shuffle(2), "refused 12"),
    (Shuffle(999), "refused 10"),
    (Broadcast(3, b"hi"), "refused 15"),
    (Broadcast(3, &[0; 1025]), "refused 19"),
    (Broadcast(1, &[0; 1025]), "refused 19"),
    (Timer(7, 1, 1), "refused 15"),
    (Timer(1, 1, 1), "refused 18"),
    (Timer(2, 1, 1), "refused 12"),
];

/// What sends nothing is taken; a lost packet makes the place that a birth and a timer want; and then 256 nodes were
/// born.
static NODES_FULL: [(Line, &str); 16] = [
    (Snapshot, "entry 65498"),
    (Crash(3), "entry 65499 gone 3"),
    (Crash(3), "refused 12"),
    (Lose(0), "entry 65500"),
    (Boot(300), "entry 65501 born 300"),
    (Timer(7, 1, 1), "entry 65502"),
    (Timer(7, 1, 1), "refused 15"),
    (Boot(301), "refused 13"),
    (BootBy(301, 1), "refused 13"),
    (BootBy(301, 2), "refused 12"),
    (BootBy(301, 301), "refused 10"),
    (BootBy(300, 2), "refused 11"),
    (Crash(259), "entry 65503 gone 259"),
    (Boot(259), "refused 11"),
    (Boot(301), "refused 13"),
    (BootBy(301, 259), "refused 12"),
];

/// The journal has all its entries.
static JOURNAL_FULL: [(Line, &str); 25] = [
    (Snapshot, "entry 65536"),
    (Snapshot, "refused 16"),
    (Boot(301), "refused 16"),
    (Boot(1), "refused 16"),
    (BootBy(1, 2), "refused 16"),
    (BootBy(301, 301), "refused 16"),
    (Deliver(0), "refused 16"),
    (Deliver(65473), "refused 16"),
    (Lose(0), "refused 16"),
    (Lose(65473), "refused 16"),
    (Repeat(0), "refused 16"),
    (Repeat(65473), "refused 16"),
    (Crash(1), "refused 16"),
    (Crash(2), "refused 16"),
    (Crash(999), "refused 16"),
    (Report(1, 2), "refused 16"),
    (Report(1, 1), "refused 16"),
    (Report(2, 999), "refused 16"),
    (Shuffle(1), "refused 16"),
    (Shuffle(2), "refused 16"),
    (Broadcast(7, b"hi"), "refused 16"),
    (Broadcast(1, &[0; 1025]), "refused 16"),
    (Timer(7, 1, 1), "refused 16"),
    (Timer(1, 1, 1), "refused 16"),
    (Timer(999, 1, 1), "refused 16"),
];

/// Whether an event happens.
fn happens(alloc: Global, world: &mut World, line: Line) -> bool {
    match event_of(alloc, line) {
        Ok(Some(event)) => step(world, event).is_ok(),
        _ => false,
    }
}

/// The same event happens so many times.
fn times(rt: &impl Abort, alloc: Global, world: &mut World, line: Line, count: u32) {
    for _ in 0..count {
        assert!(rt; happens(alloc, world, line));
    }
}

/// Fills one world with packets, nodes and entries.
fn fills(rt: &impl Abort, alloc: Global, world: &mut World) {
    for lines in [TRIANGLE.as_slice(), &SPREAD, &MISSED, &BAG] {
        goes(rt, alloc, world, lines);
    }
    for node in 11..260 {
        times(rt, alloc, world, BootBy(node, 1), 1);
    }
    times(rt, alloc, world, Repeat(1), 65221);
    goes(rt, alloc, world, &BAG_FULL);
    goes(rt, alloc, world, &NODES_FULL);
    times(rt, alloc, world, Snapshot, 32);
    goes(rt, alloc, world, &JOURNAL_FULL);
}

#[test]
fn a_world_has_its_limits(rt: HostRuntime) -> Result<(), Fail> {
    let mut world = World::new(rt.alloc(), sized(2, 30)?);
    fills(&rt, rt.alloc(), &mut world);
    Ok(())
}

/// Node 1 with 16 neighbours has made 4,092 broadcasts, and there are 65,472 packets.
static SIXTEEN_EACH: [(Line, &str); 3] = [
    (Broadcast(1, b""), "entry 4262 delivered 1 1 4092"),
    (Broadcast(1, b""), "refused 15"),
    (Broadcast(1, &[0; 1025]), "refused 19"),
];

/// There are places for its last three broadcasts, and after the repeat too few.
static LAST_BROADCASTS: [(Line, &str); 13] = [
    (Broadcast(1, b""), "entry 4327 delivered 1 1 4093"),
    (Broadcast(1, b""), "entry 4328 delivered 1 1 4094"),
    (Broadcast(1, b""), "entry 4329 delivered 1 1 4095"),
    (Broadcast(1, b""), "refused 20"),
    (Broadcast(1, &[0; 1025]), "refused 19"),
    (Repeat(0), "entry 4330"),
    (Broadcast(1, b""), "refused 20"),
    (Broadcast(1, &[0; 1025]), "refused 19"),
    (Broadcast(2, b""), "refused 15"),
    (Broadcast(2, &[0; 1025]), "refused 19"),
    (Crash(1), "entry 4331 gone 1"),
    (Broadcast(1, &[0; 1025]), "refused 12"),
    (Broadcast(99, &[0; 1025]), "refused 10"),
];

/// Node 1 gets neighbours 2 to 17, and nothing is on its way.
fn gathers(rt: &impl Abort, alloc: Global, world: &mut World) {
    times(rt, alloc, world, Boot(1), 1);
    for node in 2..18 {
        times(rt, alloc, world, BootBy(node, 1), 1);
        times(rt, alloc, world, Deliver(0), 1);
        times(rt, alloc, world, Lose(0), node - 1);
    }
}

/// The bag fills by broadcasts, up to the last that a node may make.
fn spends(rt: &impl Abort, alloc: Global, world: &mut World) {
    gathers(rt, alloc, world);
    times(rt, alloc, world, Broadcast(1, b""), 4092);
    goes(rt, alloc, world, &SIXTEEN_EACH);
    times(rt, alloc, world, Lose(0), 64);
    goes(rt, alloc, world, &LAST_BROADCASTS);
}

#[test]
fn a_node_has_its_limit(rt: HostRuntime) -> Result<(), Fail> {
    let mut world = World::new(rt.alloc(), sized(16, 30)?);
    spends(&rt, rt.alloc(), &mut world);
    Ok(())
}
