//! Events of worlds of nodes.
use crate::events::Line::{Boot, BootBy, Broadcast, Deliver, Repeat};
use crate::events::Tells::{Born, Delivered, DownUp, Nothing, Up};
use crate::events::{Line, Tells, told_in};
use crate::told::world_told;
use ov_net::{NetFault, World};
use ov_test_kit::{sized, words};
use std::alloc::{AllocError, Global};
use std::process::Abort;
use std::test::Fail;

/// Node 1 has two active places. At its third join the word 5 picks the second of two members.
static FULL_VIEW: [(Line, Tells); 7] = [
    (Boot(1), Born(1)),
    (BootBy(3, 1), Born(3)),
    (Deliver(0), Up(1, 3)),
    (BootBy(7, 1), Born(7)),
    (Deliver(1), Up(1, 7)),
    (BootBy(9, 1), Born(9)),
    (Deliver(3), DownUp([1, 7], [1, 9])),
];

/// A broadcast that reaches its receiver twice.
static BROADCAST_REPEAT: [(Line, Tells); 9] = [
    (Boot(1), Born(1)),
    (BootBy(2, 1), Born(2)),
    (Deliver(0), Up(1, 2)),
    (Deliver(0), Up(2, 1)),
    (Broadcast(1, b"hi"), Delivered(1, 0)),
    (Repeat(0), Nothing),
    (Deliver(0), Delivered(2, 0)),
    (Deliver(0), Nothing),
    (Deliver(0), Nothing),
];

/// What an event's entry tells, or None if memory is refused. The words of each event are 5, and then zeros.
fn made(alloc: Global, world: &mut World, line: Line) -> Result<Option<Tells>, Fail> {
    let event = line.event(alloc)?;
    match world.step(event, &words(&[5])) {
        Err(NetFault::OutOfMemory) => Ok(None),
        Err(_) => Err("an event is refused".into()),
        Ok(entry) => Ok(Some(told_in(&entry).ok_or("an entry of no story")?)),
    }
}

/// The event's entry tells this, the second time if memory is refused the first time; the world is then as before.
fn happens(
    rt: &(impl Abort + Print),
    alloc: Global,
    world: &mut World,
    line: Line,
    expected: Tells,
) -> Result<(), Fail> {
    let before = world_told(alloc, world)?;
    happens_from(rt, alloc, world, line, expected, before.as_str())
}

/// The world tells this.
fn tells(alloc: Global, world: &World, told: &str) -> Result<bool, AllocError> {
    Ok(world_told(alloc, world)?.as_str() == told)
}

/// The same, if this is told of the world before the event.
fn happens_from(
    rt: &(impl Abort + Print),
    alloc: Global,
    world: &mut World,
    line: Line,
    expected: Tells,
    before: &str,
) -> Result<(), Fail> {
    if let Some(first) = made(alloc, world, line)? {
        assert!(rt; first == expected);
        return Ok(());
    }
    assert!(rt; tells(alloc, world, before)?);
    let second = made(alloc, world, line)?;
    assert!(rt; second == Some(expected));
    let kind = line.kind();
    let _ = println!(rt; "seen: step, {kind}: refused 99, all as before, then the row's answer");
    Ok(())
}

/// In a world of this many active places these events happen, one after another.
fn all_happen(
    rt: &(impl Abort + Print),
    alloc: Global,
    active: u32,
    rows: &[(Line, Tells)],
) -> Result<(), Fail> {
    let mut world = World::new(alloc, sized(active, 30)?);
    for (line, expected) in rows {
        happens(rt, alloc, &mut world, *line, *expected)?;
    }
    assert_eq!(rt; world.journal().len(), rows.len());
    Ok(())
}

/// A refused event changes nothing, and happens as in its row when it is tried again.
#[test]
fn out_of_memory_changes_no_world(rt: HostRuntime) -> Result<(), Fail> {
    all_happen(&rt, rt.alloc(), 2, &FULL_VIEW)?;
    all_happen(&rt, rt.alloc(), 5, &BROADCAST_REPEAT)
}
