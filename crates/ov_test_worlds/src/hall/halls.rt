//! Two drivers of one hall.
ghost use Rattle.std.specs.Prelude.{◌≡◌};

use crate::snap::report;
use ov_hall::{Gathered, Hall, HallName, Opening, Pass, Whole};
use ov_ids::{NodeId, Params};
use ov_net::{Entry, Event};
use ov_snap::{CoreFault, Report};
use ov_test_kit::{sized, words};
use std::alloc::Global;
use std::marker::Brand;
use std::sync::Wait;
use std::test::*;
use std::thread;
use std::thread::Threads;

#[test]
fn write_read_back(rt: HostRuntime) -> Result<(), Fail> {
    let params = sized(5, 30)?;
    let opening = Opening::new(rt.alloc(), 2)?;
    assert!(rt; step_at_once::<Brand, _>(&rt, rt.alloc(), params, opening));
    Ok(())
}

/// Each of two drivers boots a node, in a thread of its own. Then each reads the entries of both.
fn step_at_once<N: HallName + Send + Sync, R: Threads + Wait + Sync>(
    rt: &R,
    alloc: Global,
    params: Params,
    opening: Opening,
) -> bool
    requires name { (opening.table ≡ N.table) × (opening.drivers ≡ N.drivers) }
    requires params { params ≡ N.params }
{
    let whole = Whole::<N>::new(alloc, params, opening);
    let Ok((hall, mut passes)) = whole.part(alloc) else {
        return false;
    };
    let Some(second) = passes.pop() else {
        return false;
    };
    let Some(first) = passes.pop() else {
        return false;
    };
    let (first, second) = thread::join(
        rt,
        || boot(rt, &hall, first, 1),
        || boot(rt, &hall, second, 2),
    );
    let (seen_by_first, first) = born(rt, alloc, &hall, first);
    let (seen_by_second, second) = born(rt, alloc, &hall, second);
    passes.push_reserved(first);
    passes.push_reserved(second);
    seen_by_first == 3 && seen_by_second == 3 && are_two(hall, passes)
}

/// All passes are there, and the hall has two entries.
fn are_two<N: HallName>(hall: Hall<N>, passes: Vec<Pass<N>>) -> bool {
    match hall.gather(passes) {
        Ok(all) => all.entry_drivers.len() == 2,
        Err(_) => false,
    }
}

/// Boots a node.
fn boot<N: HallName>(rt: &impl Wait, hall: &Hall<N>, pass: Pass<N>, id: u32) -> Pass<N> {
    let (_, pass) = hall.step(rt, pass, Event::Boot(NodeId(id), None), &words(&[]));
    pass
}

/// The sum of the ids of the nodes that the first two entries tell to be born.
fn born<N: HallName>(
    rt: &impl Wait,
    alloc: Global,
    hall: &Hall<N>,
    pass: Pass<N>,
) -> (u64, Pass<N>) {
    let (one, pass) = hall.entry(rt, alloc, pass, 1);
    let (two, pass) = hall.entry(rt, alloc, pass, 2);
    let sum = match (&one, &two) {
        (Ok(Some(one)), Ok(Some(two))) => booted(one) as u64 + booted(two) as u64,
        _ => 0,
    };
    (sum, pass)
}

/// The node that an entry tells to be born, or 0.
fn booted(entry: &Entry) -> u32 {
    match &entry.event {
        Event::Boot(id, _) => id.0,
        _ => 0,
    }
}

#[test]
fn a_report_is_filed_once(rt: HostRuntime) -> Result<(), Fail> {
    let params = sized(5, 30)?;
    let opening = Opening::new(rt.alloc(), 2)?;
    let once = report(rt.alloc(), 3, false)?;
    let twice = report(rt.alloc(), 3, false)?;
    assert!(rt; file_once::<Brand, _>(&rt, rt.alloc(), params, opening, once, twice));
    Ok(())
}

/// One driver takes a snapshot, and the other files a report of it. It is refused the second time. With one pass of two
/// the hall is not gathered.
fn file_once<N: HallName, R: Wait>(
    rt: &R,
    alloc: Global,
    params: Params,
    opening: Opening,
    once: Report,
    twice: Report,
) -> bool
    requires name { (opening.table ≡ N.table) × (opening.drivers ≡ N.drivers) }
    requires params { params ≡ N.params }
{
    let mut whole = Whole::<N>::new(alloc, params, opening);
    let is_booted = boots(&mut whole, 1) && boots(&mut whole, 2);
    let Ok((hall, mut passes)) = whole.part(alloc) else {
        return false;
    };
    let Some(second) = passes.pop() else {
        return false;
    };
    let Some(first) = passes.pop() else {
        return false;
    };
    let (is_begun, first) = begins(rt, &hall, first);
    let (is_filed, second) = files(rt, &hall, second, once, twice);
    passes.push_reserved(first);
    is_booted && is_begun && is_filed && gathers(hall, passes, second)
}

/// A node is booted by the only hand.
fn boots<N: HallName>(whole: &mut Whole<N>, id: u32) -> bool {
    whole
        .step(Event::Boot(NodeId(id), None), &words(&[]))
        .is_ok()
}

/// The driver takes a snapshot, which is entry 3. An analysis of it begins, and none of another entry.
fn begins<N: HallName>(rt: &impl Wait, hall: &Hall<N>, pass: Pass<N>) -> (bool, Pass<N>) {
    let (moment, pass) = hall.snapshot(rt, pass);
    let (early, pass) = hall.begin(rt, pass, 2);
    let (begun, pass) = hall.begin(rt, pass, 3);
    let is_refused = early.err() == Some(CoreFault::NoSuchMoment);
    (moment == Ok(3) && is_refused && begun.is_ok(), pass)
}

/// The driver files a report, and not a second one.
fn files<N: HallName>(
    rt: &impl Wait,
    hall: &Hall<N>,
    pass: Pass<N>,
    once: Report,
    twice: Report,
) -> (bool, Pass<N>) {
    let (first, pass) = hall.file(rt, pass, once);
    let (second, pass) = hall.file(rt, pass, twice);
    (
        first == Ok(()) && second == Err(CoreFault::AlreadyFiled),
        pass,
    )
}

/// The hall is not gathered without the second pass, and then it is.
fn gathers<N: HallName>(hall: Hall<N>, passes: Vec<Pass<N>>, second: Pass<N>) -> bool {
    let Err(not) = hall.gather(passes) else {
        return false;
    };
    let number = not.fault.number();
    let mut passes = not.passes;
    let is_back = passes.push(second).is_ok();
    match not.hall.gather(passes) {
        Ok(all) => number == 56 && is_back && has_report(&all),
        Err(_) => false,
    }
}

/// The first driver made the three entries, and the second one filed the report of moment 3.
fn has_report(all: &Gathered) -> bool {
    all.entry_drivers.as_slice() == [0u64, 0, 0].as_slice()
        && all.report_drivers.as_slice() == [1u64].as_slice()
        && all.core.report(3).is_some()
}
