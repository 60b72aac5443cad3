ghost use Rattle.std.specs.Prelude.{◌≡◌, IfOk};
ghost use Rattle.example_programs.specs.Outcome.{IsOutcome};

use crate::drivers::{Driven, WATCHED, crash_and_report, deliver_all, report, start};
use crate::filed_numbers::{count_of, fewest_at};
use anyhow::{Context, Result, bail};
use ov_hall::{Gathered, Hall, HallName, Opening, Pass, Whole};
use ov_ids::{IdsText, NodeId, Params};
use ov_net::Event;
use std::alloc::Global;
use std::marker::Brand;
use std::sync::Wait;
use std::thread;
use std::thread::Threads;

/// Has two drivers step one world, in which nothing happened before. What is left is true, whatever they did, and in
/// whatever order.
pub(crate) fn drive<R: Threads + Wait + Sync>(rt: &R, alloc: Global) -> Result<Gathered>
    ensures { IfOk result (IsOutcome 2) }
{
    let params = Params::new(4, 8, 3, 1, 2, 2, 2)?;
    let opening = Opening::new(alloc, 2)?;
    drive_hall::<Brand, R>(rt, alloc, params, opening)
}

/// The same, by the name of the hall in which they drive.
fn drive_hall<N: HallName + Send + Sync, R: Threads + Wait + Sync>(
    rt: &R,
    alloc: Global,
    params: Params,
    opening: Opening,
) -> Result<Gathered>
    requires name { (opening.table ≡ N.table) × (opening.drivers ≡ N.drivers) }
    requires params { params ≡ N.params }
    ensures { IfOk result (IsOutcome N.drivers) }
{
    let whole = Whole::<N>::new(alloc, params, opening);
    let (hall, mut passes) = whole.part(alloc).ok().context("no room for passes")?;
    let second = passes.pop().context("no second pass")?;
    let first = passes.pop().context("no first pass")?;
    let ((grown, first), (reported, second)) = drive_both(rt, alloc, &hall, first, second);
    passes.push_reserved(first);
    passes.push_reserved(second);
    let Ok(all) = hall.gather(passes) else {
        bail!("a pass is missing");
    };
    grown?;
    reported?;
    Ok(all)
}

/// The first driver starts six nodes, which join. Then both step the world at once, each in a thread of its own: the
/// first one starts two nodes more, and the second one crashes a node and reports. When both have ended, the new nodes
/// join, and the second driver reports again.
fn drive_both<N: HallName + Send + Sync, R: Threads + Wait + Sync>(
    rt: &R,
    alloc: Global,
    hall: &Hall<N>,
    first: Pass<N>,
    second: Pass<N>,
) -> (Driven<N>, Driven<N>) {
    let (begun, first) = start(rt, hall, first, &[1, 2, 3, 4, 5, 6]);
    let first = deliver_all(rt, hall, first);
    let ((grown, first), (reported, second)) = thread::join(
        rt,
        || start(rt, hall, first, &[7, 8]),
        || crash_and_report(rt, alloc, hall, second),
    );
    let first = deliver_all(rt, hall, first);
    let (again, second) = report(rt, alloc, hall, second);
    ((begun.and(grown), first), (reported.and(again), second))
}

/// Drives the world, and prints what is left. The number of a snapshot in the journal depends on which driver was
/// faster, and is not printed.
pub(crate) fn print_driven(rt: &(impl Print + Threads + Wait + Sync), alloc: Global) -> Result<()> {
    let all = drive(rt, alloc)?;
    let entries = all.core.world().journal();
    for (entry, driver) in entries.iter().zip(&all.entry_drivers) {
        if let Event::Snapshot = &entry.event {
            print_snapshot(rt, &all, entry.number, *driver)?;
        }
    }
    for driver in 0..2u64 {
        let made = count_of(&all.entry_drivers, driver);
        let filed = count_of(&all.report_drivers, driver);
        println!(rt; "driver {driver} made {made} entries and filed {filed} reports")?;
    }
    Ok(())
}

/// Prints what the report tells that is filed of this snapshot.
fn print_snapshot(rt: &impl Print, all: &Gathered, moment: u32, driver: u64) -> Result<()> {
    let watched = WATCHED.map(|id| NodeId(id));
    match fewest_at(&all.core, moment, &watched) {
        Some(fewest) => {
            let ids = IdsText(&watched);
            println!(rt;
                "snapshot by driver {driver}: the fewest crashes that part two of {ids} are {fewest}"
            )?;
        }
        None => println!(rt; "snapshot by driver {driver}: no report is filed")?,
    }
    Ok(())
}
