//! As many drivers as a hall can have.
ghost use Rattle.std.specs.Prelude.{◌≡◌, IfOk, map};
ghost use Rattle.ov_snap.specs.declared.ghost_log_of_drivers.Ticket.{Ticket};

use ov_hall::{Hall, HallName, Opening, Pass, Whole};
use ov_ids::{NodeId, OutOfMemory, Params};
use ov_net::{Entry, Event};
use ov_test_kit::{sized, words};
use std::alloc::Global;
use std::marker::Brand;
use std::process::Abort;
use std::sync::Wait;
use std::test::*;
use std::thread;
use std::thread::Threads;

/// The most drivers that one hall can have.
const DRIVERS: u64 = 64;

#[test]
fn each_of_64_drivers_boots_a_node(rt: HostRuntime) -> Result<(), Fail> {
    let params = sized(5, 30)?;
    let opening = Opening::new(rt.alloc(), DRIVERS)?;
    boot_by_all::<Brand, _>(&rt, rt.alloc(), params, opening)
}

/// Each driver boots a node of its own, in a thread of its own. Then all nodes live, and each entry has its driver.
fn boot_by_all<N: HallName + Send + Sync, R: Threads + Wait + Abort + Sync>(
    rt: &R,
    alloc: Global,
    params: Params,
    opening: Opening,
) -> Result<(), Fail>
    requires name { (opening.table ≡ N.table) × (opening.drivers ≡ N.drivers) }
    requires params { params ≡ N.params }
{
    let whole = Whole::<N>::new(alloc, params, opening);
    let Ok((hall, passes)) = whole.part(alloc) else {
        return Err(Fail::new("no room for passes"));
    };
    let passes = boot_by_each(rt, &hall, passes)?;
    let whole = hall.unite(passes);
    let live = whole.core().world().live_nodes()?;
    assert_eq!(rt; live.len(), 64);
    let all = whole.close();
    assert!(rt; are_own(all.core.world().journal(), &all.entry_drivers));
    Ok(())
}

/// Each driver boots its node. Returns the passes in the order of the drivers.
fn boot_by_each<N: HallName + Send + Sync, R: Threads + Wait + Sync>(
    rt: &R,
    hall: &Hall<N>,
    passes: Vec<Pass<N>>,
) -> Result<Vec<Pass<N>>, OutOfMemory>
    ensures { IfOk result (λ v. map (λ (t : Ticket). t.driver) v.items
        ≡ map (λ (t : Ticket). t.driver) passes.items) }
{
    let work = |pass: Pass<N>| -> Pass<N>
        ensures { result.driver ≡ pass.driver }
    { boot_own(rt, hall, pass) };
    Ok(thread::map_vec(rt, passes, &work)?)
}

/// Boots the node whose id is one more than the driver's number.
fn boot_own<N: HallName>(rt: &impl Wait, hall: &Hall<N>, pass: Pass<N>) -> Pass<N>
    ensures { result.driver ≡ pass.driver }
{
    let event = Event::Boot(NodeId(own_id(pass.driver())), None);
    let (answer, pass) = hall.step(rt, pass, event, &words(&[]));
    match answer {
        Ok(_) => pass,
        Err(_) => pass,
    }
}

/// The id of a driver's node, or 0 for a driver that is beyond all ids.
fn own_id(driver: u64) -> u32 {
    match u32::try_from(driver) {
        Ok(number) => number.saturating_add(1),
        Err(_) => 0,
    }
}

/// Whether each entry tells that the node of the driver at its place was booted, and there are as many of both.
fn are_own(entries: &[Entry], drivers: &[u64]) -> bool {
    if entries.len() != drivers.len() {
        return false;
    }
    for (entry, driver) in entries.iter().zip(drivers) {
        if !is_own(entry, *driver) {
            return false;
        }
    }
    true
}

/// Whether an entry tells that the driver's node was booted.
fn is_own(entry: &Entry, driver: u64) -> bool {
    match &entry.event {
        Event::Boot(id, None) => id.0 == own_id(driver),
        _ => false,
    }
}
