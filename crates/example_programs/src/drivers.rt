//! What the drivers do. Nothing here has a contract: what `drive` promises holds whatever drivers do.
use anyhow::Result;
use ov_crew::{OpenGate, analyse_group};
use ov_hall::{Hall, HallName, Pass};
use ov_ids::{NodeId, Workers};
use ov_net::Event;
use ov_snap::{CoreFault, Report, Snapshot};
use ov_words::{WORDS_PER_EVENT, Words};
use std::alloc::Global;
use std::sync::Wait;
use std::thread::Threads;

/// The nodes that are watched, in order.
pub(crate) static WATCHED: [u32; 5] = [1, 3, 4, 5, 6];

/// The most packets that are delivered one after another.
const MOST_PACKETS: u32 = 1000;

/// Why a driver stopped, if it did, and its pass. Each call takes the pass and gives it back.
pub(crate) type Driven<N> = (Result<()>, Pass<N>);

/// Takes an event, whose random words are all zero.
pub(crate) fn step<N: HallName>(
    rt: &impl Wait,
    hall: &Hall<N>,
    pass: Pass<N>,
    event: Event,
) -> Driven<N> {
    let (taken, pass) = hall.step(rt, pass, event, &Words::new([0; WORDS_PER_EVENT]));
    match taken {
        Ok(_) => (Ok(()), pass),
        Err(fault) => (Err(fault.into()), pass),
    }
}

/// Starts these nodes, one after another. Each asks node 1 to let it join, but for node 1 itself.
pub(crate) fn start<N: HallName>(
    rt: &impl Wait,
    hall: &Hall<N>,
    mut pass: Pass<N>,
    ids: &[u32],
) -> Driven<N> {
    for id in ids {
        let contact = if *id == 1 { None } else { Some(NodeId(1)) };
        let (taken, next) = step(rt, hall, pass, Event::Boot(NodeId(*id), contact));
        pass = next;
        if taken.is_err() {
            return (taken, pass);
        }
    }
    (Ok(()), pass)
}

/// Delivers the oldest packet, again and again, until none is on its way.
pub(crate) fn deliver_all<N: HallName>(
    rt: &impl Wait,
    hall: &Hall<N>,
    mut pass: Pass<N>,
) -> Pass<N> {
    for _ in 0..MOST_PACKETS {
        let (taken, next) = step(rt, hall, pass, Event::Deliver(0));
        pass = next;
        if taken.is_err() {
            return pass;
        }
    }
    pass
}

/// Crashes node 2, and then reports on the watched nodes.
pub(crate) fn crash_and_report<N: HallName, R: Threads + Wait + Sync>(
    rt: &R,
    alloc: Global,
    hall: &Hall<N>,
    pass: Pass<N>,
) -> Driven<N> {
    match step(rt, hall, pass, Event::Crash(NodeId(2))) {
        (Ok(()), pass) => report(rt, alloc, hall, pass),
        stopped => stopped,
    }
}

/// Takes a snapshot, and files a report on the watched nodes. Others may step the world while it is made.
pub(crate) fn report<N: HallName, R: Threads + Wait + Sync>(
    rt: &R,
    alloc: Global,
    hall: &Hall<N>,
    pass: Pass<N>,
) -> Driven<N> {
    let watched = WATCHED.map(|id| NodeId(id));
    let (taken, pass) = hall.snapshot(rt, pass);
    let moment = match taken {
        Ok(moment) => moment,
        Err(fault) => return (Err(fault.into()), pass),
    };
    let (begun, pass) = hall.begin_group(rt, pass, moment, &watched);
    match report_on(rt, alloc, begun, &watched) {
        Ok(report) => {
            let (filed, pass) = hall.file(rt, pass, report);
            (filed.map_err(|fault| fault.into()), pass)
        }
        Err(error) => (Err(error), pass),
    }
}

/// The report on these nodes of a snapshot, if its analysis may begin.
fn report_on<R: Threads + Sync>(
    rt: &R,
    alloc: Global,
    begun: Result<Snapshot, CoreFault>,
    nodes: &[NodeId],
) -> Result<Report> {
    let snapshot = begun?;
    let checked = analyse_group(rt, alloc, &snapshot.graph, nodes, Workers::ONE, &OpenGate)?;
    Ok(Report::new(alloc, snapshot.moment, checked)?)
}
