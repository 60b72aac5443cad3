//! Worked stories of worlds, each of which one driver tells by the calls of a hall.
ghost use Rattle.std.specs.Prelude.{◌≡◌};

use crate::net::Line::{Boot, BootBy, Broadcast, Crash, Deliver, Repeat, Report, Timer};
use crate::net::{Line, event_of, put_answer, put_node};
use Call::{Analyse, Show, Snapshot, Step};
use ov_cert::{Cert, Split};
use ov_crew::{OpenGate, analyse};
use ov_hall::{Hall, HallName, Opening, Pass, Whole};
use ov_ids::{IdsText, OutOfMemory, Params, Workers};
use ov_net::{Entry, NetFault};
use ov_snap::{Core, CoreFault};
use ov_test_kit::{sized, words};
use std::alloc::Global;
use std::marker::Brand;
use std::process::Abort;
use std::sync::Wait;
use std::test::*;
use std::thread::Threads;

/// A call of a hall.
#[derive(Clone, Copy, Drop)]
enum Call {
    Step(Line),
    Snapshot,
    /// Begins an analysis of this moment, analyses, and files the report.
    Analyse(u32),
    /// Looks at a node.
    Show(u32),
}

/// What a call comes to, in words.
type Told = Result<String, OutOfMemory>;

/// A word and a number.
fn numbered(alloc: Global, word: &str, number: u32) -> Told {
    Ok(format!(in alloc; "{word} {number}")?)
}

fn entry_told(alloc: Global, answer: Result<Entry, NetFault>) -> Told {
    let mut told = String::new(alloc);
    put_answer(&mut told, answer)?;
    Ok(told)
}

fn snapshot_told(alloc: Global, answer: Result<u32, NetFault>) -> Told {
    match answer {
        Ok(moment) => numbered(alloc, "entry", moment),
        Err(fault) => numbered(alloc, "refused", fault.number()),
    }
}

fn node_told(alloc: Global, core: &Core, node: u32) -> Told {
    let mut told = String::new(alloc);
    put_node(&mut told, core.world(), node)?;
    Ok(told)
}

fn split_told(alloc: Global, split: &Split) -> Told {
    let (near, far) = (split.near.number(), split.far.number());
    let (cut, side) = (
        IdsText(split.cut.as_slice()),
        IdsText(split.side.as_slice()),
    );
    let k = split.k;
    Ok(format!(in alloc; "split k {k} cut {cut} near {near} far {far} side {side}")?)
}

/// What the report of a moment says, if it is filed.
fn report_told(alloc: Global, core: &Core, moment: u32) -> Told {
    let Some(report) = core.report(moment) else {
        return numbered(alloc, "no report of", moment);
    };
    match report.checked().cert() {
        Cert::Linked { k } => numbered(alloc, "linked k", *k),
        Cert::Split(split) => split_told(alloc, split),
    }
}

/// What comes of the filing of a report of this moment.
fn filing_told<N: HallName>(
    rt: &impl Wait,
    alloc: Global,
    hall: &Hall<N>,
    pass: Pass<N>,
    moment: u32,
    filed: Result<(), CoreFault>,
) -> (Told, Pass<N>) {
    match filed {
        Ok(()) => hall.look_at(rt, pass, |core: &Core| -> Told {
            report_told(alloc, core, moment)
        }),
        Err(fault) => (numbered(alloc, "refused", fault.number()), pass),
    }
}

/// Begins an analysis of this moment, analyses by one worker, and files the report.
fn analysed<N: HallName, R: Threads + Wait + Sync>(
    rt: &R,
    alloc: Global,
    hall: &Hall<N>,
    pass: Pass<N>,
    moment: u32,
) -> (Told, Pass<N>) {
    let (begun, pass) = hall.begin(rt, pass, moment);
    let snapshot = match begun {
        Ok(snapshot) => snapshot,
        Err(fault) => return (numbered(alloc, "refused", fault.number()), pass),
    };
    let Ok(checked) = analyse(rt, alloc, &snapshot.graph, Workers::ONE, &OpenGate) else {
        return (Err(OutOfMemory), pass);
    };
    let Ok(report) = ov_snap::Report::new(alloc, moment, checked) else {
        return (Err(OutOfMemory), pass);
    };
    let (filed, pass) = hall.file(rt, pass, report);
    filing_told(rt, alloc, hall, pass, moment, filed)
}

/// An event, with the words 5, and then zeros.
fn stepped<N: HallName>(
    rt: &impl Wait,
    alloc: Global,
    hall: &Hall<N>,
    pass: Pass<N>,
    line: Line,
) -> (Told, Pass<N>) {
    match event_of(alloc, line) {
        Ok(Some(event)) => {
            let (answer, pass) = hall.step(rt, pass, event, &words(&[5]));
            (entry_told(alloc, answer), pass)
        }
        _ => (Err(OutOfMemory), pass),
    }
}

/// Makes a call.
fn told_of<N: HallName, R: Threads + Wait + Sync>(
    rt: &R,
    alloc: Global,
    hall: &Hall<N>,
    pass: Pass<N>,
    call: Call,
) -> (Told, Pass<N>) {
    match call {
        Step(line) => stepped(rt, alloc, hall, pass, line),
        Snapshot => {
            let (answer, pass) = hall.snapshot(rt, pass);
            (snapshot_told(alloc, answer), pass)
        }
        Analyse(moment) => analysed(rt, alloc, hall, pass, moment),
        Show(node) => hall.look_at(rt, pass, |core: &Core| -> Told {
            node_told(alloc, core, node)
        }),
    }
}

/// This is told.
fn is_told(told: &Told, expected: &str) -> bool {
    match told {
        Ok(text) => text.as_str() == expected,
        Err(_) => false,
    }
}

/// The only driver of a hall makes the call of each row, one after another.
fn tell<N: HallName, R: Threads + Wait + Abort + Sync>(
    rt: &R,
    alloc: Global,
    params: Params,
    opening: Opening,
    rows: &[(Call, &'static str)],
) -> Result<(), Fail>
    requires name { (opening.table ≡ N.table) × (opening.drivers ≡ N.drivers) }
    requires params { params ≡ N.params }
{
    let whole = Whole::<N>::new(alloc, params, opening);
    let (hall, mut passes) = whole.part(alloc).ok().ok_or("no room for passes")?;
    let mut pass = passes.pop().ok_or("no pass")?;
    for (call, expected) in rows {
        let (told, back) = told_of(rt, alloc, &hall, pass, *call);
        assert!(rt; is_told(&told, expected), "{expected}");
        pass = back;
    }
    Ok(())
}

/// The story of a hall whose nodes have this many active places.
fn story<R: Threads + Wait + Abort + Sync>(
    rt: &R,
    alloc: Global,
    active: u32,
    rows: &[(Call, &'static str)],
) -> Result<(), Fail> {
    let params = sized(active, 30)?;
    let opening = Opening::new(alloc, 1)?;
    tell::<Brand, _>(rt, alloc, params, opening, rows)
}

/// At the first moment one of two nodes holds the other, and at the second one both do.
static TWO_JOIN: [(Call, &str); 8] = [
    (Step(Boot(1)), "entry 1 born 1"),
    (Step(BootBy(2, 1)), "entry 2 born 2"),
    (Step(Deliver(0)), "entry 3 up 1 2"),
    (Snapshot, "entry 4"),
    (Step(Deliver(0)), "entry 5 up 2 1"),
    (Snapshot, "entry 6"),
    (Analyse(4), "split k 0 cut - near 2 far 1 side 2"),
    (Analyse(6), "linked k 1"),
];

/// An answer comes twice, and then node 1 crashes.
static REPEAT_AND_CRASH: [(Call, &str); 9] = [
    (Step(Boot(1)), "entry 1 born 1"),
    (Step(BootBy(2, 1)), "entry 2 born 2"),
    (Step(Deliver(0)), "entry 3 up 1 2"),
    (Step(Repeat(0)), "entry 4"),
    (Step(Deliver(0)), "entry 5 up 2 1"),
    (Step(Deliver(0)), "entry 6"),
    (Step(Crash(1)), "entry 7 gone 1"),
    (Snapshot, "entry 8"),
    (Analyse(8), "linked k 0"),
];

/// Node 1 has two active places. At its third join the word 5 picks the second of two members.
static FULL_VIEW: [(Call, &str); 8] = [
    (Step(Boot(1)), "entry 1 born 1"),
    (Step(BootBy(3, 1)), "entry 2 born 3"),
    (Step(Deliver(0)), "entry 3 up 1 3"),
    (Step(BootBy(7, 1)), "entry 4 born 7"),
    (Step(Deliver(1)), "entry 5 up 1 7"),
    (Step(BootBy(9, 1)), "entry 6 born 9"),
    (Step(Deliver(3)), "entry 7 down 1 7 up 1 9"),
    (Show(1), "node 1 active 3,9 passive 7 eager 3,9 lazy -"),
];

/// A broadcast comes twice, and the second one is answered by a prune.
static BROADCAST_REPEAT: [(Call, &str); 10] = [
    (Step(Boot(1)), "entry 1 born 1"),
    (Step(BootBy(2, 1)), "entry 2 born 2"),
    (Step(Deliver(0)), "entry 3 up 1 2"),
    (Step(Deliver(0)), "entry 4 up 2 1"),
    (Step(Broadcast(1, b"hi")), "entry 5 delivered 1 1 0"),
    (Step(Repeat(0)), "entry 6"),
    (Step(Deliver(0)), "entry 7 delivered 2 1 0"),
    (Step(Deliver(0)), "entry 8"),
    (Step(Deliver(0)), "entry 9"),
    (Show(1), "node 1 active 2 passive - eager - lazy 2"),
];

/// Events and analyses, most of which are refused.
static REFUSALS: [(Call, &str); 12] = [
    (Snapshot, "entry 1"),
    (Analyse(1), "refused 30"),
    (Step(Deliver(0)), "refused 14"),
    (Step(Boot(1)), "entry 2 born 1"),
    (Step(Boot(1)), "refused 11"),
    (Step(Crash(2)), "refused 10"),
    (Step(Report(1, 1)), "refused 17"),
    (Step(Timer(1, 1, 0)), "refused 18"),
    (Analyse(9), "refused 50"),
    (Snapshot, "entry 3"),
    (Analyse(3), "linked k 0"),
    (Analyse(3), "refused 52"),
];

#[test]
fn worked_stories_over_a_hall(rt: HostRuntime) -> Result<(), Fail> {
    story(&rt, rt.alloc(), 5, &TWO_JOIN)?;
    story(&rt, rt.alloc(), 5, &REPEAT_AND_CRASH)?;
    story(&rt, rt.alloc(), 2, &FULL_VIEW)?;
    story(&rt, rt.alloc(), 5, &BROADCAST_REPEAT)?;
    story(&rt, rt.alloc(), 5, &REFUSALS)
}
