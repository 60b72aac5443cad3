//! Calls of a hall.
ghost use Rattle.std.specs.Prelude.{◌≡◌};

use crate::cores::Answer::{self, Begun, Done, Happened, Numbered, Refused};
use crate::cores::begun;
use crate::events::Line::{self, Boot, BootBy, Deliver};
use crate::events::{Tells, told_in};
use crate::told::core_told;
use Call::{Analyse, Begin, BeginForOne, Read, Snapshot, Step};
use ov_cert::Cert;
use ov_crew::{OpenGate, analyse};
use ov_hall::{Hall, HallName, Opening, Pass, Whole};
use ov_ids::{NodeId, Params, Workers};
use ov_net::{Entry, Event};
use ov_snap::{Core, Report};
use ov_test_kit::{sized, words};
use std::alloc::{AllocError, Global};
use std::marker::Brand;
use std::process::Abort;
use std::sync::Wait;
use std::test::*;
use std::thread::Threads;

/// A call of a hall.
#[derive(Clone, Copy, Drop)]
enum Call {
    Step(Line),
    Snapshot,
    /// The entry of this number.
    Read(u32),
    Begin(u32),
    /// The same for node 1 alone.
    BeginForOne(u32),
    /// Begins an analysis of this moment, analyses, and files the report.
    Analyse(u32),
}

impl Call {
    /// The name of the call.
    fn name(self) -> &'static str {
        match self {
            Step(_) => "step of a hall",
            Snapshot => "snapshot of a hall",
            Read(_) => "entry",
            Begin(_) => "begin of a hall",
            BeginForOne(_) => "begin_group of a hall",
            Analyse(_) => "begin, analyse and file",
        }
    }
}

/// Two nodes join, and both snapshots are analysed.
static ROWS: [(Call, Answer); 14] = [
    (Step(Boot(1)), Happened(1, Some(Tells::Born(1)))),
    (Step(BootBy(2, 1)), Happened(2, Some(Tells::Born(2)))),
    (Step(Deliver(0)), Happened(3, Some(Tells::Up(1, 2)))),
    (Step(Line::Snapshot), Happened(4, Some(Tells::Nothing))),
    (Step(Deliver(0)), Happened(5, Some(Tells::Up(2, 1)))),
    (Snapshot, Numbered(6)),
    (Read(3), Happened(3, Some(Tells::Up(1, 2)))),
    (Read(7), Done),
    (Begin(4), Begun(2, false)),
    (Begin(5), Refused(50)),
    (BeginForOne(6), Begun(2, true)),
    (Analyse(4), Done),
    (Analyse(4), Refused(52)),
    (Analyse(6), Done),
];

/// Moment 4 has a report that a cut of nobody parts node 2 from node 1, and moment 6 one that nothing splits its nodes.
fn has_reports(core: &Core) -> bool {
    let (Some(apart), Some(linked)) = (core.report(4), core.report(6)) else {
        return false;
    };
    matches!(apart.checked().cert(), Cert::Split(split) if split.k == 0 && split.near == NodeId(2))
        && matches!(linked.checked().cert(), Cert::Linked { k: 1 })
}

/// What is seen of a hall.
fn look<N: HallName>(
    rt: &impl Wait,
    alloc: Global,
    hall: &Hall<N>,
    pass: Pass<N>,
) -> (Result<String, AllocError>, Pass<N>) {
    hall.look_at(rt, pass, |core: &Core| -> Result<String, AllocError> {
        core_told(alloc, core)
    })
}

fn stepped<N: HallName>(
    rt: &impl Wait,
    hall: &Hall<N>,
    pass: Pass<N>,
    event: Event,
) -> (Answer, Pass<N>) {
    let (answer, pass) = hall.step(rt, pass, event, &words(&[]));
    match answer {
        Ok(entry) => (happened(&entry), pass),
        Err(fault) => (Refused(fault.number()), pass),
    }
}

fn happened(entry: &Entry) -> Answer {
    Happened(entry.number, told_in(entry))
}

fn snapshot_taken<N: HallName>(rt: &impl Wait, hall: &Hall<N>, pass: Pass<N>) -> (Answer, Pass<N>) {
    let (answer, pass) = hall.snapshot(rt, pass);
    match answer {
        Ok(moment) => (Numbered(u64::from(moment)), pass),
        Err(fault) => (Refused(fault.number()), pass),
    }
}

/// The entry of this number, or Done if there is none.
fn read<N: HallName>(
    rt: &impl Wait,
    alloc: Global,
    hall: &Hall<N>,
    pass: Pass<N>,
    number: u32,
) -> (Answer, Pass<N>) {
    let (answer, pass) = hall.entry(rt, alloc, pass, number);
    match answer {
        Ok(Some(entry)) => (happened(&entry), pass),
        Ok(None) => (Done, pass),
        Err(_) => (Refused(99), pass),
    }
}

/// Begins an analysis of this moment, analyses by two workers, and files the report.
fn analysed<N: HallName, R: Threads + Wait + Sync>(
    rt: &R,
    alloc: Global,
    hall: &Hall<N>,
    pass: Pass<N>,
    moment: u32,
) -> (Answer, Pass<N>) {
    let (begun, pass) = hall.begin(rt, pass, moment);
    let snapshot = match begun {
        Ok(snapshot) => snapshot,
        Err(fault) => return (Refused(fault.number()), pass),
    };
    let workers = Workers::new(2).unwrap_or(Workers::ONE);
    let checked = match analyse(rt, alloc, &snapshot.graph, workers, &OpenGate) {
        Ok(checked) => checked,
        Err(fault) => return (Refused(fault.number()), pass),
    };
    let Ok(report) = Report::new(alloc, moment, checked) else {
        return (Refused(99), pass);
    };
    let (filed, pass) = hall.file(rt, pass, report);
    match filed {
        Ok(()) => (Done, pass),
        Err(fault) => (Refused(fault.number()), pass),
    }
}

/// What a call answers. The events of a hall's story allocate nothing before their step.
fn made<N: HallName, R: Threads + Wait + Sync>(
    rt: &R,
    alloc: Global,
    hall: &Hall<N>,
    pass: Pass<N>,
    call: Call,
) -> (Answer, Pass<N>) {
    match call {
        Step(line) => match line.event(alloc) {
            Ok(event) => stepped(rt, hall, pass, event),
            Err(_) => (Refused(99), pass),
        },
        Snapshot => snapshot_taken(rt, hall, pass),
        Read(number) => read(rt, alloc, hall, pass, number),
        Begin(moment) => {
            let (answer, pass) = hall.begin(rt, pass, moment);
            (begun(answer), pass)
        }
        BeginForOne(moment) => {
            let (answer, pass) = hall.begin_group(rt, pass, moment, &[NodeId(1)]);
            (begun(answer), pass)
        }
        Analyse(moment) => analysed(rt, alloc, hall, pass, moment),
    }
}

/// The answer of a call is this one, the second time if memory is refused the first time; the hall is then as before.
fn answers<N: HallName, R: Threads + Wait + Abort + Print + Sync>(
    rt: &R,
    alloc: Global,
    hall: &Hall<N>,
    pass: Pass<N>,
    call: Call,
    expected: Answer,
) -> Result<Pass<N>, Fail> {
    let (before, pass) = look(rt, alloc, hall, pass);
    let before = before?;
    let (first, pass) = made(rt, alloc, hall, pass, call);
    if first != Refused(99) {
        assert!(rt; first == expected);
        return Ok(pass);
    }
    let (after, pass) = look(rt, alloc, hall, pass);
    let after = after?;
    assert!(rt; after.as_str() == before.as_str());
    let (second, pass) = made(rt, alloc, hall, pass, call);
    assert!(rt; second == expected);
    let name = call.name();
    let _ = println!(rt; "seen: {name}: refused 99, all as before, then the row's answer");
    Ok(pass)
}

/// The hall and its passes, the second time if memory is refused the first time.
fn parted<N: HallName>(
    rt: &impl Print,
    alloc: Global,
    whole: Whole<N>,
) -> Result<(Hall<N>, Vec<Pass<N>>), Fail> {
    let whole = match whole.part(alloc) {
        Ok(parts) => return Ok(parts),
        Err(whole) => whole,
    };
    let Ok(parts) = whole.part(alloc) else {
        return Err("memory was wanted twice".into());
    };
    let _ = println!(rt; "seen: part: refused 99, all given back, then parted");
    Ok(parts)
}

/// One of two drivers makes the call of each row, and sees the hall at its end.
fn all_answer<N: HallName, R: Threads + Wait + Abort + Print + Sync>(
    rt: &R,
    alloc: Global,
    params: Params,
    opening: Opening,
) -> Result<(), Fail>
    requires name { (opening.table ≡ N.table) × (opening.drivers ≡ N.drivers) }
    requires params { params ≡ N.params }
{
    let (hall, mut passes) = parted(rt, alloc, Whole::<N>::new(alloc, params, opening))?;
    let mut pass = passes.pop().ok_or("no pass")?;
    for (call, expected) in &ROWS {
        pass = answers(rt, alloc, &hall, pass, *call, *expected)?;
    }
    let (is_filed, _) = hall.look_at(rt, pass, |core: &Core| -> bool { has_reports(core) });
    assert!(rt; is_filed);
    Ok(())
}

/// A refused call changes nothing, and is answered as in its row when it is made again.
#[test]
fn out_of_memory_changes_no_hall(rt: HostRuntime) -> Result<(), Fail> {
    let params = sized(5, 30)?;
    let opening = Opening::new(rt.alloc(), 2)?;
    all_answer::<Brand, _>(&rt, rt.alloc(), params, opening)
}
