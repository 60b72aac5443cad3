//! An analysis goes on while another driver steps the hall.
ghost use Rattle.std.specs.Prelude.{◌≡◌};

use ov_crew::{Gate, analyse};
use ov_hall::{Hall, HallName, Opening, Pass, Whole};
use ov_ids::{NodeId, Params, Workers};
use ov_net::Event;
use ov_snap::Report;
use ov_test_kit::{sized, words};
use std::alloc::Global;
use std::marker::Brand;
use std::process::Abort;
use std::sync::Wait;
use std::sync::atomic::{AtomicU64, Ordering};
use std::test::*;
use std::thread;
use std::thread::Threads;

/// How often one thread looks whether the other has come so far, at most.
const LOOKS: u64 = 100_000_000;

/// Holds the worker of an analysis with its first number, until a step of another driver has answered.
#[derive(Drop)]
struct HeldUntilStep {
    is_held: AtomicU64,
    has_stepped: AtomicU64,
    saw_step: AtomicU64,
}

impl HeldUntilStep {
    fn new() -> HeldUntilStep {
        HeldUntilStep {
            is_held: AtomicU64::new(0),
            has_stepped: AtomicU64::new(0),
            saw_step: AtomicU64::new(0),
        }
    }

    /// Whether the worker was held, and saw that the step had answered.
    fn saw_step(&self) -> bool {
        self.saw_step.load(Ordering::SeqCst) == 1
    }
}

impl Gate for HeldUntilStep {
    fn pass(&self, _worker: u32, number: u64) {
        if number == 0 {
            self.is_held.store(1, Ordering::SeqCst);
            let saw = becomes_one(&self.has_stepped);
            self.saw_step.store(u64::from(saw), Ordering::SeqCst);
        }
    }
}

/// Whether the word becomes 1 while it is looked at, in a bounded loop.
fn becomes_one(word: &AtomicU64) -> bool {
    for _ in 0..LOOKS {
        if word.load(Ordering::SeqCst) == 1 {
            return true;
        }
    }
    false
}

#[test]
fn analysis_beside_steps(rt: HostRuntime) -> Result<(), Fail> {
    let params = sized(5, 30)?;
    let opening = Opening::new(rt.alloc(), 2)?;
    analyse_beside::<Brand, _>(&rt, rt.alloc(), params, opening)
}

/// One driver analyses a snapshot of two nodes, while the other one boots a third.
fn analyse_beside<N: HallName + Send + Sync, R: Threads + Wait + Abort + Sync>(
    rt: &R,
    alloc: Global,
    params: Params,
    opening: Opening,
) -> Result<(), Fail>
    requires name { (opening.table ≡ N.table) × (opening.drivers ≡ N.drivers) }
    requires params { params ≡ N.params }
{
    let mut whole = Whole::<N>::new(alloc, params, opening);
    for id in 1..3 {
        let booted = whole.step(Event::Boot(NodeId(id), None), &words(&[]));
        assert!(rt; booted.is_ok());
    }
    assert!(rt; whole.step(Event::Snapshot, &words(&[])).is_ok());
    let (hall, mut passes) = whole.part(alloc).ok().ok_or("no room for passes")?;
    let second = passes.pop().ok_or("no second pass")?;
    let first = passes.pop().ok_or("no first pass")?;
    let gate = HeldUntilStep::new();
    let ((is_filed, _first), (has_stepped, _second)) = thread::join(
        rt,
        || file_analysis(rt, alloc, &hall, first, &gate),
        || step_when_held(rt, &hall, second, &gate),
    );
    assert!(rt; is_filed && has_stepped && gate.saw_step());
    Ok(())
}

/// Analyses moment 3, by one worker that passes the gate, and files the report. Whether it was filed.
fn file_analysis<N: HallName, R: Threads + Wait + Sync>(
    rt: &R,
    alloc: Global,
    hall: &Hall<N>,
    pass: Pass<N>,
    gate: &HeldUntilStep,
) -> (bool, Pass<N>) {
    let (begun, pass) = hall.begin(rt, pass, 3);
    let Ok(snapshot) = begun else {
        return (false, pass);
    };
    let Ok(checked) = analyse(rt, alloc, &snapshot.graph, Workers::ONE, gate) else {
        return (false, pass);
    };
    let Ok(report) = Report::new(alloc, 3, checked) else {
        return (false, pass);
    };
    let (filed, pass) = hall.file(rt, pass, report);
    (filed.is_ok(), pass)
}

/// Boots node 3 once the worker of the analysis is held. Whether it was born.
fn step_when_held<N: HallName>(
    rt: &impl Wait,
    hall: &Hall<N>,
    pass: Pass<N>,
    gate: &HeldUntilStep,
) -> (bool, Pass<N>) {
    let is_held = becomes_one(&gate.is_held);
    let (answer, pass) = hall.step(rt, pass, Event::Boot(NodeId(3), None), &words(&[]));
    gate.has_stepped.store(1, Ordering::SeqCst);
    (is_held && answer.is_ok(), pass)
}
