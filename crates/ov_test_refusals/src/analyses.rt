//! Analyses of the square by one and by two workers, and workers at a board.
ghost use Rattle.std.specs.Prelude.{length, ◌≤◌};
ghost use Rattle.ov_graph.specs.Links.{IsGroup};

use crate::square_groups::{ALL_NODES, Group, THREE_NODES, square};
use ov_board::{Board, Seat};
use ov_cert::Checked;
use ov_crew::{Gate, OpenGate, analyse, analyse_group, work_group};
use ov_even::{AnalyseFault, Haul, group_total};
use ov_graph::Graph;
use ov_ids::{NodeId, OutOfMemory, Workers};
use std::alloc::Global;
use std::sync::atomic::{AtomicU64, Ordering};
use std::test::Fail;
use std::thread::Threads;

/// So many workers.
fn crew_of(count: u32) -> Result<Workers, Fail> {
    Ok(Workers::new(count).ok_or("a number of workers")?)
}

/// The analysis of a group of the square by so many workers.
fn analysed<R: Threads + Sync>(
    rt: &R,
    alloc: Global,
    group: &Group,
    count: u32,
) -> Result<Result<Checked, AnalyseFault>, Fail> {
    let graph = square(alloc)?;
    let workers = crew_of(count)?;
    if group.members.is_none() {
        return Ok(analyse(rt, alloc, &graph, workers, &OpenGate));
    }
    let members = group.ids(alloc)?;
    Ok(analyse_group(rt, alloc, &graph, members.as_slice(), workers, &OpenGate))
}

/// So many workers find the whole certificate, the second time if memory is refused the first time. Tells whether it
/// was refused.
fn is_refused_once<R: Threads + Sync>(
    rt: &R,
    alloc: Global,
    group: &Group,
    count: u32,
) -> Result<bool, Fail> {
    match analysed(rt, alloc, group, count)? {
        Ok(first) if group.has(first.cert()) => return Ok(false),
        Err(AnalyseFault::OutOfMemory) => {}
        _ => return Err("an analysis has another answer".into()),
    }
    match analysed(rt, alloc, group, count)? {
        Ok(again) if group.has(again.cert()) => Ok(true),
        _ => Err("an analysis that is made again has another answer".into()),
    }
}

/// One worker finds the whole certificate, and then two do.
fn are_analysed<R: Threads + Print + Sync>(
    rt: &R,
    alloc: Global,
    group: &Group,
) -> Result<(), Fail> {
    let name = group.name();
    for count in [1, 2] {
        if is_refused_once(rt, alloc, group, count)? {
            let _ = println!(rt; "seen: {name} by {count}: refused 99, then the row's answer");
        }
    }
    Ok(())
}

/// If an allocation of an analysis is refused, it is out of memory. The same call, made again, gives the answer.
#[test]
fn out_of_memory_ends_an_analysis(rt: HostRuntime) -> Result<(), Fail> {
    are_analysed(&rt, rt.alloc(), &ALL_NODES)?;
    are_analysed(&rt, rt.alloc(), &THREE_NODES)
}

/// A gate that counts the numbers that workers pass with.
#[derive(Drop)]
struct Counting {
    passed: AtomicU64,
}

impl Gate for Counting {
    fn pass(&self, _worker: u32, _number: u64) {
        let _ = self.passed.fetch_add(1, Ordering::SeqCst);
    }
}

/// How many pieces the second worker settles, if the first one passed the gate with so many numbers, and then gave up
/// the last of them or had ended.
fn left_after(group: &Group, passed: u64) -> u64 {
    match group.to_the_cut().checked_sub(passed) {
        Some(0) => group.behind,
        Some(left) => left,
        None => 0,
    }
}

/// Who of two workers had memory.
#[derive(Clone, Copy, PartialEq, Eq)]
enum Worked {
    Both,
    First,
    Second,
}

/// How many pieces a worker settled, or None if memory was refused.
fn settled_in(haul: &Result<Haul, OutOfMemory>) -> Option<u64> {
    match haul {
        Ok(haul) => Some(haul.pieces.len() as u64),
        Err(_) => None,
    }
}

/// Who had memory, if the workers settled the pieces that they should.
fn who_worked(
    group: &Group,
    first: Option<u64>,
    second: Option<u64>,
    passed: u64,
) -> Option<Worked> {
    let rest_is_settled = second == Some(left_after(group, passed));
    match first {
        Some(settled) if settled != group.to_the_cut() => None,
        Some(_) if rest_is_settled => Some(Worked::Both),
        Some(_) if second.is_none() => Some(Worked::First),
        None if rest_is_settled => Some(Worked::Second),
        _ => None,
    }
}

/// Two workers of a group of the square, one after the other. One that is out of memory gives its seat back, and the
/// other one settles the pieces that nobody has claimed.
fn work_in_turn(alloc: Global, group: &Group) -> Result<Worked, Fail> {
    let graph = square(alloc)?;
    let members = group.ids(alloc)?;
    let members = members.as_slice();
    if members.len() > graph.nodes().len() {
        return Err("a group of more nodes".into());
    }
    if !graph.is_group(members) {
        return Err("no group".into());
    }
    worked_by_two(alloc, group, &graph, members)
}

/// The same on this graph, for these members.
fn worked_by_two(
    alloc: Global,
    group: &Group,
    graph: &Graph,
    members: &[NodeId],
) -> Result<Worked, Fail>
    requires group { IsGroup graph.now members.now }
    requires few { length members.now ≤ length graph.now.nodes }
{
    let total = group_total(graph.nodes().len(), members.len());
    let (board, mut seats) = Board::new(alloc, total, crew_of(2)?)?;
    let second = seats.pop().ok_or("a second seat")?;
    let first = seats.pop().ok_or("a first seat")?;
    let gate = Counting {
        passed: AtomicU64::new(0),
    };
    let (by_first, first) = work_group(alloc, &board, graph, members, first, &gate);
    let passed = gate.passed.load(Ordering::SeqCst);
    let (by_second, second) = work_group(alloc, &board, graph, members, second, &gate);
    if !are_numbered(&first, &second) {
        return Err("a worker gave another seat back".into());
    }
    let worked = who_worked(group, settled_in(&by_first), settled_in(&by_second), passed);
    Ok(worked.ok_or("a worker settled other pieces")?)
}

/// These are the seats of workers 0 and 1.
fn are_numbered(first: &Seat, second: &Seat) -> bool {
    first.worker() == 0 && second.worker() == 1
}

/// A worker that is out of memory gives its seat back, and the other one goes on. A new analysis then gives the answer.
#[test]
fn out_of_memory_gives_a_seat_back(rt: HostRuntime) -> Result<(), Fail> {
    for (group, name) in [(&ALL_NODES, "all nodes"), (&THREE_NODES, "a group")] {
        let worked = work_in_turn(rt.alloc(), group)?;
        if worked != Worked::Both {
            assert!(rt; !is_refused_once(&rt, rt.alloc(), group, 2)?);
            let seat = if worked == Worked::Second { 0 } else { 1 };
            let _ = println!(rt;
                "seen: work for {name} at seat {seat}: refused 99, the seat given back, and the other seat went on"
            );
        }
    }
    Ok(())
}
