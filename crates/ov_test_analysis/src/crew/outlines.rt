//! Answers without paths, by workers in threads.
use crate::crew::crews::{Levels, PETERSEN, RING, Row, TWO_SIDES, crew_of, find_watched, gives};
use crate::crew::gates::{Holding, Meeting, Opening};
use crate::crew::graphs::{Family, of_size};
use ov_cert::Cert;
use ov_crew::{Gate, OpenGate, outline_group_watched};
use ov_even::{Unwatched, Watcher};
use std::alloc::Global;
use std::test::Fail;
use std::thread::Threads;

/// The ids go round a ring that is longer than a graph of rows of bits.
static LONG_RING: Row = Row {
    family: Family::LongRing,
    nodes: 1_100,
    members: 1_100,
    k: 2,
    cut: &[2, 1_100],
    near: 1,
    far: 3,
    side: &[1],
};

/// Whether a certificate has no entries.
fn has_no_paths(cert: &Cert) -> bool {
    match cert {
        Cert::Linked { .. } => true,
        Cert::Split(split) => split.pairs.as_slice().is_empty() && split.fans.as_slice().is_empty(),
    }
}

/// So many workers, who pass this gate, find the answer without paths, and this watcher is told.
fn outlined<R: Threads + Sync, G: Gate, W: Watcher>(
    rt: &R,
    alloc: Global,
    row: &Row,
    count: u32,
    gate: &G,
    watcher: &mut W,
) -> Result<bool, Fail> {
    let workers = crew_of(count)?;
    let graph = of_size(alloc, row.family, row.nodes)?;
    let group = graph.nodes();
    let outline = outline_group_watched(rt, alloc, &graph, group, workers, gate, watcher)?;
    Ok(gives(&outline, row) && has_no_paths(&outline))
}

/// The levels that pay get two workers, which meet.
#[test]
fn a_level_that_pays_gets_two_workers_without_paths(rt: HostRuntime) -> Result<(), Fail> {
    let meeting = Meeting::new();
    let mut opening = Opening { meeting: &meeting };
    let is_found = outlined(&rt, rt.alloc(), &TWO_SIDES, 2, &meeting, &mut opening)?;
    assert!(rt; is_found && meeting.saw_both());
    Ok(())
}

/// Of levels that do not pay, each gets one worker.
#[test]
fn a_level_that_does_not_pay_gets_one_worker_without_paths(rt: HostRuntime) -> Result<(), Fail> {
    let gate = Holding::new();
    let is_found = outlined(&rt, rt.alloc(), &PETERSEN, 4, &gate, &mut Unwatched)?;
    assert!(rt; is_found && gate.saw_one() && !gate.saw_another());
    Ok(())
}

/// A watcher is told of each level with its size, and by one worker of further pieces too.
#[test]
fn each_level_is_told_without_paths(rt: HostRuntime) -> Result<(), Fail> {
    for count in [1, 2] {
        for row in [&PETERSEN, &RING] {
            let mut levels = Levels::new(row.members);
            let is_found = outlined(&rt, rt.alloc(), row, count, &OpenGate, &mut levels)?;
            assert!(rt; is_found && levels.were_told_by(count));
        }
    }
    Ok(())
}

/// Keeps the levels whose beginnings it is told of, in turn, by a digit each.
#[derive(Drop)]
struct Digits {
    levels: u64,
}

impl Watcher for Digits {
    fn sees(&mut self, level: usize, place: usize, _size: usize) {
        if place == 0 {
            self.levels = self.levels.saturating_mul(10).saturating_add(level as u64);
        }
    }
}

/// The number of a large graph is found on a copy with other ids, at whose level 3 a piece has a cut. Then level 3 of
/// the graph is tried, so that the answer has the cut that it has with paths.
#[test]
fn a_long_ring_has_the_same_cut_without_paths(rt: HostRuntime) -> Result<(), Fail> {
    for count in [1, 4] {
        let mut told = Digits { levels: 0 };
        let is_found = outlined(&rt, rt.alloc(), &LONG_RING, count, &OpenGate, &mut told)?;
        assert!(rt; is_found && told.levels == 1233, "levels {}", told.levels);
    }
    assert!(rt; find_watched(&rt, rt.alloc(), &LONG_RING, 4, &OpenGate, &mut Unwatched)?);
    Ok(())
}
