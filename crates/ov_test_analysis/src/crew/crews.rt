//! Analyses by several workers, and a board.
use crate::crew::gates::{Counting, Holding, Meeting, Opening};
use crate::crew::graphs::{Family, of_size};
use ov_board::Board;
use ov_cert::{Cert, Checked};
use ov_crew::{Gate, OpenGate, analyse, analyse_group, analyse_group_watched, work};
use ov_even::{
    AnalyseFault, Unwatched, Watcher, analyse_alone, analyse_group_alone, assemble,
    settle_group_watched, total,
};
use ov_graph::Graph;
use ov_ids::{NodeId, OutOfMemory, Workers};
use std::alloc::Global;
use std::test::Fail;
use std::thread::Threads;

/// A graph, and the answer for a group of its first nodes: a split, or linked where the cut is empty.
pub(crate) struct Row {
    pub(crate) family: Family,
    pub(crate) nodes: u32,
    /// How many nodes are members.
    pub(crate) members: usize,
    pub(crate) k: u32,
    pub(crate) cut: &'static [u32],
    pub(crate) near: u32,
    pub(crate) far: u32,
    pub(crate) side: &'static [u32],
}

pub(crate) static PETERSEN: Row = Row {
    family: Family::Petersen,
    nodes: 10,
    members: 10,
    k: 3,
    cut: &[2, 5, 6],
    near: 1,
    far: 3,
    side: &[1],
};

pub(crate) static RING: Row = Row {
    family: Family::Ring,
    nodes: 200,
    members: 200,
    k: 8,
    cut: &[2, 3, 4, 5, 197, 198, 199, 200],
    near: 1,
    far: 6,
    side: &[1],
};

/// The certificate has so many paths that several threads name them.
pub(crate) static TWO_SIDES: Row = Row {
    family: Family::TwoSides,
    nodes: 80,
    members: 80,
    k: 40,
    cut: &[
        2, 4, 6, 8, 10, 12, 14, 16, 18, 20, 22, 24, 26, 28, 30, 32, 34, 36, 38, 40, 42, 44, 46, 48,
        50, 52, 54, 56, 58, 60, 62, 64, 66, 68, 70, 72, 74, 76, 78, 80,
    ],
    near: 1,
    far: 3,
    side: &[1],
};

/// Each of five nodes is linked to each.
static LINKED: Row = Row {
    family: Family::All,
    nodes: 5,
    members: 5,
    k: 4,
    cut: &[],
    near: 0,
    far: 0,
    side: &[],
};

/// More nodes than a graph of rows of bits has. The others have three paths to three of those before them, and are not
/// linked to each other: so the fan of node 5 is the first piece that does not have four.
pub(crate) static HUBS: Row = Row {
    family: Family::Hubs,
    nodes: 1_100,
    members: 1_100,
    k: 3,
    cut: &[1, 2, 3],
    near: 5,
    far: 4,
    side: &[5],
};

/// Five of these nodes are the group. The answer is the same.
pub(crate) static FEW_OF_HUBS: Row = Row {
    family: Family::Hubs,
    nodes: 1_100,
    members: 5,
    k: 3,
    cut: &[1, 2, 3],
    near: 5,
    far: 4,
    side: &[5],
};

/// The ids have these numbers.
fn are(ids: &[NodeId], numbers: &[u32]) -> bool {
    for (id, number) in ids.iter().zip(numbers) {
        if id.0 != *number {
            return false;
        }
    }
    ids.len() == numbers.len()
}

/// The certificate gives the answer.
pub(crate) fn gives(cert: &Cert, row: &Row) -> bool {
    let split = match cert {
        Cert::Linked { k } => return *k == row.k && row.cut.is_empty(),
        Cert::Split(split) => split,
    };
    split.k == row.k
        && split.near.0 == row.near
        && split.far.0 == row.far
        && are(split.cut.as_slice(), row.cut)
        && are(split.side.as_slice(), row.side)
}

/// So many workers.
pub(crate) fn crew_of(count: u32) -> Result<Workers, Fail> {
    Ok(Workers::new(count).ok_or("a number of workers")?)
}

/// So many workers find the answer, and pass this gate.
fn find<R: Threads + Sync, G: Gate>(
    rt: &R,
    alloc: Global,
    row: &Row,
    count: u32,
    gate: &G,
) -> Result<bool, Fail> {
    let workers = crew_of(count)?;
    let graph = of_size(alloc, row.family, row.nodes)?;
    let checked = analyse(rt, alloc, &graph, workers, gate)?;
    Ok(gives(checked.cert(), row))
}

/// Counts how often it is told of the beginning of a level, and of other places, for a group of so many members.
#[derive(Drop)]
pub(crate) struct Levels {
    members: usize,
    begun: u64,
    others: u64,
    /// Each level has been told with its size, and each place is one of its level.
    is_right: bool,
}

impl Levels {
    /// Of a group of so many members, before anything is told.
    pub(crate) fn new(members: usize) -> Levels {
        Levels {
            members,
            begun: 0,
            others: 0,
            is_right: true,
        }
    }

    /// Whether each level was told with its size, and by so many workers: one tells further pieces too.
    pub(crate) fn were_told_by(&self, count: u32) -> bool {
        self.is_right && self.begun > 0 && (self.others > 0) == (count == 1)
    }
}

/// The number of pieces of a level: a pair for every two of the first `level` members, and a fan for each later one.
fn level_size(members: usize, level: usize) -> usize {
    let pairs = level.saturating_mul(level.saturating_sub(1)) / 2;
    pairs.saturating_add(members.saturating_sub(level))
}

impl Watcher for Levels {
    fn sees(&mut self, level: usize, place: usize, size: usize) {
        if place >= size || size != level_size(self.members, level) {
            self.is_right = false;
        }
        if place == 0 {
            self.begun = self.begun.saturating_add(1);
        } else {
            self.others = self.others.saturating_add(1);
        }
    }
}

/// So many workers, who pass this gate, find the answer, and this watcher is told.
pub(crate) fn find_watched<R: Threads + Sync, G: Gate, W: Watcher>(
    rt: &R,
    alloc: Global,
    row: &Row,
    count: u32,
    gate: &G,
    watcher: &mut W,
) -> Result<bool, Fail> {
    let workers = crew_of(count)?;
    let graph = of_size(alloc, row.family, row.nodes)?;
    let group = graph.nodes().get(..row.members).ok_or("the members")?;
    let checked = analyse_group_watched(rt, alloc, &graph, group, workers, gate, watcher)?;
    Ok(gives(checked.cert(), row))
}

/// So many workers find the answer, and a watcher is told of each level with its size, and by one worker of further
/// pieces too. They find it without a watcher as well.
fn find_both_ways<R: Threads + Sync>(
    rt: &R,
    alloc: Global,
    row: &Row,
    count: u32,
) -> Result<bool, Fail> {
    let mut levels = Levels::new(row.members);
    let is_found = find_watched(rt, alloc, row, count, &OpenGate, &mut levels)?;
    Ok(is_found && levels.were_told_by(count) && find(rt, alloc, row, count, &OpenGate)?)
}

#[test]
fn the_same_for_1_2_5_and_64_workers(rt: HostRuntime) -> Result<(), Fail> {
    for count in [1, 2, 5, 64] {
        for row in [&PETERSEN, &RING, &TWO_SIDES, &HUBS] {
            assert!(rt; find_both_ways(&rt, rt.alloc(), row, count)?);
        }
    }
    Ok(())
}

#[test]
fn two_workers_meet(rt: HostRuntime) -> Result<(), Fail> {
    let gate = Meeting::new();
    gate.open();
    let is_found = find(&rt, rt.alloc(), &PETERSEN, 2, &gate)?;
    assert!(rt; is_found && gate.saw_both());
    Ok(())
}

/// Of an analysis that hires sparingly, the levels that pay get two workers, which meet.
#[test]
fn a_level_that_pays_gets_two_workers(rt: HostRuntime) -> Result<(), Fail> {
    for row in [&TWO_SIDES, &HUBS] {
        let meeting = Meeting::new();
        let mut opening = Opening { meeting: &meeting };
        let is_found = find_watched(&rt, rt.alloc(), row, 2, &meeting, &mut opening)?;
        assert!(rt; is_found && meeting.saw_both());
    }
    Ok(())
}

/// Of an analysis that hires sparingly, no level of the Petersen graph pays a second worker, nor one of few members of
/// a large graph.
#[test]
fn a_level_that_does_not_pay_gets_one_worker(rt: HostRuntime) -> Result<(), Fail> {
    for row in [&PETERSEN, &FEW_OF_HUBS] {
        let gate = Holding::new();
        let is_found = find_watched(&rt, rt.alloc(), row, 4, &gate, &mut Unwatched)?;
        assert!(rt; is_found && gate.saw_one() && !gate.saw_another());
    }
    Ok(())
}

/// The pieces of the Petersen graph before the one that decides: 9 of level 1, 9 of level 2, 10 of level 3, and of
/// level 4 the pair of nodes 1 and 2, which are linked. Nodes 1 and 3 are not, and have 3 paths.
const BEFORE_THE_CUT: u64 = 29;

/// One worker at a board of all pieces settles those before the cut, and the one with the cut, and ends.
fn works_up_to_the_cut(alloc: Global) -> Result<bool, Fail> {
    let graph = of_size(alloc, PETERSEN.family, PETERSEN.nodes)?;
    if graph.nodes().is_empty() {
        return Ok(false);
    }
    let (board, mut seats) = Board::new(alloc, total(graph.nodes().len()), Workers::ONE)?;
    let Some(seat) = seats.pop() else {
        return Ok(false);
    };
    let (haul, seat) = work(alloc, &board, &graph, seat, &OpenGate);
    let settled = haul?.pieces.len() as u64;
    seats.push(seat)?;
    Ok(settled == BEFORE_THE_CUT + 1 && board.close(seats) == BEFORE_THE_CUT)
}

#[test]
fn a_worker_ends_at_the_cut(rt: HostRuntime) -> Result<(), Fail> {
    assert!(rt; works_up_to_the_cut(rt.alloc())?);
    Ok(())
}

/// Of the Petersen graph the cut for nodes 1 and 3 is that for all: the neighbours of node 1. Two workers find it, and
/// one thread.
#[test]
fn two_nodes_are_a_group(rt: HostRuntime) -> Result<(), Fail> {
    let graph = of_size(rt.alloc(), PETERSEN.family, PETERSEN.nodes)?;
    let group = [NodeId(1), NodeId(3)];
    let checked = analyse_group(&rt, rt.alloc(), &graph, &group, crew_of(2)?, &OpenGate)?;
    assert!(&rt; gives(checked.cert(), &PETERSEN));
    let alone = analyse_group_alone(rt.alloc(), &graph, &group)?;
    assert!(&rt; gives(alone.cert(), &PETERSEN));
    Ok(())
}

#[test]
fn one_thread_without_a_board(rt: HostRuntime) -> Result<(), Fail> {
    for row in [&PETERSEN, &RING, &LINKED] {
        let graph = of_size(rt.alloc(), row.family, row.nodes)?;
        let checked = analyse_alone(rt.alloc(), &graph)?;
        assert!(rt; gives(checked.cert(), row));
    }
    Ok(())
}

/// The answer that is put together of the pieces which one thread has settled.
fn put_together(alloc: Global, graph: &Graph) -> Result<Checked, AnalyseFault> {
    let hauls = settle_group_watched(alloc, graph, graph.nodes(), &mut Unwatched)?;
    assemble(alloc, graph, &hauls)
}

#[test]
fn settled_pieces_are_put_together(rt: HostRuntime) -> Result<(), Fail> {
    for row in [&LINKED, &PETERSEN, &RING] {
        let graph = of_size(rt.alloc(), row.family, row.nodes)?;
        let checked = put_together(rt.alloc(), &graph)?;
        assert!(rt; gives(checked.cert(), row));
    }
    Ok(())
}

/// The one worker of a board without numbers is given number 0 and has ended, and none has failed.
fn ends_at_once(alloc: Global) -> Result<bool, OutOfMemory> {
    let (board, mut seats) = Board::new(alloc, 0, Workers::ONE)?;
    let Some(seat) = seats.pop() else {
        return Ok(false);
    };
    let (number, seat) = board.claim(seat);
    seats.push(seat)?;
    Ok(number == 0 && board.close(seats) == 0)
}

#[test]
fn a_board_without_numbers(rt: HostRuntime) -> Result<(), Fail> {
    let gate = Counting::new();
    let is_done = ends_at_once(rt.alloc())? && find(&rt, rt.alloc(), &LINKED, 2, &gate)?;
    assert!(rt; is_done && gate.count() == 0);
    Ok(())
}
