//! The analysis of a graph and a group by several workers, each in a thread of its own.
ghost use Rattle.std.specs.Prelude.{◌≡◌, ℕ, length, All, IfOk, IfErr, true};
ghost use Rattle.ov_graph.specs.Links.{IsGroup};
ghost use Rattle.ov_even.specs.Answer.{IsAnalysed, IsCheckedAnswer};
ghost use Rattle.ov_even.specs.Hauls.{AreRight, IsSettledGroup, Suffice, SufficeKeeping};
ghost use Rattle.ov_even.specs.Levels.{AreFirstDone, AreNumbersBehind, IsTried};
ghost use Rattle.ov_even.specs.declared.fault.AnalyseFault.TheVariants.{OutOfMemory as out_of_memory};
ghost use Rattle.ov_crew.specs.Code.Crews.{IsNewAt, IsRange, HasWorked, outcomes};

use crate::hook_after_claim::Gate;
use crate::parallel_paths_by_ids::name_by_crew;
use crate::threads_by_amount_of_work::Hiring;
use crate::worker::work_range_keeping;
use ov_board::{Board, Seat};
use ov_cert::{Checked, are_all_linked};
use ov_even::{
    AnalyseFault, Haul, Keeping, LevelNumbers, LevelSearch, Searched, Unwatched, Watcher,
    analyse_group_watched as analyse_by_one, assemble_named, judge_group, level_numbers,
    settle_group_watched as settle_by_one, wanted_paths,
};
use ov_graph::Graph;
use ov_ids::{NodeId, OutOfMemory, Workers};
use std::alloc::Global;
use std::thread;
use std::thread::Threads;

/// Analyses a graph for the group of all nodes. See `analyse_group`.
pub fn analyse<R: Threads + Sync, G: Gate>(
    rt: &R,
    alloc: Global,
    graph: &Graph,
    workers: Workers,
    gate: &G,
) -> Result<Checked, AnalyseFault>
    ensures analysed { IsAnalysed graph.now graph.now.nodes result }
{
    analyse_group(rt, alloc, graph, graph.nodes(), workers, gate)
}

/// Finds the fewest node crashes that split a group, and a certificate that proves the number (Even, SIAM J. Comput. 4,
/// 1975). There are 1 to 64 workers, each in a thread of its own. All of them try each level, and each passes the gate
/// with each number that it claims. Faults, in this order: NoNodes (30), the graph has no node; BadGroup (34), the
/// members are no group. OutOfMemory (99) is returned only if neither applies.
pub fn analyse_group<R: Threads + Sync, G: Gate>(
    rt: &R,
    alloc: Global,
    graph: &Graph,
    group: &[NodeId],
    workers: Workers,
    gate: &G,
) -> Result<Checked, AnalyseFault>
    ensures analysed { IsAnalysed graph.now group.now result }
{
    let hiring = Hiring {
        workers,
        sparing: false,
    };
    analyse_by(rt, alloc, graph, group, &hiring, gate, &mut Unwatched)
}

/// Does what `analyse_group` does, but a level with few paths gets fewer workers. The watcher sees each level before it
/// is tried, with place 0. One worker works in the caller's thread and passes no gate, and the watcher then sees each
/// piece.
pub fn analyse_group_watched<R: Threads + Sync, G: Gate, W: Watcher>(
    rt: &R,
    alloc: Global,
    graph: &Graph,
    group: &[NodeId],
    workers: Workers,
    gate: &G,
    watcher: &mut W,
) -> Result<Checked, AnalyseFault>
    ensures analysed { IsAnalysed graph.now group.now result }
{
    if workers == Workers::ONE {
        return analyse_by_one(alloc, graph, group, watcher);
    }
    let hiring = Hiring {
        workers,
        sparing: true,
    };
    analyse_by(rt, alloc, graph, group, &hiring, gate, watcher)
}

/// The analysis by these workers.
fn analyse_by<R: Threads + Sync, G: Gate, W: Watcher>(
    rt: &R,
    alloc: Global,
    graph: &Graph,
    group: &[NodeId],
    hiring: &Hiring,
    gate: &G,
    watcher: &mut W,
) -> Result<Checked, AnalyseFault>
    ensures analysed { IsAnalysed graph.now group.now result }
{
    let mut hauls = settle_by(rt, alloc, graph, group, hiring, gate, watcher)?;
    let answer = assembled(rt, alloc, graph, group, &hauls, hiring);
    clear_by_crew(rt, &mut hauls, hiring.workers);
    answer
}

/// Does what `settle_group_watched` of `ov_even` does, by these workers. A level with few paths gets fewer workers. The
/// watcher sees each level before it is tried, with place 0. One worker works in the caller's thread and passes no
/// gate, and the watcher then sees each piece.
pub fn settle_group_watched<R: Threads + Sync, G: Gate, W: Watcher>(
    rt: &R,
    alloc: Global,
    graph: &Graph,
    group: &[NodeId],
    workers: Workers,
    gate: &G,
    watcher: &mut W,
) -> Result<Vec<Haul>, AnalyseFault>
    ensures settled { IsSettledGroup graph.now group.now result }
{
    if workers == Workers::ONE {
        return settle_by_one(alloc, graph, group, watcher);
    }
    let hiring = Hiring {
        workers,
        sparing: true,
    };
    settle_by(rt, alloc, graph, group, &hiring, gate, watcher)
}

/// The settling by these workers.
fn settle_by<R: Threads + Sync, G: Gate, W: Watcher>(
    rt: &R,
    alloc: Global,
    graph: &Graph,
    group: &[NodeId],
    hiring: &Hiring,
    gate: &G,
    watcher: &mut W,
) -> Result<Vec<Haul>, AnalyseFault>
    ensures settled { IsSettledGroup graph.now group.now result }
{
    judge_group(graph, group)?;
    Ok(enough(rt, alloc, graph, group, hiring, gate, watcher)?)
}

/// Drops the pieces of these hauls, in as many threads as there are workers. On dense graphs their paths take hundreds
/// of megabytes.
fn clear_by_crew<R: Threads + Sync>(rt: &R, hauls: &mut [Haul], workers: Workers) {
    let clear = |_place: usize, haul: &mut Haul| haul.pieces.clear();
    thread::for_each_mut(rt, hauls, workers.count() as usize, &clear);
}

/// Makes the certificate of these hauls. Several threads name its paths.
fn assembled<R: Threads + Sync>(
    rt: &R,
    alloc: Global,
    graph: &Graph,
    group: &[NodeId],
    hauls: &[Haul],
    hiring: &Hiring,
) -> Result<Checked, AnalyseFault>
    requires group { IsGroup graph.now group.now }
    requires suffice { Suffice graph.now group.now hauls.now }
    ensures answer { IfOk result (λ c. IsCheckedAnswer graph.now group.now c) }
    ensures refused { IfErr result (λ fault. fault ≡ out_of_memory) }
{
    let found = wanted_paths(alloc, graph, group, hauls)?;
    let named = name_by_crew(rt, alloc, graph, group, &found, hiring)?;
    assemble_named(alloc, graph, group, hauls, named)
}

/// Settles enough pieces: none if every two members are linked.
fn enough<R: Threads + Sync, G: Gate, W: Watcher>(
    rt: &R,
    alloc: Global,
    graph: &Graph,
    group: &[NodeId],
    hiring: &Hiring,
    gate: &G,
    watcher: &mut W,
) -> Result<Vec<Haul>, OutOfMemory>
    requires { IsGroup graph.now group.now }
    ensures { IfOk result (λ hauls. Suffice graph.now group.now hauls.items) }
{
    if are_all_linked(graph, group) {
        return Ok(Vec::new(alloc));
    }
    let begun = LevelSearch::new(alloc, graph, group, Keeping::EachPiece);
    search(rt, alloc, graph, group, begun, hiring, gate, watcher)
}

/// Settles pieces of the levels that this search tries, until what is kept of them suffices.
pub(crate) fn search<'a, R: Threads + Sync, G: Gate, W: Watcher>(
    rt: &R,
    alloc: Global,
    graph: &'a Graph,
    group: &'a [NodeId],
    begun: LevelSearch<'a>,
    hiring: &Hiring,
    gate: &G,
    watcher: &mut W,
) -> Result<Vec<Haul>, OutOfMemory>
    requires group { IsGroup graph.now group.now }
    requires graph { begun.search.graph ≡ graph.now }
    requires members { begun.search.members ≡ group.now }
    ensures { IfOk result (λ hauls. SufficeKeeping begun.entry.keeping graph.now group.now hauls.items) }
{
    let keeping = begun.keeping();
    let mut levels = begun;
    loop {
        let level = levels.level();
        let done = levels.done();
        let numbers = level_numbers(graph.nodes().len(), group.len(), level, done);
        let place = numbers.before as usize;
        watcher.sees(level, place, place + numbers.size as usize);
        let workers = hiring.workers_for(graph, group, level);
        let hauls = try_level(rt, alloc, graph, group, numbers, workers, keeping, gate)?;
        match levels.take(hauls)? {
            Searched::Enough(hauls) => return Ok(hauls),
            Searched::Again(next) => levels = next,
        }
    }
}

/// These workers try the level with these numbers. Faults: out of memory, if any worker is out of memory.
fn try_level<R: Threads + Sync, G: Gate>(
    rt: &R,
    alloc: Global,
    graph: &Graph,
    group: &[NodeId],
    numbers: LevelNumbers,
    workers: Workers,
    keeping: Keeping,
    gate: &G,
) -> Result<Vec<Haul>, OutOfMemory>
    requires group { IsGroup graph.now group.now }
    requires range { IsRange graph.now group.now numbers.first numbers.size }
    ensures right { IfOk result (λ hauls. AreRight graph.now group.now hauls.items) }
    ensures tried { (level done : ℕ) → AreFirstDone keeping graph.now group.now level done
        → AreNumbersBehind (length graph.now.nodes) (length group.now) done level numbers.first numbers.size
        → IfOk result (λ hauls. IsTried keeping graph.now group.now hauls.items level) }
{
    let (board, seats) = Board::new(alloc, numbers.size, workers)?;
    let done = run(
        rt,
        &board,
        graph,
        group,
        numbers.first,
        seats,
        keeping,
        gate,
    )?;
    let (hauls, seats) = gather(alloc, done)?;
    board.close(seats);
    Ok(hauls)
}

/// What a worker returns.
type Outcome = (Result<Haul, OutOfMemory>, Seat);

/// Lets the workers of the seats work, each in a thread of its own. Returns what they return.
fn run<R: Threads + Sync, G: Gate>(
    rt: &R,
    board: &Board,
    graph: &Graph,
    group: &[NodeId],
    first: u64,
    seats: Vec<Seat>,
    keeping: Keeping,
    gate: &G,
) -> Result<Vec<Outcome>, OutOfMemory>
    requires group { IsGroup graph.now group.now }
    requires range { IsRange graph.now group.now first board.now.total }
    requires new { All (IsNewAt board.now) seats.items }
    ensures count { IfOk result (λ done. length done.items ≡ length seats.items) }
    ensures each { IfOk result (λ done. All (HasWorked keeping graph.now group.now first board.now) done.items) }
{
    let alloc = *seats.allocator();
    let work = |seat: Seat| -> (Result<Haul, OutOfMemory>, Seat)
        requires { IsNewAt board.now seat × IsGroup graph.now group.now
            × IsRange graph.now group.now first board.now.total }
        ensures { HasWorked keeping graph.entry.now group.entry.now first board.entry.now result }
    { work_range_keeping(alloc, board, graph, group, first, keeping, seat, gate) };
    Ok(thread::map_vec(rt, seats, &work)?)
}

/// The hauls and the seats of all workers. Faults: out of memory, if any worker is out of memory.
fn gather(alloc: Global, done: Vec<Outcome>) -> Result<(Vec<Haul>, Vec<Seat>), OutOfMemory>
    ensures same { IfOk result (λ r. done.items ≡ outcomes r.0.items r.1.items) }
    ensures count { IfOk result (λ r. length r.0.items ≡ length r.1.items) }
{
    let mut hauls = Vec::with_capacity(alloc, done.len())?;
    let mut seats = Vec::with_capacity(alloc, done.len())?;
    for (haul, seat) in done {
        hauls.push_reserved(haul?);
        seats.push_reserved(seat);
    }
    Ok((hauls, seats))
}
