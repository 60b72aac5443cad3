ghost use Rattle.std.specs.Prelude.{◌<◌, length, List, IfOk};
ghost use Rattle.ov_grow_options.specs.declared.options.GrowOptions.{GrowOptions as grow_options};
ghost use Rattle.ov_sweep.specs.Sweeps.{AreRowsOf, IsOutcomeAt};
ghost use Rattle.ov_sweep.specs.Code.Shares.{AreDone, AreShares};
ghost use Rattle.ov_sweep_rows.specs.declared.measures.Measures.{Measures as measured};

use crate::sweep_row_making::row_of;
use ov_grow::GrowFault;
use ov_grow_options::GrowOptions;
use ov_ids::{OutOfMemory, Workers};
use ov_sweep_rows::{Measures, Row};
use std::alloc::Global;
use std::sync::atomic::{AtomicUsize, Ordering};
use std::thread::{self, Threads};

/// A run that was refused.
#[derive(Clone, Copy, Debug, PartialEq, Eq)]
pub struct RefusedRun {
    /// The options of the run.
    pub options: GrowOptions,
    /// Why growing was refused.
    pub fault: GrowFault,
}

/// What came of a batch of runs.
#[derive(Drop)]
pub struct GrownBatch {
    /// The rows of the runs before the first that was refused, in the order of the runs.
    pub rows: Vec<Row>,
    /// The first run that was refused, if one was.
    pub refused: Option<RefusedRun>,
}

/// The row of a run, or why growing was refused.
type Outcome = Result<Row, GrowFault>;

/// A run that was done: its place in the batch, and what came of it.
type Done = (usize, Outcome);

/// Grows an overlay with each of these options, and measures what is asked for. Each worker does the next run that no
/// other has begun, until there is none. The rows are in the order of the options, by any number of workers. They end
/// before the first run that was refused. OutOfMemory (99) if an allocation was refused that is no run's.
pub fn grow_batch<R: Threads + Sync>(
    rt: &R,
    alloc: Global,
    batch: &[GrowOptions],
    workers: Workers,
    measures: Measures,
) -> Result<GrownBatch, OutOfMemory>
    ensures { IfOk result (λ grown. AreRowsOf measures batch.now grown.rows.items grown.refused) }
{
    let next = AtomicUsize::new(0);
    let work = |_worker: usize| -> Result<Vec<Done>, OutOfMemory>
        ensures { IfOk result (λ done. AreDone measures batch.entry.now done.items) }
    { do_runs(alloc, batch, measures, &next) };
    let shares = thread::map_indices(rt, alloc, workers.count() as usize, &work)?;
    put_together(alloc, batch, measures, shares)
}

/// Does runs of the batch: always the next one that nobody has begun.
fn do_runs(
    alloc: Global,
    batch: &[GrowOptions],
    measures: Measures,
    next: &AtomicUsize,
) -> Result<Vec<Done>, OutOfMemory>
    ensures { IfOk result (λ done. AreDone measures batch.now done.items) }
{
    let mut done = Vec::new(alloc);
    for _ in 0..batch.len() {
        let place = next.fetch_add(1, Ordering::Relaxed);
        if place >= batch.len() {
            return Ok(done);
        }
        done.push((place, row_of(alloc, &batch[place], measures)))?;
    }
    Ok(done)
}

/// The rows of all shares, in the order of the batch.
fn put_together(
    alloc: Global,
    batch: &[GrowOptions],
    measures: Measures,
    shares: Vec<Result<Vec<Done>, OutOfMemory>>,
) -> Result<GrownBatch, OutOfMemory>
    requires { AreShares measures batch.now shares.items }
    ensures { IfOk result (λ grown. AreRowsOf measures batch.now grown.rows.items grown.refused) }
{
    let mut done = gathered(alloc, shares)?;
    done.sort_unstable_by_key(|run: &Done| run.0);
    let mut rows = Vec::with_capacity(alloc, batch.len())?;
    for place in 0..batch.len() {
        match outcome_at(alloc, batch, measures, &done, place) {
            Ok(row) => rows.push(row)?,
            Err(fault) => {
                let options = batch[place];
                let refused = Some(RefusedRun { options, fault });
                return Ok(GrownBatch { rows, refused });
            }
        }
    }
    Ok(GrownBatch {
        rows,
        refused: None,
    })
}

/// The runs of all shares. Faults: out of memory, if a worker is out of memory.
fn gathered(
    alloc: Global,
    shares: Vec<Result<Vec<Done>, OutOfMemory>>,
) -> Result<Vec<Done>, OutOfMemory>
    ensures { (m : measured) (batch : List grow_options) → AreShares m batch shares.items
        → IfOk result (λ all. AreDone m batch all.items) }
{
    let mut all = Vec::new(alloc);
    for share in shares {
        let mut share = share?;
        all.append(&mut share)?;
    }
    Ok(all)
}

/// What came of the run at a place of the batch. It is that of the run at this place of those that were done, which are
/// in the order of the batch. No contract says that a counter gives each number, so a run that was not done is done
/// here.
fn outcome_at(
    alloc: Global,
    batch: &[GrowOptions],
    measures: Measures,
    done: &[Done],
    place: usize,
) -> Outcome
    requires done { AreDone measures batch.now done.now }
    requires place { place < length batch.now }
    ensures { IsOutcomeAt measures batch.now place result }
{
    if let Some((at, outcome)) = done.get(place) {
        if *at == place {
            return *outcome;
        }
    }
    row_of(alloc, &batch[place], measures)
}
