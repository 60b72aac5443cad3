ghost use Rattle.std.specs.Iterator.{IsFinite};
ghost use Rattle.ov_sweep.specs.Sweeps.{AreSwept, IsSweepOf};

use crate::overlay_batch_growing::{GrownBatch, grow_batch};
use crate::sweep_fault::SweepFault;
use ov_grow_options::GrowOptions;
use ov_ids::Workers;
use ov_sweep_rows::{Measures, Row};
use std::alloc::Global;
use std::thread::Threads;

/// How many runs the first batch has for each worker. Each later batch has twice as many as the one before, up to
/// `MOST_RUNS`: so the first rows come soon, and workers seldom wait for the last run of a batch. (Chosen here.)
const FIRST_RUNS: usize = 16;

/// How many runs a batch has for each worker, at most: an end by a signal loses the batch that is being grown. (Chosen
/// here.)
const MOST_RUNS: usize = 32;

/// Takes the rows of a sweep. `taken` are the rows that it has taken so far, if its value says them.
pub trait RowTaker {
    ghost use Rattle.std.specs.Prelude.{List, Option};
    ghost use Rattle.ov_sweep.specs.Sweeps.{WereGiven};
    ghost use Rattle.ov_sweep_rows.specs.declared.row.Row.{Row};

    ghost taken: { Self → Option (List Row) };

    /// Takes the rows of the next runs, in the order of the runs, or the first ones of them if it ends with a fault.
    fn take(&mut self, rows: &[Row]) -> Result<(), SweepFault>
        ensures { WereGiven rows.now (taken self.old) (taken self.new) result };
}

/// Grows an overlay with the options of each of these runs by these workers, batch by batch, measures what is asked
/// for, and has the rows of each batch taken before the next one begins. The first run that is refused ends the sweep,
/// after the rows before it were taken.
///
/// Run (see `GrowFault`): a run was refused. Write (72): the rows were not taken. OutOfMemory (99): an allocation was
/// refused.
pub fn sweep<R: Threads + Sync, I: Iterator<Item = GrowOptions> + Drop, T: RowTaker>(
    rt: &R,
    alloc: Global,
    runs: I,
    workers: Workers,
    measures: Measures,
    taker: &mut T,
) -> Result<(), SweepFault>
    requires can { I.can_next runs }
    requires ends { IsFinite (I.remaining runs) }
    ensures { IsSweepOf measures I.next_gives runs (T.taken taker.old) (T.taken taker.new) result }
{
    let most = workers.count() as usize * MOST_RUNS;
    let mut size = workers.count() as usize * FIRST_RUNS;
    let mut batch = Vec::new(alloc);
    for options in runs {
        batch.push(options)?;
        if batch.len() >= size {
            sweep_batch(rt, alloc, &batch, workers, measures, taker)?;
            batch.clear();
            size = size.saturating_mul(2).min(most);
        }
    }
    if batch.is_empty() {
        return Ok(());
    }
    sweep_batch(rt, alloc, &batch, workers, measures, taker)
}

/// Grows an overlay with each of these options, and has their rows taken.
fn sweep_batch<R: Threads + Sync, T: RowTaker>(
    rt: &R,
    alloc: Global,
    batch: &[GrowOptions],
    workers: Workers,
    measures: Measures,
    taker: &mut T,
) -> Result<(), SweepFault>
    ensures { AreSwept measures batch.now (T.taken taker.old) (T.taken taker.new) result }
{
    let GrownBatch { rows, refused } = grow_batch(rt, alloc, batch, workers, measures)?;
    taker.take(&rows)?;
    match refused {
        Some(refused) => Err(SweepFault::Run(refused)),
        None => Ok(()),
    }
}
