//! The sections of a block, each with lines in a thread of its own.
ghost use Rattle.std.specs.Prelude.{◌≡◌, ◌≤◌, ◌<◌, ◌+◌, [], length, map, vec_capacity, IfOk};
ghost use Rattle.ov_run_meaning.specs.Sections.{RunTogether, accepted_in, refused_in};
ghost use Rattle.ov_run.specs.Code.Jobs.{HaveRun, jobs_of, joined};

use crate::hall_outside_sections::RunHall;
use crate::line_outcome::{ToldLine, count_accepted};
use crate::section_jobs_by_thread::{Shift, in_one_list, run_shift, run_shifts, shifts_of};
use crate::section_running::{Job, Ran, Section};
use ov_hall::{Hall, HallName, Pass};
use ov_ids::{OutOfMemory, Seq};
use ov_scenario::SectionLine;
use std::alloc::Global;
use std::sync::Wait;
use std::thread::Threads;

/// What came of a block: the hall after it, what is told of the lines of each section, and how many of all lines were
/// accepted and how many refused.
#[derive(Drop)]
pub struct BlockRan<'a, N: HallName> {
    pub hall: RunHall<N>,
    pub told: Seq<Seq<ToldLine<'a>>>,
    pub accepted: u128,
    pub refused: u128,
}

/// Runs section i by driver i, all at once: each section that has lines in a thread of its own, or, if no other one has
/// lines, in this thread. The room for what is told of the lines is made before any line runs, and the box of the hall
/// anew after them. Out of memory ends the hall, since the passes are dropped then.
pub fn run_together<'a, N: HallName + Send + Sync, T: Threads + Wait + Sync>(
    rt: &T,
    alloc: Global,
    hall: RunHall<N>,
    sections: Vec<Seq<SectionLine<'a>>>,
) -> Result<BlockRan<'a, N>, OutOfMemory>
    requires enough { length sections.items ≤ N.drivers }
    ensures ran { IfOk result (λ r. RunTogether hall sections.entry.items r.hall (joined r.told)) }
    ensures accepted { IfOk result (λ r. r.accepted ≡ accepted_in (joined r.told)) }
    ensures refused { IfOk result (λ r. r.refused ≡ refused_in (joined r.told)) }
{
    let Ok((hall, passes)) = hall.into_inner().part(alloc) else {
        return Err(OutOfMemory);
    };
    let jobs = jobs_of(alloc, passes, sections)?;
    let back = Vec::with_capacity(alloc, jobs.len())?;
    let told = Vec::with_capacity(alloc, jobs.len())?;
    let ran = run_jobs(rt, alloc, &hall, jobs)?;
    let (back, told) = sorted_out(ran, back, told);
    let (accepted, refused) = counted(&told);
    let hall = RunHall::of(alloc, hall.unite(back))?;
    Ok(BlockRan {
        hall,
        told: Seq::new(told),
        accepted,
        refused,
    })
}

/// The job of each driver: its pass, and its section. A driver without a section has no line to run.
fn jobs_of<'a, N: HallName>(
    alloc: Global,
    passes: Vec<Pass<N>>,
    sections: Vec<Seq<SectionLine<'a>>>,
) -> Result<Vec<Job<'a, N>>, OutOfMemory>
    ensures { IfOk result (λ jobs. jobs.items ≡ jobs_of passes.items sections.entry.items) }
{
    let mut jobs = Vec::with_capacity(alloc, passes.len())?;
    let mut left = sections.into_iter();
    for pass in passes {
        let lines = left.next().unwrap_or(Seq::new(Vec::new(alloc)));
        let section = Section::new(alloc, lines)?;
        jobs.push_reserved((pass, section));
    }
    Ok(jobs)
}

/// Does each job. If two of them have lines, those with lines are done at once, each in a thread of its own, in which
/// the jobs without lines that follow it are done too; otherwise all are done here, and no thread is started. Returns
/// the results in order.
fn run_jobs<'a, N: HallName + Send + Sync, T: Threads + Wait + Sync>(
    rt: &T,
    alloc: Global,
    hall: &Hall<N>,
    jobs: Vec<Job<'a, N>>,
) -> Result<Vec<Ran<'a, N>>, OutOfMemory>
    ensures { IfOk result (λ ran. HaveRun N.params jobs.entry.items ran.items) }
{
    if !have_two_with_lines(&jobs) {
        let shift = Shift::new(alloc, jobs)?;
        return Ok(run_shift(rt, alloc, hall, shift));
    }
    run_at_once(rt, alloc, hall, jobs)
}

/// Whether two of these jobs, or more, have lines.
fn have_two_with_lines<N: HallName>(jobs: &[Job<'_, N>]) -> bool {
    let mut with_lines = jobs.iter().filter(|job| !job.1.is_empty());
    with_lines.nth(1).is_some()
}

/// Does the jobs with lines at once, each in a thread of its own. Returns the results in order.
fn run_at_once<'a, N: HallName + Send + Sync, T: Threads + Wait + Sync>(
    rt: &T,
    alloc: Global,
    hall: &Hall<N>,
    jobs: Vec<Job<'a, N>>,
) -> Result<Vec<Ran<'a, N>>, OutOfMemory>
    ensures { IfOk result (λ ran. HaveRun N.params jobs.entry.items ran.items) }
{
    let room = Vec::with_capacity(alloc, jobs.len())?;
    let shifts = shifts_of(alloc, jobs)?;
    let done = run_shifts(rt, alloc, hall, shifts)?;
    Ok(in_one_list(done, room))
}

/// The passes of all drivers, and what is told of the lines of each. Both go where there is room for them.
fn sorted_out<'a, N: HallName>(
    ran: Vec<Ran<'a, N>>,
    mut passes: Vec<Pass<N>>,
    mut told: Vec<Seq<ToldLine<'a>>>,
) -> (Vec<Pass<N>>, Vec<Seq<ToldLine<'a>>>)
    requires empty { (passes.items ≡ []) × (told.items ≡ []) }
    requires room { (length ran.items ≤ vec_capacity passes) × (length ran.items ≤ vec_capacity told) }
    ensures passes { result.0.items ≡ map (λ x. x.0) ran.entry.items }
    ensures told { result.1.items ≡ map (λ x. x.1) ran.entry.items }
{
    for (pass, own) in ran {
        passes.push_reserved(pass);
        told.push_reserved(own);
    }
    (passes, told)
}

/// How many of all these lines were accepted, and how many refused.
fn counted(told: &[Seq<ToldLine<'_>>]) -> (u128, u128)
    ensures accepted { result.0 ≡ accepted_in (joined told.now) }
    ensures refused { result.1 ≡ refused_in (joined told.now) }
{
    let mut accepted = 0u128;
    let mut refused = 0u128;
    for own in told {
        let lines = own.as_slice();
        let done = count_accepted(lines);
        accepted = with_own(accepted, done);
        refused = with_own(refused, lines.len() - done);
    }
    (accepted, refused)
}

/// A number of lines, and those of one section more.
fn with_own(sum: u128, own: usize) -> u128
    requires { sum + 18446744073709551616 ≤ 340282366920938463463374607431768211456 }
    ensures sum { result ≡ sum + own }
    ensures few { own < 18446744073709551616 }
{
    sum + own as u128
}
