//! How the jobs of a block are given to threads: one thread for each section that has lines.
ghost use Rattle.std.specs.Prelude.{◌≡◌, ◌++◌, ◌∷◌, ◌+◌, ◌≤◌, [], flat_map, length, map, vec_capacity, IfOk, OnOk};
ghost use Rattle.ov_run.specs.Code.Jobs.{HaveAllRun, HaveRun};

use crate::section_running::{Job, Ran, run_section};
use ov_hall::{Hall, HallName};
use ov_ids::OutOfMemory;
use std::alloc::Global;
use std::mem::replace;
use std::sync::Wait;
use std::thread;
use std::thread::Threads;

/// Jobs that are done one after the other, with room for what comes of each.
#[derive(Drop)]
pub(crate) struct Shift<'a, N: HallName> {
    pub(crate) jobs: Vec<Job<'a, N>>,
    room: Vec<Ran<'a, N>>,
    ghost nothing_told: { room.items ≡ [] },
    ghost has_room: { length jobs.items ≤ vec_capacity room },
}

impl<'a, N: HallName> Shift<'a, N> {
    /// A shift of these jobs. The room is made here, so that no job that was done can lack it.
    pub(crate) fn new(alloc: Global, jobs: Vec<Job<'a, N>>) -> Result<Shift<'a, N>, OutOfMemory>
        ensures { IfOk result (λ shift. shift.jobs.items ≡ jobs.entry.items) }
    {
        let room = Vec::with_capacity(alloc, jobs.len())?;
        Ok(Shift { jobs, room })
    }
}

/// Does the jobs of a shift in order. Nothing is allocated for their results.
pub(crate) fn run_shift<'a, N: HallName, T: Threads + Wait + Sync>(
    rt: &T,
    alloc: Global,
    hall: &Hall<N>,
    shift: Shift<'a, N>,
) -> Vec<Ran<'a, N>>
    ensures { HaveRun N.params shift.entry.jobs.items result.items }
{
    let Shift { jobs, room } = shift;
    let mut done = room;
    for job in jobs {
        done.push_reserved(run_section(rt, alloc, hall, job));
    }
    done
}

/// Does each shift in a thread of its own. Returns what came of the jobs of each, in order.
pub(crate) fn run_shifts<'a, N: HallName + Send + Sync, T: Threads + Wait + Sync>(
    rt: &T,
    alloc: Global,
    hall: &Hall<N>,
    shifts: Vec<Shift<'a, N>>,
) -> Result<Vec<Vec<Ran<'a, N>>>, OutOfMemory>
    ensures { IfOk result (λ done. HaveAllRun N.params (map (λ shift. shift.jobs.items) shifts.entry.items)
        (map (λ own. own.items) done.items)) }
{
    let work = |shift|
        ensures { HaveRun N.params shift.entry.jobs.items result.items }
    { run_shift(rt, alloc, hall, shift) };
    Ok(thread::map_vec(rt, shifts, &work)?)
}

/// What came of the jobs of all shifts, in order. It goes where there is room for it.
pub(crate) fn in_one_list<'a, N: HallName>(
    done: Vec<Vec<Ran<'a, N>>>,
    mut all: Vec<Ran<'a, N>>,
) -> Vec<Ran<'a, N>>
    requires empty { all.items ≡ [] }
    requires room { length (flat_map (λ own. own.items) done.items) ≤ vec_capacity all }
    ensures { result.items ≡ flat_map (λ own. own.items) done.entry.items }
{
    for own in done {
        all = with_all(all, own);
    }
    all
}

/// These results, and those of one shift more. There is room for them.
fn with_all<'a, N: HallName>(mut all: Vec<Ran<'a, N>>, own: Vec<Ran<'a, N>>) -> Vec<Ran<'a, N>>
    requires room { length all.items + length own.items ≤ vec_capacity all }
    ensures items { result.items ≡ all.entry.items ++ own.entry.items }
    ensures capacity { vec_capacity result ≡ vec_capacity all.entry }
{
    for ran in own {
        all.push_reserved(ran);
    }
    all
}

/// Jobs that are parted into shifts: those whose shifts are made, and those of the next shift.
#[derive(Drop)]
struct Shifts<'a, N: HallName> {
    made: Vec<Shift<'a, N>>,
    next: Vec<Job<'a, N>>,
    /// Whether one of the jobs of the next shift has lines.
    has_lines: bool,
}

impl<'a, N: HallName> Shifts<'a, N> {
    /// No job.
    fn none(alloc: Global) -> Shifts<'a, N>
        ensures { flat_map (λ shift. shift.jobs.items) result.made.items ++ result.next.items ≡ [] }
    {
        Shifts {
            made: Vec::new(alloc),
            next: Vec::new(alloc),
            has_lines: false,
        }
    }

    /// Takes in one job more. A shift ends before its second job that has lines.
    fn add(&mut self, alloc: Global, job: Job<'a, N>) -> Result<(), OutOfMemory>
        ensures { OnOk result (flat_map (λ shift. shift.jobs.items) self.new.made.items ++ self.new.next.items
            ≡ (flat_map (λ shift. shift.jobs.items) self.old.made.items ++ self.old.next.items) ++ job.entry ∷ []) }
    {
        let has_lines = !job.1.is_empty();
        if has_lines && self.has_lines {
            self.end_shift(alloc)?;
        }
        self.has_lines = self.has_lines || has_lines;
        self.next.push(job)?;
        Ok(())
    }

    /// Makes a shift of the jobs of the next one, so that no job is left for a next one.
    fn end_shift(&mut self, alloc: Global) -> Result<(), OutOfMemory>
        ensures made { OnOk result (flat_map (λ shift. shift.jobs.items) self.new.made.items
            ≡ flat_map (λ shift. shift.jobs.items) self.old.made.items ++ self.old.next.items) }
        ensures next { OnOk result (self.new.next.items ≡ []) }
    {
        let jobs = replace(&mut self.next, Vec::new(alloc));
        self.made.push(Shift::new(alloc, jobs)?)?;
        Ok(())
    }
}

/// The jobs, parted into shifts in order. Each shift has one job with lines, unless none of them has any.
pub(crate) fn shifts_of<'a, N: HallName>(
    alloc: Global,
    jobs: Vec<Job<'a, N>>,
) -> Result<Vec<Shift<'a, N>>, OutOfMemory>
    ensures { IfOk result (λ shifts. flat_map (λ shift. shift.jobs.items) shifts.items ≡ jobs.entry.items) }
{
    let mut shifts = Shifts::none(alloc);
    for job in jobs {
        shifts.add(alloc, job)?;
    }
    shifts.end_shift(alloc)?;
    let Shifts { made, .. } = shifts;
    Ok(made)
}
