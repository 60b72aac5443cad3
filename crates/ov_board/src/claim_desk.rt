ghost use Rattle.std.specs.Prelude.{◌≡◌, ◌↔◌, ℕ, ◌<◌, false, length, IsTrue, IfOk, OnOk, OnErr};
ghost use Rattle.ov_board.specs.Limits.{piece_limit};
ghost use Rattle.ov_board.specs.Claims.{HasWorker, WorkerState, IsLegal, opening_claims};
ghost use Rattle.ov_ids.specs.Workers.{MayWork};
ghost use Rattle.ov_board.specs.Steps.{Claims, Looks, Fails, IsLast};
ghost use Rattle.ov_board.specs.Theorems.{AllEnded, IsDone};

use crate::worker_claims::{Worker, have_ended};
use ov_ids::{OutOfMemory, Workers};
use std::alloc::Global;
use std::marker::Model;

/// The claims of workers that take turns at one desk. Contracts see the state of the claims, which is always legal. A
/// claimed number takes eight bytes, and a failed number eight more.
#[derive(Drop)]
pub struct Desk {
    total: u64,
    next: u64,
    least: u64,
    workers: Vec<Worker>,
}

impl Model for Desk {
    ghost use Rattle.ov_board.specs.Claims.{DeskState, AreSoundClaims};
    ghost use Rattle.ov_board.specs.Code.Kept.{state};

    ghost Value = { DeskState };

    ghost view = { λ d. state d.total d.next d.least d.workers.items };

    ghost invariant = { λ d. AreSoundClaims (state d.total d.next d.least d.workers.items) };
}

impl Desk {
    /// A desk for `workers` workers, which share out the numbers below `total`. Faults: out of memory.
    pub fn new(alloc: Global, total: u64, workers: Workers) -> Result<Desk, OutOfMemory>
        requires { total < piece_limit }
        ensures { IfOk result (λ d. d ≡ opening_claims total workers) }
    {
        let mut fresh = Vec::new(alloc);
        for _ in 0..workers.count() {
            fresh.push(Worker::new(alloc))?;
        }
        Ok(Desk {
            total,
            next: 0,
            least: total,
            workers: fresh,
        })
    }

    /// `worker` claims the next number, which is returned. If it is not below the total, the worker has ended. Out of
    /// memory changes nothing.
    #[tactic(auto, using(crate::proofs::Turns::next_small))]
    pub fn claim(&mut self, worker: u32) -> Result<u64, OutOfMemory>
        requires goes_on { (v : WorkerState) × HasWorker self.old worker v × (v.ended ≡ false) }
        ensures claims { IfOk result (λ x. Claims self.old worker x self.new) }
        ensures err { OnErr result (self.new ≡ self.old) }
    {
        let number = self.next;
        let own = &mut self.workers[worker as usize];
        own.claim(self.total, number)?;
        self.next = number + 1;
        Ok(number)
    }

    /// `worker` looks before it works on the number that it claimed last. Returns the lowest number that failed, or the
    /// total if none failed. If that is below its own number, the worker skips its number and has ended. Allocates
    /// nothing.
    pub fn look(&mut self, worker: u32) -> u64
        requires goes_on { (v : WorkerState) × (x : ℕ) × HasWorker self.old worker v × (v.ended ≡ false) × IsLast v x }
        ensures looks { (v : WorkerState) (x : ℕ) → HasWorker self.old worker v → IsLast v x
            → Looks self.old worker x self.new }
        ensures least { result ≡ self.old.least }
    {
        let least = self.least;
        let own = &mut self.workers[worker as usize];
        own.look(least);
        least
    }

    /// `worker` reports that the number that it claimed last has failed. Out of memory changes nothing.
    pub fn fail(&mut self, worker: u32) -> Result<(), OutOfMemory>
        requires claimed { (v : WorkerState) × (x : ℕ) × HasWorker self.old worker v × IsLast v x }
        ensures fails { OnOk result ((v : WorkerState) (x : ℕ) → HasWorker self.old worker v → IsLast v x
            → Fails self.old worker x self.new) }
        ensures err { OnErr result (self.new ≡ self.old) }
    {
        let own = &mut self.workers[worker as usize];
        let Some(number) = own.last() else {
            return Ok(());
        };
        own.fail(number)?;
        self.least = self.least.min(number);
        Ok(())
    }

    /// The number of numbers to share out.
    pub fn total(&self) -> u64
        ensures number { result ≡ self.now.total }
        ensures legal { IsLegal self.now }
    {
        self.total
    }

    /// The lowest number that failed, or the total if none failed.
    pub fn least(&self) -> u64
        ensures number { result ≡ self.now.least }
        ensures legal { IsLegal self.now }
    {
        self.least
    }

    /// The number of workers, from 1 to 64.
    pub fn workers(&self) -> u32
        ensures number { result ≡ length self.now.workers }
        ensures legal { IsLegal self.now }
        ensures may_work { MayWork result }
    {
        self.workers.len() as u32
    }

    /// Whether this worker has ended.
    pub fn has_ended(&self, worker: u32) -> bool
        requires { worker < length self.now.workers }
        ensures { (v : WorkerState) → HasWorker self.now worker v → result ≡ v.ended }
    {
        self.workers[worker as usize].has_ended()
    }

    /// Whether all workers have ended.
    pub fn all_ended(&self) -> bool
        ensures ended { IsTrue result ↔ AllEnded self.now }
        ensures done { IsTrue result → IsDone self.now }
    {
        have_ended(&self.workers)
    }
}
