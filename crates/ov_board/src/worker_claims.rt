ghost use Rattle.std.specs.Prelude.{◌≡◌, ℕ, ◌<◌, ◌≤◌, [], OnOk, OnErr, IfSome, IfNone};
ghost use Rattle.std.specs.List.{list_all};
ghost use Rattle.ov_ids.specs.Members.{Has, Ascends};
ghost use Rattle.ov_board.specs.Claims.{WorkerState, fresh};
ghost use Rattle.ov_board.specs.Steps.{IsLast, claiming, looking, failing};

use ov_ids::OutOfMemory;
use std::alloc::Global;
use std::marker::Model;

/// One worker: its claimed numbers and its failed numbers, both ascending, the number it skipped, and whether it has
/// ended.
#[derive(Drop)]
pub(crate) struct Worker {
    claimed: Vec<u64>,
    failed: Vec<u64>,
    skipped: Option<u64>,
    ended: bool,
}

impl Model for Worker {
    ghost Value = { WorkerState };

    ghost view = { λ w. record {
      claimed = w.claimed.items;
      failed = w.failed.items;
      skipped = w.skipped;
      ended = w.ended;
    } };
}

impl Worker {
    /// A worker that has not claimed a number yet. Allocates nothing.
    pub(crate) fn new(alloc: Global) -> Worker
        ensures { result ≡ fresh }
    {
        Worker {
            claimed: Vec::new(alloc),
            failed: Vec::new(alloc),
            skipped: None,
            ended: false,
        }
    }

    /// Claims this number, or ends if the number is not below the total. Out of memory changes nothing.
    pub(crate) fn claim(&mut self, total: u64, number: u64) -> Result<(), OutOfMemory>
        ensures ok { OnOk result (self.new ≡ claiming total number self.old) }
        ensures err { OnErr result (self.new ≡ self.old) }
    {
        if number < total {
            self.claimed.push(number)?;
        } else {
            self.ended = true;
        }
        Ok(())
    }

    /// Looks before work on the number claimed last. If `least` is lower, the worker skips its number and has ended.
    pub(crate) fn look(&mut self, least: u64)
        ensures { (x : ℕ) → IsLast self.old x → self.new ≡ looking least x self.old }
    {
        if let Some(number) = self.claimed.last().copied() {
            if least < number {
                self.skipped = Some(number);
                self.ended = true;
            }
        }
    }

    /// Marks this number as failed. No earlier failed number is higher. Out of memory changes nothing.
    pub(crate) fn fail(&mut self, number: u64) -> Result<(), OutOfMemory>
        requires ascends { Ascends self.old.failed }
        requires last { (x : ℕ) → Has self.old.failed x → x ≤ number }
        ensures ok { OnOk result (self.new ≡ failing number self.old) }
        ensures err { OnErr result (self.new ≡ self.old) }
    {
        if self.failed.last().copied() != Some(number) {
            self.failed.push(number)?;
        }
        Ok(())
    }

    /// The number claimed last, if any.
    pub(crate) fn last(&self) -> Option<u64>
        ensures some { IfSome result (IsLast self.now) }
        ensures none { IfNone result (self.now.claimed ≡ []) }
    {
        self.claimed.last().copied()
    }

    /// Whether the worker has ended.
    pub(crate) fn has_ended(&self) -> bool
        ensures { result ≡ self.now.ended }
    {
        self.ended
    }
}

/// Whether all these workers have ended.
pub(crate) fn have_ended(workers: &[Worker]) -> bool
    ensures { result ≡ list_all (λ v. v.ended) workers.now }
{
    workers.iter().all(|own| own.has_ended())
}
