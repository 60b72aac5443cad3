//! Gates that tell what workers do.
use ov_crew::Gate;
use ov_even::Watcher;
use std::sync::atomic::{AtomicU64, Ordering};

/// How often a worker looks whether another one has come, at most.
const LOOKS: u64 = 100_000_000;

/// Counts the numbers that workers pass with.
#[derive(Drop)]
pub(crate) struct Counting {
    passed: AtomicU64,
}

impl Counting {
    pub(crate) fn new() -> Counting {
        Counting {
            passed: AtomicU64::new(0),
        }
    }

    /// How many numbers passed.
    pub(crate) fn count(&self) -> u64 {
        self.passed.load(Ordering::SeqCst)
    }
}

impl Gate for Counting {
    fn pass(&self, _worker: u32, _number: u64) {
        let _ = self.passed.fetch_add(1, Ordering::SeqCst);
    }
}

/// How often the first worker looks whether another one has passed, at most.
const FEW_LOOKS: u64 = 5_000_000;

/// Holds the first worker that passes until another one does, for a bounded time.
#[derive(Drop)]
pub(crate) struct Holding {
    passed: AtomicU64,
    met: AtomicU64,
}

impl Holding {
    pub(crate) fn new() -> Holding {
        Holding {
            passed: AtomicU64::new(0),
            met: AtomicU64::new(0),
        }
    }

    /// Whether a worker passed.
    pub(crate) fn saw_one(&self) -> bool {
        self.passed.load(Ordering::SeqCst) > 0
    }

    /// Whether another worker passed while the first one was held.
    pub(crate) fn saw_another(&self) -> bool {
        self.met.load(Ordering::SeqCst) == 1
    }

    /// Waits for another worker, in a bounded loop.
    fn wait_for_another(&self) {
        for _ in 0..FEW_LOOKS {
            if self.passed.load(Ordering::SeqCst) > 1 {
                self.met.store(1, Ordering::SeqCst);
                return;
            }
        }
    }
}

impl Gate for Holding {
    fn pass(&self, _worker: u32, _number: u64) {
        if self.passed.fetch_add(1, Ordering::SeqCst) == 0 {
            self.wait_for_another();
        }
    }
}

/// Once it is open, holds the worker with number 0 until another worker has passed with number 1.
#[derive(Drop)]
pub(crate) struct Meeting {
    is_open: AtomicU64,
    /// One more than the worker that passed with number 1, or 0.
    other: AtomicU64,
    met: AtomicU64,
}

impl Meeting {
    pub(crate) fn new() -> Meeting {
        Meeting {
            is_open: AtomicU64::new(0),
            other: AtomicU64::new(0),
            met: AtomicU64::new(0),
        }
    }

    /// Opens it. Who passed before does not count.
    pub(crate) fn open(&self) {
        self.other.store(0, Ordering::SeqCst);
        self.is_open.store(1, Ordering::SeqCst);
    }

    /// Whether a worker is to be held.
    fn holds(&self) -> bool {
        self.is_open.load(Ordering::SeqCst) == 1 && !self.saw_both()
    }

    /// Whether a worker that was held with number 0 saw another one pass with number 1.
    pub(crate) fn saw_both(&self) -> bool {
        self.met.load(Ordering::SeqCst) == 1
    }

    /// Waits for a worker other than this one, in a bounded loop.
    fn wait_for_other(&self, own: u64) {
        for _ in 0..LOOKS {
            let other = self.other.load(Ordering::SeqCst);
            if other != 0 && other != own {
                self.met.store(1, Ordering::SeqCst);
                return;
            }
        }
    }
}

impl Gate for Meeting {
    fn pass(&self, worker: u32, number: u64) {
        let own = u64::from(worker) + 1;
        if number == 1 {
            self.other.store(own, Ordering::SeqCst);
        }
        if number == 0 && self.holds() {
            self.wait_for_other(own);
        }
    }
}

/// How many paths a level must seek, so that it gets two workers: each thread more pays for 1,024 of them.
const PATHS_FOR_TWO: usize = 2048;

/// Opens a meeting before the first level that gets two workers.
#[derive(Drop)]
pub(crate) struct Opening<'a> {
    pub(crate) meeting: &'a Meeting,
}

impl<'a> Watcher for Opening<'a> {
    fn sees(&mut self, level: usize, _place: usize, size: usize) {
        if level.saturating_mul(size) >= PATHS_FOR_TWO {
            self.meeting.open();
        }
    }
}
