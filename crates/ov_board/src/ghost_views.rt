use std::collections::LinkedList;
use std::marker::Model;

/// What the words of a board are about: how many numbers are shared out, and among how many workers.
#[derive(Drop)]
pub struct BoardSize {
    pub total: u64,
    pub workers: u32,
}

/// What one worker has done. No value of it is made.
pub struct SeatedWorker {
    claimed: LinkedList<u64>,
    failed: LinkedList<u64>,
    skipped: Option<u64>,
    ended: bool,
}

impl Model for SeatedWorker {
    ghost use Rattle.ov_board.specs.Claims.{WorkerState};

    ghost Value = { WorkerState };

    ghost view = { λ d. record {
      claimed = d.claimed;
      failed = d.failed;
      skipped = d.skipped;
      ended = d.ended;
    } };
}

/// What a seat of the table knows: the size, and workers with their numbers. No value of it is made.
pub struct SeatView {
    pub total: u64,
    pub workers: u32,
    pub seated: LinkedList<(u32, SeatedWorker)>,
}
