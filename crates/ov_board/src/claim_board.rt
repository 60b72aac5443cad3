ghost use Rattle.std.specs.Prelude.{◌≡◌, ℕ, ◌<◌, true, false, length, slice_get, All, IfOk, Some};
ghost use Rattle.ov_board.specs.Limits.{piece_limit};
ghost use Rattle.ov_ids.specs.Members.{Has};
ghost use Rattle.ov_board.specs.Steps.{Claims, Looks, Fails, claiming, looking, failing};
ghost use Rattle.ov_board.specs.Board.{IsClosed, IsExchange, after, new_seat};

use crate::atomic_exchange_rules::{
    Apart, Claiming, Entering, Failing, Lawful, Looking, Number, Together,
};
use crate::ghost_views::{BoardSize, SeatView};
use crate::worker_seat::Seat;
use atomic_table::Table;
use ov_ids::{OutOfMemory, Workers};
use std::alloc::Global;
use std::marker::{Brand, Model};

/// Two words that threads share: the next number to claim, and the lowest number that failed. Contracts see which
/// board it is, how many numbers it shares out, and for how many workers. No call waits.
#[derive(Drop)]
pub struct Board {
    total: u64,
    table: Table<(), SeatView, BoardSize, Lawful, Global>,
}

impl Model for Board {
    ghost use Rattle.std.specs.Prelude.{◌≡◌};
    ghost use Rattle.ov_board.specs.Board.{BoardState};

    ghost Value = { BoardState };

    ghost view = { λ b. record {
      table = b.table.shared.table_id;
      total = b.total;
      workers = b.table.shared.key.workers;
    } };

    ghost invariant = { λ b. (b.total ≡ b.table.shared.key.total) × (b.table.shared.table_id.words ≡ 2)
        × (b.table.shared.table_id.slots ≡ 0) };
}

impl Board {
    /// A board that shares out the numbers below `total`, and a seat for each worker, in the order of their numbers.
    /// Faults: out of memory.
    pub fn new(
        alloc: Global,
        total: u64,
        workers: Workers,
    ) -> Result<(Board, Vec<Seat>), OutOfMemory>
        requires { total < piece_limit }
        ensures total { IfOk result (λ r. r.0.total ≡ total) }
        ensures workers { IfOk result (λ r. r.0.workers ≡ workers) }
        ensures count { IfOk result (λ r. length r.1.items ≡ workers) }
        ensures seats { IfOk result (λ r. (i : ℕ) → i < workers → slice_get r.1.items i ≡ Some (new_seat r.0 i)) }
    {
        let count = workers.count();
        let mut seats = Vec::with_capacity(alloc, count as usize)?;
        let size = BoardSize {
            total,
            workers: count,
        };
        let (table, mut pool) = Table::of_words(alloc, &[0, total], &size)?;
        for number in 0..count {
            let seat = table.shared.split_seat::<Apart>(&mut pool);
            seats.push_reserved(Seat { number, seat });
        }
        Ok((Board { total, table }, seats))
    }

    /// The seat's worker claims the next number, which is returned. If it is not below the total, the worker has ended.
    pub fn claim(&self, seat: Seat) -> (u64, Seat)
        requires mine { seat.board ≡ self.now }
        requires goes_on { seat.worker.ended ≡ false }
        ensures seat { result.1 ≡ after seat (claiming self.now.total result.0 seat.worker) }
        ensures step { IsExchange (λ s t. Claims s seat.number result.0 t) seat result.1 }
    {
        let Seat { number, mut seat } = seat;
        let index = self.table.shared.fetch_add::<Claiming>(&mut seat, 0, 1);
        (index, Seat { number, seat })
    }

    /// The seat's worker looks before it works on `index`, one of its numbers. Returns the lowest number that failed,
    /// or the total if none failed. If that is below `index`, the worker skips `index` and has ended.
    pub fn look(&self, index: u64, seat: Seat) -> (u64, Seat)
        requires mine { seat.board ≡ self.now }
        requires goes_on { seat.worker.ended ≡ false }
        requires claimed { Has seat.worker.claimed index }
        ensures seat { result.1 ≡ after seat (looking result.0 index seat.worker) }
        ensures step { IsExchange (λ s t. Looks s seat.number index t × (result.0 ≡ s.least)) seat result.1 }
    {
        self.look_as::<Brand>(index, seat)
    }

    // The look before work on the number of `I`.
    fn look_as<I: Number>(&self, index: u64, seat: Seat) -> (u64, Seat)
        requires mine { seat.board ≡ self.now }
        requires goes_on { seat.worker.ended ≡ false }
        requires claimed { Has seat.worker.claimed index }
        requires index { index ≡ I.number }
        ensures seat { result.1 ≡ after seat (looking result.0 index seat.worker) }
        ensures step { IsExchange (λ s t. Looks s seat.number index t × (result.0 ≡ s.least)) seat result.1 }
    {
        let Seat { number, mut seat } = seat;
        let least = self.table.shared.load::<Looking<I>>(&mut seat, 1);
        (least, Seat { number, seat })
    }

    /// The seat's worker reports that `index`, one of its numbers, has failed.
    pub fn fail(&self, index: u64, seat: Seat) -> Seat
        requires mine { seat.board ≡ self.now }
        requires claimed { Has seat.worker.claimed index }
        ensures seat { result ≡ after seat (failing index seat.worker) }
        ensures step { IsExchange (λ s t. Fails s seat.number index t) seat result }
    {
        let Seat { number, mut seat } = seat;
        self.table.shared.fetch_min::<Failing>(&mut seat, 1, index);
        Seat { number, seat }
    }

    /// The lowest number that failed, or the total if none failed, after all workers have ended. `seats` are all seats
    /// of the board.
    pub fn close(self, seats: Vec<Seat>) -> u64
        requires all { length seats.items ≡ self.workers }
        requires mine { All (λ s. s.board ≡ self) seats.items }
        requires ended { All (λ s. s.worker.ended ≡ true) seats.items }
        ensures closed { IsClosed self seats.items result }
    {
        let Board { total: _, table } = self;
        let (_, mut all) = table.shared.load_new_seat::<Entering>(0);
        for seat in seats {
            let Seat { number: _, seat } = seat;
            table.shared.join_seat::<Together>(&mut all, seat);
        }
        let closed = table.close_with(all);
        let least = closed.word(1);
        closed.free();
        least
    }

    /// How many numbers the board shares out.
    pub fn total(&self) -> u64
        ensures { result ≡ self.now.total }
    {
        self.total
    }
}
