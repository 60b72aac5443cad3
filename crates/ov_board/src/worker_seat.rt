ghost use Rattle.std.specs.Prelude.{◌≡◌};

use crate::ghost_views::SeatView;
use atomic_table::Seat as TableSeat;
use std::marker::Model;

/// The place of one worker at a board. Contracts see the board, the number of the worker, and what the worker has done
/// so far.
#[derive(Drop)]
pub struct Seat {
    pub(crate) number: u32,
    pub(crate) seat: TableSeat<(), SeatView>,
}

impl Model for Seat {
    ghost use Rattle.std.specs.Prelude.{◌≡◌, [], ◌∷◌};
    ghost use Rattle.ov_board.specs.Board.{SeatState};
    ghost use Rattle.ov_board.specs.Code.Rule.{seat_state, head_of, number_of};

    ghost Value = { SeatState };

    ghost view = { λ s. seat_state s.seat.table_id s.seat.me.0 };

    ghost invariant = { λ s. (s.seat.me.0.seated ≡ head_of s.seat.me.0.seated ∷ [])
        × (s.number ≡ number_of s.seat.me.0) × (s.seat.me.1 ≡ []) };
}

impl Seat {
    /// The number of the seat's worker.
    pub fn worker(&self) -> u32
        ensures { result ≡ self.now.number }
    {
        self.number
    }
}
