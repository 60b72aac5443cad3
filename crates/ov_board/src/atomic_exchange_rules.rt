// The rule of a board's words, and what the exchanges say.
use crate::ghost_views::{BoardSize, SeatView};
use atomic_table::{Join, Play, Split, TableRule};
use std::marker::{Brand, PhantomData};

/// The words and the views show legal claims.
pub struct Lawful;

impl TableRule<(), SeatView, BoardSize> for Lawful {
    ghost use Rattle.ov_board.specs.Rule.{ShowsClaims};
    ghost use Rattle.ov_board.specs.Code.Rule.{opening_view};

    ghost holds = { ShowsClaims };

    ghost first = { opening_view };
}

/// The exchange of a claim.
pub struct Claiming;

impl Play<(), SeatView> for Claiming {
    ghost use Rattle.ov_board.specs.Code.Rule.{Claimed};

    ghost then = { Claimed };
}

/// The number that a look is about. A look is a load, whose operands can't carry a number; so a type carries it.
pub trait Number {
    ghost use Rattle.std.specs.Prelude.{ℕ};

    ghost number: { ℕ };
}

/// A look is named by a brand of its own, for which the proof of `look` puts its number in. This 0 is never used.
impl Number for Brand {
    ghost number = { 0 };
}

/// The exchange of a look before work on a number.
pub struct Looking<I> {
    of: PhantomData<I>,
}

impl<I: Number> Play<(), SeatView> for Looking<I> {
    ghost use Rattle.ov_board.specs.Code.Rule.{Looked};

    ghost then = { Looked I.number };
}

/// The exchange of a failure.
pub struct Failing;

impl Play<(), SeatView> for Failing {
    ghost use Rattle.ov_board.specs.Code.Rule.{Failed};

    ghost then = { Failed };
}

/// The first worker of a view gets a seat of its own.
pub struct Apart;

impl Split<SeatView> for Apart {
    ghost use Rattle.ov_board.specs.Code.Rule.{others_of, first_of};

    ghost left = { others_of };

    ghost right = { first_of };
}

/// The workers of two seats are put together.
pub struct Together;

impl Join<SeatView> for Together {
    ghost use Rattle.ov_board.specs.Code.Rule.{both_of, spent_view};

    ghost both = { both_of };

    ghost spent = { spent_view };
}

/// The step by which a new seat, which has no worker yet, comes to the board.
pub struct Entering;

impl Play<(), SeatView> for Entering {
    ghost use Rattle.ov_board.specs.Code.Rule.{Entered};

    ghost then = { Entered };
}
