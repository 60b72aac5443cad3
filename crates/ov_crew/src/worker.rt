//! One worker: it claims numbers at a board and settles their pieces, until it has ended.
ghost use Rattle.std.specs.Prelude.{◌≡◌, ℕ, ◌<◌, ◌+◌, true, false, None, length, vec_capacity};
ghost use Rattle.std.specs.Prelude.{IfOk, OnOk, IfSome, IfNone};
ghost use Rattle.ov_board.specs.Limits.{piece_limit};
ghost use Rattle.ov_ids.specs.Members.{Has};
ghost use Rattle.ov_graph.specs.Links.{IsGroup};
ghost use Rattle.ov_fans.specs.Pieces.{IsPiece};
ghost use Rattle.ov_board.specs.Claims.{fresh};
ghost use Rattle.ov_even.specs.Hauls.{IsKeptOf};
ghost use Rattle.ov_even.specs.Order.{AreMoreThan, AreSoMany};
ghost use Rattle.ov_crew.specs.Hauls.{IsHaulOf};
ghost use Rattle.ov_crew.specs.Code.Crews.{IsRange};
ghost use Rattle.ov_crew.specs.Code.Kept.{IsHaulKeeping};
ghost use Rattle.ov_crew.specs.Code.Turns.{HasTaken, HasStopped, HasSettledKeeping};

use crate::ascending_piece_lookup::AscendingPieces;
use crate::hook_after_claim::Gate;
use crate::memory_set_aside::set_memory_aside;
use ov_board::{Board, Seat};
use ov_even::{Haul, Keeping, settle_keeping};
use ov_fans::{Piece, Settled, Settler};
use ov_graph::Graph;
use ov_ids::{NodeId, OutOfMemory};
use std::alloc::Global;

/// Settles pieces with the numbers from `first` on: number x on the board means the piece of number `first + x`. The
/// worker ends when no number is left, or a number below its own has failed. It waits for nothing but the gate. If it
/// is out of memory, it returns the seat with the claims made so far.
pub fn work_range<G: Gate>(
    alloc: Global,
    board: &Board,
    graph: &Graph,
    group: &[NodeId],
    first: u64,
    seat: Seat,
    gate: &G,
) -> (Result<Haul, OutOfMemory>, Seat)
    requires group { IsGroup graph.now group.now }
    requires mine { seat.board ≡ board.now }
    requires new { seat.worker ≡ fresh }
    requires range { (x : ℕ) → x < board.now.total
        → AreMoreThan (length graph.now.nodes) (length group.now) (first + x) }
    requires small { first + board.now.total < piece_limit }
    ensures board { result.1.board ≡ seat.board }
    ensures number { result.1.number ≡ seat.number }
    ensures ended { OnOk result.0 (result.1.worker.ended ≡ true) }
    ensures haul { IfOk result.0 (λ h. IsHaulOf graph.now group.now first result.1.worker h.pieces.items) }
{
    let keeping = Keeping::EachPiece;
    work_range_keeping(alloc, board, graph, group, first, keeping, seat, gate)
}

/// Does what `work_range` does, with a haul that keeps this.
pub(crate) fn work_range_keeping<G: Gate>(
    alloc: Global,
    board: &Board,
    graph: &Graph,
    group: &[NodeId],
    first: u64,
    keeping: Keeping,
    seat: Seat,
    gate: &G,
) -> (Result<Haul, OutOfMemory>, Seat)
    requires group { IsGroup graph.now group.now }
    requires mine { seat.board ≡ board.now }
    requires new { seat.worker ≡ fresh }
    requires range { IsRange graph.now group.now first board.now.total }
    ensures board { result.1.board ≡ seat.board }
    ensures number { result.1.number ≡ seat.number }
    ensures ended { OnOk result.0 (result.1.worker.ended ≡ true) }
    ensures haul { IfOk result.0 (λ h.
        IsHaulKeeping keeping graph.now group.now first result.1.worker h.pieces.items) }
{
    set_memory_aside(alloc, board.total(), keeping);
    let mut settler = match Settler::new(alloc, graph, group) {
        Ok(settler) => settler,
        Err(fault) => return (Err(fault), seat),
    };
    let mut order = AscendingPieces::new(graph.nodes().len(), group.len());
    let mut seat = seat;
    let mut pieces = Vec::new(alloc);
    loop {
        let (next, taken) = take_number(board, seat, gate);
        let Some(number) = next else {
            return (Ok(Haul { pieces }), taken);
        };
        let piece = order.piece_at(first + number);
        let (done, settled) = settle_piece(
            board,
            &mut settler,
            piece,
            number,
            keeping,
            &mut pieces,
            taken,
        );
        if let Err(fault) = done {
            return (Err(fault), settled);
        }
        seat = settled;
    }
}

/// Claims the next number, passes the gate, and looks. Returns the number to work on, or None if the worker has ended.
pub(crate) fn take_number<G: Gate>(board: &Board, seat: Seat, gate: &G) -> (Option<u64>, Seat)
    requires mine { seat.board ≡ board.now }
    requires goes_on { seat.worker.ended ≡ false }
    requires none_skipped { seat.worker.skipped ≡ None }
    ensures board { result.1.board ≡ seat.board }
    ensures number { result.1.number ≡ seat.number }
    ensures taken { IfSome result.0 (λ x. HasTaken board.now.total x seat.worker result.1.worker) }
    ensures stopped { IfNone result.0 (HasStopped seat.worker result.1.worker) }
{
    let (number, claimed) = board.claim(seat);
    if number >= board.total() {
        return (None, claimed);
    }
    gate.pass(claimed.worker(), number);
    let (least, looked) = board.look(number, claimed);
    if least < number {
        return (None, looked);
    }
    (Some(number), looked)
}

/// Settles the piece of a number, keeps what is to be kept of it, and reports a cut.
fn settle_piece(
    board: &Board,
    settler: &mut Settler<'_>,
    piece: Piece,
    number: u64,
    keeping: Keeping,
    pieces: &mut Vec<Settled>,
    seat: Seat,
) -> (Result<(), OutOfMemory>, Seat)
    requires piece { IsPiece settler.old.graph settler.old.members piece }
    requires mine { seat.board ≡ board.now }
    requires claimed { Has seat.worker.claimed number }
    ensures stays { settler.new ≡ settler.old }
    ensures board { result.1.board ≡ seat.board }
    ensures number { result.1.number ≡ seat.number }
    ensures settled { OnOk result.0 (HasSettledKeeping keeping settler.old.graph settler.old.members piece number
        seat.worker result.1.worker pieces.old.items pieces.new.items) }
{
    let kept = match settle_with_room(settler, piece, keeping, pieces) {
        Ok(kept) => kept,
        Err(fault) => return (Err(fault), seat),
    };
    let Some(settled) = kept else {
        return (Ok(()), seat);
    };
    let seat = if settled.is_cut() {
        board.fail(number, seat)
    } else {
        seat
    };
    pieces.push_reserved(settled);
    (Ok(()), seat)
}

/// Settles a piece, and makes room for it.
fn settle_with_room(
    settler: &mut Settler<'_>,
    piece: Piece,
    keeping: Keeping,
    pieces: &mut Vec<Settled>,
) -> Result<Option<Settled>, OutOfMemory>
    requires { IsPiece settler.old.graph settler.old.members piece }
    ensures kept { IfOk result (IsKeptOf keeping settler.old.graph settler.old.members piece) }
    ensures room { OnOk result (length pieces.new.items < vec_capacity pieces.new) }
    ensures pieces { pieces.new.items ≡ pieces.old.items }
    ensures stays { settler.new ≡ settler.old }
{
    pieces.reserve(1)?;
    settle_keeping(settler, piece, keeping)
}

/// Settles the pieces of a group, all of whose numbers the board shares out. See `work_range`.
pub fn work_group<G: Gate>(
    alloc: Global,
    board: &Board,
    graph: &Graph,
    group: &[NodeId],
    seat: Seat,
    gate: &G,
) -> (Result<Haul, OutOfMemory>, Seat)
    requires group { IsGroup graph.now group.now }
    requires mine { seat.board ≡ board.now }
    requires new { seat.worker ≡ fresh }
    requires total { AreSoMany (length graph.now.nodes) (length group.now) board.now.total }
    ensures board { result.1.board ≡ seat.board }
    ensures number { result.1.number ≡ seat.number }
    ensures ended { OnOk result.0 (result.1.worker.ended ≡ true) }
    ensures haul { IfOk result.0 (λ h. IsHaulOf graph.now group.now 0 result.1.worker h.pieces.items) }
{
    prove!(graph.nodes().len() <= Graph::MOST_OF_ANY);
    work_range(alloc, board, graph, group, 0, seat, gate)
}

/// Settles the pieces of the group of all nodes. See `work_group`.
pub fn work<G: Gate>(
    alloc: Global,
    board: &Board,
    graph: &Graph,
    seat: Seat,
    gate: &G,
) -> (Result<Haul, OutOfMemory>, Seat)
    requires some { 0 < length graph.now.nodes }
    requires mine { seat.board ≡ board.now }
    requires new { seat.worker ≡ fresh }
    requires total { AreSoMany (length graph.now.nodes) (length graph.now.nodes) board.now.total }
    ensures board { result.1.board ≡ seat.board }
    ensures number { result.1.number ≡ seat.number }
    ensures ended { OnOk result.0 (result.1.worker.ended ≡ true) }
    ensures haul { IfOk result.0 (λ h. IsHaulOf graph.now graph.now.nodes 0 result.1.worker h.pieces.items) }
{
    work_group(alloc, board, graph, graph.nodes(), seat, gate)
}
