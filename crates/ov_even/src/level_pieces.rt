//! The pieces of one level: in their order, their number, and the place of each.
ghost use Rattle.std.specs.Prelude.{◌≡◌, ◌<◌, ◌≤◌, ◌+◌, ◌++◌, ℕ, length, slice_get, Some};
ghost use Rattle.std.specs.Iterator.{YieldsFirst, item_count};
ghost use Rattle.ov_ids.specs.Limits.{number_limit};
ghost use Rattle.ov_graph.specs.Links.{most_of_any_graph};
ghost use Rattle.ov_fans.specs.Pieces.{level_of};
ghost use Rattle.ov_fans.specs.Pieces.{IsPieceOf};
ghost use Rattle.ov_even.specs.Code.Levels.{pieces_of_level, pieces_from, pairs_among, place_limit, IsPairPlaced};

use ov_fans::Piece;
use std::marker::Model;

/// The pieces of one level, in order. Contracts see the pieces still to come.
#[derive(Drop)]
pub(crate) struct LevelPieces {
    members: u16,
    level: u16,
    /// The first member of the next piece, if that is a pair.
    i: u16,
    /// The last member of the next piece.
    j: u16,
}

impl Model for LevelPieces {
    ghost use Rattle.std.specs.Prelude.{List};
    ghost use Rattle.ov_fans.specs.declared.piece.Piece.{Piece};
    ghost use Rattle.ov_even.specs.Code.Levels.{pieces_from, IsToCome};

    ghost Value = { List Piece };

    ghost view = { λ l. pieces_from l.members l.level l.j l.i };

    ghost invariant = { λ l. IsToCome l.members l.i l.j };
}

impl LevelPieces {
    /// All pieces of a level, for a group of `m` members.
    pub(crate) fn new(m: usize, level: usize) -> LevelPieces
        requires low { 1 ≤ level }
        requires high { level < most_of_any_graph }
        requires members { m ≤ most_of_any_graph }
        ensures { result ≡ pieces_of_level m level }
    {
        LevelPieces::from_column(m, level, 2)
    }

    /// The pieces of a level for a group of `m` members, behind those for its first members, `done` of them.
    pub(crate) fn behind(m: usize, level: usize, done: usize) -> LevelPieces
        requires low { 1 ≤ level }
        requires high { level < most_of_any_graph }
        requires members { m ≤ most_of_any_graph }
        requires done { done ≤ m }
        ensures { pieces_of_level m level ≡ pieces_of_level done level ++ result }
    {
        if done == 0 {
            return LevelPieces::new(m, level);
        }
        LevelPieces::from_column(m, level, done + 1)
    }

    /// The pieces of a level from those on whose last member is at this place, counted from 1.
    fn from_column(m: usize, level: usize, column: usize) -> LevelPieces
        requires high { level < most_of_any_graph }
        requires members { m ≤ most_of_any_graph }
        requires some { 2 ≤ column }
        requires column { column ≤ m + 2 }
        ensures { result ≡ pieces_from m level column 1 }
    {
        LevelPieces {
            members: m as u16,
            level: level as u16,
            i: 1,
            j: column as u16,
        }
    }
}

impl Iterator for LevelPieces {
    type Item = Piece;

    ghost next_gives = { YieldsFirst (λ n. n) };

    ghost remaining = { item_count (λ n. n) };

    fn next(&mut self) -> Option<Piece> {
        let (level, i, j) = (self.level, self.i, self.j);
        if j > self.members {
            return None;
        }
        if j > level {
            self.j = j + 1;
            return Some(Piece::Fan { level, j });
        }
        if i + 1 < j {
            self.i = i + 1;
        } else {
            self.i = 1;
            self.j = j + 1;
        }
        Some(Piece::Pair { level, i, j })
    }
}

/// The number of pairs among this many members.
pub(crate) fn pair_count(members: usize) -> usize
    requires { members < place_limit }
    ensures count { result ≡ pairs_among members }
    ensures small { result < number_limit }
{
    members * members.saturating_sub(1) / 2
}

/// The number of pieces of a level, for a group of `m` members.
pub(crate) fn level_size(m: usize, level: usize) -> usize
    requires members { m ≤ most_of_any_graph }
    ensures { result ≡ length (pieces_of_level m level) }
{
    if level < m {
        pair_count(level) + (m - level)
    } else {
        pair_count(m)
    }
}

/// The place of a piece in its level, counted from 0.
pub(crate) fn place_in_level(m: usize, piece: Piece) -> usize
    requires { (n : ℕ) × IsPieceOf n m piece }
    ensures place { slice_get (pieces_of_level m (level_of piece)) result ≡ Some piece }
    ensures below { result < length (pieces_of_level m (level_of piece)) }
{
    match piece {
        Piece::Pair { i, j, .. } => pair_count(j as usize - 1) + (i as usize - 1),
        Piece::Fan { level, j } => pair_count(level as usize) + (j as usize - level as usize - 1),
    }
}

/// The piece at a place in a level, counted from 0.
pub(crate) fn piece_in_level(m: usize, level: usize, place: usize) -> Piece
    requires high { level < most_of_any_graph }
    requires members { m ≤ most_of_any_graph }
    requires below { place < length (pieces_of_level m level) }
    ensures { slice_get (pieces_of_level m level) place ≡ Some result }
{
    let pairs = pair_count(level);
    if place < pairs {
        return pair_at(level as u16, place);
    }
    let later = level + (place - pairs);
    Piece::Fan {
        level: level as u16,
        j: later as u16 + 1,
    }
}

/// The pair at a place in a level, counted from 0.
fn pair_at(level: u16, place: usize) -> Piece
    requires high { level < most_of_any_graph }
    requires below { place < pairs_among level }
    ensures { IsPairPlaced level place result }
{
    let mut before = 1;
    let mut left = place;
    while before <= left {
        left -= before;
        before += 1;
    }
    Piece::Pair {
        level,
        i: left as u16 + 1,
        j: before as u16 + 1,
    }
}
