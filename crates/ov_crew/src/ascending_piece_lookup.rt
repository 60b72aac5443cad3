//! The pieces of numbers that ascend, each found from where the last one was.
ghost use Rattle.std.specs.Prelude.{◌≡◌, ℕ, ◌<◌, ◌≤◌, ◌+◌, length};
ghost use Rattle.ov_graph.specs.Links.{most_of_any_graph};
ghost use Rattle.ov_even.specs.Order.{AreMoreThan, IsNumbered};
ghost use Rattle.ov_even.specs.Code.Levels.{pieces_of_level};
ghost use Rattle.ov_crew.specs.Code.Ascending.{IsColumn, IsReached};

use ov_fans::Piece;
use std::marker::Model;

/// Finds the piece of a number, from where the last piece was found. So for numbers that ascend the search takes one
/// step more a level and a member, in all. A lower number is sought from the first piece on. Contracts see the numbers
/// of nodes and of members.
#[derive(Drop)]
pub(crate) struct AscendingPieces {
    nodes: usize,
    members: usize,
    reached: Column,
}

impl Model for AscendingPieces {
    ghost use Rattle.std.specs.Prelude.{◌≤◌};
    ghost use Rattle.ov_graph.specs.Links.{most_of_any_graph};
    ghost use Rattle.ov_crew.specs.Code.Ascending.{GroupSizes, IsColumn};

    ghost Value = { GroupSizes };

    ghost view = { λ s. record { nodes = s.nodes; members = s.members } };

    ghost invariant = { λ s. (s.nodes ≤ most_of_any_graph) × (s.members ≤ s.nodes) × IsColumn s.members s.reached };
}

/// A column of a level: its pairs whose second member is at one place, or, if that is past the level, its fans.
#[derive(Clone, Copy)]
pub(crate) struct Column {
    pub(crate) level: usize,
    /// How many pieces the lower levels have.
    pub(crate) first: usize,
    /// How many members come before that place.
    pub(crate) before: usize,
    /// How many pairs of the level come before the column.
    pub(crate) start: usize,
}

impl AscendingPieces {
    /// The pieces for a graph of `nodes` nodes and a group of `members` members.
    pub(crate) fn new(nodes: usize, members: usize) -> AscendingPieces
        requires nodes { nodes ≤ most_of_any_graph }
        requires members { members ≤ nodes }
        ensures { result ≡ record { nodes = nodes; members = members } }
    {
        AscendingPieces {
            nodes,
            members,
            reached: first_column(),
        }
    }

    /// The piece with this number, counted from 0.
    pub(crate) fn piece_at(&mut self, number: u64) -> Piece
        requires { AreMoreThan self.old.nodes self.old.members number }
        ensures numbered { IsNumbered self.old.nodes self.old.members number result }
        ensures stays { self.new ≡ self.old }
    {
        let number = number as usize;
        let known = self.reached;
        let is_ahead = known.first <= number && known.start <= number - known.first;
        let from = if is_ahead { known } else { first_column() };
        let level = level_from(self.nodes, self.members, from, number);
        self.reached = column_from(self.members, level, number);
        piece_in(self.nodes, self.members, self.reached, number)
    }
}

/// The column of the first level.
fn first_column() -> Column
    ensures column { (m : ℕ) → IsColumn m result }
    ensures first { result.first ≡ 0 }
    ensures start { result.start ≡ 0 }
{
    Column {
        level: 1,
        first: 0,
        before: 1,
        start: 0,
    }
}

/// A column of the level of the piece with this number, no later than the piece.
fn level_from(nodes: usize, members: usize, from: Column, number: usize) -> Column
    requires nodes { nodes ≤ most_of_any_graph }
    requires members { members ≤ nodes }
    requires below { AreMoreThan nodes members number }
    requires from { IsReached members number from }
    ensures reached { IsReached members number result }
    ensures within { number < result.first + length (pieces_of_level members result.level) }
{
    let mut at = from;
    let mut size = level_size(members, at.level);
    while size <= number - at.first {
        at = Column {
            level: at.level + 1,
            first: at.first + size,
            before: 1,
            start: 0,
        };
        size = level_size(members, at.level);
    }
    at
}

/// How many pieces a level has.
fn level_size(members: usize, level: usize) -> usize
    requires { members ≤ most_of_any_graph }
    ensures { result ≡ length (pieces_of_level members level) }
{
    let low = members.min(level);
    low * low.saturating_sub(1) / 2 + (members - low)
}

/// The column of the piece with this number, which is of the same level.
fn column_from(members: usize, from: Column, number: usize) -> Column
    requires members { members ≤ most_of_any_graph }
    requires from { IsReached members number from }
    ensures reached { IsReached members number result }
    ensures level { result.level ≡ from.level }
    ensures first { result.first ≡ from.first }
    ensures last { result.before < result.level → number < result.first + (result.start + result.before) }
{
    let mut at = from;
    while at.before < at.level && at.before <= number - at.first - at.start {
        at = Column {
            level: at.level,
            first: at.first,
            before: at.before + 1,
            start: at.start + at.before,
        };
    }
    at
}

/// The piece with this number, which is in the column.
fn piece_in(nodes: usize, members: usize, column: Column, number: usize) -> Piece
    requires nodes { nodes ≤ most_of_any_graph }
    requires members { members ≤ nodes }
    requires below { AreMoreThan nodes members number }
    requires reached { IsReached members number column }
    requires within { number < column.first + length (pieces_of_level members column.level) }
    requires last { column.before < column.level → number < column.first + (column.start + column.before) }
    ensures { IsNumbered nodes members number result }
{
    let level = column.level as u16;
    let left = number - column.first - column.start;
    if column.before == column.level {
        return Piece::Fan {
            level,
            j: (column.level + left) as u16 + 1,
        };
    }
    Piece::Pair {
        level,
        i: left as u16 + 1,
        j: column.before as u16 + 1,
    }
}
