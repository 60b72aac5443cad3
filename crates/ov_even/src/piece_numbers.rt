//! The numbers of pieces: how many pieces there are, and which piece has a given number.
ghost use Rattle.std.specs.Prelude.{◌≡◌, ◌<◌, ◌≤◌, ◌+◌, ◌-◌, ◌*◌};
ghost use Rattle.ov_board.specs.Limits.{piece_limit};
ghost use Rattle.ov_graph.specs.Links.{most_of_any_graph};
ghost use Rattle.ov_even.specs.Order.{IsNumbered, AreSoMany};
ghost use Rattle.ov_even.specs.Order.{AreMoreThan};
ghost use Rattle.ov_even.specs.Levels.{AreNumbersBehind};

use crate::level_pieces::{level_size, pair_count, piece_in_level};
use ov_fans::Piece;

/// The number of pieces for a graph of `nodes` nodes and a group of `members` members (Even, SIAM J. Comput. 4, 1975).
pub fn group_total(nodes: usize, members: usize) -> u64
    requires nodes { nodes ≤ most_of_any_graph }
    requires members { members ≤ nodes }
    ensures count { AreSoMany nodes members result }
    ensures figures { 6 * result ≡ (members + 1) * (members * (members - 1))
        + 3 * ((nodes - members) * (members * (members - 1))) }
    ensures small { result < piece_limit }
{
    let pairs = pair_count(members);
    ((members + 1) * pairs / 3 + (nodes - members) * pairs) as u64
}

/// The piece with this number, counted from 0, for a graph of `nodes` nodes and a group of `members` members.
pub fn group_piece_at(nodes: usize, members: usize, number: u64) -> Piece
    requires nodes { nodes ≤ most_of_any_graph }
    requires members { members ≤ nodes }
    requires below { AreMoreThan nodes members number }
    ensures { IsNumbered nodes members number result }
{
    let mut level = 1;
    let mut size = level_size(members, level);
    let mut left = number as usize;
    while size <= left {
        left -= size;
        level += 1;
        size = level_size(members, level);
    }
    piece_in_level(members, level, left)
}

/// The number of pieces for a graph of `nodes` nodes and the group of all nodes.
pub fn total(nodes: usize) -> u64
    requires { nodes ≤ most_of_any_graph }
    ensures count { AreSoMany nodes nodes result }
    ensures figures { 6 * result ≡ (nodes + 1) * (nodes * (nodes - 1)) }
    ensures small { result < piece_limit }
{
    group_total(nodes, nodes)
}

/// The piece with this number, counted from 0, for a graph of `nodes` nodes and the group of all nodes.
pub fn piece_at(nodes: usize, number: u64) -> Piece
    requires nodes { nodes ≤ most_of_any_graph }
    requires below { AreMoreThan nodes nodes number }
    ensures { IsNumbered nodes nodes number result }
{
    group_piece_at(nodes, nodes, number)
}

/// The numbers of pieces of a level: `size` of them, from `first` on. They are the last ones of the level, and `before`
/// others come before them.
#[derive(Clone, Copy, Debug, PartialEq, Eq)]
pub struct LevelNumbers {
    pub first: u64,
    pub size: u64,
    pub before: u64,
}

/// The numbers of the pieces of a level behind those for the first members, `done` of them, for a graph of `nodes`
/// nodes and a group of `members` members.
pub fn level_numbers(nodes: usize, members: usize, level: usize, done: usize) -> LevelNumbers
    requires low { 1 ≤ level }
    requires high { level < nodes }
    requires members { members ≤ nodes }
    requires done { done ≤ members }
    requires nodes { nodes ≤ most_of_any_graph }
    ensures numbers { AreNumbersBehind nodes members done level result.first result.size }
    ensures small { result.first + result.size < piece_limit }
    ensures before { result.before ≤ result.first }
{
    let size = level_size(members, level);
    let mut first = 0;
    for lower in 1..level {
        first += level_size(members, lower);
    }
    let before = level_size(done, level);
    LevelNumbers {
        first: (first + before) as u64,
        size: (size - before) as u64,
        before: before as u64,
    }
}
