//! Pieces of graphs whose rows of bits take one word, a little more, four, a little more, and all sixteen.
ghost use Rattle.std.specs.Prelude.{◌≤◌};

use crate::families::Family::{self, AllButOne, Path, Ring, Star};
use crate::families::{of_size, span};
use crate::wanted::Ask::{Fan, Pair};
use crate::wanted::Want::{Cut, Linked, Paths};
use crate::wanted::{other_in_turn, other_of_group};
use ov_graph::Graph;
use ov_ids::NodeId;
use std::alloc::Global;
use std::test::Fail;

/// How many nodes the graphs have: node 1 stands at place 0, and the last node at the place below this number.
const SIZES: [u16; 5] = [64, 65, 256, 257, 1_024];

/// From 1 one comes away over 2 and over the last node, and from the last one over 1 and over the node before it.
fn ring_is_right(alloc: Global, graph: &Graph, n: u16) -> Result<bool, Fail>
    requires { 4 ≤ n }
{
    let last = u32::from(n);
    let other = other_in_turn(
        alloc,
        graph,
        &[
            (Pair(3, 1, 3), Cut(&[2, last], 1, 3, &[1])),
            (Fan(2, n), Paths),
            (Fan(3, n), Cut(&[1, last - 1], last, 2, &[last])),
        ],
    )?;
    Ok(other.is_none())
}

/// Each two nodes of a ring have two paths, one each way round.
fn ways_round_are_right(alloc: Global, graph: &Graph, n: u16) -> Result<bool, Fail> {
    let last = u32::from(n);
    let half = last / 2;
    let other = other_of_group(
        alloc,
        graph,
        &[NodeId(1), NodeId(half), NodeId(last)],
        &[
            (Pair(2, 1, 2), Paths),
            (Pair(3, 1, 2), Cut(&[2, last], 1, half, &[1])),
            (Fan(2, 3), Paths),
        ],
    )?;
    Ok(other.is_none())
}

/// All others are linked to the last node alone, which so cuts each of them off, and has a path to each.
fn star_is_right(alloc: Global, graph: &Graph, n: u16) -> Result<bool, Fail>
    requires { 4 ≤ n }
{
    let last = u32::from(n);
    let other = other_in_turn(
        alloc,
        graph,
        &[
            (Pair(2, 1, 2), Cut(&[last], 1, 2, &[1])),
            (Fan(n - 1, n), Paths),
            (Fan(1, n - 1), Paths),
            (Fan(2, n - 1), Cut(&[last], last - 1, 1, &[last - 1])),
        ],
    )?;
    Ok(other.is_none())
}

/// Each node inside cuts those below it off from those above it. The nearest cut is the neighbour.
fn path_is_right(alloc: Global, graph: &Graph, n: u16) -> Result<bool, Fail>
    requires { 4 ≤ n }
{
    let last = u32::from(n);
    let other = other_in_turn(
        alloc,
        graph,
        &[
            (Fan(1, n), Paths),
            (Fan(2, n), Cut(&[last - 1], last, 1, &[last])),
        ],
    )?;
    Ok(other.is_none())
}

/// What 2 cuts off from 1 is all the rest.
fn rest_is_right(alloc: Global, graph: &Graph, n: u16) -> Result<bool, Fail> {
    let from_second = span(alloc, 2, u32::from(n))?;
    if from_second.is_empty() {
        return Ok(false);
    }
    let (second, rest) = from_second.split_at(1);
    let other = other_in_turn(alloc, graph, &[(Fan(2, 3), Cut(second, 3, 1, rest))])?;
    Ok(other.is_none())
}

/// The one path between the ends of a path has all nodes.
fn ends_are_right(alloc: Global, graph: &Graph, n: u16) -> Result<bool, Fail> {
    let last = u32::from(n);
    let other = other_of_group(
        alloc,
        graph,
        &[NodeId(1), NodeId(last)],
        &[
            (Pair(2, 1, 2), Cut(&[2], 1, last, &[1])),
            (Fan(1, 2), Paths),
        ],
    )?;
    Ok(other.is_none())
}

fn is_path_right(alloc: Global, graph: &Graph, n: u16) -> Result<bool, Fail>
    requires { 4 ≤ n }
{
    Ok(
        path_is_right(alloc, graph, n)?
            && rest_is_right(alloc, graph, n)?
            && ends_are_right(alloc, graph, n)?,
    )
}

/// The first and the last node are not linked, and all others are linked to both: these are a cut.
fn all_but_one_is_right(alloc: Global, graph: &Graph, n: u16) -> Result<bool, Fail>
    requires { 4 ≤ n }
{
    let last = u32::from(n);
    let between = span(alloc, 2, last - 1)?;
    let other = other_in_turn(
        alloc,
        graph,
        &[
            (Pair(n - 1, 1, 2), Linked),
            (Fan(n - 2, n), Paths),
            (Fan(n - 1, n), Cut(&between, last, 1, &[last])),
        ],
    )?;
    Ok(other.is_none())
}

/// As many paths lead from the first node to the last one as nodes are between.
fn unlinked_are_right(alloc: Global, graph: &Graph, n: u16) -> Result<bool, Fail>
    requires { 4 ≤ n }
{
    let last = u32::from(n);
    let between = span(alloc, 2, last - 1)?;
    let other = other_of_group(
        alloc,
        graph,
        &[NodeId(1), NodeId(last)],
        &[
            (Pair(n - 2, 1, 2), Paths),
            (Pair(n - 1, 1, 2), Cut(&between, 1, last, &[1])),
        ],
    )?;
    Ok(other.is_none())
}

fn is_right(alloc: Global, family: Family, n: u16) -> Result<bool, Fail>
    requires { 4 ≤ n }
{
    let graph = of_size(alloc, family, u32::from(n))?;
    match family {
        Ring => Ok(ring_is_right(alloc, &graph, n)? && ways_round_are_right(alloc, &graph, n)?),
        Star => star_is_right(alloc, &graph, n),
        Path => is_path_right(alloc, &graph, n),
        AllButOne => Ok(
            all_but_one_is_right(alloc, &graph, n)? && unlinked_are_right(alloc, &graph, n)?,
        ),
    }
}

fn are_right(alloc: Global, n: u16) -> Result<bool, Fail> {
    if n < 4 {
        return Ok(false);
    }
    for family in [Ring, Star, Path, AllButOne] {
        if !is_right(alloc, family, n)? {
            return Ok(false);
        }
    }
    Ok(true)
}

#[test]
fn pieces_of_each_size(rt: HostRuntime) -> Result<(), Fail> {
    for n in SIZES {
        assert!(rt; are_right(rt.alloc(), n)?, "of {n} nodes");
    }
    Ok(())
}
