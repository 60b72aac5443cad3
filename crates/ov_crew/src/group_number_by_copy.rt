//! The number of a large group, found on a copy of the graph with other ids, and which of the first members no so few
//! nodes split.
ghost use Rattle.std.specs.Prelude.{◌≡◌, ◌≤◌, ◌+◌, length, take, IfOk};
ghost use Rattle.ov_ids.specs.Members.{Has};
ghost use Rattle.ov_graph.specs.Links.{IsGroup, AreAllLinked};
ghost use Rattle.ov_graph.specs.Joined.{NoFewerSplit};
ghost use Rattle.ov_cert.specs.Valid.{k_of};
ghost use Rattle.ov_even.specs.Searching.{HasNumber};
ghost use Rattle.ov_scatter.specs.Renaming.{AreNewIds};

use crate::hook_after_claim::Gate;
use crate::outline_search::outline_of_search;
use ov_cert::{Cert, Split, are_all_linked};
use ov_even::{Keeping, LevelSearch, Watcher};
use ov_graph::Graph;
use ov_ids::{NodeId, OutOfMemory, Workers};
use ov_scatter::{Scattered, scattered};
use std::alloc::Global;
use std::thread::Threads;

/// Fewer first members are not looked at on their own: their pieces take less than another search.
const LEAST_MEMBERS: usize = 256;

/// How often first members are looked at on their own, fewer each time.
const MOST_GUESSES: usize = 6;

/// The number of a group, and what is known of its first members.
#[derive(Clone, Copy, Debug)]
pub(crate) struct GroupNumber {
    /// So many nodes split the group, and fewer do not.
    pub(crate) fewest: usize,
    /// No `fewest` nodes split the first so many members. It is 0 if that is known of none.
    pub(crate) unsplit: usize,
}

/// The number of a group in which two members are not linked, found on a copy with other ids. The number depends on no
/// id, but the time does: Even's test takes members in the order of their ids. If ids go round a ring, each of its fans
/// has a path that leads round all of it, and ids far apart make the paths short.
pub(crate) fn number_by_copy<R: Threads + Sync, G: Gate, W: Watcher>(
    rt: &R,
    alloc: Global,
    graph: &Graph,
    group: &[NodeId],
    workers: Workers,
    gate: &G,
    watcher: &mut W,
) -> Result<GroupNumber, OutOfMemory>
    requires group { IsGroup graph.now group.now }
    requires apart { ¬ AreAllLinked graph.now group.now }
    ensures number { IfOk result (λ n. HasNumber graph.now group.now n.fewest) }
    ensures within { IfOk result (λ n. n.unsplit ≤ length group.now) }
    ensures unsplit { IfOk result (λ n. NoFewerSplit graph.now (take n.unsplit group.now) (n.fewest + 1)) }
{
    let copy = scattered(alloc, graph, group)?;
    let outline = outline_in_copy(rt, alloc, graph, group, &copy, workers, gate, watcher)?;
    let unsplit = unsplit_members(
        rt, alloc, graph, group, &copy, &outline, workers, gate, watcher,
    )?;
    Ok(GroupNumber {
        fewest: number_of(&outline),
        unsplit,
    })
}

/// The outline of a group in the copy, where its number is the same.
fn outline_in_copy<R: Threads + Sync, G: Gate, W: Watcher>(
    rt: &R,
    alloc: Global,
    graph: &Graph,
    group: &[NodeId],
    copy: &Scattered,
    workers: Workers,
    gate: &G,
    watcher: &mut W,
) -> Result<Cert, OutOfMemory>
    requires group { IsGroup graph.now group.now }
    requires apart { ¬ AreAllLinked graph.now group.now }
    requires copy { AreNewIds graph.now copy.now.keys.items copy.now.graph }
    ensures number { IfOk result (λ c. HasNumber graph.now group.now (k_of c)) }
{
    prove!(graph.nodes().len() <= Graph::MOST_OF_ANY);
    let copied = &copy.graph;
    let ids = copy.group_in_copy(alloc, graph, group)?;
    let members = ids.as_slice();
    let begun = LevelSearch::new(alloc, copied, members, Keeping::CutsAlone);
    Ok(outline_of_search(rt, alloc, copied, members, begun, workers, gate, watcher)?)
}

/// How many first members there are that more nodes are needed to split than the outline of the copy says; 0 if none
/// are known. Which members these may be the cuts of the copy suggest, and the copy then tells the number of these.
fn unsplit_members<R: Threads + Sync, G: Gate, W: Watcher>(
    rt: &R,
    alloc: Global,
    graph: &Graph,
    group: &[NodeId],
    copy: &Scattered,
    outline: &Cert,
    workers: Workers,
    gate: &G,
    watcher: &mut W,
) -> Result<usize, OutOfMemory>
    requires group { IsGroup graph.now group.now }
    requires copy { AreNewIds graph.now copy.now.keys.items copy.now.graph }
    ensures within { IfOk result (λ n. n ≤ length group.now) }
    ensures unsplit { IfOk result (λ n. NoFewerSplit graph.now (take n group.now) (k_of outline.now + 1)) }
{
    let fewest = number_of(outline);
    let mut count = unparted_members(graph, group, copy, outline);
    for _ in 0..MOST_GUESSES {
        let first = &group[..count];
        if count < LEAST_MEMBERS || are_all_linked(graph, first) {
            return Ok(0);
        }
        let own = outline_in_copy(rt, alloc, graph, first, copy, workers, gate, watcher)?;
        if number_of(&own) > fewest {
            return Ok(count);
        }
        count = next_guess(
            group.len(),
            count,
            unparted_members(graph, first, copy, &own),
        );
    }
    Ok(0)
}

/// The next guess, if the cut of so many first members suggests this one: fewer, if it leaves out less than four times
/// as many members as were left out. So few guesses pass over many small parts at the end that are cut off one by one.
fn next_guess(members: usize, count: usize, suggested: usize) -> usize
    ensures { result ≤ suggested }
{
    let left_out = members.saturating_sub(count);
    let fewer = count
        .saturating_sub(left_out)
        .saturating_sub(left_out)
        .saturating_sub(left_out);
    if fewer < suggested { fewer } else { suggested }
}

/// Guesses how many first members there are that more nodes are needed to split than this cut of the copy has: as many
/// as are on one side of it or in it, before the first with no more links than the cut has nodes. That one has a piece
/// which is not good at the level above, or is linked to all before it. Nothing but time rests on the guess.
fn unparted_members(graph: &Graph, group: &[NodeId], copy: &Scattered, outline: &Cert) -> usize
    requires { IsGroup graph.now group.now }
    ensures { result ≤ length group.now }
{
    let Cert::Split(split) = outline else {
        return 0;
    };
    let mut side = Side::Cut;
    for (place, member) in group.iter().enumerate() {
        if has_few_links(graph, *member, split.k) {
            return place;
        }
        let own = side_of(graph, copy, split, *member);
        if side == Side::Cut {
            side = own;
        }
        if own != Side::Cut && own != side {
            return place;
        }
    }
    group.len()
}

/// Whether a node has at most so many links.
fn has_few_links(graph: &Graph, node: NodeId, most: u32) -> bool
    requires { Has graph.now.nodes node }
{
    let mut left = most;
    for _ in graph.neighbours(node) {
        if left == 0 {
            return false;
        }
        left -= 1;
    }
    true
}

/// Where a node stands when the nodes of a cut have crashed.
#[derive(Clone, Copy, Debug, PartialEq, Eq)]
enum Side {
    /// It is in the cut.
    Cut,
    /// It is on the side that is cut off.
    Near,
    /// It is elsewhere.
    Far,
}

/// Where a node of the graph stands at a cut of the copy.
fn side_of(graph: &Graph, copy: &Scattered, split: &Split, member: NodeId) -> Side {
    let Some(place) = graph.place(member) else {
        return Side::Cut;
    };
    let Some(key) = copy.keys.get(place) else {
        return Side::Cut;
    };
    if split.cut.as_slice().binary_search(key).is_ok() {
        return Side::Cut;
    }
    if split.side.as_slice().binary_search(key).is_ok() {
        return Side::Near;
    }
    Side::Far
}

/// The number that the outline says.
fn number_of(outline: &Cert) -> usize
    ensures { result ≡ k_of outline.now }
{
    match outline {
        Cert::Linked { k } => *k as usize,
        Cert::Split(split) => split.k as usize,
    }
}
