//! The outline of an answer, by several workers. That of a large graph takes two searches: one of a copy with other ids
//! for the number, and one of the graph for the cut.
ghost use Rattle.std.specs.Prelude.{IfOk};
ghost use Rattle.ov_graph.specs.Links.{IsGroup};
ghost use Rattle.ov_even.specs.Outlines.{IsOutline, IsOutlined};

use crate::group_number_by_copy::number_by_copy;
use crate::hook_after_claim::Gate;
use crate::outline_search::outline_of_search;
use ov_cert::{Cert, are_all_linked};
use ov_even::{AnalyseFault, Keeping, LevelSearch, Watcher, judge_group, outline_of_hauls};
use ov_graph::Graph;
use ov_ids::{NodeId, OutOfMemory, Workers};
use std::alloc::Global;
use std::thread::Threads;

/// A graph that has more links than so many times its nodes is analysed as it is.
const LINKS_OF_A_NODE: usize = 16;

/// Finds the fewest node crashes that split a group, and the cut of an analysis, as `analyse_group_watched` does, but
/// keeps no paths: the certificate is the outline of one that is valid (Even, SIAM J. Comput. 4, 1975). Workers, gate
/// and watcher are as there. Of a large graph with few links the watcher sees the levels of a copy first, whose ids
/// differ, and maybe those of its first members there, and then one level of the graph. Faults, in this order: NoNodes
/// (30), the graph has no node; BadGroup (34), the members are no group. OutOfMemory (99) is returned only if neither
/// applies.
pub fn outline_group_watched<R: Threads + Sync, G: Gate, W: Watcher>(
    rt: &R,
    alloc: Global,
    graph: &Graph,
    group: &[NodeId],
    workers: Workers,
    gate: &G,
    watcher: &mut W,
) -> Result<Cert, AnalyseFault>
    ensures outlined { IsOutlined graph.now group.now result }
{
    judge_group(graph, group)?;
    Ok(outline_of_group(rt, alloc, graph, group, workers, gate, watcher)?)
}

/// The outline of a group.
fn outline_of_group<R: Threads + Sync, G: Gate, W: Watcher>(
    rt: &R,
    alloc: Global,
    graph: &Graph,
    group: &[NodeId],
    workers: Workers,
    gate: &G,
    watcher: &mut W,
) -> Result<Cert, OutOfMemory>
    requires { IsGroup graph.now group.now }
    ensures { IfOk result (λ c. IsOutline graph.now group.now c) }
{
    if are_all_linked(graph, group) {
        return outline_of_hauls(alloc, graph, group, &[]);
    }
    if needs_no_copy(graph) {
        let begun = LevelSearch::new(alloc, graph, group, Keeping::CutsAlone);
        return outline_of_search(rt, alloc, graph, group, begun, workers, gate, watcher);
    }
    let number = number_by_copy(rt, alloc, graph, group, workers, gate, watcher)?;
    let begun = LevelSearch::known(alloc, graph, group, number.fewest, number.unsplit);
    outline_of_search(rt, alloc, graph, group, begun, workers, gate, watcher)
}

/// Whether a graph is analysed as it is: if it is small, or has so many links that its paths are short whatever the
/// order of its ids is. Of many links there would be many pairs of first members in the copy that are not linked.
fn needs_no_copy(graph: &Graph) -> bool {
    let nodes = graph.nodes().len();
    prove!(nodes <= Graph::MOST_OF_ANY);
    if nodes <= Graph::MOST_NODES {
        return true;
    }
    let mut left = LINKS_OF_A_NODE * nodes;
    for _ in graph.links() {
        if left == 0 {
            return true;
        }
        left -= 1;
    }
    false
}
