//! The analysis of a graph and a group by one worker.
ghost use Rattle.std.specs.Prelude.{◌≡◌, None, Some, IfOk, IfErr};
ghost use Rattle.ov_graph.specs.Links.{IsGroup};
ghost use Rattle.ov_even.specs.Answer.{IsAnalysed};
ghost use Rattle.ov_even.specs.Faults.{GroupJudged};
ghost use Rattle.ov_even.specs.Hauls.{IsSettledGroup, Suffice};
ghost use Rattle.ov_even.specs.Outlines.{IsOutline};

use crate::assembly::assemble_group;
use crate::fault::AnalyseFault;
use crate::level_search::{LevelSearch, search};
use crate::outline_of_settled_pieces::outline_of_hauls;
use crate::progress_watcher::{Unwatched, Watcher};
use crate::worker_haul::{Haul, Keeping};
use ov_cert::{Cert, Checked, are_all_linked};
use ov_graph::Graph;
use ov_ids::{NodeId, OutOfMemory};
use std::alloc::Global;

/// Analyses a graph for the group of all nodes, without a watcher. See `analyse_group_watched`.
pub fn analyse_alone(alloc: Global, graph: &Graph) -> Result<Checked, AnalyseFault>
    ensures analysed { IsAnalysed graph.now graph.now.nodes result }
{
    analyse_group_alone(alloc, graph, graph.nodes())
}

/// Analyses a graph for a group, without a watcher. See `analyse_group_watched`.
pub fn analyse_group_alone(
    alloc: Global,
    graph: &Graph,
    group: &[NodeId],
) -> Result<Checked, AnalyseFault>
    ensures analysed { IsAnalysed graph.now group.now result }
{
    analyse_group_watched(alloc, graph, group, &mut Unwatched)
}

/// Finds the fewest node crashes that split a group, and a certificate that proves the number (Even, SIAM J. Comput. 4,
/// 1975). The watcher sees each piece before it is settled. Faults, in this order: NoNodes (30), the graph has no node;
/// BadGroup (34), the members are no group. OutOfMemory (99) is returned only if neither applies.
pub fn analyse_group_watched<W: Watcher>(
    alloc: Global,
    graph: &Graph,
    group: &[NodeId],
    watcher: &mut W,
) -> Result<Checked, AnalyseFault>
    ensures analysed { IsAnalysed graph.now group.now result }
{
    let hauls = settle_group_watched(alloc, graph, group, watcher)?;
    assemble_group(alloc, graph, group, &hauls)
}

/// The outline that this search leads to, by one worker. The watcher sees each piece before it is examined. Faults: out
/// of memory (99).
pub fn outline_of_search<'a, W: Watcher>(
    alloc: Global,
    graph: &'a Graph,
    group: &'a [NodeId],
    begun: LevelSearch<'a>,
    watcher: &mut W,
) -> Result<Cert, OutOfMemory>
    requires group { IsGroup graph.now group.now }
    requires graph { begun.search.graph ≡ graph.now }
    requires members { begun.search.members ≡ group.now }
    ensures { IfOk result (λ c. IsOutline graph.now group.now c) }
{
    let hauls = search(alloc, graph, group, begun, watcher)?;
    outline_of_hauls(alloc, graph, group, &hauls)
}

/// Settles pieces of Even's test until they suffice for a certificate of the group: none if every two members are
/// linked. The watcher sees each piece before it is settled. Faults, in this order: NoNodes (30), the graph has no
/// node; BadGroup (34), the members are no group. OutOfMemory (99) is returned only if neither applies.
pub fn settle_group_watched<W: Watcher>(
    alloc: Global,
    graph: &Graph,
    group: &[NodeId],
    watcher: &mut W,
) -> Result<Vec<Haul>, AnalyseFault>
    ensures settled { IsSettledGroup graph.now group.now result }
{
    judge_group(graph, group)?;
    Ok(enough(alloc, graph, group, watcher)?)
}

/// Whether the group can be analysed. Faults, in this order: NoNodes (30), the graph has no node; BadGroup (34), the
/// members are no group.
pub fn judge_group(graph: &Graph, group: &[NodeId]) -> Result<(), AnalyseFault>
    ensures passed { IfOk result (λ _. GroupJudged graph.now group.now None) }
    ensures refused { IfErr result (λ fault. GroupJudged graph.now group.now (Some fault)) }
{
    if graph.nodes().is_empty() {
        return Err(AnalyseFault::NoNodes);
    }
    if !graph.is_group(group) {
        return Err(AnalyseFault::BadGroup);
    }
    Ok(())
}

/// Settles enough pieces: none if every two members are linked.
fn enough<W: Watcher>(
    alloc: Global,
    graph: &Graph,
    group: &[NodeId],
    watcher: &mut W,
) -> Result<Vec<Haul>, OutOfMemory>
    requires { IsGroup graph.now group.now }
    ensures { IfOk result (λ hauls. Suffice graph.now group.now hauls.items) }
{
    if are_all_linked(graph, group) {
        return Ok(Vec::new(alloc));
    }
    let begun = LevelSearch::new(alloc, graph, group, Keeping::EachPiece);
    search(alloc, graph, group, begun, watcher)
}
