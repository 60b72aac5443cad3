//! The outline that a search for the level of the deciding piece leads to, by several workers.
ghost use Rattle.std.specs.Prelude.{◌≡◌, IfOk};
ghost use Rattle.ov_graph.specs.Links.{IsGroup};
ghost use Rattle.ov_even.specs.Outlines.{IsOutline};

use crate::analysis_by_threads::search;
use crate::hook_after_claim::Gate;
use crate::threads_by_amount_of_work::Hiring;
use ov_cert::Cert;
use ov_even::{LevelSearch, Watcher, outline_of_hauls, outline_of_search as outline_by_one};
use ov_graph::Graph;
use ov_ids::{NodeId, OutOfMemory, Workers};
use std::alloc::Global;
use std::thread::Threads;

/// The outline that this search leads to. One worker works in the caller's thread and passes no gate.
pub(crate) fn outline_of_search<'a, R: Threads + Sync, G: Gate, W: Watcher>(
    rt: &R,
    alloc: Global,
    graph: &'a Graph,
    group: &'a [NodeId],
    begun: LevelSearch<'a>,
    workers: Workers,
    gate: &G,
    watcher: &mut W,
) -> Result<Cert, OutOfMemory>
    requires group { IsGroup graph.now group.now }
    requires graph { begun.search.graph ≡ graph.now }
    requires members { begun.search.members ≡ group.now }
    ensures { IfOk result (λ c. IsOutline graph.now group.now c) }
{
    if workers == Workers::ONE {
        return outline_by_one(alloc, graph, group, begun, watcher);
    }
    let hiring = Hiring {
        workers,
        sparing: true,
    };
    let hauls = search(rt, alloc, graph, group, begun, &hiring, gate, watcher)?;
    outline_of_hauls(alloc, graph, group, &hauls)
}
