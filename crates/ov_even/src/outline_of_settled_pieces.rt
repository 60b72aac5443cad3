//! The outline of the certificate that settled pieces suffice for: all of it but its paths.
ghost use Rattle.std.specs.Prelude.{IfOk, IfSome, IfNone};
ghost use Rattle.ov_graph.specs.Links.{IsGroup, AreAllLinked};
ghost use Rattle.ov_cert.specs.Valid.{IsValidForGroup};
ghost use Rattle.ov_even.specs.Hauls.{SufficeForOutline};
ghost use Rattle.ov_even.specs.Outlines.{IsOutline};
ghost use Rattle.ov_even.specs.Code.Cuts.{IsDeciding};

use crate::assembly::split_of;
use crate::certificate_entries::Entries;
use crate::first_piece_with_cut::first_cut;
use crate::worker_haul::Haul;
use ov_cert::{Cert, are_all_linked};
use ov_fans::{Found, Settled};
use ov_graph::Graph;
use ov_ids::{NodeId, OutOfMemory};
use std::alloc::Global;

/// The outline of the certificate of these hauls: all of it but its paths. Faults: out of memory (99).
pub fn outline_of_hauls(
    alloc: Global,
    graph: &Graph,
    group: &[NodeId],
    hauls: &[Haul],
) -> Result<Cert, OutOfMemory>
    requires group { IsGroup graph.now group.now }
    requires suffice { SufficeForOutline graph.now group.now hauls.now }
    ensures { IfOk result (λ c. IsOutline graph.now group.now c) }
{
    prove!(graph.nodes().len() <= Graph::MOST_OF_ANY);
    if let Some(cert) = linked_cert(graph, group) {
        return Ok(cert);
    }
    match first_cut(hauls) {
        Some(first) => split_outline(alloc, graph, group, first),
        None => unreachable!(),
    }
}

/// The certificate of a group in which every two members are linked. It has no paths, so it is its own outline. None if
/// two members are not linked.
pub(crate) fn linked_cert(graph: &Graph, group: &[NodeId]) -> Option<Cert>
    requires { IsGroup graph.now group.now }
    ensures outline { IfSome result (λ c. IsOutline graph.now group.now c) }
    ensures valid { IfSome result (λ c. IsValidForGroup graph.now group.now c) }
    ensures none { IfNone result (¬ AreAllLinked graph.now group.now) }
{
    prove!(graph.nodes().len() <= Graph::MOST_OF_ANY);
    if !are_all_linked(graph, group) {
        return None;
    }
    Some(Cert::Linked {
        k: group.len() as u32 - 1,
    })
}

/// The outline that names the cut of the deciding piece.
fn split_outline(
    alloc: Global,
    graph: &Graph,
    group: &[NodeId],
    first: &Settled,
) -> Result<Cert, OutOfMemory>
    requires group { IsGroup graph.now group.now }
    requires apart { ¬ AreAllLinked graph.now group.now }
    requires first { IsDeciding graph.now group.now first.now }
    ensures { IfOk result (λ c. IsOutline graph.now group.now c) }
{
    prove!(graph.nodes().len() <= Graph::MOST_OF_ANY);
    let Found::Cut(parting) = &first.found else {
        unreachable!()
    };
    let k = first.piece.level() - 1;
    let entries = Entries {
        pairs: Vec::new(alloc),
        fans: Vec::new(alloc),
    };
    Ok(Cert::Split(split_of(alloc, k as u32, parting, entries)?))
}
