ghost use Rattle.std.specs.Prelude.{◌≡◌, ◌<◌, length};
ghost use Rattle.ov_cert.specs.Valid.{k_of};
ghost use Rattle.ov_graph.specs.Links.{HasNode};
ghost use Rattle.ov_ids.specs.Members.{Has};
ghost use Rattle.ov_sweep.specs.Rows.{AreNumbersOf, HasDegree, IsLeastDegree};

use ov_cert::Cert;
use ov_graph::Graph;
use ov_grow::PhaseEnd;
use ov_ids::NodeId;
use ov_snap::Report;
use ov_sweep_rows::{DeliveredShare, PhaseCosts, PhaseRow, PhaseShape};

/// What a row says of a phase: the numbers of the report of its end, how many of its broadcasts were delivered, and
/// what was measured beside them.
pub(crate) fn phase_row(
    report: &Report,
    phase: PhaseEnd,
    broadcasts: u32,
    costs: Option<PhaseCosts>,
    shape: Option<PhaseShape>,
) -> PhaseRow
    requires { HasNode report.now.graph }
    ensures numbers { AreNumbersOf report.now broadcasts phase.deliveries result }
    ensures costs { result.costs ≡ costs }
    ensures shape { result.shape ≡ shape }
{
    let graph = report.checked().graph();
    let nodes = graph.nodes().len() as u32;
    PhaseRow {
        nodes,
        k: number_of(report.checked().cert()),
        least_degree: least_degree(graph),
        links: link_count(graph),
        entries: report.moment(),
        delivered: DeliveredShare::new(phase.deliveries, broadcasts, nodes),
        costs,
        shape,
    }
}

/// How few crashes split the group of a certificate.
fn number_of(cert: &Cert) -> u32
    ensures { result ≡ k_of cert.now }
{
    match cert {
        Cert::Linked { k } => *k,
        Cert::Split(split) => split.k,
    }
}

/// How many links a graph has.
fn link_count(graph: &Graph) -> u32
    ensures { result ≡ length graph.now.links }
{
    let _nodes = graph.nodes();
    graph.links().count() as u32
}

/// How few neighbours a node of a graph has.
fn least_degree(graph: &Graph) -> u32
    requires { HasNode graph.now }
    ensures { IsLeastDegree graph.now result }
{
    let nodes = graph.nodes();
    let mut least = degree(graph, nodes[0]);
    for node in nodes {
        least = least.min(degree(graph, *node));
    }
    least
}

/// How many neighbours a node has.
fn degree(graph: &Graph, node: NodeId) -> u32
    requires { Has graph.now.nodes node }
    ensures { HasDegree graph.now node result }
{
    let _nodes = graph.nodes();
    graph.neighbours(node).count() as u32
}
