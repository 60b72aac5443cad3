ghost use Rattle.std.specs.Prelude.{◌↔◌, IsTrue};
ghost use Rattle.ov_even.specs.Answer.{IsAnalysed};
ghost use Rattle.example_programs.specs.Withstanding.{Withstands};

use ov_cert::{Cert, Checked, valid_means};
use ov_crew::{OpenGate, analyse_group};
use ov_even::AnalyseFault;
use ov_graph::Graph;
use ov_ids::{NodeId, Workers};
use std::alloc::Global;
use std::thread::Threads;

/// How many threads analyse the network.
const WORKERS: u32 = 2;

/// The analysis of a group of nodes by two workers.
pub(crate) fn analysis<R: Threads + Sync>(
    rt: &R,
    alloc: Global,
    graph: &Graph,
    group: &[NodeId],
) -> Result<Checked, AnalyseFault>
    ensures { IsAnalysed graph.now group.now result }
{
    let workers = Workers::new(WORKERS).unwrap_or(Workers::ONE);
    analyse_group(rt, alloc, graph, group, workers, &OpenGate)
}

/// Whether every two members of the group that are left stay joined after the failure of any so many nodes, whichever
/// they are.
pub(crate) fn withstands(checked: &Checked, failures: u32) -> bool
    ensures { IsTrue result ↔ Withstands checked.now.graph checked.now.members failures }
{
    valid_means();
    match checked.cert() {
        Cert::Linked { .. } => true,
        Cert::Split(split) => failures < split.k,
    }
}
