//! Makes a certificate from the pieces that several workers have settled.
ghost use Rattle.std.specs.Prelude.{◌≡◌, map, IfOk, IfErr};
ghost use Rattle.ov_graph.specs.Links.{HasNode, IsGroup, AreAllLinked};
ghost use Rattle.ov_cert.specs.Valid.{IsValidForGroup};
ghost use Rattle.ov_even.specs.Answer.{IsAnswer, IsCheckedAnswer, IsAnalysed, NamesParting};
ghost use Rattle.ov_even.specs.Hauls.{Suffice};
ghost use Rattle.ov_even.specs.Naming.{AreWanted, HaveAskedPaths};
ghost use Rattle.ov_even.specs.Code.Cuts.{IsDeciding};
ghost use Rattle.ov_even.specs.declared.fault.AnalyseFault.TheVariants.{OutOfMemory as out_of_memory};

use crate::certificate_entries::{Entries, entries_of};
use crate::fault::AnalyseFault;
use crate::first_piece_with_cut::first_cut;
use crate::outline_of_settled_pieces::linked_cert;
use crate::paths_by_ids::{NamedPaths, name_paths};
use crate::paths_wanted_by_certificate::wanted_paths;
use crate::worker_haul::Haul;
use ov_cert::{Cert, Checked, Split};
use ov_fans::{Found, Parting, Settled};
use ov_graph::Graph;
use ov_ids::{NodeId, OutOfMemory, Seq};
use std::alloc::Global;

/// Makes the certificate for the group of all nodes. See `assemble_group`. A graph without nodes is refused (30).
pub fn assemble(alloc: Global, graph: &Graph, hauls: &[Haul]) -> Result<Checked, AnalyseFault>
    requires { HasNode graph.now → Suffice graph.now graph.now.nodes hauls.now }
    ensures analysed { IsAnalysed graph.now graph.now.nodes result }
{
    if graph.nodes().is_empty() {
        return Err(AnalyseFault::NoNodes);
    }
    assemble_group(alloc, graph, graph.nodes(), hauls)
}

/// Makes the certificate from the hauls of all workers, in any order. If two members are not linked, it names the cut
/// of the first piece with a cut, and has the paths of the level below (Even, SIAM J. Comput. 4, 1975). Faults: out of
/// memory (99).
pub fn assemble_group(
    alloc: Global,
    graph: &Graph,
    group: &[NodeId],
    hauls: &[Haul],
) -> Result<Checked, AnalyseFault>
    requires group { IsGroup graph.now group.now }
    requires suffice { Suffice graph.now group.now hauls.now }
    ensures answer { IfOk result (λ c. IsCheckedAnswer graph.now group.now c) }
    ensures refused { IfErr result (λ fault. fault ≡ out_of_memory) }
{
    let found = wanted_paths(alloc, graph, group, hauls)?;
    let named = name_paths(alloc, graph, group, &found)?;
    assemble_named(alloc, graph, group, hauls, named)
}

/// Makes the certificate from the hauls of all workers, in any order, and from the pieces whose paths it has, with
/// these paths by ids. See `assemble_group`. Faults: out of memory (99).
pub fn assemble_named(
    alloc: Global,
    graph: &Graph,
    group: &[NodeId],
    hauls: &[Haul],
    named: Vec<NamedPaths>,
) -> Result<Checked, AnalyseFault>
    requires group { IsGroup graph.now group.now }
    requires suffice { Suffice graph.now group.now hauls.now }
    requires wanted { AreWanted graph.now group.now (map (λ n. n.piece) named.items) }
    requires asked { HaveAskedPaths graph.now group.now named.items }
    ensures answer { IfOk result (λ c. IsCheckedAnswer graph.now group.now c) }
    ensures refused { IfErr result (λ fault. fault ≡ out_of_memory) }
{
    let cert = cert_of(alloc, graph, group, hauls, named)?;
    let (graph, group) = copies(alloc, graph, group)?;
    Ok(Checked::of_valid(graph, group, cert))
}

/// Copies of the graph and the group.
fn copies(
    alloc: Global,
    graph: &Graph,
    group: &[NodeId],
) -> Result<(Graph, Vec<NodeId>), OutOfMemory>
    ensures { IfOk result (λ c. (c.0 ≡ graph.now) × (c.1.items ≡ group.now)) }
{
    let graph = graph.copy()?;
    Ok((graph, Vec::from_slice(alloc, group)?))
}

/// The certificate, which is valid for the group.
fn cert_of(
    alloc: Global,
    graph: &Graph,
    group: &[NodeId],
    hauls: &[Haul],
    named: Vec<NamedPaths>,
) -> Result<Cert, OutOfMemory>
    requires group { IsGroup graph.now group.now }
    requires suffice { Suffice graph.now group.now hauls.now }
    requires wanted { AreWanted graph.now group.now (map (λ n. n.piece) named.items) }
    requires asked { HaveAskedPaths graph.now group.now named.items }
    ensures answer { IfOk result (λ c. IsAnswer graph.now group.now c) }
    ensures valid { IfOk result (λ c. IsValidForGroup graph.now group.now c) }
{
    prove!(graph.nodes().len() <= Graph::MOST_OF_ANY);
    if let Some(cert) = linked_cert(graph, group) {
        return Ok(cert);
    }
    match first_cut(hauls) {
        Some(first) => split_cert(alloc, graph, group, first, named),
        None => unreachable!(),
    }
}

/// The certificate that names the cut of the deciding piece.
fn split_cert(
    alloc: Global,
    graph: &Graph,
    group: &[NodeId],
    first: &Settled,
    named: Vec<NamedPaths>,
) -> Result<Cert, OutOfMemory>
    requires group { IsGroup graph.now group.now }
    requires apart { ¬ AreAllLinked graph.now group.now }
    requires first { IsDeciding graph.now group.now first.now }
    requires wanted { AreWanted graph.now group.now (map (λ n. n.piece) named.items) }
    requires asked { HaveAskedPaths graph.now group.now named.items }
    ensures answer { IfOk result (λ c. IsAnswer graph.now group.now c) }
    ensures valid { IfOk result (λ c. IsValidForGroup graph.now group.now c) }
{
    prove!(graph.nodes().len() <= Graph::MOST_OF_ANY);
    let Found::Cut(parting) = &first.found else {
        unreachable!()
    };
    let k = first.piece.level() - 1;
    let entries = entries_of(alloc, group, named)?;
    Ok(Cert::Split(split_of(alloc, k as u32, parting, entries)?))
}

/// The parts of a split: its number, the parting of the deciding piece, and the entries.
pub(crate) fn split_of(
    alloc: Global,
    k: u32,
    parting: &Parting,
    entries: Entries,
) -> Result<Split, OutOfMemory>
    ensures k { IfOk result (λ c. c.k ≡ k) }
    ensures names { IfOk result (λ c. NamesParting c parting.now) }
    ensures pairs { IfOk result (λ c. c.pairs ≡ entries.pairs.items) }
    ensures fans { IfOk result (λ c. c.fans ≡ entries.fans.items) }
{
    let Entries { pairs, fans } = entries;
    let cut = parting.cut.copy(alloc)?;
    let side = parting.side.copy(alloc)?;
    Ok(Split {
        k,
        cut,
        near: parting.near,
        far: parting.far,
        side,
        pairs: Seq::new(pairs),
        fans: Seq::new(fans),
    })
}
