//! The certificate that hauls suffice for, whose paths are lists of places of nodes in the graph, as they were found.
ghost use Rattle.std.specs.Prelude.{◌≡◌, ◌-◌, ◌^◌, map, min, IfOk};
ghost use Rattle.ov_graph.specs.Links.{IsGroup};
ghost use Rattle.ov_cert.specs.Valid.{IsValidForGroup};
ghost use Rattle.ov_even.specs.Answer.{IsCheckedAnswer};
ghost use Rattle.ov_even.specs.Hauls.{Suffice};
ghost use Rattle.ov_even.specs.Naming.{AreFound, named_of};
ghost use Rattle.ov_even.specs.Outlines.{HasNoPaths};
ghost use Rattle.ov_even.specs.Theorems.{AreAlike};
ghost use Rattle.ov_even.specs.Code.Entries.{pair_entries, fan_entries};
ghost use Rattle.ov_certwriter.specs.Length.{path_ids};
ghost use Rattle.ov_certwriter.specs.Code.Placed.{HasEntries};

use crate::entries_by_places::{PlacedFan, PlacedPair};
use crate::entry_lengths::ids_of;
use ov_cert::Cert;
use ov_even::{FoundPaths, Haul, Piece, outline_of_hauls, wanted_paths};
use ov_fans::member;
use ov_graph::Graph;
use ov_ids::{NodeId, OutOfMemory};
use std::alloc::Global;
use std::marker::Model;

/// The entries of a certificate, for pairs and for fans.
#[derive(Drop)]
pub(crate) struct PlacedEntries<'a> {
    pub(crate) pairs: Vec<PlacedPair<'a>>,
    pub(crate) fans: Vec<PlacedFan<'a>>,
}

/// A certificate for a graph and a group, whose paths are lists of places of nodes in the graph. They are not copied
/// from the hauls that have them. Contracts see the certificate by ids.
#[derive(Drop)]
pub struct PlacedAnswer<'a> {
    graph: &'a Graph,
    group: &'a [NodeId],
    /// All of the certificate but its entries.
    outline: Cert,
    entries: PlacedEntries<'a>,
}

impl<'a> Model for PlacedAnswer<'a> {
    ghost use Rattle.ov_cert.specs.State.{CheckedState};
    ghost use Rattle.ov_even.specs.Outlines.{HasNoPaths};
    ghost use Rattle.ov_certwriter.specs.Code.Placed.{cert_with, AreFull};

    ghost Value = { CheckedState };

    ghost view = { λ a. record {
      graph = a.graph.now;
      members = a.group.now;
      cert = cert_with a.outline a.entries.pairs.items a.entries.fans.items;
    } };

    ghost invariant = { λ a. HasNoPaths a.outline × AreFull a.outline a.entries.pairs.items a.entries.fans.items };
}

impl<'a> PlacedAnswer<'a> {
    /// The graph.
    pub(crate) fn graph(&self) -> &'a Graph
        ensures { result.now ≡ self.now.graph }
    {
        self.graph
    }

    /// The members of the group, ascending.
    pub(crate) fn members(&self) -> &'a [NodeId]
        ensures { result.now ≡ self.now.members }
    {
        self.group
    }

    /// The outline of the certificate: all of it but its paths.
    pub fn outline(&self) -> &Cert
        ensures alike { AreAlike self.now.cert result.now }
        ensures no_paths { HasNoPaths result.now }
    {
        &self.outline
    }

    /// How many ids the paths of the certificate have together, each path with both its ends; at most 2^64 - 1. The
    /// time is linear in the number of entries, and does not depend on the lengths of paths.
    pub fn path_ids(&self) -> u64
        ensures { result ≡ min (path_ids self.now.cert) (2 ^ 64 - 1) }
    {
        let Cert::Split(split) = &self.outline else {
            return 0;
        };
        let paths = u64::from(split.k);
        let pairs = ids_of(self.entries.pairs.as_slice(), paths);
        let fans = ids_of(self.entries.fans.as_slice(), paths);
        pairs.saturating_add(fans)
    }

    /// The entries of the certificate.
    pub(crate) fn entries(&self) -> &PlacedEntries<'a>
        ensures { HasEntries self.now.cert result.now.pairs.items result.now.fans.items }
    {
        &self.entries
    }
}

/// The certificate that these hauls suffice for, with its paths by places. They stay where they are. Faults: out of
/// memory (99).
pub fn place_answer<'a>(
    alloc: Global,
    graph: &'a Graph,
    group: &'a [NodeId],
    hauls: &'a [Haul],
) -> Result<PlacedAnswer<'a>, OutOfMemory>
    requires group { IsGroup graph.now group.now }
    requires suffice { Suffice graph.now group.now hauls.now }
    ensures answer { IfOk result (λ a. IsCheckedAnswer graph.now group.now a) }
    ensures valid { IfOk result (λ a. IsValidForGroup graph.now group.now a.cert) }
{
    prove!(graph.nodes().len() <= Graph::MOST_OF_ANY);
    let outline = outline_of_hauls(alloc, graph, group, hauls)?;
    let found = wanted_paths(alloc, graph, group, hauls)?;
    let entries = place_entries(alloc, graph, group, &found)?;
    Ok(PlacedAnswer {
        graph,
        group,
        outline,
        entries,
    })
}

/// The entries of these pieces: those of pairs, and those of fans.
fn place_entries<'a>(
    alloc: Global,
    graph: &'a Graph,
    group: &[NodeId],
    found: &[FoundPaths<'a>],
) -> Result<PlacedEntries<'a>, OutOfMemory>
    requires { AreFound graph.now group.now found.now }
    ensures pairs { IfOk result (λ entries. entries.pairs.items
        ≡ pair_entries group.now (map (named_of graph.now group.now) found.now)) }
    ensures fans { IfOk result (λ entries. entries.fans.items
        ≡ fan_entries group.now (map (named_of graph.now group.now) found.now)) }
{
    let mut pairs = Vec::new(alloc);
    let mut fans = Vec::new(alloc);
    for FoundPaths { piece, paths } in found {
        match *piece {
            Piece::Pair { i, j, .. } => {
                let (i, j) = (member(group, i), member(group, j));
                pairs.push(PlacedPair::new(i, j, graph, paths))?;
            }
            Piece::Fan { j, .. } => {
                let j = member(group, j);
                fans.push(PlacedFan::new(j, graph, paths))?;
            }
        }
    }
    Ok(PlacedEntries { pairs, fans })
}
