ghost use Rattle.std.specs.Prelude.{◌≡◌, ◌≢◌, ◌↔◌, ◌⊎◌, ◌≤◌, ℕ, length, true, false, IfErr, IfOk, OnOk};
ghost use Rattle.ov_graph.specs.Links.{IsGraph, IsWithinLimit, Linked, most_of};
ghost use Rattle.ov_dump.specs.Dumps.{IsGraphOf, numbers};
ghost use Rattle.ov_dump.specs.Faults.{IsDumpFault, IsSound};
ghost use Rattle.ov_dump.specs.Code.Numbering.{IsNumbering, NodeLists};

use crate::dump_and_graph_types::{Choice, Dump, Listing, NamedGraph};
use crate::entry_and_listing_soundness::judge;
use crate::graph_making_fault::DumpFault;
use crate::links_of_pairs::links_of;
use crate::listing_pairs::listing_pairs;
use crate::node_names_by_choice::taken_names;
use crate::node_numbering::{Numbering, node_ids, numbered};
use ov_graph::{Graph, GraphFault, SizeLimit};
use ov_ids::{NodeId, OutOfMemory, Seq};
use std::alloc::Global;

/// The graph that follows from a dump, with the names of its nodes. Who lists itself is linked to nobody by that.
/// Node i has the i-th of up to 1,024 names in ascending order. Of more names the ids are scattered, so that names that
/// follow each other have ids far apart.
/// EmptyName (82) or NameTwice (80) says what is wrong with the first entry or listing that is not sound; the entries
/// come before the listings. TooManyNodes (31) is returned if all are sound, and says the first name that is one too
/// many for the limit of the choice. OutOfMemory (99) is returned if an allocation was refused.
pub fn named_graph(alloc: Global, dump: &Dump, choice: Choice) -> Result<NamedGraph, DumpFault>
    ensures graph { IfOk result (λ named. IsGraphOf choice dump.now named.graph named.names) }
    ensures limit { IfOk result (λ named. length named.graph.nodes ≤ most_of choice.limit) }
    ensures within { IfOk result (λ named. IsWithinLimit named.graph) }
    ensures sound { OnOk result (IsSound dump.now) }
    ensures fault { IfErr result (IsDumpFault choice dump.now) }
{
    judge(alloc, dump)?;
    let taken = taken_names(alloc, dump, choice)?;
    let numbering = numbered(alloc, &taken)?;
    let listings = dump.listings.as_slice();
    let graph = graph_of(alloc, &numbering, listings, choice)?;
    let names = Seq::new(numbering.names);
    Ok(NamedGraph { graph, names })
}

/// The graph of the nodes with these names.
fn graph_of(
    alloc: Global,
    numbering: &Numbering,
    listings: &[Listing],
    choice: Choice,
) -> Result<Graph, OutOfMemory>
    requires numbering { IsNumbering numbering.now }
    requires few { length numbering.now.names.items ≤ most_of choice.limit }
    ensures nodes { IfOk result (λ g. g.nodes ≡ numbers (length numbering.now.names.items)) }
    ensures graph { IfOk result IsGraph }
    ensures either { IfOk result (λ g. choice.either ≡ true → (i j : ℕ) → i ≢ j → (Linked g i j
        ↔ (NodeLists numbering.now.names.items listings.now i j
        ⊎ NodeLists numbering.now.names.items listings.now j i))) }
    ensures both { IfOk result (λ g. choice.either ≡ false → (i j : ℕ) → i ≢ j → (Linked g i j
        ↔ (NodeLists numbering.now.names.items listings.now i j
        × NodeLists numbering.now.names.items listings.now j i))) }
{
    let pairs = listing_pairs(alloc, numbering, listings)?;
    let links = links_of(alloc, pairs, choice.either)?;
    let nodes = node_ids(alloc, numbering.names.len())?;
    let graph = graph_within(alloc, choice.limit, &nodes, &links)?;
    Ok(graph)
}

/// The graph of these nodes and links, which are those of a graph within the limit.
fn graph_within(
    alloc: Global,
    limit: SizeLimit,
    nodes: &[NodeId],
    links: &[(NodeId, NodeId)],
) -> Result<Graph, OutOfMemory>
    requires graph { IsGraph (record { nodes = nodes.now; links = links.now }) }
    requires few { length nodes.now ≤ most_of limit }
    ensures { IfOk result (λ g. g ≡ record { nodes = nodes.now; links = links.now }) }
{
    match Graph::within(alloc, limit, nodes, links) {
        Ok(graph) => Ok(graph),
        Err(fault) => match fault {
            GraphFault::OutOfMemory => Err(OutOfMemory),
            _ => unreachable!(),
        },
    }
}
