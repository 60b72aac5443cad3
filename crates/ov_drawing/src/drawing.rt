ghost use Rattle.std.specs.Prelude.{◌≡◌, ℕ, List, [], None, Some, length, map, IfOk, MatchResult};
ghost use Rattle.ov_ids.specs.FaultOrder.{IsRefusedBy};
ghost use Rattle.ov_ids.specs.Sets.{has};
ghost use Rattle.ov_cert.specs.Valid.{k_of, IsValidForGroup};
ghost use Rattle.ov_drawing.specs.Chosen.{shown_paths};
ghost use Rattle.ov_drawing.specs.Drawn.{DrawsComponents, DrawsNodes, DrawsLinks, NoneAcross};
ghost use Rattle.ov_drawing.specs.Faults.{PictureJudged};
ghost use Rattle.ov_drawing.specs.Code.Tables.{node_by, link_by};
ghost use Rattle.ov_drawing.specs.declared.fault.PictureFault.TheVariants.{OutOfMemory as out_of_memory};

use crate::chosen_entry::{ChosenEntry, entry_paths};
use crate::classes_by_certificate::Classes;
use crate::fault::PictureFault;
use crate::node_and_link_classes::{LinkClass, NodeClass, link_class};
use crate::path_numbers::{PathNumbers, path_numbers};
use ov_cert::Cert;
use ov_components::{Components, components_without};
use ov_graph::Graph;
use ov_ids::{NodeId, OutOfMemory, Seq};
use ov_lists::Paths;
use std::alloc::Global;

/// A node of a picture.
#[derive(Clone, Copy, Debug, PartialEq, Eq)]
pub struct DrawnNode {
    pub id: NodeId,
    pub class: NodeClass,
    /// Whether the node is a member of the group.
    pub is_member: bool,
}

/// A link of a picture, its lower end first.
#[derive(Clone, Copy, Debug, PartialEq, Eq)]
pub struct DrawnLink {
    pub from: NodeId,
    pub to: NodeId,
    pub class: LinkClass,
    /// The place, from 0, of the path that goes along the link, if an entry is chosen and one of its paths does.
    pub path: Option<usize>,
}

/// What a picture shows of a graph, a group and a certificate.
#[derive(Debug, Drop)]
pub struct Drawing {
    /// The number that the certificate claims.
    pub k: u32,
    /// The nodes in ascending order.
    pub nodes: Seq<DrawnNode>,
    /// The links in ascending order.
    pub links: Seq<DrawnLink>,
    /// The components that the crash of the cut leaves, by their first ids; none where all members are linked.
    pub components: Components,
    /// The entry whose paths are shown.
    pub entry: Option<ChosenEntry>,
    /// How many paths are shown.
    pub paths: usize,
}

/// The drawing of a graph with a group and a certificate, and with the paths of an entry if one is chosen. It is not
/// checked whether the certificate is valid for this group; if it is valid for some group, no link leads across.
/// NoSuchEntry (86): the certificate has no such entry. OutOfMemory (99): an allocation was refused.
pub fn draw(
    alloc: Global,
    graph: &Graph,
    group: &[NodeId],
    cert: &Cert,
    entry: Option<ChosenEntry>,
) -> Result<Drawing, PictureFault>
    ensures k { IfOk result (λ d. d.k ≡ k_of cert.now) }
    ensures nodes { IfOk result (λ d. DrawsNodes graph.now group.now cert.now d.nodes) }
    ensures links { IfOk result (λ d. (ps : List (List ℕ)) × (shown_paths cert.now entry ≡ Some ps)
        × (d.paths ≡ length ps) × DrawsLinks graph.now cert.now ps d.links) }
    ensures parted { IfOk result (λ d. (q : List ℕ) → IsValidForGroup graph.now q cert.now → NoneAcross d.links) }
    ensures components { IfOk result (λ d. DrawsComponents graph.now cert.now d.components) }
    ensures entry { IfOk result (λ d. d.entry ≡ entry) }
    ensures judged { MatchResult result (λ _. PictureJudged cert.now entry None)
        (IsRefusedBy out_of_memory (PictureJudged cert.now entry)) }
{
    let Some(chosen) = entry else {
        return Ok(plain_drawing(alloc, graph, group, cert)?);
    };
    match entry_paths(cert, chosen) {
        Some(paths) => Ok(drawing_of(alloc, graph, group, cert, Some(chosen), paths)?),
        None => Err(PictureFault::NoSuchEntry),
    }
}

/// The drawing of a graph with a certificate, without paths.
fn plain_drawing(
    alloc: Global,
    graph: &Graph,
    group: &[NodeId],
    cert: &Cert,
) -> Result<Drawing, OutOfMemory>
    ensures k { IfOk result (λ d. d.k ≡ k_of cert.now) }
    ensures nodes { IfOk result (λ d. DrawsNodes graph.now group.now cert.now d.nodes) }
    ensures links { IfOk result (λ d. DrawsLinks graph.now cert.now [] d.links) }
    ensures parted { IfOk result (λ d. (q : List ℕ) → IsValidForGroup graph.now q cert.now → NoneAcross d.links) }
    ensures components { IfOk result (λ d. DrawsComponents graph.now cert.now d.components) }
    ensures entry { IfOk result (λ d. d.entry ≡ None) }
    ensures paths { IfOk result (λ d. d.paths ≡ 0) }
{
    let none = Paths::new(alloc);
    drawing_of(alloc, graph, group, cert, None, &none)
}

/// The drawing of a graph with a certificate and with these paths.
fn drawing_of(
    alloc: Global,
    graph: &Graph,
    group: &[NodeId],
    cert: &Cert,
    entry: Option<ChosenEntry>,
    paths: &Paths,
) -> Result<Drawing, OutOfMemory>
    ensures k { IfOk result (λ d. d.k ≡ k_of cert.now) }
    ensures nodes { IfOk result (λ d. DrawsNodes graph.now group.now cert.now d.nodes) }
    ensures links { IfOk result (λ d. DrawsLinks graph.now cert.now paths.now d.links) }
    ensures parted { IfOk result (λ d. (q : List ℕ) → IsValidForGroup graph.now q cert.now → NoneAcross d.links) }
    ensures components { IfOk result (λ d. DrawsComponents graph.now cert.now d.components) }
    ensures entry { IfOk result (λ d. d.entry ≡ entry) }
    ensures paths { IfOk result (λ d. d.paths ≡ length paths.now) }
{
    let classes = Classes::new(alloc, cert)?;
    let numbers = path_numbers(alloc, paths)?;
    let nodes = drawn_nodes(alloc, graph.nodes(), group, &classes)?;
    let links = drawn_links(alloc, graph, &classes, &numbers)?;
    let components = components_of(alloc, graph, cert)?;
    Ok(Drawing {
        k: claimed(cert),
        nodes: Seq::new(nodes),
        links: Seq::new(links),
        components,
        entry,
        paths: paths.len(),
    })
}

/// The components that the crash of a certificate's cut leaves, or none if it has no cut.
fn components_of(alloc: Global, graph: &Graph, cert: &Cert) -> Result<Components, OutOfMemory>
    ensures { IfOk result (DrawsComponents graph.now cert.now) }
{
    match cert {
        Cert::Linked { .. } => Ok(Components::none(alloc)),
        Cert::Split(split) => components_without(alloc, graph, split.cut.as_slice()),
    }
}

/// The number that a certificate claims.
fn claimed(cert: &Cert) -> u32
    ensures { result ≡ k_of cert.now }
{
    match cert {
        Cert::Linked { k } => *k,
        Cert::Split(split) => split.k,
    }
}

/// These nodes with their classes, members of the group or not.
fn drawn_nodes(
    alloc: Global,
    nodes: &[NodeId],
    group: &[NodeId],
    classes: &Classes,
) -> Result<Vec<DrawnNode>, OutOfMemory>
    ensures { IfOk result (λ drawn. drawn.items ≡ map (node_by classes.now group.now) nodes.now) }
{
    let mut drawn = Vec::with_capacity(alloc, nodes.len())?;
    for id in nodes {
        drawn.push(DrawnNode {
            id: *id,
            class: classes.of(*id),
            is_member: has(group, *id),
        })?;
    }
    Ok(drawn)
}

/// Whether an id is among these.
fn has(ids: &[NodeId], id: NodeId) -> bool
    ensures { result ≡ has ids.now id }
{
    ids.iter().any(|other| *other == id)
}

/// The links of a graph with their classes and their paths.
fn drawn_links(
    alloc: Global,
    graph: &Graph,
    classes: &Classes,
    numbers: &PathNumbers,
) -> Result<Vec<DrawnLink>, OutOfMemory>
    ensures { IfOk result (λ drawn. drawn.items ≡ map (link_by classes.now numbers.now) graph.now.links) }
{
    let mut drawn = Vec::new(alloc);
    for (from, to) in graph.links() {
        drawn.push(DrawnLink {
            from,
            to,
            class: link_class(classes.of(from).band(), classes.of(to).band()),
            path: numbers.get(&(from, to)).copied(),
        })?;
    }
    Ok(drawn)
}
