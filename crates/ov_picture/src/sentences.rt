use crate::component_ranking::RankedComponents;
use crate::labels::Labels;
use ov_drawing::{ChosenEntry, Drawing, DrawnNode, NodeClass};
use ov_ids::NodeId;
use std::alloc::{AllocError, Global};
use std::fmt::Write;

/// How many nodes of a cut are named at most.
const MOST_NAMED: usize = 6;

/// Of how many components the sizes are told at most.
const MOST_SIZES: usize = 6;

/// From so many bytes of names on no further node of a cut is named.
const LONG: usize = 60;

/// What a picture shows, in one sentence, without a full stop. It names nodes as labels do.
pub(crate) fn sentence_of(
    alloc: Global,
    drawing: &Drawing,
    labels: &Labels,
) -> Result<String, AllocError> {
    let nodes = drawing.nodes.as_slice();
    let (Some(near), Some(far)) = (
        name_of_class(nodes, labels, NodeClass::Near),
        name_of_class(nodes, labels, NodeClass::Far),
    ) else {
        return String::from_str(
            alloc,
            "Every two members are linked: no crash separates survivors",
        );
    };
    let mut text = String::new(alloc);
    let cut = count_of(nodes, NodeClass::Cut);
    if cut == 0 {
        write!(
            text,
            "Node {near} is separated from node {far} without any crash"
        )?;
        return Ok(text);
    }
    text.push_str(if cut == 1 {
        "Crashing node "
    } else {
        "Crashing nodes "
    })?;
    push_cut(&mut text, nodes, labels, cut)?;
    write!(text, " separates node {near} from node {far}")?;
    Ok(text)
}

/// Appends the names of the cut, which has so many nodes.
fn push_cut(
    text: &mut String,
    nodes: &[DrawnNode],
    labels: &Labels,
    cut: usize,
) -> Result<(), AllocError> {
    let mut named: usize = 0;
    let mut length: usize = 0;
    for (at, node) in nodes.iter().enumerate() {
        if node.class == NodeClass::Cut && named < MOST_NAMED && length < LONG {
            named += 1;
            if named > 1 {
                text.push_str(if named == cut { " and " } else { ", " })?;
            }
            let name = labels.called(at);
            length = length.saturating_add(name.len());
            text.push_str(name)?;
        }
    }
    let others = cut.saturating_sub(named);
    if others > 0 {
        write!(text, " and {others} more")?;
    }
    Ok(())
}

/// What is counted in a picture: nodes, links, and the number that the certificate claims.
pub(crate) fn counts_of(alloc: Global, drawing: &Drawing) -> Result<String, AllocError> {
    let nodes = drawing.nodes.as_slice().len();
    let links = drawing.links.as_slice().len();
    let k = drawing.k;
    let node_word = if nodes == 1 { "node" } else { "nodes" };
    let link_word = if links == 1 { "link" } else { "links" };
    let claim = if k == 0 || count_of(drawing.nodes.as_slice(), NodeClass::Cut) == 0 {
        ""
    } else {
        ": fewer crashes separate no two members that survive"
    };
    format!(in alloc; "{nodes} {node_word}, {links} {link_word}, k = {k}{claim}")
}

/// How many components the crash leaves, and how large they are, unless every two members are linked.
pub(crate) fn components_of(
    alloc: Global,
    drawing: &Drawing,
    components: &RankedComponents,
) -> Result<Option<String>, AllocError> {
    let count = components.len();
    if count == 0 {
        return Ok(None);
    }
    let crash = if count_of(drawing.nodes.as_slice(), NodeClass::Cut) == 0 {
        "Without any crash there are"
    } else {
        "The crash leaves"
    };
    let mut text = format!(in alloc; "{crash} {count} components, of sizes ")?;
    push_sizes(&mut text, components)?;
    Ok(Some(text))
}

/// Appends the sizes of components in the order of their ranks.
fn push_sizes(text: &mut String, components: &RankedComponents) -> Result<(), AllocError> {
    let count = components.len();
    for rank in 0..count.min(MOST_SIZES) {
        let before = if rank == 0 {
            ""
        } else if rank.saturating_add(1) == count {
            " and "
        } else {
            ", "
        };
        let size = components.ranked(rank).map_or(0, |it| it.size);
        write!(text, "{before}{size}")?;
    }
    let others = count.saturating_sub(MOST_SIZES);
    if others > 0 {
        write!(text, " and {others} more")?;
    }
    Ok(())
}

/// Who is a member of the group, unless all nodes are.
pub(crate) fn members_of(alloc: Global, drawing: &Drawing) -> Result<Option<String>, AllocError> {
    let nodes = drawing.nodes.as_slice();
    let others = outside(nodes);
    if others == 0 {
        return Ok(None);
    }
    let all = nodes.len();
    let members = all.saturating_sub(others);
    let text = format!(in alloc;
        "{members} of the {all} nodes are members of the group; the others are hollow, and may be cut off"
    )?;
    Ok(Some(text))
}

/// How many nodes are no members of the group.
pub(crate) fn outside(nodes: &[DrawnNode]) -> usize {
    nodes.iter().filter(|node| !node.is_member).count()
}

/// What the paths of the chosen entry are, if one is chosen.
pub(crate) fn paths_of(
    alloc: Global,
    drawing: &Drawing,
    labels: &Labels,
) -> Result<Option<String>, AllocError> {
    let nodes = drawing.nodes.as_slice();
    let count = drawing.paths;
    let paths = if count == 1 { "path" } else { "paths" };
    let text = match drawing.entry {
        None => return Ok(None),
        Some(ChosenEntry::Pair { i, j }) => {
            let i = name_of(nodes, labels, i);
            let j = name_of(nodes, labels, j);
            format!(in alloc;
                "{count} {paths} from node {i} to node {j} that share no other node: each crash breaks one at most"
            )?
        }
        Some(ChosenEntry::Fan { j }) => {
            let j = name_of(nodes, labels, j);
            format!(in alloc;
                "{count} {paths} from node {j} to lower members that share no other node: each crash breaks one at most"
            )?
        }
    };
    Ok(Some(text))
}

/// What the first node of a class is called.
fn name_of_class<'a>(nodes: &[DrawnNode], labels: &'a Labels, class: NodeClass) -> Option<&'a str> {
    match nodes.iter().position(|node| node.class == class) {
        Some(at) => Some(labels.called(at)),
        None => None,
    }
}

/// What the node with this id is called.
fn name_of<'a>(nodes: &[DrawnNode], labels: &'a Labels, id: NodeId) -> &'a str {
    match nodes.iter().position(|node| node.id == id) {
        Some(at) => labels.called(at),
        None => "",
    }
}

/// The number of the first node of a class.
pub(crate) fn first_of(nodes: &[DrawnNode], class: NodeClass) -> Option<u32> {
    nodes
        .iter()
        .find(|node| node.class == class)
        .map(|node| node.id.number())
}

/// How many nodes of a class there are.
pub(crate) fn count_of(nodes: &[DrawnNode], class: NodeClass) -> usize {
    nodes.iter().filter(|node| node.class == class).count()
}

/// Whether the entry that is chosen for a drawing is named by this node.
pub(crate) fn is_end(drawing: &Drawing, id: NodeId) -> bool {
    let number = id.number();
    match drawing.entry {
        None => false,
        Some(ChosenEntry::Pair { i, j }) => number == i.number() || number == j.number(),
        Some(ChosenEntry::Fan { j }) => number == j.number(),
    }
}
