use crate::event_texts::push_node;
use ov_graph::{Graph, SizeLimit, is_member};
use ov_graphfile::{GraphFileFault, read_graph};
use ov_ids::{NodeId, OutOfMemory};
use std::alloc::{AllocError, Global};
use std::fmt::Write;

/// Why the analysis of a graph file of these bytes, for this group, is answered by a refusal: the graph has no nodes
/// (30), or the ids are no group of nodes (34). Without a group, all nodes are the group. The text ends with a line
/// feed. None if the analysis is not refused, or if the bytes say no graph within the limit, which `graph_reasons`
/// explains. OutOfMemory (99) if an allocation is refused.
pub fn group_reason(
    alloc: Global,
    limit: SizeLimit,
    bytes: &[u8],
    group: Option<&[NodeId]>,
) -> Result<Option<String>, OutOfMemory> {
    match read_graph(alloc, limit, bytes) {
        Ok(graph) if graph.nodes().is_empty() => {
            Ok(Some(String::from_str(alloc, why_no_nodes(bytes))?))
        }
        Ok(graph) => why_refused(alloc, &graph, group),
        Err(GraphFileFault::OutOfMemory) => Err(OutOfMemory),
        Err(_) => Ok(None),
    }
}

/// What is said of a graph file without nodes. If no byte of it is a line feed, it is one line, perhaps a comment.
fn why_no_nodes(bytes: &[u8]) -> &'static str {
    if bytes.contains(&b'\r') && !bytes.contains(&b'\n') {
        return "the graph has no nodes; the lines end with a carriage return alone, and must end with a line feed\n";
    }
    "the graph has no nodes\n"
}

/// Why these ids, or all nodes, are refused as a group of the graph, which has nodes, if they are.
fn why_refused(
    alloc: Global,
    graph: &Graph,
    group: Option<&[NodeId]>,
) -> Result<Option<String>, OutOfMemory> {
    let mut text = String::new(alloc);
    if !push_refusal(&mut text, graph, group.unwrap_or(graph.nodes()))? {
        return Ok(None);
    }
    text.push_str("\n")?;
    Ok(Some(text))
}

/// Appends why these ids are refused as a group of the graph, and returns whether they are.
fn push_refusal(text: &mut String, graph: &Graph, ids: &[NodeId]) -> Result<bool, AllocError> {
    if push_unordered(text, ids)? {
        return Ok(true);
    }
    let Some(id) = first_stranger(graph, ids) else {
        return Ok(false);
    };
    push_node(text, "the graph has no node ", id, "")?;
    Ok(true)
}

/// Appends why these ids are no group of any graph: there are none, or they do not ascend. Returns whether one of these
/// is true.
pub(crate) fn push_unordered(text: &mut String, ids: &[NodeId]) -> Result<bool, AllocError> {
    if ids.is_empty() {
        text.push_str("the group has no members")?;
        return Ok(true);
    }
    let Some((before, id)) = first_fall(ids) else {
        return Ok(false);
    };
    push_fall(text, before.number(), id.number())?;
    Ok(true)
}

/// Appends that an id is not above the one before it.
fn push_fall(text: &mut String, before: u32, id: u32) -> Result<(), AllocError> {
    write!(text, "the ids of the group must ascend, and {id} ")?;
    if before == id {
        return text.push_str("occurs twice");
    }
    write!(text, "comes after {before}")
}

/// The first of these ids that is not above the one before it, preceded by that one.
fn first_fall(ids: &[NodeId]) -> Option<(NodeId, NodeId)> {
    for at in 1..ids.len() {
        let (before, id) = (ids[at - 1], ids[at]);
        if id <= before {
            return Some((before, id));
        }
    }
    None
}

/// The first of these ids that is no node of the graph.
pub(crate) fn first_stranger(graph: &Graph, ids: &[NodeId]) -> Option<NodeId> {
    for id in ids {
        if !is_member(graph.nodes(), *id) {
            return Some(*id);
        }
    }
    None
}
