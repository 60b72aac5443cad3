use crate::device_texts::OUT_OF_MEMORY;
use crate::line_and_mark::push_marked_word;
use crate::line_number_and_remaining_count::{MOST_LINES, line_of, push_number, push_remark};
use crate::unread_line_texts::push_unread;
use ov_graph::{GraphFault, LinkFlaw, SizeLimit};
use ov_graphfile::{
    GraphFileFault, LINE_NAMES, UnreadLine, UnreadLines, line_of_link, line_of_node, unread_lines,
};
use ov_ids::{NodeId, OutOfMemory};
use ov_lines::KeptLines;
use std::alloc::{AllocError, Global};
use std::fmt::Write;

/// What is said of a graph of too many nodes, below it, if it is not too large for all.
const LARGE_TIP: &str = "tip: `overlay analyse --large` takes up to 32768 nodes\n";

/// What is said of one that is.
const PART_TIP: &str = "tip: analyse a part as a graph of its own, such as the hosts of one site, \
                        or a group and its neighbours; its k is that of the part alone\n";

/// Why a graph file of these bytes was refused with this fault. If a line can't be read, such lines are explained, and
/// counted beyond 20, as by `scenario_reasons`. If the graph is at fault, the line of the node or the link at fault is
/// explained. OutOfMemory (99) if an allocation is refused.
pub fn graph_reasons(
    alloc: Global,
    bytes: &[u8],
    fault: &GraphFileFault,
) -> Result<String, OutOfMemory> {
    match fault {
        GraphFileFault::Line(_) => unread_line_reasons(alloc, bytes),
        GraphFileFault::Graph { fault, line } => graph_fault_reasons(alloc, bytes, fault, *line),
        GraphFileFault::OutOfMemory => Ok(String::from_str(alloc, OUT_OF_MEMORY)?),
    }
}

/// Why the nodes and links of a graph file of these bytes are no graph: what is wrong with the node or the link at
/// fault, which is on this line. OutOfMemory (99) if an allocation is refused.
pub(crate) fn graph_fault_reasons(
    alloc: Global,
    bytes: &[u8],
    fault: &GraphFault,
    line: usize,
) -> Result<String, OutOfMemory> {
    let mut text = String::new(alloc);
    push_graph_line(&mut text, bytes, fault, line)?;
    Ok(text)
}

/// Why lines of a graph file of these bytes can't be read. The first 20 are explained, and the others counted.
/// OutOfMemory (99) if an allocation is refused.
pub(crate) fn unread_line_reasons(alloc: Global, bytes: &[u8]) -> Result<String, OutOfMemory> {
    let lines = unread_lines(alloc, bytes, MOST_LINES)?;
    let mut text = String::new(alloc);
    push_unread_lines(alloc, &mut text, bytes, &lines)?;
    Ok(text)
}

/// Appends what is wrong with these lines of a file that can't be read. The file is passed over once.
fn push_unread_lines(
    alloc: Global,
    text: &mut String,
    bytes: &[u8],
    lines: &UnreadLines,
) -> Result<(), AllocError> {
    let mut left = KeptLines::new(bytes);
    for UnreadLine { line, unread } in lines.first.iter() {
        push_number(text, *line)?;
        push_unread(alloc, text, &LINE_NAMES, &line_of(&mut left, *line), unread)?;
    }
    push_remark(text, lines.count)
}

/// Appends what is wrong with the node or the link on the line of this number, and what to do with too many nodes.
fn push_graph_line(
    text: &mut String,
    bytes: &[u8],
    fault: &GraphFault,
    number: usize,
) -> Result<(), AllocError> {
    push_number(text, number)?;
    push_graph_fault(text, bytes, fault)?;
    let line = line_of(&mut KeptLines::new(bytes), number);
    push_marked_word(text, line.text, word_at_fault(fault))?;
    text.push_str(size_tip(fault))
}

/// What to do with too many nodes.
fn size_tip(fault: &GraphFault) -> &'static str {
    match fault {
        GraphFault::TooManyNodes { count, .. } if *count <= SizeLimit::Large.most() => LARGE_TIP,
        GraphFault::TooManyNodes { .. } => PART_TIP,
        _ => "",
    }
}

/// The place of the word at fault on the line of the node or the link at fault.
fn word_at_fault(fault: &GraphFault) -> usize {
    match fault {
        GraphFault::BadLink { link, flaw, .. } if *flaw != LinkFlaw::NoNode(link.0) => 2,
        _ => 1,
    }
}

/// Appends what is wrong with a node or a link of a file.
fn push_graph_fault(text: &mut String, bytes: &[u8], fault: &GraphFault) -> Result<(), AllocError> {
    match fault {
        GraphFault::TooManyNodes { count, most } => {
            write!(
                text,
                "a graph has at most {most} nodes, and this file has {count}"
            )
        }
        GraphFault::UnorderedNode { at, node, before } => {
            let line = line_of_node(bytes, at.saturating_sub(1));
            push_unordered_node(text, node == before, *before)?;
            push_place(text, line, node == before)
        }
        GraphFault::UnorderedLink { at, link, before } => {
            let line = line_of_link(bytes, at.saturating_sub(1));
            push_unordered_link(text, link == before, *before)?;
            push_place(text, line, link == before)
        }
        GraphFault::BadLink { link, flaw, .. } => push_flaw(text, *link, *flaw),
        GraphFault::OutOfMemory => text.push_str("out of memory"),
    }
}

/// Appends that a node is the one before it, or below that.
fn push_unordered_node(text: &mut String, is_same: bool, before: NodeId) -> Result<(), AllocError> {
    let id = before.number();
    if is_same {
        return write!(text, "a node may occur once, and node {id} is");
    }
    write!(text, "nodes must ascend, and this node is below node {id}")
}

/// Appends that a link is the one before it, or below that.
fn push_unordered_link(
    text: &mut String,
    is_same: bool,
    before: (NodeId, NodeId),
) -> Result<(), AllocError> {
    let (from, to) = (before.0.number(), before.1.number());
    if is_same {
        return write!(text, "a link may occur once, and link {from} {to} is");
    }
    write!(
        text,
        "links must ascend, and this link is below link {from} {to}"
    )
}

/// Appends on which line that is.
fn push_place(text: &mut String, line: Option<usize>, is_same: bool) -> Result<(), AllocError> {
    let too = if is_same { " too" } else { "" };
    match line {
        Some(line) => write!(text, " on line {line}{too}"),
        None => Ok(()),
    }
}

/// Appends why a link does not join a node to a higher one, and how it may be meant.
fn push_flaw(text: &mut String, link: (NodeId, NodeId), flaw: LinkFlaw) -> Result<(), AllocError> {
    let (from, to) = (link.0.number(), link.1.number());
    if let LinkFlaw::NoNode(node) = flaw {
        let id = node.number();
        return write!(
            text,
            "no line says node {id}; each node of a link has a line too, as `node {id}`"
        );
    }
    text.push_str("a link goes from a node to a higher one")?;
    if from == to {
        return text.push_str(", and not to itself");
    }
    write!(text, "; did you mean `link {to} {from}`?")
}
