use crate::sentence_parts::{Part, node, say};
use ov_graph::{Graph, GraphFault, LinkFlaw};
use ov_ids::{NodeId, OutOfMemory};

/// Tells which node or link is at fault, or how many nodes there are and may be.
pub(crate) fn tell_graph(text: &mut String, fault: GraphFault) -> Result<(), OutOfMemory> {
    match fault {
        GraphFault::TooManyNodes { count, most } => say_size(text, count, most),
        GraphFault::UnorderedNode { at, node, before } => say_node(text, at, node, before),
        GraphFault::UnorderedLink { at, link, .. } => {
            say_link(text, at, link)?;
            say(text, &[Part::Text(", not above the link before it")])
        }
        GraphFault::BadLink { at, link, flaw } => {
            say_link(text, at, link)?;
            say_flaw(text, flaw)
        }
        GraphFault::OutOfMemory => Ok(()),
    }
}

/// Tells how many nodes there are and may be, and what can be done.
fn say_size(text: &mut String, number: usize, most: usize) -> Result<(), OutOfMemory> {
    let hint = if most < Graph::MOST_NODES {
        "version 2 allows more"
    } else if most < Graph::MOST_OF_ANY {
        "version 3, which overlay-check-large reads, allows more"
    } else {
        "a part of the graph can be analysed as a graph of its own, with a k of its own"
    };
    Ok(write!(
        text,
        ": it has {number}, and this version allows {most}; {hint}"
    )?)
}

fn say_node(text: &mut String, at: usize, id: NodeId, before: NodeId) -> Result<(), OutOfMemory> {
    let (id, before) = (id.number(), before.number());
    Ok(write!(text, ": nodes[{at}] is {id}, not above {before}")?)
}

fn say_link(text: &mut String, at: usize, link: (NodeId, NodeId)) -> Result<(), OutOfMemory> {
    let (low, high) = (link.0.number(), link.1.number());
    Ok(write!(text, ": links[{at}] is [{low},{high}]")?)
}

fn say_flaw(text: &mut String, flaw: LinkFlaw) -> Result<(), OutOfMemory> {
    match flaw {
        LinkFlaw::NotUpward => Ok(()),
        LinkFlaw::NoNode(id) => say(
            text,
            &[Part::Text(", and "), node(id), Part::Text(" is no node")],
        ),
    }
}
