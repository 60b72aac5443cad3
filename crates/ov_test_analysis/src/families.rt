//! Graphs of as many nodes as one likes, and lists of numbers.
use ov_graph::{Graph, GraphFault};
use ov_ids::NodeId;
use std::alloc::{AllocError, Global};

/// What the nodes from 1 on are linked to.
#[derive(Clone, Copy)]
pub(crate) enum Family {
    /// The node above it, and the last one to the first.
    Ring,
    /// The last node alone.
    Star,
    /// The node above it.
    Path,
    /// All others, but the first and the last one not to each other.
    AllButOne,
}

/// The graph of so many nodes, up to 32,768.
pub(crate) fn of_size(alloc: Global, family: Family, count: u32) -> Result<Graph, GraphFault> {
    let mut nodes = Vec::new(alloc);
    let mut links = Vec::new(alloc);
    for number in 1..=count {
        nodes.push(NodeId(number))?;
        push_links(family, number, count, &mut links)?;
    }
    Graph::large(alloc, &nodes, &links)
}

/// Adds the links of a node to higher ones, ascending.
fn push_links(
    family: Family,
    low: u32,
    last: u32,
    links: &mut Vec<(NodeId, NodeId)>,
) -> Result<(), AllocError> {
    if low >= last {
        return Ok(());
    }
    let (lowest, highest) = match family {
        Family::Ring | Family::Path => (low + 1, low + 1),
        Family::Star => (last, last),
        Family::AllButOne => (low + 1, if low == 1 { last - 1 } else { last }),
    };
    for high in lowest..=highest {
        links.push((NodeId(low), NodeId(high)))?;
    }
    if let (Family::Ring, 1) = (family, low) {
        links.push((NodeId(1), NodeId(last)))?;
    }
    Ok(())
}

/// The numbers from one to another.
pub(crate) fn span(alloc: Global, first: u32, last: u32) -> Result<Vec<u32>, AllocError> {
    let mut numbers = Vec::new(alloc);
    for number in first..=last {
        numbers.push(number)?;
    }
    Ok(numbers)
}
