use crate::sentence_parts::{Part, node, say};
use ov_cert::CheckFault;
use ov_certfile::FileFault;
use ov_graph::GraphFault;
use ov_ids::OutOfMemory;

/// Names the fault of a certificate, with the nodes that it names.
pub(crate) fn name_fault(text: &mut String, fault: CheckFault) -> Result<(), OutOfMemory> {
    match fault {
        CheckFault::Pair { i, j } => {
            let (i, j) = (i.number(), j.number());
            Ok(write!(text, "the paths from {i} to {j} do not hold")?)
        }
        CheckFault::Fan { j } => {
            let j = node(j);
            say(
                text,
                &[Part::Text("the fan of "), j, Part::Text(" does not hold")],
            )
        }
        _ => say(text, &[Part::Text(name_of(fault))]),
    }
}

/// Names a fault of a certificate that names no node.
fn name_of(fault: CheckFault) -> &'static str {
    match fault {
        CheckFault::Count => "the count is wrong",
        CheckFault::Cut => "the cut is no set of nodes",
        CheckFault::Side => "the side is not cut off",
        CheckFault::Pair { .. } => "the paths of a pair do not hold",
        CheckFault::Fan { .. } => "a fan does not hold",
        CheckFault::Extra => "there are more entries than expected",
        CheckFault::NotLinked => "two members are not linked",
        CheckFault::NoNodes => "the graph has no node",
        CheckFault::BadGroup => "the group is no group of nodes",
    }
}

/// Names the fault of bytes that are no certificate file.
pub(crate) fn name_refusal(fault: FileFault) -> &'static str {
    match fault {
        FileFault::NotJson(_) => "the file is no JSON",
        FileFault::MissingKey(_) => "a key is missing",
        FileFault::UnknownKey { .. } => "a key is unknown",
        FileFault::BadValue(_) => "a value has another form",
        FileFault::BadVersion { .. } => "the version is unknown",
        FileFault::Graph(GraphFault::TooManyNodes { .. }) => "the graph has too many nodes",
        FileFault::Graph(GraphFault::UnorderedNode { .. } | GraphFault::UnorderedLink { .. }) => {
            "the nodes or the links do not ascend"
        }
        FileFault::Graph(GraphFault::BadLink { .. }) => {
            "a link does not join a node to a higher one"
        }
        FileFault::Graph(GraphFault::OutOfMemory) | FileFault::OutOfMemory => "out of memory",
    }
}
