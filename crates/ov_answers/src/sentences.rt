//! The answer of an analysis in sentences. Of their words contracts say those with numbers of crashes and of nodes that
//! are not named; examples and tests say the others.
ghost use Rattle.std.specs.Prelude.{◌≡◌, ◌++◌, string_bytes, OnOk};
ghost use Rattle.ov_answers.specs.Code.Sentences.{fewer_text, more_text};

use crate::survivors_and_least_linked_members::{least_linked, members_beside, survivors_of};
use ov_cert::{Cert, Split};
use ov_components::components_without;
use ov_graph::Graph;
use ov_graphfile::Names;
use ov_ids::{NodeId, OutOfMemory};
use std::alloc::{AllocError, Global};
use std::fmt::Write;

/// How many nodes a sentence names at most. (Chosen here.)
const MOST_NAMED: usize = 10;

/// Whom the sentences are about.
#[derive(Clone, Copy)]
enum Whom {
    /// All nodes of the graph.
    Nodes,
    /// The members of a group.
    Members,
}

/// The answer in sentences, a line each: which crash parts whom from how many others, which crashes it survives, and
/// who has the fewest links. A node is told by its name with its id in brackets, and by its id alone if it has no name,
/// or one that is no UTF-8. At most ten nodes of a list are told, and the others counted. OutOfMemory (99) if an
/// allocation is refused.
pub fn explanation(
    alloc: Global,
    graph: &Graph,
    group: &[NodeId],
    cert: &Cert,
    names: &Names<'_>,
) -> Result<String, OutOfMemory> {
    let mut text = String::new(alloc);
    let whom = if group == graph.nodes() {
        Whom::Nodes
    } else {
        Whom::Members
    };
    match cert {
        Cert::Linked { .. } => push_linked(&mut text, whom, group.len())?,
        Cert::Split(split) => push_split(alloc, &mut text, graph, group, whom, split, names)?,
    }
    push_least(alloc, &mut text, graph, group, whom, names)?;
    Ok(text)
}

/// Appends that every two members are linked.
fn push_linked(text: &mut String, whom: Whom, count: usize) -> Result<(), AllocError> {
    let many = many_of(whom);
    if count == 1 {
        let one = one_of(whom);
        return write!(text, "there is one {one}: no crash parts two survivors\n");
    }
    write!(
        text,
        "every two of the {count} {many} are linked: no crash parts two survivors\n"
    )
}

/// Appends which crash parts whom.
fn push_split(
    alloc: Global,
    text: &mut String,
    graph: &Graph,
    group: &[NodeId],
    whom: Whom,
    split: &Split,
    names: &Names<'_>,
) -> Result<(), OutOfMemory> {
    let cut = split.cut.as_slice();
    let components = components_without(alloc, graph, cut)?;
    let near = members_beside(alloc, &components, group, split.near)?;
    let far = members_beside(alloc, &components, group, split.far)?;
    let fewer = if near.len() <= far.len() {
        near.as_slice()
    } else {
        far.as_slice()
    };
    let others = survivors_of(group, cut).saturating_sub(fewer.len());
    push_crash(text, graph, cut, names)?;
    push_parted(text, whom, fewer, cut.is_empty(), others, names)?;
    Ok(push_fewer(text, cut.len())?)
}

/// Appends the crash.
fn push_crash(
    text: &mut String,
    graph: &Graph,
    cut: &[NodeId],
    names: &Names<'_>,
) -> Result<(), AllocError> {
    let all = graph.nodes().len();
    let count = cut.len();
    if count == 0 {
        return text.push_str("the graph is split already: ");
    }
    write!(text, "crashing {count} of {all} nodes, ")?;
    push_list(text, cut, names)?;
    text.push_str(", parts ")
}

/// Appends who is parted from how many others.
fn push_parted(
    text: &mut String,
    whom: Whom,
    parted: &[NodeId],
    already: bool,
    others: usize,
    names: &Names<'_>,
) -> Result<(), AllocError> {
    let noun = if parted.len() == 1 {
        one_of(whom)
    } else {
        many_of(whom)
    };
    write!(text, "{noun} ")?;
    push_list(text, parted, names)?;
    if already {
        text.push_str(if parted.len() == 1 {
            " is parted"
        } else {
            " are parted"
        })?;
    }
    let other = if others == 1 { "other" } else { "others" };
    write!(text, " from {others} {other}")
}

/// Appends which crashes part nobody. `fewest` crashes are the fewest that part somebody.
fn push_fewer(text: &mut String, fewest: usize) -> Result<(), AllocError>
    ensures { OnOk result (string_bytes text.new ≡ string_bytes text.old ++ fewer_text fewest) }
{
    if fewest == 0 {
        return text.push_str("\n");
    }
    if fewest == 1 {
        return text.push_str("\nit does not survive every crash of one node\n");
    }
    if fewest == 2 {
        return text.push_str("; no single crash does\nit survives any 1 crash\n");
    }
    let fewer = fewest - 1;
    write!(text, "; no {fewer} crashes do\n")?;
    write!(text, "it survives any {fewer} crashes\n")
}

/// Appends who has the fewest links.
fn push_least(
    alloc: Global,
    text: &mut String,
    graph: &Graph,
    group: &[NodeId],
    whom: Whom,
    names: &Names<'_>,
) -> Result<(), OutOfMemory> {
    let (least, members) = least_linked(alloc, graph, group)?;
    let noun = if members.len() == 1 {
        one_of(whom)
    } else {
        many_of(whom)
    };
    write!(text, "least degree {least}: {noun} ")?;
    push_list(text, &members, names)?;
    Ok(text.push_str("\n")?)
}

/// Appends the first ten of these nodes, and how many more there are.
fn push_list(text: &mut String, ids: &[NodeId], names: &Names<'_>) -> Result<(), AllocError> {
    let told = ids.len().min(MOST_NAMED);
    for place in 0..told {
        let last = place + 1 == ids.len();
        text.push_str(joint(place, last))?;
        push_node(text, ids[place], names)?;
    }
    push_more(text, ids.len())
}

/// Appends how many of so many nodes are not named, if some are not.
fn push_more(text: &mut String, count: usize) -> Result<(), AllocError>
    ensures { OnOk result (string_bytes text.new ≡ string_bytes text.old ++ more_text count) }
{
    if count <= MOST_NAMED {
        return Ok(());
    }
    let more = count - MOST_NAMED;
    write!(text, " and {more} more")
}

/// What stands before the node at a place of a list.
fn joint(place: usize, last: bool) -> &'static str {
    if place == 0 {
        return "";
    }
    if last { " and " } else { ", " }
}

/// Appends a node by its name and its id, or by its id alone.
fn push_node(text: &mut String, id: NodeId, names: &Names<'_>) -> Result<(), AllocError> {
    let number = id.number();
    if let Some(name) = names.name(id)
        && let Ok(name) = str::from_utf8(name)
    {
        return write!(text, "{name} ({number})");
    }
    write!(text, "{number}")
}

/// The word for one of them.
fn one_of(whom: Whom) -> &'static str {
    match whom {
        Whom::Nodes => "node",
        Whom::Members => "member",
    }
}

/// The word for many of them.
fn many_of(whom: Whom) -> &'static str {
    match whom {
        Whom::Nodes => "nodes",
        Whom::Members => "members",
    }
}
