use crate::sentence_parts::{Part, node, say};
use ov_cert::{Cert, EndFlaw, FrameFlaw, SetFlaw, SideFlaw, Split, frame_flaw};
use ov_graph::Graph;
use ov_ids::{NodeId, OutOfMemory};

/// Tells what is wrong with the frame of a certificate.
pub(crate) fn tell_frame(
    text: &mut String,
    graph: &Graph,
    group: &[NodeId],
    cert: &Cert,
) -> Result<(), OutOfMemory> {
    let Some(flaw) = frame_flaw(graph, group, cert) else {
        return Ok(());
    };
    match cert {
        Cert::Linked { k } => say_of_linked(text, *k, flaw),
        Cert::Split(split) => say_of_split(text, split, flaw),
    }
}

fn say_of_linked(text: &mut String, k: u32, flaw: FrameFlaw) -> Result<(), OutOfMemory> {
    match flaw {
        FrameFlaw::Count(number) => say_count(text, k, "members", number),
        FrameFlaw::NotLinked(a, b) => say(
            text,
            &[Part::Text(": "), node(a), Part::Text(" and "), node(b)],
        ),
        _ => say_of_group(text, flaw),
    }
}

fn say_of_split(text: &mut String, split: &Split, flaw: FrameFlaw) -> Result<(), OutOfMemory> {
    match flaw {
        FrameFlaw::Count(number) => say_count(text, split.k, "nodes of the cut", number),
        FrameFlaw::Cut(flaw) => say_misfit(text, "cut", flaw),
        FrameFlaw::Side(flaw) => say_side(text, split.near, split.far, flaw),
        _ => say_of_group(text, flaw),
    }
}

fn say_of_group(text: &mut String, flaw: FrameFlaw) -> Result<(), OutOfMemory> {
    match flaw {
        FrameFlaw::NoMember => say(text, &[Part::Text(": it has no member")]),
        FrameFlaw::Group(flaw) => say_misfit(text, "group", flaw),
        _ => Ok(()),
    }
}

/// Appends k, and the number from which it follows.
fn say_count(text: &mut String, k: u32, what: &str, number: usize) -> Result<(), OutOfMemory> {
    Ok(write!(text, ": k is {k}, and the number of {what} is {number}")?)
}

/// Appends the id of a list that breaks a set of nodes.
fn say_misfit(text: &mut String, name: &str, flaw: SetFlaw) -> Result<(), OutOfMemory> {
    match flaw {
        SetFlaw::NotAbove { at, id, before } => {
            say_item(text, name, at, id)?;
            say(text, &[Part::Text(" not above "), node(before)])
        }
        SetFlaw::NoNode { at, id } => {
            say_item(text, name, at, id)?;
            say(text, &[Part::Text(" which is no node")])
        }
    }
}

/// Appends an item of a list with its place, and a comma.
fn say_item(text: &mut String, name: &str, at: usize, id: NodeId) -> Result<(), OutOfMemory> {
    let id = id.number();
    Ok(write!(text, ": {name}[{at}] is {id},")?)
}

/// Appends why a side is not cut off.
fn say_side(
    text: &mut String,
    near: NodeId,
    far: NodeId,
    flaw: SideFlaw,
) -> Result<(), OutOfMemory> {
    match flaw {
        SideFlaw::Near(why) => say_end(text, "near", near, why_lost(why)),
        SideFlaw::Far(why) => say_end(text, "far", far, why_lost(why)),
        SideFlaw::NoSet(flaw) => say_misfit(text, "side", flaw),
        SideFlaw::InCut { at, id } => {
            say_item(text, "side", at, id)?;
            say(text, &[Part::Text(" which is in the cut")])
        }
        SideFlaw::NearOff => say_end(text, "near", near, "not on the side"),
        SideFlaw::FarOn => say_end(text, "far", far, "on the side"),
        SideFlaw::WayOut(a, b) => say_way_out(text, a, b),
    }
}

fn why_lost(flaw: EndFlaw) -> &'static str {
    match flaw {
        EndFlaw::NoMember => "no member",
        EndFlaw::InCut => "in the cut",
    }
}

fn say_end(text: &mut String, name: &str, id: NodeId, why: &str) -> Result<(), OutOfMemory> {
    let id = id.number();
    Ok(write!(text, ": {name} is {id}, which is {why}")?)
}

fn say_way_out(text: &mut String, a: NodeId, b: NodeId) -> Result<(), OutOfMemory> {
    let (a, b) = (a.number(), b.number());
    write!(text, ": a link leads from {a} to {b}")?;
    Ok(text.push_str(", which is neither on the side nor in the cut")?)
}
