use crate::sentence_parts::{Part, count, node, say};
use ov_cert::{EntryFlaw, PathFlaw, Paths};
use ov_graph::{Graph, is_member};
use ov_ids::{NodeId, OutOfMemory};

/// What the paths of an entry must be: from `from` to `to` or, if there is no `to`, to members below `from`.
#[derive(Drop)]
pub(crate) struct Rule {
    pub(crate) from: NodeId,
    pub(crate) to: Option<NodeId>,
}

/// Tells what is wrong with the paths of an entry, whose place in the file is appended already.
pub(crate) fn tell_paths(
    text: &mut String,
    graph: &Graph,
    rule: &Rule,
    k: u32,
    paths: &Paths,
    flaw: EntryFlaw,
) -> Result<(), OutOfMemory> {
    match flaw {
        EntryFlaw::Number => say_number_of_paths(text, paths.len(), k),
        EntryFlaw::Path { at, flaw } => {
            say(text, &[Part::Text(".paths["), count(at), Part::Text("]")])?;
            say_flaw(text, graph, rule, paths, at, flaw)
        }
        EntryFlaw::Missing | EntryFlaw::NamesOthers => Ok(()),
    }
}

fn say_number_of_paths(text: &mut String, number: usize, k: u32) -> Result<(), OutOfMemory> {
    Ok(write!(text, ": the number of paths is {number}, and k is {k}")?)
}

fn say_flaw(
    text: &mut String,
    graph: &Graph,
    rule: &Rule,
    paths: &Paths,
    at: usize,
    flaw: PathFlaw,
) -> Result<(), OutOfMemory> {
    match flaw {
        PathFlaw::TooShort => say_short(text, rule, paths, at),
        PathFlaw::BeginsAt(id) => say_begin(text, rule, id),
        PathFlaw::EndsAt(id) => say_end(text, rule, id),
        PathFlaw::NoLink(a, b) => say_step(text, graph, a, b),
        PathFlaw::Taken(id) => say_taken(text, paths, at, id),
    }
}

/// Tells of a path that has no node, or one.
fn say_short(text: &mut String, rule: &Rule, paths: &Paths, at: usize) -> Result<(), OutOfMemory> {
    let Some(path) = paths.get(at) else {
        return Ok(());
    };
    let Some(first) = path.first() else {
        return say(text, &[Part::Text(" has no node")]);
    };
    if *first == rule.from {
        return say_end(text, rule, *first);
    }
    say_begin(text, rule, *first)
}

/// Tells of a step over no link. An id that is no node has no link.
fn say_step(text: &mut String, graph: &Graph, a: NodeId, b: NodeId) -> Result<(), OutOfMemory> {
    if !is_member(graph.nodes(), b) {
        return say_one(text, " has ", b, ", which is no node");
    }
    let b = node(b);
    say_two(
        text,
        " goes from ",
        a,
        " to ",
        b,
        ", and there is no such link",
    )
}

/// Tells of a node that a path has twice or, if it has it once, of the first path that has it too.
fn say_taken(text: &mut String, paths: &Paths, at: usize, id: NodeId) -> Result<(), OutOfMemory> {
    if let Some(path) = paths.get(at)
        && has_twice(path, id)
    {
        return say_one(text, " has node ", id, " twice");
    }
    for place in 0..paths.len() {
        if let Some(path) = paths.get(place)
            && path.contains(&id)
        {
            return say_two(text, " meets node ", id, " of paths[", count(place), "]");
        }
    }
    Ok(())
}

/// Whether a path has a node twice.
fn has_twice(path: &[NodeId], id: NodeId) -> bool {
    let mut once = false;
    for other in path {
        if *other == id && once {
            return true;
        }
        once = once || *other == id;
    }
    false
}

fn say_begin(text: &mut String, rule: &Rule, id: NodeId) -> Result<(), OutOfMemory> {
    say_two(text, " begins at ", id, ", not at ", node(rule.from), "")
}

/// Appends a node between two texts.
fn say_one<'x>(
    text: &mut String,
    front: &'x str,
    id: NodeId,
    back: &'x str,
) -> Result<(), OutOfMemory> {
    say(text, &[Part::Text(front), node(id), Part::Text(back)])
}

/// Appends a node and a number among three texts.
fn say_two<'x>(
    text: &mut String,
    front: &'x str,
    id: NodeId,
    between: &'x str,
    number: Part<'x>,
    back: &'x str,
) -> Result<(), OutOfMemory> {
    say(
        text,
        &[
            Part::Text(front),
            node(id),
            Part::Text(between),
            number,
            Part::Text(back),
        ],
    )
}

fn say_end(text: &mut String, rule: &Rule, id: NodeId) -> Result<(), OutOfMemory> {
    match rule.to {
        Some(to) => say_two(text, " ends at ", id, ", not at ", node(to), ""),
        None => {
            let from = node(rule.from);
            say_two(
                text,
                " ends at ",
                id,
                ", which is no member below ",
                from,
                "",
            )
        }
    }
}
