ghost use Rattle.ov_graph.specs.Joined.{IsNodeSet};
ghost use Rattle.ov_cert.specs.Entries.{AreExpected};

use crate::path_words::{Rule, tell_paths};
use crate::sentence_parts::{Part, count, node, say};
use ov_cert::{CheckFault, EntryFlaw, Expected, Split, entry_flaw, expected_group};
use ov_graph::Graph;
use ov_ids::{NodeId, OutOfMemory};
use std::alloc::Global;

/// The expected entry that a fault is about, with what is wrong at its place.
fn flawed_entry(
    graph: &Graph,
    group: &[NodeId],
    split: &Split,
    entries: &[Expected],
    fault: CheckFault,
) -> Option<(Expected, EntryFlaw)>
    requires group { IsNodeSet graph.now group.now }
    requires expected { AreExpected graph.now group.now split.now.k entries.now }
{
    for entry in entries {
        if entry.fault() == fault {
            let flaw = entry_flaw(graph, group, split, *entry)?;
            return Some((*entry, flaw));
        }
    }
    None
}

/// Tells what is wrong with the entry of a pair or of a fan.
pub(crate) fn tell_entry(
    alloc: Global,
    text: &mut String,
    graph: &Graph,
    group: &[NodeId],
    split: &Split,
    fault: CheckFault,
) -> Result<(), OutOfMemory> {
    if !graph.is_group(group) {
        return Ok(());
    }
    let entries = expected_group(alloc, graph, group, split)?;
    let Some((entry, flaw)) = flawed_entry(graph, group, split, entries.as_slice(), fault) else {
        return Ok(());
    };
    match entry {
        Expected::Pair { at, i, j } => tell_pair(text, graph, split, at, (i, j), flaw),
        Expected::Fan { at, j } => tell_fan(text, graph, split, at, j, flaw),
    }
}

fn say_place(text: &mut String, list: &str, at: usize) -> Result<(), OutOfMemory> {
    say(text, &[Part::Text(list), count(at), Part::Text("]")])
}

fn tell_pair(
    text: &mut String,
    graph: &Graph,
    split: &Split,
    at: usize,
    pair: (NodeId, NodeId),
    flaw: EntryFlaw,
) -> Result<(), OutOfMemory> {
    say_place(text, ": pairs[", at)?;
    let Some(entry) = split.pairs.as_slice().get(at) else {
        return say(text, &[Part::Text(" is missing")]);
    };
    if let EntryFlaw::NamesOthers = flaw {
        let (i, j) = (node(entry.i), node(entry.j));
        return say(text, &[Part::Text(" has i "), i, Part::Text(" and j "), j]);
    }
    let rule = Rule {
        from: pair.0,
        to: Some(pair.1),
    };
    tell_paths(text, graph, &rule, split.k, &entry.paths, flaw)
}

fn tell_fan(
    text: &mut String,
    graph: &Graph,
    split: &Split,
    at: usize,
    j: NodeId,
    flaw: EntryFlaw,
) -> Result<(), OutOfMemory> {
    say_place(text, ": fans[", at)?;
    let Some(entry) = split.fans.as_slice().get(at) else {
        return say(text, &[Part::Text(" is missing")]);
    };
    if let EntryFlaw::NamesOthers = flaw {
        return say(text, &[Part::Text(" has j "), node(entry.j)]);
    }
    let rule = Rule { from: j, to: None };
    tell_paths(text, graph, &rule, split.k, &entry.paths, flaw)
}

/// Tells which list of entries is too long.
pub(crate) fn tell_extra(
    alloc: Global,
    text: &mut String,
    graph: &Graph,
    group: &[NodeId],
    split: &Split,
) -> Result<(), OutOfMemory> {
    if !graph.is_group(group) {
        return Ok(());
    }
    let expected = expected_group(alloc, graph, group, split)?;
    let fans = match split.k {
        0 => 0,
        k => group.len().saturating_sub(k as usize),
    };
    let pairs = expected.len().saturating_sub(fans);
    let found = split.pairs.as_slice().len();
    if found > pairs {
        return say_too_many(text, ": pairs has ", found, pairs);
    }
    say_too_many(text, ": fans has ", split.fans.as_slice().len(), fans)
}

fn say_too_many(
    text: &mut String,
    list: &str,
    found: usize,
    wanted: usize,
) -> Result<(), OutOfMemory> {
    Ok(write!(text, "{list}{found}, expected {wanted}")?)
}
