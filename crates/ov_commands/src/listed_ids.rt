//! The nodes of a graph that lists name.
ghost use Rattle.std.specs.Prelude.{◌≡◌, ◌⊎◌, length, map, option_map, replicate, None, IfOk, IfErr, if◌then◌else◌};
ghost use Rattle.std.specs.Option.{option_copied};
ghost use Rattle.ov_commands.specs.Naming.{AreListed};
ghost use Rattle.ov_commands.specs.Code.Named.{AreNamed, IsNotFound, IsNotNamedBy};
ghost use Rattle.ov_commands.specs.declared.command_fault.CommandFault.TheVariants.{Group};

use crate::command_fault::CommandFault;
use crate::node_list_texts::NodeLists;
use ov_graph::SizeLimit;
use ov_graphfile::{GraphFileFault, GroupFault, Names, ids_of_group, read_named_graph};
use ov_ids::NodeId;
use ov_io::shown_name;
use ov_lines::comma_hint;
use ov_reasons::without_memory;
use std::alloc::{AllocError, Global};
use std::str::from_utf8;

/// The options that take a list.
const GROUP: &str = "--group";

const WITHOUT: &str = "--without";

/// The nodes that two lists name.
#[derive(Drop)]
pub(crate) struct ListedNodes {
    /// The members of the group, if there is a list of them.
    pub(crate) group: Option<Vec<NodeId>>,
    /// The nodes that are gone.
    pub(crate) gone: Option<Vec<NodeId>>,
}

/// The nodes that these lists name, by the names that the graph file of these bytes keeps, or by ids alone. A file that
/// is no graph file within the limit names none: its analysis says why. Prints why a list names none.
pub(crate) fn listed_nodes(
    rt: &HostRuntime,
    limit: SizeLimit,
    bytes: &[u8],
    named: bool,
    lists: &NodeLists,
) -> Result<ListedNodes, CommandFault>
    ensures gone { IfOk result (λ nodes. AreListed limit bytes.now named
        (option_map (λ text. text.items) lists.now.gone) (option_map (λ ids. ids.items) nodes.gone)) }
    ensures group { IfOk result (λ nodes. AreListed limit bytes.now named
        (option_map (λ text. text.items) lists.now.group) (option_map (λ ids. ids.items) nodes.group)) }
    ensures fault { IfErr result (IsNotFound bytes.now named (option_map (λ text. text.items) lists.now.gone)
        (option_map (λ text. text.items) lists.now.group)) }
{
    if lists.is_empty() {
        return Ok(ListedNodes {
            group: None,
            gone: None,
        });
    }
    let (graph, told) = match read_named_graph(rt.alloc(), limit, bytes) {
        Ok(read) => read,
        Err(GraphFileFault::OutOfMemory) => return Err(without_memory(rt).into()),
        Err(_) => return Ok(ListedNodes {
            group: None,
            gone: None,
        }),
    };
    let Ok(kept) = list_names(rt.alloc(), told, named) else {
        return Err(without_memory(rt).into());
    };
    let names = Names::new(&graph, kept);
    nodes_of_lists(rt, &names, named, lists)
}

/// The names by which lists are read: these, or none of any node.
fn list_names<'a>(
    alloc: Global,
    told: Vec<Option<&'a [u8]>>,
    named: bool,
) -> Result<Vec<Option<&'a [u8]>>, AllocError>
    ensures names { IfOk result (λ names. map (λ t. option_copied t) names.items ≡
        (if named then map (λ t. option_copied t) told.entry.items else replicate (length told.entry.items) None)) }
    ensures places { IfOk result (λ names. length names.items ≡ length told.entry.items) }
{
    if named {
        return Ok(told);
    }
    Ok(no_names(alloc, told.len())?)
}

/// No names of this many nodes.
#[tactic(auto, using(crate::proofs::Listed::none_more))]
fn no_names<'a>(alloc: Global, count: usize) -> Result<Vec<Option<&'a [u8]>>, AllocError>
    ensures names { IfOk result (λ names. map (λ t. option_copied t) names.items ≡ replicate count None) }
    ensures places { IfOk result (λ names. length names.items ≡ count) }
{
    let mut none = Vec::new(alloc);
    for _place in 0..count {
        none.push(None)?;
    }
    Ok(none)
}

/// The nodes that these lists name, by these names. Prints why a list names none, and if names are not asked for, that
/// they need `--names`.
fn nodes_of_lists(
    rt: &HostRuntime,
    names: &Names<'_>,
    named: bool,
    lists: &NodeLists,
) -> Result<ListedNodes, CommandFault>
    ensures gone { IfOk result (λ nodes. AreNamed names.now (option_map (λ text. text.items) lists.now.gone)
        (option_map (λ ids. ids.items) nodes.gone)) }
    ensures group { IfOk result (λ nodes. AreNamed names.now (option_map (λ text. text.items) lists.now.group)
        (option_map (λ ids. ids.items) nodes.group)) }
    ensures fault { IfErr result (λ fault. IsNotNamedBy names.now (option_map (λ text. text.items) lists.now.gone) fault
        ⊎ IsNotNamedBy names.now (option_map (λ text. text.items) lists.now.group) fault) }
{
    let gone = match nodes_named(rt, names, named, WITHOUT, lists.gone.as_deref()) {
        Ok(gone) => gone,
        Err(fault) => return Err(fault),
    };
    match nodes_named(rt, names, named, GROUP, lists.group.as_deref()) {
        Ok(group) => Ok(ListedNodes { group, gone }),
        Err(fault) => Err(fault),
    }
}

/// The nodes that a list names, if there is a list. Prints why it names none.
fn nodes_named(
    rt: &HostRuntime,
    names: &Names<'_>,
    named: bool,
    option: &str,
    text: Option<&[u8]>,
) -> Result<Option<Vec<NodeId>>, CommandFault>
    ensures named { IfOk result (λ ids. AreNamed names.now (option_map (λ t. t.now) text.entry)
        (option_map (λ v. v.items) ids)) }
    ensures fault { IfErr result (IsNotNamedBy names.now (option_map (λ t. t.now) text.entry)) }
{
    let Some(text) = text else {
        return Ok(None);
    };
    match ids_of_group(rt.alloc(), names, text) {
        Ok(ids) => Ok(Some(ids)),
        Err(GroupFault::OutOfMemory) => Err(without_memory(rt).into()),
        Err(fault) => Err(no_nodes(rt, named, option, text, fault)),
    }
}

/// Ends since a list names no nodes. Prints why.
fn no_nodes(
    rt: &HostRuntime,
    named: bool,
    option: &str,
    text: &[u8],
    fault: GroupFault,
) -> CommandFault
    ensures { result ≡ Group fault }
{
    let number = fault.number();
    let _ = eprintln!(rt; "refused {number}");
    tell_list_fault(rt, named, option, text, &fault);
    CommandFault::Group(fault)
}

/// Prints why a list names no nodes.
fn tell_list_fault(rt: &HostRuntime, named: bool, option: &str, text: &[u8], fault: &GroupFault) {
    match fault {
        GroupFault::NoSuchName(place) => {
            let wrong = no_node_words(text, *place, named);
            tell_part(rt, option, text, *place, wrong);
        }
        GroupFault::SharedName(place) => {
            tell_part(rt, option, text, *place, "is the name of two nodes");
        }
        GroupFault::NamedTwice(node) => {
            let id = node.number();
            let _ = eprintln!(rt; "{option}: node {id} stands there twice");
        }
        GroupFault::OutOfMemory => {}
    }
}

/// Why a part of the text of a list names no node.
fn no_node_words(text: &[u8], place: usize, named: bool) -> &'static str {
    match part_at(text, place) {
        Some(part) if !named && !is_numeral(part) => "is no id, and names need --names",
        _ => "names no node",
    }
}

/// The part at a place of the text of a list.
fn part_at(text: &[u8], place: usize) -> Option<&[u8]> {
    text.split(|byte| *byte == b',').nth(place)
}

/// Whether a text has digits alone.
fn is_numeral(text: &[u8]) -> bool {
    text.iter().all(|byte| byte.is_ascii_digit())
}

/// Prints what is wrong with a part of the text of a list; or if the part is empty, with a comma beside it, or that the
/// text is empty. Prints nothing if an allocation for it is refused.
fn tell_part(rt: &HostRuntime, option: &str, text: &[u8], place: usize, wrong: &str) {
    let Some(part) = part_at(text, place) else {
        return;
    };
    let (told, why) = match empty_part(text) {
        Some(hint) if part.is_empty() => (text, hint),
        _ => (part, wrong),
    };
    let Ok(told) = from_utf8(told) else {
        let part = place.saturating_add(1);
        let _ = eprintln!(rt; "{option}: part {part} is no UTF-8, and {why}");
        return;
    };
    if let Ok(shown) = shown_name(rt.alloc(), told) {
        let _ = eprintln!(rt; "{option}: `{shown}` {why}");
    }
}

/// What is wrong with a text of which a part is empty: a comma is too many, or the text is empty.
fn empty_part(text: &[u8]) -> Option<&'static str> {
    if text.is_empty() {
        return Some("is empty");
    }
    comma_hint(text)
}
