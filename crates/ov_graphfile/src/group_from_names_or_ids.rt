ghost use Rattle.std.specs.Prelude.{◌≡◌, ℕ, ◌<◌, length, map, slice_index_or, Some, None};
ghost use Rattle.std.specs.Prelude.{IfOk, IfErr, IsTrue, ◌↔◌};
ghost use Rattle.std.specs.BTreeMap.{get_by};
ghost use Rattle.std.specs.Cmp.Lexicographic.{slice_cmp};
ghost use Rattle.std.specs.List.{slice_split};
ghost use Rattle.std.specs.Ordering.{nat_cmp};
ghost use Rattle.ov_graph.specs.Links.{IsGraph};
ghost use Rattle.ov_graph.specs.Row.{HasBit, picked};
ghost use Rattle.ov_lines.specs.Lines.{is_comma, one, short_bits, words_of};
ghost use Rattle.ov_graphfile.specs.Groups.{parts_of, part_at, HasNumeralName, IsGroupNamed, IsGroupFault};
ghost use Rattle.ov_graphfile.specs.Code.Bearers.{AreBearers};
ghost use Rattle.ov_graphfile.specs.Code.Owners.{IsOwner, IsNumeralAt, AreMarked};

use crate::group_names_fault::GroupFault;
use crate::name_table::Names;
use crate::nodes_by_name::{Bearer, NodesByName};
use ov_graph::Graph;
use ov_graph::bit_rows::{ALL_WORDS, first_from, has, put, words_for};
use ov_ids::{NodeId, OutOfMemory};
use ov_lines::{ID, Kind, LineCursor};
use std::alloc::{AllocError, Global};

/// The id of a node.
const NODE_ID: &[Kind] = &[ID];

/// The group that a text names: parts with commas between them, each the name of exactly one node, or else the id of a
/// node. If some name is a numeral, no part is an id, so that a wrong name never means another node. The ids ascend.
/// NoSuchName (84), SharedName (85) or NamedTwice (34) is returned for the first part that is at fault, OutOfMemory
/// (99) if an allocation is refused. The form is chosen here. Names are found in a map that has them in order; as no
/// node is meant twice, there are no more parts to look for than nodes, and one.
pub fn ids_of_group(
    alloc: Global,
    names: &Names<'_>,
    text: &[u8],
) -> Result<Vec<NodeId>, GroupFault>
    ensures group { IfOk result (λ ids. IsGroupNamed names.now (parts_of text.now) ids.items) }
    ensures fault { IfErr result (IsGroupFault names.now (parts_of text.now)) }
{
    let parts = split_at_commas(alloc, text)?;
    let members = marked_members(alloc, names, &parts)?;
    Ok(marked_nodes(alloc, names.graph(), &members)?)
}

/// The parts of a text between its commas.
fn split_at_commas(alloc: Global, text: &[u8]) -> Result<Vec<&[u8]>, AllocError>
    ensures { IfOk result (λ parts. map (λ part. part.now) parts.items ≡ slice_split is_comma text.now) }
{
    text.split(|byte| *byte == b',').collect(alloc)
}

/// The row of the nodes that these parts mean.
fn marked_members(
    alloc: Global,
    names: &Names<'_>,
    parts: &[&[u8]],
) -> Result<[u64; ALL_WORDS], GroupFault>
    ensures marked { IfOk result (λ row.
        AreMarked names.now (map (λ part. part.now) parts.now) row (length parts.now)) }
    ensures fault { IfErr result (IsGroupFault names.now (map (λ part. part.now) parts.now)) }
{
    let by_name = NodesByName::new(alloc, names)?;
    match marked_by(names, &by_name, parts) {
        Ok(row) => Ok(row),
        Err(fault) => Err(fault),
    }
}

/// The same, where it is known who has a name.
fn marked_by(
    names: &Names<'_>,
    by_name: &NodesByName<'_>,
    parts: &[&[u8]],
) -> Result<[u64; ALL_WORDS], GroupFault>
    requires { AreBearers names.now.told (length names.now.graph.nodes)
        (λ name. get_by (λ k. slice_cmp nat_cmp name k.now) by_name.now.bearers) }
    ensures marked { IfOk result (λ row.
        AreMarked names.now (map (λ part. part.now) parts.now) row (length parts.now)) }
    ensures fault { IfErr result (IsGroupFault names.now (map (λ part. part.now) parts.now)) }
{
    let nodes = names.graph().nodes();
    let numerals = has_numeral_name(names);
    let mut row = [0; ALL_WORDS];
    for at in 0..parts.len() {
        let part = part_at(parts, at);
        let place = match owner_of(names, by_name, numerals, part) {
            Owner::One(place) => place,
            Owner::Nobody => return Err(GroupFault::NoSuchName(at)),
            Owner::Several => return Err(GroupFault::SharedName(at)),
        };
        if has(&row, place) {
            return Err(GroupFault::NamedTwice(nodes[place]));
        }
        put(&mut row, place);
    }
    Ok(row)
}

/// The part at a place.
fn part_at<'a>(parts: &[&'a [u8]], at: usize) -> &'a [u8]
    requires { at < length parts.now }
    ensures { result.now ≡ part_at (map (λ part. part.now) parts.now) at }
{
    parts[at]
}

/// Whom a part of a text means.
#[derive(Clone, Copy)]
enum Owner {
    /// The node at this place.
    One(usize),
    /// Nobody has this name or this id.
    Nobody,
    /// Two nodes have this name.
    Several,
}

/// Whether some name is a numeral.
fn has_numeral_name(names: &Names<'_>) -> bool
    ensures { IsTrue result ↔ HasNumeralName names.now }
{
    let count = names.graph().nodes().len();
    for place in 0..count {
        if is_numeral_at(names, place) {
            return true;
        }
    }
    false
}

/// Whether the name of the node at a place is a numeral.
fn is_numeral_at(names: &Names<'_>, place: usize) -> bool
    requires { place < length names.now.graph.nodes }
    ensures { IsTrue result ↔ IsNumeralAt names.now place }
{
    match names.name_at(place) {
        Some(name) => id_spelled(name).is_some(),
        None => false,
    }
}

/// The id that a text spells, if it is one word and spells one.
fn id_spelled(text: &[u8]) -> Option<NodeId>
    ensures { result ≡ one short_bits (words_of text.now) }
{
    match LineCursor::new(text).last_short_number(NODE_ID) {
        Ok(number) => Some(NodeId::new(number)),
        Err(_) => None,
    }
}

/// Whom a part means, if it is known who has a name, and whether some name is a numeral.
fn owner_of(names: &Names<'_>, by_name: &NodesByName<'_>, numerals: bool, part: &[u8]) -> Owner
    requires named { AreBearers names.now.told (length names.now.graph.nodes)
        (λ name. get_by (λ k. slice_cmp nat_cmp name k.now) by_name.now.bearers) }
    requires numerals { IsTrue numerals ↔ HasNumeralName names.now }
    requires graph { IsGraph names.now.graph }
    ensures { IsOwner names.now part.now result }
{
    match by_name.bearer(part) {
        Some(Bearer::One(place)) => Owner::One(place),
        Some(Bearer::Several) => Owner::Several,
        None => owner_spelled(names, numerals, part),
    }
}

/// Whose id a part spells, if no name is a numeral. No node has the part as its name.
fn owner_spelled(names: &Names<'_>, numerals: bool, part: &[u8]) -> Owner
    requires numerals { IsTrue numerals ↔ HasNumeralName names.now }
    requires unnamed { (p : ℕ) → p < length names.now.graph.nodes
        → ¬ (slice_index_or names.now.told p None ≡ Some part.now) }
    ensures { IsOwner names.now part.now result }
{
    if numerals {
        return Owner::Nobody;
    }
    let Some(id) = id_spelled(part) else {
        return Owner::Nobody;
    };
    match names.graph().place(id) {
        Some(place) => Owner::One(place),
        None => Owner::Nobody,
    }
}

/// The nodes whose bits are set, ascending.
fn marked_nodes(
    alloc: Global,
    graph: &Graph,
    row: &[u64; ALL_WORDS],
) -> Result<Vec<NodeId>, OutOfMemory>
    requires { (p : ℕ) → HasBit row.now p → p < length graph.now.nodes }
    ensures ids { IfOk result (λ ids. ids.items ≡ picked row.now 0 graph.now.nodes) }
    ensures graph { IsGraph graph.now }
{
    let nodes = graph.nodes();
    let words = words_for::<ALL_WORDS>(nodes.len());
    let mut ids = Vec::new(alloc);
    let mut next = 0;
    while let Some(place) = first_from(row, next, words) {
        ids.push(nodes[place])?;
        next = place + 1;
    }
    Ok(ids)
}
