//! Changes of a graph in its nodes and rows.
ghost use Rattle.std.specs.Prelude.{◌≡◌, ◌≢◌, ◌↔◌, ℕ, ◌*◌, ◌<◌, ◌≤◌, length, slice_index, vec_len, vec_capacity};
ghost use Rattle.std.specs.Prelude.{OnOk, OnErr};
ghost use Rattle.std.specs.List.{insert};
ghost use Rattle.ov_ids.specs.Members.{Has};
ghost use Rattle.ov_graph.specs.Links.{most_nodes};
ghost use Rattle.ov_graph.specs.Changes.{GainsNode, LosesNode, GainsLink, LosesLink};
ghost use Rattle.ov_graph.specs.Row.{HasBit, word_bits};
ghost use Rattle.ov_graph.specs.Code.Shifts.{HasOpened, HasClosed};
ghost use Rattle.ov_graph.specs.Code.Kept.{row_at, graph_kept, IsKept};
ghost use Rattle.ov_graph.specs.declared.bit_rows.TheConstants.{EMPTY};

use crate::bit_rows::{EMPTY, Row, WORDS, words_for};
use crate::bit_rows_from_links::{mark, unmark};
use crate::node_places_by_id::{place_for, place_in};
use crate::row_place_shifting::{closed, opened};
use ov_ids::{NodeId, OutOfMemory};

/// Adds a node without links. Out of memory leaves nodes and rows as they were.
pub(crate) fn put_in(
    nodes: &mut Vec<NodeId>,
    rows: &mut Vec<Row>,
    id: NodeId,
) -> Result<(), OutOfMemory>
    requires kept { IsKept nodes.old.items rows.old.items }
    requires stranger { ¬ Has nodes.old.items id }
    requires few { length nodes.old.items < most_nodes }
    ensures kept { OnOk result (IsKept nodes.new.items rows.new.items) }
    ensures gains { OnOk result
        (GainsNode (graph_kept nodes.old.items rows.old.items) id (graph_kept nodes.new.items rows.new.items)) }
    ensures err { OnErr result ((nodes.new.items ≡ nodes.old.items) × (rows.new.items ≡ rows.old.items)) }
{
    rows.reserve(1)?;
    let p = place_for(nodes, id);
    nodes.insert(p, id)?;
    insert_empty(rows, p);
    open_all(rows, p, words_for::<WORDS>(nodes.len()));
    Ok(())
}

/// Removes the node at a place, and its links.
pub(crate) fn take_out(nodes: &mut Vec<NodeId>, rows: &mut Vec<Row>, p: usize)
    requires kept { IsKept nodes.old.items rows.old.items }
    requires place { p < length nodes.old.items }
    ensures kept { IsKept nodes.new.items rows.new.items }
    ensures loses { LosesNode (graph_kept nodes.old.items rows.old.items) (slice_index nodes.old.items p)
        (graph_kept nodes.new.items rows.new.items) }
{
    let words = words_for::<WORDS>(nodes.len());
    nodes.remove(p);
    rows.remove(p);
    close_all(rows, p, words);
}

/// Links two nodes.
pub(crate) fn join(nodes: &[NodeId], rows: &mut [Row], a: NodeId, b: NodeId)
    requires kept { IsKept nodes.now rows.old }
    requires a { Has nodes.now a }
    requires b { Has nodes.now b }
    requires apart { a ≢ b }
    ensures kept { IsKept nodes.now rows.new }
    ensures gains { GainsLink (graph_kept nodes.now rows.old) a b (graph_kept nodes.now rows.new) }
{
    let p = place_in(nodes, a);
    let q = place_in(nodes, b);
    mark(rows, p, q);
    mark(rows, q, p);
}

/// Removes the link between two nodes.
pub(crate) fn part(nodes: &[NodeId], rows: &mut [Row], a: NodeId, b: NodeId)
    requires kept { IsKept nodes.now rows.old }
    requires a { Has nodes.now a }
    requires b { Has nodes.now b }
    ensures kept { IsKept nodes.now rows.new }
    ensures loses { LosesLink (graph_kept nodes.now rows.old) a b (graph_kept nodes.now rows.new) }
{
    let p = place_in(nodes, a);
    let q = place_in(nodes, b);
    unmark(rows, p, q);
    unmark(rows, q, p);
}

/// Inserts an empty row. It needs room for one, and allocates nothing.
fn insert_empty(rows: &mut Vec<Row>, p: usize)
    requires place { p ≤ length rows.old.items }
    requires room { vec_len rows.old < vec_capacity rows.old }
    ensures { rows.new.items ≡ insert rows.old.items p EMPTY }
{
    match rows.insert(p, EMPTY) {
        Ok(()) => {}
        Err(_) => unreachable!(),
    }
}

/// Inserts a bit 0 into each row at place `p`.
fn open_all(rows: &mut [Row], p: usize, words: usize)
    requires { words ≤ WORDS }
    ensures each { length rows.new ≡ length rows.old }
    ensures bits { (r q : ℕ) → HasBit (row_at rows.new r) q
        ↔ ((q < word_bits * words) × HasOpened (row_at rows.old r) p q) }
{
    for place in 0..rows.len() {
        rows[place] = opened(&rows[place], p, words);
    }
}

/// Removes the bit at place `p` from each row.
fn close_all(rows: &mut [Row], p: usize, words: usize)
    requires { words ≤ WORDS }
    ensures each { length rows.new ≡ length rows.old }
    ensures bits { (r q : ℕ) → HasBit (row_at rows.new r) q
        ↔ ((q < word_bits * words) × HasClosed (row_at rows.old r) p q) }
{
    for place in 0..rows.len() {
        rows[place] = closed(&rows[place], p, words);
    }
}
