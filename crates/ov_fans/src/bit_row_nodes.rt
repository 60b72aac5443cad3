//! The lower bits of a row, and the nodes whose bits are set.
ghost use Rattle.std.specs.Prelude.{◌≡◌, ◌↔◌, ℕ, ◌<◌, ◌≤◌, ◌*◌, length, IfOk};
ghost use Rattle.ov_ids.specs.Limits.{number_limit};
ghost use Rattle.ov_graph.specs.Row.{HasBit, picked, word_bits};
ghost use Rattle.ov_fans.specs.Code.Kept.{AreBitsOfNodes};

use ov_graph::Graph;
use ov_graph::bit_rows::{first_from, low_bits, words_for};
use ov_ids::{NodeId, OutOfMemory, Seq};
use std::alloc::Global;

/// The bits of a row below place `p`.
pub(crate) fn bits_below<const W: usize>(row: &[u64; W], p: usize) -> [u64; W]
    requires { p < word_bits * W }
    ensures { (q : ℕ) → HasBit result q ↔ ((q < p) × HasBit row.now q) }
{
    let last = p / 64;
    let mut kept = [0; W];
    for word in 0..last {
        kept[word] = row[word];
    }
    kept[last] = low_bits(row[last], (p % 64) as u32);
    kept
}

/// The nodes whose bits are set, ascending.
pub(crate) fn nodes_of_row<const W: usize>(
    alloc: Global,
    graph: &Graph,
    row: &[u64; W],
) -> Result<Seq<NodeId>, OutOfMemory>
    requires row { AreBitsOfNodes graph.now.nodes row.now }
    requires room { length graph.now.nodes ≤ word_bits * W }
    ensures { IfOk result (λ nodes. nodes ≡ picked row.now 0 graph.now.nodes) }
{
    let nodes = graph.nodes();
    let words = words_for::<W>(nodes.len());
    let mut found = Vec::with_capacity(alloc, bits_in(row, words))?;
    let mut next = 0;
    while let Some(place) = first_from(row, next, words) {
        found.push(nodes[place])?;
        next = place + 1;
    }
    Ok(Seq::new(found))
}

/// How many bits of the first `words` words are set, by which room is allocated. The contract needs only the upper
/// bound.
fn bits_in<const W: usize>(row: &[u64; W], words: usize) -> usize
    requires fits { words ≤ W }
    requires few { word_bits * words ≤ number_limit }
    ensures { result ≤ word_bits * words }
{
    let mut bits = 0;
    for word in 0..words {
        bits += ones_in(row[word]);
    }
    bits
}

/// How many bits of a word are set, which is at most all of them.
fn ones_in(word: u64) -> usize
    ensures { result ≤ word_bits }
{
    word.count_ones() as usize
}
