//! Sets of places: one place alone, two sets joined, and how many places a set has.
ghost use Rattle.std.specs.Prelude.{◌≡◌, ◌↔◌, ◌⊎◌, ℕ, ◌*◌, ◌^◌, ◌<◌, ◌≤◌, List, length, count_ones};
ghost use Rattle.ov_ids.specs.Limits.{number_limit};
ghost use Rattle.ov_graph.specs.Links.{IsGraph, IsWithinLimit};
ghost use Rattle.ov_graph.specs.Row.{HasBit, AreWordsFor, picked, word_bits};

use ov_graph::Graph;
use ov_graph::bit_rows::{put, words_for};

/// How many words of a set are in use: those with the places of a graph's nodes.
pub(crate) fn words_in_use<const W: usize>(graph: &Graph) -> usize
    requires { length graph.now.nodes ≤ word_bits * W }
    ensures words { AreWordsFor (length graph.now.nodes) result }
    ensures fits { result ≤ W }
    ensures few { word_bits * result ≤ number_limit }
    ensures graph { IsGraph graph.now }
    ensures within { IsWithinLimit graph.now }
{
    words_for::<W>(graph.nodes().len())
}

/// The set with one place.
pub(crate) fn alone<const W: usize>(p: usize) -> [u64; W]
    requires { p < word_bits * W }
    ensures { (q : ℕ) → HasBit result q ↔ q ≡ p }
{
    let mut set = [0; W];
    put(&mut set, p);
    set
}

/// The places within the first `words` words that are in one of two sets, or in both.
pub(crate) fn either<const W: usize>(a: &[u64; W], b: &[u64; W], words: usize) -> [u64; W]
    requires { words ≤ W }
    ensures { (q : ℕ) → HasBit result q ↔ ((q < word_bits * words) × (HasBit a.now q ⊎ HasBit b.now q)) }
{
    let mut kept = [0; W];
    for word in 0..words {
        kept[word] = a[word] | b[word];
    }
    kept
}

/// How many places are in the first `words` words, where all places of the set are: as many as nodes are picked from a
/// list of nodes, if it has one for each place.
pub(crate) fn count<const W: usize>(set: &[u64; W], words: usize) -> usize
    requires fits { words ≤ W }
    requires few { word_bits * words ≤ number_limit }
    ensures { (xs : List ℕ) → ((q : ℕ) → HasBit set.now q → q < length xs) → length xs ≤ word_bits * words
        → result ≡ length (picked set.now 0 xs) }
{
    let mut bits = 0;
    for word in 0..words {
        bits += ones(set[word]);
    }
    bits
}

/// How many bits of a word are set.
fn ones(word: u64) -> usize
    ensures value { result ≡ count_ones word }
    ensures few { result ≤ word_bits }
    ensures fits { word < 2 ^ 64 }
{
    word.count_ones() as usize
}
