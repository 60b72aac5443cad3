//! The places of the neighbours of a node: all of them, or one after another among the places in a set or outside it.
ghost use Rattle.std.specs.Prelude.{◌↔◌, ℕ, ◌<◌, ◌≤◌, ◌*◌, IfSome, IfNone};
ghost use Rattle.ov_graph.specs.Row.{HasBit, word_bits};
ghost use Rattle.ov_graph.specs.Neighbours.{IsFirst};
ghost use Rattle.ov_graph.specs.Code.Shifts.{HoldsNowhere};

use crate::bit_rows::{Row, WORDS, lowest_from, minus};

/// The first bit from bit `from` on that is set in the row and not in the set, in their first `words` words.
pub(crate) fn first_outside<const W: usize>(
    row: &Row,
    set: &[u64; W],
    from: usize,
    words: usize,
) -> Option<usize>
    requires row { words ≤ WORDS }
    requires set { words ≤ W }
    ensures some { IfSome result (IsFirst (λ p. HasBit row.now p × ¬ HasBit set.now p) from) }
    ensures none { IfNone result (HoldsNowhere (λ p. HasBit row.now p × ¬ HasBit set.now p) from (word_bits * words)) }
{
    let mut start = (from % 64) as u32;
    for word in from / 64..words {
        if let Some(t) = lowest_from(minus(row[word], set[word]), start) {
            return Some(64 * word + t as usize);
        }
        start = 0;
    }
    None
}

/// The first bit from bit `from` on that is set both in the row and in the set, in their first `words` words.
pub(crate) fn first_within<const W: usize>(
    row: &Row,
    set: &[u64; W],
    from: usize,
    words: usize,
) -> Option<usize>
    requires row { words ≤ WORDS }
    requires set { words ≤ W }
    ensures some { IfSome result (IsFirst (λ p. HasBit row.now p × HasBit set.now p) from) }
    ensures none { IfNone result (HoldsNowhere (λ p. HasBit row.now p × HasBit set.now p) from (word_bits * words)) }
{
    let mut start = (from % 64) as u32;
    for word in from / 64..words {
        if let Some(t) = lowest_from(row[word] & set[word], start) {
            return Some(64 * word + t as usize);
        }
        start = 0;
    }
    None
}

/// The bits of the first `words` words of a row.
pub(crate) fn widened<const W: usize>(row: &Row, words: usize) -> [u64; W]
    requires row { words ≤ WORDS }
    requires set { words ≤ W }
    ensures { (p : ℕ) → HasBit result p ↔ ((p < word_bits * words) × HasBit row.now p) }
{
    let mut set = [0; W];
    for word in 0..words {
        set[word] = row[word];
    }
    set
}
