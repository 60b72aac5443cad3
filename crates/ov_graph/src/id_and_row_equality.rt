ghost use Rattle.std.specs.Prelude.{◌≡◌, ◌↔◌, ℕ, ◌<◌, ◌≤◌, ◌*◌, IsTrue, length};
ghost use Rattle.ov_graph.specs.Row.{HasBit, word_bits};
ghost use Rattle.ov_graph.specs.Code.Kept.{row_at};

use crate::bit_rows::{Row, WORDS, agree};
use ov_ids::NodeId;

/// Whether two lists of ids are equal.
pub(crate) fn are_equal(left: &[NodeId], right: &[NodeId]) -> bool
    ensures { IsTrue result ↔ left.now ≡ right.now }
{
    left == right
}

/// Whether two lists of links are equal.
pub(crate) fn have_same_links(left: &[(NodeId, NodeId)], right: &[(NodeId, NodeId)]) -> bool
    ensures { IsTrue result ↔ left.now ≡ right.now }
{
    left == right
}

/// Whether two lists of rows have the same bits in the first `words` words of each row.
pub(crate) fn have_same_rows(left: &[Row], right: &[Row], words: usize) -> bool
    requires each { length left.now ≡ length right.now }
    requires words { words ≤ WORDS }
    ensures { IsTrue result ↔ ((p q : ℕ) → p < length left.now → q < word_bits * words
        → HasBit (row_at left.now p) q ↔ HasBit (row_at right.now p) q) }
{
    for place in 0..left.len() {
        if !agree(&left[place], &right[place], words) {
            return false;
        }
    }
    true
}
