//! How many bits two rows share.
ghost use Rattle.std.specs.Prelude.{◌≡◌, ◌<◌, ◌≤◌, ◌*◌, ◌^◌, bit_and, count_ones};
ghost use Rattle.ov_ids.specs.Limits.{number_limit};
ghost use Rattle.ov_graph.specs.Row.{HasBit, word_bits};
ghost use Rattle.ov_fans.specs.Counts.{IsNumberOf};

/// How many bits of the first `words` words are set in both rows.
pub fn shared_bits<const W: usize>(a: &[u64; W], b: &[u64; W], words: usize) -> usize
    requires fits { words ≤ W }
    requires few { word_bits * words ≤ number_limit }
    ensures { IsNumberOf (λ p. (p < word_bits * words) × HasBit a.now p × HasBit b.now p) result }
{
    let mut bits = 0;
    for word in 0..words {
        bits += ones_in_both(a[word], b[word]);
    }
    bits
}

/// How many bits are set in both words.
fn ones_in_both(a: u64, b: u64) -> usize
    ensures count { result ≡ count_ones (bit_and a b) }
    ensures fits { bit_and a b < 2 ^ 64 }
{
    (a & b).count_ones() as usize
}
