//! Rows of bits: sets of places of nodes. A function over many words gets the number of words in use, and reads no
//! others.
ghost use Rattle.std.specs.Prelude.{◌≡◌, ◌≢◌, ◌↔◌, ◌⊎◌, ℕ, ◌<◌, ◌≤◌, ◌*◌, IsTrue, IfSome, IfNone};
ghost use Rattle.std.specs.Int.{bit_at};
ghost use Rattle.ov_graph.specs.Row.{HasBit, IsFirstFrom, AreWordsFor, word_bits};
ghost use Rattle.ov_graph.specs.Code.Shifts.{IsLowestFrom};
ghost use Rattle.ov_ids.specs.Limits.{number_limit};

/// How many words a row has.
pub const WORDS: usize = 16;

/// How many words a set of places has that serves any graph.
pub const ALL_WORDS: usize = 512;

/// A row of bits: bit `p` is bit `p % 64` of word `p / 64`.
pub type Row = [u64; WORDS];

/// The row with no bit set.
pub const EMPTY: [u64; WORDS] = [0; WORDS];

/// Whether bit `p` is set.
pub fn has<const W: usize>(row: &[u64; W], p: usize) -> bool
    requires { p < word_bits * W }
    ensures { IsTrue result ↔ HasBit row.now p }
{
    row[p / 64] >> (p % 64) & 1 == 1
}

/// Sets bit `p`. The other bits stay.
pub fn put<const W: usize>(row: &mut [u64; W], p: usize)
    requires { p < word_bits * W }
    ensures { (q : ℕ) → HasBit row.new q ↔ ((q ≡ p) ⊎ HasBit row.old q) }
{
    row[p / 64] = with_bit(row[p / 64], (p % 64) as u32);
}

/// Clears bit `p`. The other bits stay.
pub fn clear<const W: usize>(row: &mut [u64; W], p: usize)
    requires { p < word_bits * W }
    ensures { (q : ℕ) → HasBit row.new q ↔ ((q ≢ p) × HasBit row.old q) }
{
    row[p / 64] = without_bit(row[p / 64], (p % 64) as u32);
}

/// The bits of the first `words` words that are set in both rows.
pub fn both<const W: usize>(a: &[u64; W], b: &[u64; W], words: usize) -> [u64; W]
    requires { words ≤ W }
    ensures { (p : ℕ) → HasBit result p ↔ ((p < word_bits * words) × HasBit a.now p × HasBit b.now p) }
{
    let mut kept = [0; W];
    for word in 0..words {
        kept[word] = a[word] & b[word];
    }
    kept
}

/// The bits of the first `words` words that are set in `a` and not in `b`.
pub fn without<const W: usize>(a: &[u64; W], b: &[u64; W], words: usize) -> [u64; W]
    requires { words ≤ W }
    ensures { (p : ℕ) → HasBit result p ↔ ((p < word_bits * words) × HasBit a.now p × ¬ HasBit b.now p) }
{
    let mut kept = [0; W];
    for word in 0..words {
        kept[word] = minus(a[word], b[word]);
    }
    kept
}

/// The first set bit from bit `from` on, in the first `words` words.
pub fn first_from<const W: usize>(row: &[u64; W], from: usize, words: usize) -> Option<usize>
    requires fits { words ≤ W }
    requires few { word_bits * words ≤ number_limit }
    ensures some { IfSome result (λ p. IsFirstFrom row.now from p) }
    ensures fits { IfSome result (λ p. p < word_bits * words) }
    ensures none { IfNone result ((p : ℕ) → from ≤ p → p < word_bits * words → ¬ HasBit row.now p) }
{
    let mut start = (from % 64) as u32;
    for word in from / 64..words {
        if let Some(t) = lowest_from(row[word], start) {
            return Some(64 * word + t as usize);
        }
        start = 0;
    }
    None
}

/// Whether the first `words` words of two rows have the same bits.
pub fn agree<const W: usize>(a: &[u64; W], b: &[u64; W], words: usize) -> bool
    requires { words ≤ W }
    ensures { IsTrue result ↔ ((p : ℕ) → p < word_bits * words → HasBit a.now p ↔ HasBit b.now p) }
{
    for word in 0..words {
        if a[word] != b[word] {
            return false;
        }
    }
    true
}

/// The bits of a word below bit `t`.
pub fn low_bits(word: u64, t: u32) -> u64
    requires { t < word_bits }
    ensures { (i : ℕ) → (bit_at result i ≡ 1) ↔ ((i < t) × (bit_at word i ≡ 1)) }
{
    word & ((1 << t) - 1)
}

/// The lowest number of words with bits for `n` places, of `W` words.
pub fn words_for<const W: usize>(n: usize) -> usize
    requires room { n ≤ word_bits * W }
    requires few { n ≤ number_limit }
    ensures words { AreWordsFor n result }
    ensures fits { result ≤ W }
{
    (n + 63) / 64
}

/// The bits of one word that are set in `a` and not in `b`.
pub(crate) fn minus(a: u64, b: u64) -> u64
    ensures { (i : ℕ) → i < word_bits → (bit_at result i ≡ 1) ↔ ((bit_at a i ≡ 1) × ¬ (bit_at b i ≡ 1)) }
{
    a & !b
}

/// The word with bit `k` set.
fn with_bit(word: u64, k: u32) -> u64
    requires { k < word_bits }
    ensures set { bit_at result k ≡ 1 }
    ensures others { (i : ℕ) → ¬ (i ≡ k) → bit_at result i ≡ bit_at word i }
{
    word | (1 << k)
}

/// The word with bit `k` cleared.
fn without_bit(word: u64, k: u32) -> u64
    requires { k < word_bits }
    ensures cleared { bit_at result k ≡ 0 }
    ensures others { (i : ℕ) → i < word_bits → ¬ (i ≡ k) → bit_at result i ≡ bit_at word i }
{
    word & !(1 << k)
}

/// The first set bit of a word from bit `start` on.
pub(crate) fn lowest_from(word: u64, start: u32) -> Option<u32>
    requires { start < word_bits }
    ensures some { IfSome result (IsLowestFrom word start) }
    ensures none { IfNone result ((i : ℕ) → start ≤ i → i < word_bits → bit_at word i ≡ 0) }
{
    let left = word >> start;
    if left == 0 {
        return None;
    }
    Some(start + left.trailing_zeros())
}
