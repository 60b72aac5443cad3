//! A bit is inserted into a row, or removed from it. The bits after it move by one place.
ghost use Rattle.std.specs.Prelude.{◌≡◌, ◌↔◌, ◌⊎◌, ℕ, ◌+◌, ◌-◌, ◌*◌, ◌/◌, ◌%◌, ◌<◌, ◌≤◌, slice_index};
ghost use Rattle.std.specs.Int.{bit_at};
ghost use Rattle.ov_graph.specs.Row.{HasBit, word_bits};
ghost use Rattle.ov_graph.specs.Code.Shifts.{HasOpened, HasClosed};

use crate::bit_rows::{EMPTY, WORDS, low_bits};

/// The first `words` words of a row with a bit 0 inserted at place `p`.
pub(crate) fn opened(row: &[u64; WORDS], p: usize, words: usize) -> [u64; WORDS]
    requires { words ≤ WORDS }
    ensures { (q : ℕ) → HasBit result q ↔ ((q < word_bits * words) × HasOpened row.now p q) }
{
    let mut made = EMPTY;
    for word in 0..words {
        made[word] = opened_word(row, p, word);
    }
    made
}

/// The first `words` words of a row with the bit at place `p` removed.
pub(crate) fn closed(row: &[u64; WORDS], p: usize, words: usize) -> [u64; WORDS]
    requires { words ≤ WORDS }
    ensures { (q : ℕ) → HasBit result q ↔ ((q < word_bits * words) × HasClosed row.now p q) }
{
    let mut made = EMPTY;
    for word in 0..words {
        made[word] = closed_word(row, p, word);
    }
    made
}

/// A word of the row with a bit 0 inserted at place `p`.
fn opened_word(row: &[u64; WORDS], p: usize, word: usize) -> u64
    requires { word < WORDS }
    ensures { (q : ℕ) → q / word_bits ≡ word → (bit_at result (q % word_bits) ≡ 1) ↔ HasOpened row.now p q }
{
    let at = p / 64;
    if word < at {
        return row[word];
    }
    if word == at {
        return parted(row[word], (p % 64) as u32);
    }
    up(row[word], row[word - 1])
}

/// A word of the row with the bit at place `p` removed.
fn closed_word(row: &[u64; WORDS], p: usize, word: usize) -> u64
    requires { word < WORDS }
    ensures { (q : ℕ) → q / word_bits ≡ word → (bit_at result (q % word_bits) ≡ 1) ↔ HasClosed row.now p q }
{
    let at = p / 64;
    if word < at {
        return row[word];
    }
    let moved = down(row[word], word_after(row, word));
    if word == at {
        return joined(row[word], moved, (p % 64) as u32);
    }
    moved
}

/// The word after this one, or 0 after the last.
fn word_after(row: &[u64; WORDS], word: usize) -> u64
    requires { word < WORDS }
    ensures { result ≡ slice_index row.now (word + 1) }
{
    if word + 1 < WORDS { row[word + 1] } else { 0 }
}

/// The bits of a word below bit `t`, and the others moved one place up.
fn parted(word: u64, t: u32) -> u64
    requires { t < word_bits }
    ensures { (i : ℕ) → i < word_bits
        → (bit_at result i ≡ 1) ↔ (((i < t) × (bit_at word i ≡ 1)) ⊎ ((t < i) × (bit_at word (i - 1) ≡ 1))) }
{
    low_bits(word, t) | up(above(word, t), 0)
}

/// The bits of a word below bit `t`, and the bits of another from there on.
fn joined(word: u64, other: u64, t: u32) -> u64
    requires { t < word_bits }
    ensures { (i : ℕ) → i < word_bits
        → (bit_at result i ≡ 1) ↔ (((i < t) × (bit_at word i ≡ 1)) ⊎ ((t ≤ i) × (bit_at other i ≡ 1))) }
{
    low_bits(word, t) | above(other, t)
}

/// The bits of a word from bit `t` on.
fn above(word: u64, t: u32) -> u64
    requires { t < word_bits }
    ensures { (i : ℕ) → (bit_at result i ≡ 1) ↔ ((t ≤ i) × (bit_at word i ≡ 1)) }
{
    word >> t << t
}

/// A word moved one place up. Its first bit is the last bit of the word before it.
fn up(word: u64, before: u64) -> u64
    ensures first { (bit_at result 0 ≡ 1) ↔ (bit_at before (word_bits - 1) ≡ 1) }
    ensures others { (i : ℕ) → i < word_bits - 1 → (bit_at result (i + 1) ≡ 1) ↔ (bit_at word i ≡ 1) }
{
    word << 1 | before >> 63
}

/// A word moved one place down. Its last bit is the first bit of the word after it.
fn down(word: u64, after: u64) -> u64
    ensures last { (bit_at result (word_bits - 1) ≡ 1) ↔ (bit_at after 0 ≡ 1) }
    ensures others { (i : ℕ) → i < word_bits - 1 → (bit_at result i ≡ 1) ↔ (bit_at word (i + 1) ≡ 1) }
{
    word >> 1 | after << 63
}
