//! Places in a list of places that ascend: the first one in a set or outside it, and the set of all. A set is a row of
//! bits.
ghost use Rattle.std.specs.Prelude.{◌↔◌, ℕ, ◌*◌, ◌<◌, IfSome, IfNone};
ghost use Rattle.ov_ids.specs.Members.{Has, Ascends};
ghost use Rattle.ov_graph.specs.Row.{HasBit, word_bits};
ghost use Rattle.ov_graph.specs.Code.Listed.{IsFirstOf};

use crate::bit_rows::{has, put};

/// The first place of a list that is not in the set.
pub(crate) fn first_outside_of<const W: usize>(places: &[u16], set: &[u64; W]) -> Option<usize>
    requires ascend { Ascends places.now }
    requires fit { (p : ℕ) → Has places.now p → p < word_bits * W }
    ensures some { IfSome result (IsFirstOf (λ p. ¬ HasBit set.now p) places.now) }
    ensures none { IfNone result ((p : ℕ) → Has places.now p → HasBit set.now p) }
{
    for place in places {
        if !has(set, *place as usize) {
            return Some(*place as usize);
        }
    }
    None
}

/// The first place of a list that is in the set.
pub(crate) fn first_within_of<const W: usize>(places: &[u16], set: &[u64; W]) -> Option<usize>
    requires ascend { Ascends places.now }
    requires fit { (p : ℕ) → Has places.now p → p < word_bits * W }
    ensures some { IfSome result (IsFirstOf (HasBit set.now) places.now) }
    ensures none { IfNone result ((p : ℕ) → Has places.now p → ¬ HasBit set.now p) }
{
    for place in places {
        if has(set, *place as usize) {
            return Some(*place as usize);
        }
    }
    None
}

/// The set of the places of a list.
pub(crate) fn set_of<const W: usize>(places: &[u16]) -> [u64; W]
    requires { (p : ℕ) → Has places.now p → p < word_bits * W }
    ensures { (p : ℕ) → HasBit result p ↔ Has places.now p }
{
    let mut set = [0; W];
    for place in places {
        put(&mut set, *place as usize);
    }
    set
}
