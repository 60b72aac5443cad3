ghost use Rattle.std.specs.Prelude.{◌≡◌, map, option_map, IfOk};
ghost use Rattle.std.specs.List.{slice_split};
ghost use Rattle.ov_lines.specs.Lines.{is_comma, number_within, ids_of, short_bits};

use crate::numeral::read_short_number;
use ov_ids::{NodeId, OutOfMemory};
use std::alloc::{AllocError, Global};

/// Reads the ids that a word spells: numbers of decimal digits and 32 bits, with one comma between two. None is
/// returned if a part of the word is no such number, or is empty. OutOfMemory (99) is returned if an allocation was
/// refused. The form of the word is chosen here.
#[tactic(auto, unfolding(crate::specs::Lines::ids_of))]
pub fn read_ids(alloc: Global, word: &[u8]) -> Result<Option<Vec<NodeId>>, OutOfMemory>
    ensures { IfOk result (λ ids. option_map (λ v. v.items) ids ≡ ids_of word.now) }
{
    let pieces = split_at_commas(alloc, word)?;
    let mut ids = Vec::new(alloc);
    for piece in &pieces {
        let Some(id) = read_id(piece) else {
            return Ok(None);
        };
        ids.push(id)?;
    }
    Ok(Some(ids))
}

/// The parts of a word between its commas.
fn split_at_commas(alloc: Global, word: &[u8]) -> Result<Vec<&[u8]>, AllocError>
    ensures { IfOk result (λ pieces. map (λ piece. piece.now) pieces.items ≡ slice_split is_comma word.now) }
{
    word.split(|byte| *byte == b',').collect(alloc)
}

fn read_id(piece: &[u8]) -> Option<NodeId>
    ensures { result ≡ number_within short_bits piece.now }
{
    Some(NodeId::new(read_short_number(piece)?))
}
