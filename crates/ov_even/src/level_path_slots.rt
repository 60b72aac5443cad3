//! The paths of the pieces of a level, each stored at the place of its piece.
ghost use Rattle.std.specs.Prelude.{◌≡◌, ◌≤◌, List, ◌++◌, map, length, IfOk};
ghost use Rattle.std.specs.Option.{option_copied};
ghost use Rattle.ov_graph.specs.Links.{most_of_any_graph};
ghost use Rattle.ov_fans.specs.declared.piece_result.Settled.{Settled as settled};
ghost use Rattle.ov_even.specs.Code.Cuts.{all_settled};
ghost use Rattle.ov_even.specs.Code.Levels.{pieces_of_level};
ghost use Rattle.ov_even.specs.Code.Slots.{AreSlotsOf, ArePiecesOf};

use crate::level_pieces::{level_size, place_in_level};
use crate::worker_haul::Haul;
use ov_fans::{Found, Settled};
use ov_flow::PlacePaths;
use ov_ids::OutOfMemory;
use std::alloc::Global;

/// The paths that the hauls have for the pieces of the level, by place.
pub(crate) fn slots_of<'a>(
    alloc: Global,
    members: usize,
    level: usize,
    hauls: &'a [Haul],
) -> Result<Vec<Option<&'a PlacePaths>>, OutOfMemory>
    requires few { members ≤ most_of_any_graph }
    requires pieces { ArePiecesOf members (all_settled hauls.now) }
    ensures { IfOk result (λ slots.
        AreSlotsOf members level (all_settled hauls.now) (map (λ slot. option_copied slot) slots.items)) }
{
    let mut slots = vec![in alloc; None; level_size(members, level)]?;
    for haul in hauls {
        fill(members, level, &haul.pieces, &mut slots);
    }
    Ok(slots)
}

/// Stores the paths of those pieces that belong to the level.
fn fill<'a>(
    members: usize,
    level: usize,
    pieces: &'a [Settled],
    slots: &mut Vec<Option<&'a PlacePaths>>,
)
    requires pieces { ArePiecesOf members pieces.now }
    requires size { length slots.old.items ≡ length (pieces_of_level members level) }
    ensures size { length slots.new.items ≡ length (pieces_of_level members level) }
    ensures filled { (seen : List settled) → AreSlotsOf members level seen
        (map (λ slot. option_copied slot) slots.old.items)
        → AreSlotsOf members level (seen ++ pieces.now) (map (λ slot. option_copied slot) slots.new.items) }
{
    for settled in pieces {
        if settled.piece.level() as usize != level {
            continue;
        }
        if let Found::Paths(paths) = &settled.found {
            slots[place_in_level(members, settled.piece)] = Some(paths);
        }
    }
}
