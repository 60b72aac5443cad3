//! Tries a level: settles its pieces in order, until one has a cut.
ghost use Rattle.std.specs.Prelude.{◌≡◌, ◌↔◌, ◌<◌, ◌≤◌, [], ◌∷◌, length, IsTrue, IfOk};
ghost use Rattle.ov_graph.specs.Links.{IsGraph, most_of_any_graph};
ghost use Rattle.ov_fans.specs.declared.piece_result.Found.TheVariants.{Linked as linked_found};
ghost use Rattle.ov_even.specs.Hauls.{AreRight};
ghost use Rattle.ov_even.specs.Levels.{AreFirstDone, IsTried};

use crate::level_pieces::{LevelPieces, level_size, place_in_level};
use crate::progress_watcher::Watcher;
use crate::worker_haul::{Haul, Keeping, settle_keeping};
use ov_fans::{Found, Settled, Settler};
use ov_ids::OutOfMemory;
use std::alloc::Global;

/// Tries a level, for a group of `members` members. The pieces of the first of them, `done` members, are done with. The
/// haul has what is kept of the pieces that were settled, but no linked pairs. Faults: out of memory.
pub(crate) fn try_level<W: Watcher>(
    alloc: Global,
    settler: &mut Settler<'_>,
    members: usize,
    level: usize,
    done: usize,
    keeping: Keeping,
    watcher: &mut W,
) -> Result<Haul, OutOfMemory>
    requires members { members ≡ length settler.old.members }
    requires few { members ≤ most_of_any_graph }
    requires low { 1 ≤ level }
    requires below { level < length settler.old.graph.nodes }
    requires high { level < most_of_any_graph }
    requires graph { IsGraph settler.old.graph }
    requires done { AreFirstDone keeping settler.old.graph settler.old.members level done }
    ensures right { IfOk result (λ haul. AreRight settler.old.graph settler.old.members (haul ∷ [])) }
    ensures tried { IfOk result (λ haul. IsTried keeping settler.old.graph settler.old.members (haul ∷ []) level) }
    ensures stays { settler.new ≡ settler.old }
{
    let size = level_size(members, level);
    let mut pieces = Vec::new(alloc);
    for piece in LevelPieces::behind(members, level, done) {
        watcher.sees(level, place_in_level(members, piece), size);
        let kept = settle_keeping(settler, piece, keeping)?;
        let Some(settled) = kept else {
            continue;
        };
        if is_linked(&settled) {
            continue;
        }
        let stops = settled.is_cut();
        pieces.push(settled)?;
        if stops {
            return Ok(Haul { pieces });
        }
    }
    Ok(Haul { pieces })
}

/// Whether a piece is a linked pair.
fn is_linked(settled: &Settled) -> bool
    ensures { IsTrue result ↔ (settled.now.found ≡ linked_found) }
{
    match &settled.found {
        Found::Linked => true,
        Found::Paths(_) | Found::Cut(_) => false,
    }
}
