//! What a worker has settled, and what it keeps of that.
ghost use Rattle.std.specs.Prelude.{◌≡◌, IfOk};
ghost use Rattle.ov_fans.specs.Pieces.{IsPiece};
ghost use Rattle.ov_even.specs.Hauls.{IsKeptOf};
ghost use Rattle.ov_even.specs.declared.worker_haul.Keeping.TheVariants.{CutsAlone as cuts_alone};

use ov_fans::{Found, Piece, Settled, Settler};
use ov_ids::OutOfMemory;

/// The pieces that one worker has settled.
#[derive(Drop)]
pub struct Haul {
    pub pieces: Vec<Settled>,
}

/// What the hauls of a search keep.
#[derive(Clone, Copy)]
pub enum Keeping {
    /// Each piece with its result, and so the paths of a certificate.
    EachPiece,
    /// The pieces with a cut. For the others no path is made or kept.
    CutsAlone,
}

/// Settles a piece, and returns what is kept of it: None for a good piece, if cuts alone are kept. Faults: out of
/// memory.
pub fn settle_keeping(
    settler: &mut Settler<'_>,
    piece: Piece,
    keeping: Keeping,
) -> Result<Option<Settled>, OutOfMemory>
    requires { IsPiece settler.old.graph settler.old.members piece }
    ensures kept { IfOk result (IsKeptOf keeping settler.old.graph settler.old.members piece) }
    ensures stays { settler.new ≡ settler.old }
{
    match keeping {
        Keeping::EachPiece => Ok(Some(settler.settle(piece)?)),
        Keeping::CutsAlone => cut_of(settler, piece),
    }
}

/// The piece with its cut, or None if it is good. Faults: out of memory.
fn cut_of(settler: &mut Settler<'_>, piece: Piece) -> Result<Option<Settled>, OutOfMemory>
    requires { IsPiece settler.old.graph settler.old.members piece }
    ensures kept { IfOk result (IsKeptOf cuts_alone settler.old.graph settler.old.members piece) }
    ensures stays { settler.new ≡ settler.old }
{
    let Some(parting) = settler.nearest_cut(piece)? else {
        return Ok(None);
    };
    let found = Found::Cut(parting);
    Ok(Some(Settled { piece, found }))
}
