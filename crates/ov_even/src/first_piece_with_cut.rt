//! The deciding piece among those that workers have settled.
ghost use Rattle.std.specs.Prelude.{◌↔◌, IsTrue, IfSome, IfNone, List, ◌++◌};
ghost use Rattle.std.specs.Option.{option_copied};
ghost use Rattle.ov_fans.specs.Theorems.{IsNoCut};
ghost use Rattle.ov_fans.specs.declared.piece_result.Settled.{Settled as settled};
ghost use Rattle.ov_even.specs.Code.Cuts.{IsEarlierCut, IsFirstCut, all_settled};
ghost use Rattle.ov_even.specs.Code.Narrowing.{IsCutOf};

use crate::piece_order::comes_before;
use crate::worker_haul::Haul;
use ov_fans::{Found, Settled};

/// The first settled piece, in the order of pieces, that has a cut. None if none has one.
pub(crate) fn first_cut(hauls: &[Haul]) -> Option<&Settled>
    ensures { IsFirstCut (all_settled hauls.now) (option_copied result) }
{
    let mut first = None;
    for haul in hauls {
        first = earlier_cut(&haul.pieces, first);
    }
    first
}

/// The first piece with a cut, among these pieces and the first one known so far.
fn earlier_cut<'a>(pieces: &'a [Settled], known: Option<&'a Settled>) -> Option<&'a Settled>
    ensures { (seen : List settled) → IsFirstCut seen (option_copied known.entry)
        → IsFirstCut (seen ++ pieces.now) (option_copied result) }
{
    let mut first = known;
    for settled in pieces {
        if is_earlier_cut(settled, first) {
            first = Some(settled);
        }
    }
    first
}

/// Whether a piece has a cut and comes before the first known piece with a cut.
fn is_earlier_cut(settled: &Settled, first: Option<&Settled>) -> bool
    ensures { IsTrue result ↔ IsEarlierCut settled.now (option_copied first.entry) }
{
    if !settled.is_cut() {
        return false;
    }
    match first {
        Some(known) => comes_before(settled.piece, known.piece),
        None => true,
    }
}

/// The size of the cut of a piece, if it has one.
pub(crate) fn cut_size(settled: &Settled) -> Option<usize>
    ensures some { IfSome result (IsCutOf settled.now.found) }
    ensures none { IfNone result (IsNoCut settled.now.found) }
{
    match &settled.found {
        Found::Cut(parting) => Some(parting.cut.as_slice().len()),
        Found::Linked | Found::Paths(_) => None,
    }
}
