//! The order of pieces.
ghost use Rattle.std.specs.Prelude.{◌↔◌, IsTrue};
ghost use Rattle.ov_even.specs.Order.{ComesBefore, PrecedesInLevel};

use ov_fans::Piece;

/// Whether a piece comes before another.
pub(crate) fn comes_before(p: Piece, r: Piece) -> bool
    ensures { IsTrue result ↔ ComesBefore p r }
{
    if p.level() != r.level() {
        return p.level() < r.level();
    }
    precedes_in_level(p, r)
}

/// Whether a piece comes before another of the same level.
fn precedes_in_level(p: Piece, r: Piece) -> bool
    ensures { IsTrue result ↔ PrecedesInLevel p r }
{
    match (p, r) {
        (Piece::Pair { i, j, .. }, Piece::Pair { i: k, j: l, .. }) => j < l || (j == l && i < k),
        (Piece::Pair { .. }, Piece::Fan { .. }) => true,
        (Piece::Fan { .. }, Piece::Pair { .. }) => false,
        (Piece::Fan { j, .. }, Piece::Fan { j: l, .. }) => j < l,
    }
}
