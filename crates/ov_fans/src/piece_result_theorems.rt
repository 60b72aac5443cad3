ghost use Rattle.ov_fans.specs.Theorems.{SameCut, RightDecides};

/// A piece has at most one parting: two have the same nearest minimum cut, near member, far member and side (Ford and
/// Fulkerson, Flows in Networks, 1962).
pub fn same_cut()
    ensures { SameCut }
{}

/// The right result decides a piece: it is good if the result is a linked pair or paths, and not good if it is a cut.
pub fn right_decides()
    ensures { RightDecides }
{}
