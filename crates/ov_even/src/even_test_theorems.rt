ghost use Rattle.ov_even.specs.Theorems.{GoodOrCut, FirstGivesNumber, OneFirst, FirstExists, OneAnswer};

/// Each piece is good, or its nearest cut has fewer nodes than its level (Menger, Fund. Math. 10, 1927).
pub fn good_or_cut()
    ensures { GoodOrCut }
{}

/// The level of the first piece that is not good, less one, is the fewest node crashes that split the group (Even, SIAM
/// J. Comput. 4, 1975).
pub fn first_gives_number()
    ensures { FirstGivesNumber }
{}

/// A graph and a group have at most one first piece that is not good.
pub fn one_first()
    ensures { OneFirst }
{}

/// If two members are not linked, there is a first piece that is not good.
pub fn first_exists()
    ensures { FirstExists }
{}

/// A graph and a group have one answer, whatever computes it. Two answers agree in the number, and for a split in the
/// cut, near, far and the side. Only their paths may differ.
pub fn one_answer()
    ensures { OneAnswer }
{}
