ghost use Rattle.ov_split.specs.Theorems.{Menger, OneNearestCut};

/// Menger's theorem for nets: a fan of k paths exists if and only if every cut has k nodes or more (Menger, Fund. Math.
/// 10, 1927).
pub fn menger()
    ensures { Menger }
{}

/// A net has at most one nearest minimum cut: of two, the side of each is within that of the other (Ford and Fulkerson,
/// Flows in Networks, 1962).
pub fn one_nearest_cut()
    ensures { OneNearestCut }
{}
