ghost use Rattle.ov_graph.specs.Theorems.{EvenSuffices, OneNumber};

/// Even's test suffices: if a group passes it at k, no set of fewer than k nodes splits the group. Every two surviving
/// members are joined without such a set (Even, SIAM J. Comput. 4, 1975).
pub fn even_suffices()
    ensures { EvenSuffices }
{}

/// A group has at most one number of fewest crashes: the size of the smallest set of nodes that splits it.
pub fn one_number()
    ensures { OneNumber }
{}
