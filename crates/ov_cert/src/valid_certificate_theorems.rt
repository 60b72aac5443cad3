ghost use Rattle.ov_cert.specs.Theorems.{OneVerdict, ValidMeans};

/// What a valid certificate for a group proves. Its number k is the fewest node crashes that split the group, or one
/// less than the number of members if every two are linked. If it names a cut, crashing its k nodes leaves two
/// surviving members that are not joined. After fewer than k crashes every two surviving members are joined (Even, SIAM
/// J. Comput. 4, 1975).
pub fn valid_means()
    ensures { ValidMeans }
{}

/// A certificate for a group has at most one verdict: a valid certificate has no first fault, and no certificate has
/// two.
pub fn one_verdict()
    ensures { OneVerdict }
{}
