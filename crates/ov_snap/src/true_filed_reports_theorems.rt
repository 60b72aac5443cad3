ghost use Rattle.ov_snap.specs.Theorems.{EveryReportIsTrue, EveryReportStays};

/// The main theorem. Whatever happens to a world, and whatever is filed, what each filed report says is true: a
/// snapshot was taken at its moment, and its graph has exactly the links that both ends held then. Crashing the k nodes
/// that it names leaves two surviving members of its group that are not joined, or every two members are linked and k
/// is one less than their number; without any fewer nodes every two surviving members are joined (Menger, Fund. Math.
/// 10, 1927; Even, SIAM J. Comput. 4, 1975). The checker, given the graph, the group and the certificate alone, says
/// yes.
pub fn every_report_is_true()
    ensures { EveryReportIsTrue }
{}

/// What is filed stays filed: no step of a core takes a report away, changes it, or puts another one in its place.
pub fn every_report_stays()
    ensures { EveryReportStays }
{}
