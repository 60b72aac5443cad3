ghost use Rattle.ov_run_meaning.specs.Theorems.{EveryPrintedReportIsTrue};

/// The main theorem, for a user who runs a scenario. Whatever lines ran before: what `analyse` prints is a refusal, or
/// the line of a report of what it asks for; and what `certificate` prints is a refusal, or the certificate file of a
/// report of what it asks for. What the report says is true. A snapshot was taken at its moment, and its graph has
/// exactly the links that both ends held then. Crashing the k nodes that it names leaves two surviving members of its
/// group that are not joined, or every two members are linked and k is one less than their number; after the crash of
/// any fewer nodes every two surviving members are joined. The checker, given the graph, the group and the certificate
/// alone, says yes. The same is true of each report that is filed when a line has run, so of those of sections.
pub fn every_printed_report_is_true()
    ensures { EveryPrintedReportIsTrue }
{}
