/// What the analysis of a graph file printed.
#[derive(Clone, Copy, Debug, PartialEq, Eq)]
pub enum ReportOrRefusal {
    /// The line of a report, whose number is k, and the certificate file if that is asked for.
    Report { k: u32 },
    /// A refusal, since the graph has no nodes (30).
    NoNodes,
    /// A refusal, since the ids are no group of the nodes (34).
    BadGroup,
}
