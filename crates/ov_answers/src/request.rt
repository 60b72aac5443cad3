use crate::report_or_refusal::ReportOrRefusal;
use ov_graph::SizeLimit;
use ov_ids::{NodeId, Workers};

/// What an analysis of a graph file is asked for.
#[derive(Clone, Copy)]
pub struct Request<'a> {
    /// How many nodes the graph of the file may have.
    pub limit: SizeLimit,
    /// The nodes that are taken away, with their links, before the analysis.
    pub gone: &'a [NodeId],
    /// The members of the group, ascending. Without them, all nodes that are left are the group.
    pub group: Option<&'a [NodeId]>,
    /// How many workers share the analysis.
    pub workers: Workers,
    /// The certificate file follows the answer.
    pub certificate: bool,
    /// Lines that name the nodes of the cut and of the components follow the line of the answer.
    pub names: bool,
    /// The answer is explained in sentences.
    pub explain: bool,
}

/// What an analysis of a graph file printed, and what is to be said of it.
#[derive(Drop)]
pub struct ToldAnalysis {
    pub answered: ReportOrRefusal,
    /// The answer in sentences, if that was asked for and there is one.
    pub explanation: Option<String>,
}
