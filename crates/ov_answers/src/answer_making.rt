//! The one way in which the answer for a graph and a group is made, with names and sentences or without them.
ghost use Rattle.std.specs.Prelude.{◌≡◌, ◌⊎◌, ◌≤◌, ◌++◌, ℕ, Bool, List, false, length, option_map, Some};
ghost use Rattle.std.specs.Prelude.{IfOk, IfErr, OnOk};
ghost use Rattle.ov_graph.specs.Links.{most_of};
ghost use Rattle.ov_cert.specs.Valid.{k_of};
ghost use Rattle.ov_even.specs.Faults.{GroupJudged};
ghost use Rattle.ov_even.specs.declared.fault.AnalyseFault.TheVariants.{OutOfMemory as out_of_memory};
ghost use Rattle.ov_graphfile.specs.GraphFiles.{IsGraphFile};
ghost use Rattle.ov_graphfile.specs.NamesState.{NamesState};
ghost use Rattle.ov_answers.specs.Telling.{TellsAnswer, AreLinesBetween};
ghost use Rattle.ov_answers.specs.Code.Begun.{Gains};
ghost use Rattle.ov_answers.specs.Code.GivenNames.{HasNames, given_names};
ghost use Rattle.ov_answers.specs.Code.TextFaults.{IsTextFault};
ghost use Rattle.ov_answers.specs.declared.report_or_refusal.ReportOrRefusal.TheVariants.{Report as report_of};
ghost use Rattle.ov_run_meaning.specs.Printed.{report_line, refused_line};

use crate::name_lines::write_lines;
use crate::report_or_refusal::ReportOrRefusal;
use crate::request::{Request, ToldAnalysis};
use crate::sentences::explanation;
use ov_cert::Cert;
use ov_crew::{OpenGate, outline_group_watched};
use ov_even::{AnalyseFault, Watcher};
use ov_graph::{Graph, SizeLimit};
use ov_graphfile::{Names, read_graph};
use ov_ids::{NodeId, OutOfMemory};
use ov_run_meaning::{RunFault, cert_line, refused_line};
use std::alloc::Global;
use std::thread::Threads;

/// The moment that the answer for a graph file names, since its graph has no other.
pub(crate) const FILE_MOMENT: u32 = 0;

/// What is told of an analysis, and the text of it but for a certificate file.
#[derive(Drop)]
pub(crate) struct Answer {
    pub told: ToldAnalysis,
    pub text: Vec<u8>,
}

/// The graph that these bytes say, of as many nodes as the limit says at most.
#[tactic(auto, using(crate::proofs::Refused::of_graph_file))]
pub(crate) fn graph_of(alloc: Global, limit: SizeLimit, bytes: &[u8]) -> Result<Graph, RunFault>
    ensures graph { IfOk result (IsGraphFile bytes.now) }
    ensures within { IfOk result (λ g. length g.nodes ≤ most_of limit) }
    ensures fault { IfErr result (IsTextFault limit bytes.now) }
{
    match read_graph(alloc, limit, bytes) {
        Ok(graph) => Ok(graph),
        Err(fault) => Err(RunFault::of_graph_file(&fault)),
    }
}

/// What is told of this graph and this group if no certificate file is asked for: no paths are kept. Names are given if
/// lines with names or sentences are asked for.
#[tactic(auto, using(crate::proofs::Written::refused_or_memory))]
pub(crate) fn answer_without_file<T: Threads + Sync, P: Watcher>(
    rt: &T,
    alloc: Global,
    graph: &Graph,
    group: &[NodeId],
    names: Option<&Names<'_>>,
    request: &Request<'_>,
    watcher: &mut P,
) -> Result<Answer, OutOfMemory>
    requires names { HasNames request.now.names (option_map (λ n. n.now) names) }
    ensures { IfOk result (λ answer. TellsAnswer graph.now group.now (given_names (option_map (λ n. n.now) names.entry))
        false request.now.names answer.told.answered answer.text.items) }
{
    let workers = request.workers;
    match outline_group_watched(rt, alloc, graph, group, workers, &OpenGate, watcher) {
        Ok(outline) => begun_answer(alloc, &outline, graph, group, names, request),
        Err(fault) => refusal(alloc, graph, group, fault),
    }
}

/// The answer of a certificate, or of its outline, but for its file: its line and the lines behind it.
pub(crate) fn begun_answer(
    alloc: Global,
    cert: &Cert,
    graph: &Graph,
    group: &[NodeId],
    names: Option<&Names<'_>>,
    request: &Request<'_>,
) -> Result<Answer, OutOfMemory>
    requires names { HasNames request.now.names (option_map (λ n. n.now) names) }
    ensures answered { IfOk result (λ answer. answer.told.answered ≡ report_of (k_of cert.now)) }
    ensures lines { IfOk result (λ answer. (lines : List ℕ)
        × AreLinesBetween request.now.names graph.now cert.now (given_names (option_map (λ n. n.now) names.entry)) lines
        × (answer.text.items ≡ report_line 0 cert.now graph.now group.now ++ lines)) }
{
    let line = cert_line(alloc, FILE_MOMENT, cert, graph, group)?;
    let mut text = Vec::from_slice(alloc, line.as_bytes())?;
    write_between(alloc, &mut text, cert, graph, names, request)?;
    let explanation = asked_explanation(alloc, cert, graph, group, names, request)?;
    let answered = ReportOrRefusal::Report { k: k_of(cert) };
    let told = ToldAnalysis {
        answered,
        explanation,
    };
    Ok(Answer { told, text })
}

/// The number that a certificate proves.
fn k_of(cert: &Cert) -> u32
    ensures { result ≡ k_of cert.now }
{
    match cert {
        Cert::Linked { k } => *k,
        Cert::Split(split) => split.k,
    }
}

/// Appends the lines between the line of an answer and its certificate file.
fn write_between(
    alloc: Global,
    text: &mut Vec<u8>,
    cert: &Cert,
    graph: &Graph,
    names: Option<&Names<'_>>,
    request: &Request<'_>,
) -> Result<(), OutOfMemory>
    requires names { HasNames request.now.names (option_map (λ n. n.now) names) }
    ensures { OnOk result (Gains
        (AreLinesBetween request.now.names graph.now cert.now (given_names (option_map (λ n. n.now) names.entry)))
        text.old.items text.new.items) }
{
    let Some(names) = names else {
        return Ok(());
    };
    if !request.names {
        return Ok(());
    }
    write_lines(alloc, text, cert, graph, names)?;
    Ok(())
}

/// The explanation, if it is asked for.
fn asked_explanation(
    alloc: Global,
    cert: &Cert,
    graph: &Graph,
    group: &[NodeId],
    names: Option<&Names<'_>>,
    request: &Request<'_>,
) -> Result<Option<String>, OutOfMemory> {
    match names {
        Some(names) if request.explain => {
            Ok(Some(explanation(alloc, graph, group, cert, names)?))
        }
        _ => Ok(None),
    }
}

/// The answer of an analysis of this graph and this group that was refused: the line of the refusal.
pub(crate) fn refusal(
    alloc: Global,
    graph: &Graph,
    group: &[NodeId],
    fault: AnalyseFault,
) -> Result<Answer, OutOfMemory>
    requires refused { GroupJudged graph.now group.now (Some fault) ⊎ (fault ≡ out_of_memory) }
    ensures { IfOk result (λ answer. (names : NamesState) (certificate named : Bool)
        → TellsAnswer graph.now group.now names certificate named answer.told.answered answer.text.items) }
{
    match fault {
        AnalyseFault::OutOfMemory => Err(OutOfMemory),
        AnalyseFault::NoNodes => refused(alloc, ReportOrRefusal::NoNodes, fault.number()),
        AnalyseFault::BadGroup => refused(alloc, ReportOrRefusal::BadGroup, fault.number()),
    }
}

/// A refusal, with the line of it.
fn refused(alloc: Global, answered: ReportOrRefusal, number: u32) -> Result<Answer, OutOfMemory>
    ensures answered { IfOk result (λ answer. answer.told.answered ≡ answered) }
    ensures text { IfOk result (λ answer. answer.text.items ≡ refused_line number) }
{
    let text = Vec::from_slice(alloc, refused_line(number).as_bytes())?;
    let explanation = None;
    let told = ToldAnalysis {
        answered,
        explanation,
    };
    Ok(Answer { told, text })
}
