//! How an analysis of a graph and a group is told, and written with its certificate file if that is asked for.
ghost use Rattle.std.specs.Prelude.{◌≡◌, ◌+◌, ◌++◌, ◌<◌, true, option_map, IfOk, IfErr, OnOk};
ghost use Rattle.std.specs.Io.KnownBytes.{Appends};
ghost use Rattle.serde_json.specs.Written.{compact_text};
ghost use Rattle.ov_graph.specs.Links.{IsGroup};
ghost use Rattle.ov_io.specs.Device.{most_faults, AppendsPrefixOf};
ghost use Rattle.ov_certfile.specs.DataOf.{data_of};
ghost use Rattle.ov_even.specs.Hauls.{Suffice};
ghost use Rattle.ov_run_meaning.specs.Faults.{write_faults};
ghost use Rattle.ov_answers.specs.Code.Files.{with_file_of, IsWritingFault};
ghost use Rattle.ov_answers.specs.Code.GivenNames.{HasNames, given_names};
ghost use Rattle.ov_answers.specs.Code.ToldOfGraph.{IsToldOfGraph};

use crate::answer_making::{Answer, FILE_MOMENT, answer_without_file, begun_answer, refusal};
use crate::answer_watcher::AnswerWatcher;
use crate::request::{Request, ToldAnalysis};
use ov_certwriter::{CertificateWriteFault, PlacedAnswer, place_answer, write_large_certificate};
use ov_crew::{OpenGate, settle_group_watched};
use ov_even::Haul;
use ov_graph::Graph;
use ov_graphfile::Names;
use ov_ids::{NodeId, Workers};
use ov_io::Sink;
use ov_run_meaning::RunFault;
use std::alloc::Global;
use std::io::Write;
use std::thread::Threads;

/// Analyses this graph and this group, and writes what the request asks for. Names are given if lines with names or
/// sentences are asked for. If it is out of memory, nothing was written. Returns what is told.
pub(crate) fn tell_graph<T: Threads + Sync, W: Write, P: AnswerWatcher>(
    rt: &T,
    alloc: Global,
    graph: &Graph,
    group: &[NodeId],
    names: Option<&Names<'_>>,
    request: &Request<'_>,
    watcher: &mut P,
    sink: &mut Sink<W>,
) -> Result<ToldAnalysis, RunFault>
    requires names { HasNames request.now.names (option_map (λ n. n.now) names) }
    requires writes { sink.old.faults < most_faults }
    ensures { IsToldOfGraph graph.now group.now (given_names (option_map (λ n. n.now) names.entry))
        request.now.certificate request.now.names W.contents sink.old sink.new result }
{
    if request.certificate {
        return tell_with_file(rt, alloc, graph, group, names, request, watcher, sink);
    }
    let answer = answer_without_file(rt, alloc, graph, group, names, request, watcher)?;
    write_answer(rt, alloc, request.workers, answer, None, sink)
}

/// The same, with the certificate file.
#[tactic(auto, using(crate::proofs::Written::refused_or_memory))]
fn tell_with_file<T: Threads + Sync, W: Write, P: AnswerWatcher>(
    rt: &T,
    alloc: Global,
    graph: &Graph,
    group: &[NodeId],
    names: Option<&Names<'_>>,
    request: &Request<'_>,
    watcher: &mut P,
    sink: &mut Sink<W>,
) -> Result<ToldAnalysis, RunFault>
    requires names { HasNames request.now.names (option_map (λ n. n.now) names) }
    requires writes { sink.old.faults < most_faults }
    ensures { IsToldOfGraph graph.now group.now (given_names (option_map (λ n. n.now) names.entry))
        true request.now.names W.contents sink.old sink.new result }
{
    let workers = request.workers;
    match settle_group_watched(rt, alloc, graph, group, workers, &OpenGate, watcher) {
        Ok(hauls) => tell_hauls(
            rt, alloc, graph, group, hauls, names, request, watcher, sink,
        ),
        Err(fault) => {
            let answer = refusal(alloc, graph, group, fault)?;
            write_answer(rt, alloc, workers, answer, None, sink)
        }
    }
}

/// Tells the answer for which these hauls suffice, and writes its certificate file behind it. The watcher is told before
/// how large that is.
fn tell_hauls<T: Threads + Sync, W: Write, P: AnswerWatcher>(
    rt: &T,
    alloc: Global,
    graph: &Graph,
    group: &[NodeId],
    hauls: Vec<Haul>,
    names: Option<&Names<'_>>,
    request: &Request<'_>,
    watcher: &mut P,
    sink: &mut Sink<W>,
) -> Result<ToldAnalysis, RunFault>
    requires names { HasNames request.now.names (option_map (λ n. n.now) names) }
    requires writes { sink.old.faults < most_faults }
    requires group { IsGroup graph.now group.now }
    requires suffice { Suffice graph.now group.now hauls.items }
    ensures { IsToldOfGraph graph.now group.now (given_names (option_map (λ n. n.now) names.entry))
        true request.now.names W.contents sink.old sink.new result }
{
    let placed = place_answer(alloc, graph, group, &hauls)?;
    let answer = begun_answer(alloc, placed.outline(), graph, group, names, request)?;
    tell_size(graph, &placed, watcher);
    write_answer(rt, alloc, request.workers, answer, Some(&placed), sink)
}

/// Tells the watcher how large the certificate of this graph is.
fn tell_size<P: AnswerWatcher>(graph: &Graph, placed: &PlacedAnswer<'_>, watcher: &mut P) {
    if let Some(highest) = graph.nodes().last() {
        watcher.writes(placed.path_ids(), *highest);
    }
}

/// Writes the text of an answer, and behind it the certificate file if there is one. The file is written as it is made,
/// by this number of workers. If it is out of memory, nothing was written. Returns what is told.
fn write_answer<T: Threads + Sync, W: Write>(
    rt: &T,
    alloc: Global,
    workers: Workers,
    answer: Answer,
    file: Option<&PlacedAnswer<'_>>,
    sink: &mut Sink<W>,
) -> Result<ToldAnalysis, RunFault>
    requires writes { sink.old.faults < most_faults }
    ensures told { IfOk result (λ told. told ≡ answer.told) }
    ensures bytes { OnOk result (Appends (W.contents sink.old.writer) (W.contents sink.new.writer)
        (with_file_of answer.text.items (option_map (λ f. f.now) file.entry))) }
    ensures prefix { AppendsPrefixOf (with_file_of answer.text.items (option_map (λ f. f.now) file.entry))
        (W.contents sink.old.writer) (W.contents sink.new.writer) }
    ensures faults { sink.new.faults ≡ sink.old.faults + write_faults result }
    ensures unwritten { IfErr result (λ f. ¬ (f ≡ RunFault.Write) → sink.new ≡ sink.old) }
    ensures kind { IfErr result IsWritingFault }
{
    let Answer { told, text } = answer;
    let Some(placed) = file else {
        sink.write_all(&text)?;
        return Ok(told);
    };
    write_file(rt, alloc, workers, &text, placed, sink)?;
    sink.write_all(b"\n")?;
    Ok(told)
}

/// Writes what stands in front of a certificate file, and the file without its line feed.
fn write_file<T: Threads + Sync, W: Write>(
    rt: &T,
    alloc: Global,
    workers: Workers,
    front: &[u8],
    placed: &PlacedAnswer<'_>,
    sink: &mut Sink<W>,
) -> Result<(), RunFault>
    requires writes { sink.old.faults < most_faults }
    ensures bytes { OnOk result (Appends (W.contents sink.old.writer) (W.contents sink.new.writer)
        (front.now ++ compact_text (data_of placed.now.cert placed.now.graph placed.now.members 0))) }
    ensures prefix { AppendsPrefixOf
        (front.now ++ compact_text (data_of placed.now.cert placed.now.graph placed.now.members 0))
        (W.contents sink.old.writer) (W.contents sink.new.writer) }
    ensures faults { sink.new.faults ≡ sink.old.faults + write_faults result }
    ensures unwritten { IfErr result (λ f. ¬ (f ≡ RunFault.Write) → sink.new ≡ sink.old) }
    ensures kind { IfErr result IsWritingFault }
{
    match write_large_certificate(rt, alloc, workers, front, placed, FILE_MOMENT, sink) {
        Ok(()) => Ok(()),
        Err(CertificateWriteFault::Write) => Err(RunFault::Write),
        Err(CertificateWriteFault::OutOfMemory) => Err(RunFault::OutOfMemory),
    }
}
