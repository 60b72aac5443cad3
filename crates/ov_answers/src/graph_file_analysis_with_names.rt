ghost use Rattle.std.specs.Prelude.{◌≡◌, ◌<◌, [], false, option_map};
ghost use Rattle.ov_io.specs.Device.{most_faults};
ghost use Rattle.ov_answers.specs.Analysing.{IsAnalysisOf};
ghost use Rattle.ov_answers.specs.Telling.{IsToldOf, answered_of};

use crate::answer_watcher::AnswerWatcher;
use crate::answer_writing::tell_graph;
use crate::graph_without_nodes::graph_without;
use crate::request::{Request, ToldAnalysis};
use ov_graphfile::{Names, read_named_graph};
use ov_io::Sink;
use ov_run_meaning::{RunFault, members_of};
use std::alloc::Global;
use std::io::Write;
use std::thread::Threads;

/// Does what `analyse_bytes` does with the graph file of these bytes, and tells more if that is asked for.
/// With names, lines that name the nodes of the cut, and the members of the components that the crash of the cut
/// leaves, stand between the line of the answer and the certificate file; a linked answer and a refusal have none.
/// Nodes that are gone, and their links, are taken away before the analysis: the answer and its certificate are those
/// of the graph that is left. Without names, and if no node is gone, what is written is the same as there. The faults
/// are the same as there, in the same order, and what was settled for a certificate that was written keeps its memory.
pub fn analyse_told<T: Threads + Sync, W: Write, P: AnswerWatcher>(
    rt: &T,
    alloc: Global,
    bytes: &[u8],
    sink: &mut Sink<W>,
    request: &Request<'_>,
    watcher: &mut P,
) -> Result<ToldAnalysis, RunFault>
    requires writes { sink.old.faults < most_faults }
    ensures told { IsToldOf request.now.limit bytes.now W.contents sink.old request.now.gone.now
        (option_map (λ ids. ids.now) request.now.group) request.now.certificate request.now.names sink.new result }
    ensures plain { request.now.names ≡ false → request.now.gone.now ≡ []
        → IsAnalysisOf request.now.limit (Some bytes.now) W.contents sink.old
        (option_map (λ ids. ids.now) request.now.group) request.now.certificate sink.new (answered_of result) }
{
    tell(rt, alloc, bytes, sink, request, watcher)
}

/// The same, by what is told alone.
#[tactic(auto, using(crate::proofs::Tellings::refused, crate::proofs::Refused::of_graph_file))]
fn tell<T: Threads + Sync, W: Write, P: AnswerWatcher>(
    rt: &T,
    alloc: Global,
    bytes: &[u8],
    sink: &mut Sink<W>,
    request: &Request<'_>,
    watcher: &mut P,
) -> Result<ToldAnalysis, RunFault>
    requires writes { sink.old.faults < most_faults }
    ensures told { IsToldOf request.now.limit bytes.now W.contents sink.old request.now.gone.now
        (option_map (λ ids. ids.now) request.now.group) request.now.certificate request.now.names sink.new result }
{
    let (graph, told) = match read_named_graph(alloc, request.limit, bytes) {
        Ok(read) => read,
        Err(fault) => return Err(RunFault::of_graph_file(&fault)),
    };
    let names = Names::new(&graph, told);
    let left = graph_without(alloc, &graph, request.gone)?;
    let members = members_of(request.group, &left);
    tell_graph(
        rt,
        alloc,
        &left,
        members,
        Some(&names),
        request,
        watcher,
        sink,
    )
}
