ghost use Rattle.std.specs.Prelude.{◌≢◌, ◌<◌, option_map, Some, Err};
ghost use Rattle.ov_io.specs.Device.{most_faults};
ghost use Rattle.ov_answers.specs.Analysing.{IsAnalysisOf, IsFileAnalysis};

use crate::answer_making::graph_of;
use crate::answer_watcher::AnswerWatcher;
use crate::answer_writing::tell_graph;
use crate::report_or_refusal::ReportOrRefusal;
use crate::request::Request;
use ov_graph::SizeLimit;
use ov_ids::{NodeId, Workers};
use ov_io::{Sink, Source};
use ov_run_meaning::{RunFault, members_of};
use std::alloc::Global;
use std::io::{Read, Write};
use std::thread::Threads;

/// Reads a graph file to its end, finds how few crashes of nodes split a group of its nodes, by this number of workers,
/// and writes the line of the answer; the certificate file follows it if that is asked for. Without a group, all nodes
/// are the group. Returns what was printed. A graph without nodes (30) and ids that are no group (34) are refusals that
/// are printed, and no faults. The watcher sees how far the analysis has come.
///
/// Line (70) is returned for the first line that can't be read, Graph with the number of its fault if the lines say
/// no graph of at most as many nodes as the limit says, and Read (71) if the reader failed in this call. Write (72) is
/// returned if the writer failed in this call, and then a prefix of the text was written. With any other fault nothing
/// was written. OutOfMemory (99) is returned if an allocation was refused. The numbers and the form of what is printed
/// are chosen here.
///
/// What was settled for each certificate that was written keeps its memory until the process ends.
pub fn analyse_file<T: Threads + Sync, R: Read, W: Write, P: AnswerWatcher>(
    rt: &T,
    alloc: Global,
    limit: SizeLimit,
    source: &mut Source<R>,
    sink: &mut Sink<W>,
    group: Option<&[NodeId]>,
    workers: Workers,
    certificate: bool,
    watcher: &mut P,
) -> Result<ReportOrRefusal, RunFault>
    requires reads { source.old.faults < most_faults }
    requires writes { sink.old.faults < most_faults }
    ensures analysis { IsFileAnalysis limit R.remaining W.contents source.old sink.old
        (option_map (λ ids. ids.now) group.entry) certificate source.new sink.new result }
{
    let bytes = source.read_all(alloc)?;
    analyse_bytes(
        rt,
        alloc,
        limit,
        &bytes,
        sink,
        group,
        workers,
        certificate,
        watcher,
    )
}

/// Does what `analyse_file` does with the graph file of these bytes, which were read before.
#[tactic(auto, using(crate::proofs::Written::refused))]
pub fn analyse_bytes<T: Threads + Sync, W: Write, P: AnswerWatcher>(
    rt: &T,
    alloc: Global,
    limit: SizeLimit,
    bytes: &[u8],
    sink: &mut Sink<W>,
    group: Option<&[NodeId]>,
    workers: Workers,
    certificate: bool,
    watcher: &mut P,
) -> Result<ReportOrRefusal, RunFault>
    requires writes { sink.old.faults < most_faults }
    ensures analysis { IsAnalysisOf limit (Some bytes.now) W.contents sink.old
        (option_map (λ ids. ids.now) group.entry) certificate sink.new result }
    ensures read { result ≢ Err RunFault.Read }
{
    let request = Request {
        limit,
        gone: &[],
        group,
        workers,
        certificate,
        names: false,
        explain: false,
    };
    let graph = graph_of(alloc, limit, bytes)?;
    let members = members_of(request.group, &graph);
    match tell_graph(rt, alloc, &graph, members, None, &request, watcher, sink) {
        Ok(told) => Ok(told.answered),
        Err(fault) => Err(fault),
    }
}
