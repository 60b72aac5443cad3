ghost use Rattle.std.specs.Prelude.{◌≡◌, ◌<◌, option_map, Some, IfOk};
ghost use Rattle.ov_io.specs.Device.{most_faults};
ghost use Rattle.ov_answers.specs.Analysing.{IsAnalysisOf};
ghost use Rattle.ov_commands.specs.Alarms.{IsStatusAsked, IsStatusOfReader};
ghost use Rattle.ov_commands.specs.Naming.{WasAnalysed, asked_of};
ghost use Rattle.ov_commands.specs.Sizes.{limit_of};
ghost use Rattle.ov_commands.specs.Statuses.{HasRead, IsAlarmStatus, analysis_status};

use crate::analyse_in_names_or_words::analyse_in_words;
use crate::analysis_progress::PieceProgress;
use crate::command_fault::CommandFault;
use crate::least_number_alarm::alarm_status;
use crate::node_list_texts::{NodeLists, lists_of};
use crate::sizes_asked::limit_of;
use ov_answers::{ReportOrRefusal, analyse_bytes};
use ov_arguments::AnalysisRequest;
use ov_graph::SizeLimit;
use ov_ids::NodeId;
use ov_io::Sink;
use ov_lines::FileKind;
use ov_reasons::{
    STANDARD_INPUT, analysis_reason, bytes_of, group_reason, opened, print_fault, print_reason,
    print_unread_tip, tell_typing,
};
use ov_run_meaning::RunFault;
use std::io::{Read, Write};
use std::thread::Threads;

/// Analyses the graph of a file, or of standard input, as is asked. The status is that of `analyse_from`.
pub fn analyse_asked<T: Threads + Sync>(
    rt: &HostRuntime,
    threads: &T,
    file: Option<String>,
    analysis: &AnalysisRequest,
) -> Result<u8, CommandFault>
    ensures status { IfOk result (IsAlarmStatus analysis.now.at_least) }
{
    let mut sink = Sink::new(rt.stdout());
    tell_typing(rt, file.as_deref(), FileKind::Graph);
    match file.as_deref() {
        None => analyse_given(rt, threads, rt.stdin(), &mut sink, None, analysis),
        Some(path) => {
            let reader = opened(rt, path)?;
            analyse_given(rt, threads, reader, &mut sink, Some(path), analysis)
        }
    }
}

/// Analyses the graph of a reader, as `analyse_from`, with the lists that are given.
pub fn analyse_given<T: Threads + Sync, R: Read + Drop, W: Write>(
    rt: &HostRuntime,
    threads: &T,
    reader: R,
    sink: &mut Sink<W>,
    file: Option<&str>,
    analysis: &AnalysisRequest,
) -> Result<u8, CommandFault>
    requires { sink.old.faults < most_faults }
    ensures answer { IfOk result (IsStatusAsked (R.remaining reader) analysis.now) }
    ensures status { IfOk result (IsAlarmStatus analysis.now.at_least) }
{
    let lists = lists_of(rt, analysis)?;
    analyse_from(rt, threads, reader, &lists, sink, file, analysis)
}

/// Analyses the graph of a reader, of the file of this name or of standard input: without the nodes that a list says
/// are gone, and for the group that another list names, or that of ids. Prints the answer, also in the names that the
/// file gives and in words as far as this is asked for; or a fault, and why. The graph may have 1,024 nodes, or 32,768
/// if a large one is asked for.
///
/// The status is 3 if a least number is asked for and the answer is below it, or there is no answer, since no node is
/// left or the ids are no group; otherwise it is 0. The faults are those of the reader (71), of the graph file (31, 32,
/// 70, 80), of a list (`Group`), of the sink (72) and of memory (99).
pub fn analyse_from<T: Threads + Sync, R: Read + Drop, W: Write>(
    rt: &HostRuntime,
    threads: &T,
    reader: R,
    lists: &NodeLists,
    sink: &mut Sink<W>,
    file: Option<&str>,
    analysis: &AnalysisRequest,
) -> Result<u8, CommandFault>
    requires { sink.old.faults < most_faults }
    ensures analysis { HasRead (R.remaining reader) sink.old sink.new
        (λ bytes. WasAnalysed bytes (asked_of analysis.now lists.now) W.contents sink.old sink.new) result }
    ensures answer { IfOk result (IsStatusOfReader (R.remaining reader) (asked_of analysis.now lists.now)) }
    ensures status { IfOk result (IsAlarmStatus analysis.now.at_least) }
{
    let bytes = bytes_of(rt, reader, file.unwrap_or(STANDARD_INPUT))?;
    if analysis.names || analysis.explain || !lists.is_empty() {
        return analyse_in_words(rt, threads, &bytes, lists, sink, file, analysis);
    }
    let answer = analyse_told(rt, threads, &bytes, sink, file, analysis);
    status_of_analysis(rt, analysis.at_least, answer)
}

/// What the program returns after an analysis: its status if it was answered, by a refusal too; or its fault.
fn status_of_analysis(
    rt: &HostRuntime,
    least: Option<u32>,
    answer: Result<ReportOrRefusal, RunFault>,
) -> Result<u8, CommandFault>
    ensures returned { result ≡ analysis_status least answer }
    ensures status { IfOk result (IsAlarmStatus least) }
{
    match answer {
        Ok(answered) => Ok(alarm_status(rt, least, answered)),
        Err(fault) => Err(CommandFault::Run(fault)),
    }
}

/// Analyses the graph file of these bytes, of the file of this name or of standard input. Prints a fault or a refusal
/// of it, and why.
fn analyse_told<T: Threads + Sync, W: Write>(
    rt: &HostRuntime,
    threads: &T,
    bytes: &[u8],
    sink: &mut Sink<W>,
    file: Option<&str>,
    analysis: &AnalysisRequest,
) -> Result<ReportOrRefusal, RunFault>
    requires { sink.old.faults < most_faults }
    ensures analysis { IsAnalysisOf (limit_of analysis.now.large) (Some bytes.now) W.contents sink.old
        (option_map (λ ids. ids.items) analysis.now.group) analysis.now.certificate sink.new result }
{
    let mut progress = PieceProgress::new(rt, analysis.progress);
    let limit = limit_of(analysis.large);
    let answer = analyse_bytes(
        threads,
        rt.alloc(),
        limit,
        bytes,
        sink,
        analysis.group.as_deref(),
        analysis.workers,
        analysis.certificate,
        &mut progress,
    );
    match &answer {
        Ok(ReportOrRefusal::Report { .. }) => {}
        Ok(ReportOrRefusal::NoNodes | ReportOrRefusal::BadGroup) => {
            print_refusal(rt, limit, bytes, analysis.group.as_deref());
        }
        Err(fault) => {
            print_fault(rt, *fault);
            print_reason(rt, analysis_reason(rt.alloc(), bytes, fault));
            print_unread_tip(rt, bytes, file, fault, FileKind::Graph);
        }
    }
    answer
}

/// Prints why the analysis of a graph file of at most so many nodes was refused, after its line. Prints nothing if an
/// allocation for it was refused.
pub(crate) fn print_refusal(
    rt: &HostRuntime,
    limit: SizeLimit,
    bytes: &[u8],
    group: Option<&[NodeId]>,
) {
    if let Ok(Some(reason)) = group_reason(rt.alloc(), limit, bytes, group) {
        let _ = eprint!(rt; "{reason}");
    }
}
