//! Analyses whose answer is told in names, or in words, or of which lists name nodes.
ghost use Rattle.std.specs.Prelude.{◌≡◌, ◌<◌, [], option_map, unwrap_or, IfOk};
ghost use Rattle.ov_ids.specs.Sets.{without_all};
ghost use Rattle.ov_io.specs.Device.{most_faults};
ghost use Rattle.ov_commands.specs.Naming.{WasTold, asked_of, picked};
ghost use Rattle.ov_commands.specs.Sizes.{limit_of};
ghost use Rattle.ov_commands.specs.Statuses.{IsAlarmStatus};
ghost use Rattle.ov_commands.specs.Code.Named.{WasAnswered};

use crate::analyse_command::print_refusal;
use crate::analysis_progress::PieceProgress;
use crate::command_fault::CommandFault;
use crate::least_number_alarm::alarm_status;
use crate::listed_ids::{ListedNodes, listed_nodes};
use crate::node_list_texts::NodeLists;
use crate::sizes_asked::limit_of;
use ov_answers::{ReportOrRefusal, Request, ToldAnalysis, analyse_told, members_left};
use ov_arguments::AnalysisRequest;
use ov_ids::{NodeId, OutOfMemory};
use ov_io::Sink;
use ov_lines::FileKind;
use ov_reasons::{analysis_reason, print_fault, print_reason, print_unread_tip, without_memory};
use std::alloc::Global;
use std::io::Write;
use std::thread::Threads;

/// What is analysed of a graph.
#[derive(Drop)]
struct Subject {
    /// The nodes that are taken away, if a list says so.
    gone: Option<Vec<NodeId>>,
    /// The members of the group that are left, if there is a group.
    group: Option<Vec<NodeId>>,
}

/// Analyses the graph file of these bytes, of the file of this name or of standard input, without the nodes that a list
/// says are gone, and for the group that another list names. Prints the answer in the names that the file gives, and
/// says it in words, as far as this is asked for. Prints a fault, a refusal or an alarm, and why.
pub(crate) fn analyse_in_words<T: Threads + Sync, W: Write>(
    rt: &HostRuntime,
    threads: &T,
    bytes: &[u8],
    lists: &NodeLists,
    sink: &mut Sink<W>,
    file: Option<&str>,
    analysis: &AnalysisRequest,
) -> Result<u8, CommandFault>
    requires { sink.old.faults < most_faults }
    ensures told { WasTold bytes.now (asked_of analysis.now lists.now) W.contents sink.old sink.new result }
    ensures status { IfOk result (IsAlarmStatus analysis.now.at_least) }
{
    let limit = limit_of(analysis.large);
    let nodes = listed_nodes(rt, limit, bytes, analysis.names, lists)?;
    let ListedNodes { group: named, gone } = nodes;
    let Ok(group) = group_left(rt.alloc(), &named, &analysis.group, &gone) else {
        return Err(without_memory(rt).into());
    };
    let subject = Subject { gone, group };
    let request = request_of(&subject, analysis);
    tell(rt, threads, bytes, sink, file, analysis, &request)
}

/// What these arguments ask for, of this subject.
fn request_of<'a>(subject: &'a Subject, analysis: &AnalysisRequest) -> Request<'a>
    ensures limit { result.limit ≡ limit_of analysis.now.large }
    ensures gone { result.gone.now ≡ unwrap_or (option_map (λ ids. ids.items) subject.now.gone) [] }
    ensures group { option_map (λ ids. ids.now) result.group ≡ option_map (λ ids. ids.items) subject.now.group }
    ensures certificate { result.certificate ≡ analysis.now.certificate }
    ensures names { result.names ≡ analysis.now.names }
{
    Request {
        limit: limit_of(analysis.large),
        gone: ids_of(&subject.gone),
        group: subject.group.as_deref(),
        workers: analysis.workers,
        certificate: analysis.certificate,
        names: analysis.names,
        explain: analysis.explain,
    }
}

/// Analyses the graph file of these bytes, as this request asks. Prints what is left to say on standard error.
fn tell<T: Threads + Sync, W: Write>(
    rt: &HostRuntime,
    threads: &T,
    bytes: &[u8],
    sink: &mut Sink<W>,
    file: Option<&str>,
    analysis: &AnalysisRequest,
    request: &Request<'_>,
) -> Result<u8, CommandFault>
    requires { sink.old.faults < most_faults }
    ensures answered { WasAnswered request.now.limit bytes.now request.now.gone.now
        (option_map (λ ids. ids.now) request.now.group) request.now.certificate request.now.names analysis.now.at_least
        W.contents sink.old sink.new result }
    ensures status { IfOk result (IsAlarmStatus analysis.now.at_least) }
{
    let mut progress = PieceProgress::new(rt, analysis.progress);
    match analyse_told(threads, rt.alloc(), bytes, sink, request, &mut progress) {
        Ok(told) => {
            explain(rt, bytes, request, &told);
            Ok(alarm_status(rt, analysis.at_least, told.answered))
        }
        Err(fault) => {
            print_fault(rt, fault);
            print_reason(rt, analysis_reason(rt.alloc(), bytes, &fault));
            print_unread_tip(rt, bytes, file, &fault, FileKind::Graph);
            Err(fault.into())
        }
    }
}

/// The members of the group that is named, or else of that of these ids, without the nodes that are gone.
fn group_left(
    alloc: Global,
    named: &Option<Vec<NodeId>>,
    ids: &Option<Vec<NodeId>>,
    gone: &Option<Vec<NodeId>>,
) -> Result<Option<Vec<NodeId>>, OutOfMemory>
    ensures left { IfOk result (λ left. option_map (λ group. group.items) left
        ≡ option_map (without_all (unwrap_or (option_map (λ ids. ids.items) gone.now) []))
        (picked (option_map (λ group. group.items) named.now) (option_map (λ group. group.items) ids.now))) }
{
    match named {
        Some(group) => members_left(alloc, Some(group.as_slice()), ids_of(gone)),
        None => members_left(alloc, ids.as_deref(), ids_of(gone)),
    }
}

/// The ids of a list, or none without a list.
fn ids_of(list: &Option<Vec<NodeId>>) -> &[NodeId]
    ensures { result.now ≡ unwrap_or (option_map (λ ids. ids.items) list.now) [] }
{
    match list {
        Some(ids) => ids.as_slice(),
        None => &[],
    }
}

/// Says an answer in words, if that is asked for, or why there is none.
fn explain(rt: &HostRuntime, bytes: &[u8], request: &Request<'_>, told: &ToldAnalysis) {
    match told.answered {
        ReportOrRefusal::Report { .. } => {
            if let Some(text) = &told.explanation {
                let _ = eprint!(rt; "{text}");
            }
        }
        ReportOrRefusal::NoNodes if !request.gone.is_empty() => {
            let _ = eprintln!(rt; "--without: no node is left");
        }
        ReportOrRefusal::NoNodes | ReportOrRefusal::BadGroup => print_refusal(
            rt,
            request.limit,
            bytes,
            request.group,
        ),
    }
}
