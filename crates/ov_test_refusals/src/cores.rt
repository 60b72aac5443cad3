//! Calls of cores.
use crate::desks::{Turn, takes};
use crate::events::Line::{Boot, BootBy, Deliver};
use crate::events::{Line, Tells, told_in};
use crate::told::core_told;
use Answer::{Begun, Done, Happened, Numbered, Refused};
use Call::{Begin, BeginFor, File, Open, OpenFor, Snapshot, Step, Take};
use ov_cert::{Cert, Checked, Split};
use ov_graph::Graph;
use ov_ids::{NodeId, Scale, Seq};
use ov_net::Event;
use ov_snap::{Core, CoreFault, Report};
use ov_test_kit::{ids, sized, words};
use std::alloc::{AllocError, Global};
use std::process::Abort;
use std::test::Fail;

/// A call of a core.
#[derive(Clone, Copy, Drop)]
pub(crate) enum Call {
    Step(Line),
    Snapshot,
    Begin(u32),
    BeginFor(u32, &'static [u32]),
    /// A desk of this moment for so many workers.
    Open(u32, u32),
    /// The same for a group.
    OpenFor(u32, &'static [u32], u32),
    /// A turn of a worker, or the filing of a desk.
    Take(Turn),
    /// A report of this moment on nodes 1 and 2, linked or not.
    File(u32, bool),
}

impl Call {
    /// The name of the call.
    fn name(self) -> &'static str {
        match self {
            Step(_) => "step",
            Snapshot => "snapshot",
            Begin(_) => "begin",
            BeginFor(..) => "begin_group",
            Open(..) => "open_desk",
            OpenFor(..) => "open_group_desk",
            Take(turn) => turn.name(),
            File(..) => "file",
        }
    }
}

/// What a call answers.
#[derive(Clone, Copy, PartialEq, Eq)]
pub(crate) enum Answer {
    /// The number of the entry, and what it tells.
    Happened(u32, Option<Tells>),
    /// How many nodes the graph has, and whether 1 and 2 are linked.
    Begun(usize, bool),
    /// The moment of a snapshot, a desk, or a number that a turn answers.
    Numbered(u64),
    Done,
    Refused(u32),
}

/// Two nodes join. At each of the two snapshots an analysis begins. The first one is shared out at a desk of all nodes
/// and at one of node 1, and a report is filed of the second one.
static ROWS: [(Call, Answer); 28] = [
    (Step(Boot(1)), Happened(1, Some(Tells::Born(1)))),
    (Step(BootBy(2, 1)), Happened(2, Some(Tells::Born(2)))),
    (Step(Deliver(0)), Happened(3, Some(Tells::Up(1, 2)))),
    (Step(Line::Snapshot), Happened(4, Some(Tells::Nothing))),
    (Step(Deliver(0)), Happened(5, Some(Tells::Up(2, 1)))),
    (Snapshot, Numbered(6)),
    (Begin(4), Begun(2, false)),
    (Begin(5), Refused(50)),
    (Begin(6), Begun(2, true)),
    (BeginFor(6, &[1]), Begun(2, true)),
    (BeginFor(6, &[2, 1]), Refused(34)),
    (Open(4, 2), Numbered(0)),
    (Take(Turn::Claim(0, 0)), Numbered(0)),
    (Take(Turn::Claim(0, 1)), Numbered(1)),
    (Take(Turn::Settle(0, 1)), Refused(54)),
    (Take(Turn::File(0)), Refused(55)),
    (Take(Turn::Look(0, 0)), Numbered(1)),
    (Take(Turn::Settle(0, 0)), Done),
    (Take(Turn::Claim(0, 0)), Numbered(2)),
    (File(6, true), Done),
    (OpenFor(4, &[1], 1), Numbered(1)),
    (Take(Turn::Claim(1, 0)), Numbered(0)),
    (Take(Turn::File(1)), Done),
    (Take(Turn::File(0)), Done),
    (Take(Turn::File(0)), Refused(52)),
    (File(4, true), Refused(51)),
    (File(4, false), Refused(52)),
    (Step(Line::Snapshot), Happened(7, Some(Tells::Nothing))),
];

/// A core whose nodes have views of 5 and 30 places, with a world of this scale.
pub(crate) fn new_core(alloc: Global, scale: Scale) -> Result<Core, Fail> {
    Ok(Core::new(alloc, sized(5, 30)?.with_scale(scale)))
}

/// The entry of an event with words that are all zero.
fn stepped(core: &mut Core, event: Event) -> Answer {
    match core.step(event, &words(&[])) {
        Ok(entry) => Happened(entry.number, told_in(&entry)),
        Err(fault) => Refused(fault.number()),
    }
}

fn snapshot_taken(core: &mut Core) -> Answer {
    match core.snapshot() {
        Ok(moment) => Numbered(u64::from(moment)),
        Err(fault) => Refused(fault.number()),
    }
}

/// The answer of a call that begins an analysis.
pub(crate) fn begun(answer: Result<ov_snap::Snapshot, CoreFault>) -> Answer {
    match answer {
        Ok(snapshot) => {
            let is_linked = snapshot.graph.linked(NodeId(1), NodeId(2));
            Begun(snapshot.graph.nodes().len(), is_linked)
        }
        Err(fault) => Refused(fault.number()),
    }
}

fn opened(answer: Result<u32, CoreFault>) -> Answer {
    match answer {
        Ok(desk) => Numbered(u64::from(desk)),
        Err(fault) => Refused(fault.number()),
    }
}

/// The answer of a call that opens a desk for a group.
fn opened_for(
    alloc: Global,
    core: &mut Core,
    moment: u32,
    members: &[u32],
    workers: u32,
) -> Result<Answer, Fail> {
    let members = ids(alloc, members)?.into_vec();
    Ok(opened(core.open_group_desk(moment, members, workers)))
}

fn begun_for(alloc: Global, core: &Core, moment: u32, members: &[u32]) -> Result<Answer, Fail> {
    let members = ids(alloc, members)?;
    Ok(begun(core.begin_group(moment, members.as_slice())))
}

/// Two nodes that are not linked split without a crash.
fn unlinked(alloc: Global) -> Result<Checked, Fail> {
    let graph = Graph::new(alloc, &[NodeId(1), NodeId(2)], &[])?;
    let cert = Cert::Split(Split {
        k: 0,
        cut: Seq::new(Vec::new(alloc)),
        near: NodeId(2),
        far: NodeId(1),
        side: Seq::new(Vec::from_slice(alloc, &[NodeId(2)])?),
        pairs: Seq::new(Vec::new(alloc)),
        fans: Seq::new(Vec::new(alloc)),
    });
    Ok(Checked::new(graph, cert).ok().ok_or("a valid certificate")?)
}

fn linked(alloc: Global) -> Result<Checked, Fail> {
    let graph = Graph::new(alloc, &[NodeId(1), NodeId(2)], &[(NodeId(1), NodeId(2))])?;
    Ok(
        Checked::new(graph, Cert::Linked { k: 1 })
            .ok()
            .ok_or("a valid certificate")?,
    )
}

/// The answer of filing a report of this moment on nodes 1 and 2, linked or not.
fn filed(alloc: Global, core: &mut Core, moment: u32, is_linked: bool) -> Result<Answer, Fail> {
    let checked = if is_linked {
        linked(alloc)?
    } else {
        unlinked(alloc)?
    };
    let report = Report::new(alloc, moment, checked)?;
    Ok(match core.file(report) {
        Ok(()) => Done,
        Err(fault) => Refused(fault.number()),
    })
}

fn made(alloc: Global, core: &mut Core, call: Call) -> Result<Answer, Fail> {
    Ok(match call {
        Step(line) => stepped(core, line.event(alloc)?),
        Snapshot => snapshot_taken(core),
        Begin(moment) => begun(core.begin(moment)),
        BeginFor(moment, members) => begun_for(alloc, core, moment, members)?,
        Open(moment, workers) => opened(core.open_desk(moment, workers)),
        OpenFor(moment, members, workers) => opened_for(alloc, core, moment, members, workers)?,
        Take(turn) => takes(core, turn),
        File(moment, is_linked) => filed(alloc, core, moment, is_linked)?,
    })
}

/// The answer of a call is this one, the second time if memory is refused the first time; the core is then as before.
fn answers(
    rt: &(impl Abort + Print),
    alloc: Global,
    core: &mut Core,
    call: Call,
    expected: Answer,
) -> Result<(), Fail> {
    let before = core_told(alloc, core)?;
    answers_from(rt, alloc, core, call, expected, before.as_str())
}

/// The core tells this.
fn tells(alloc: Global, core: &Core, told: &str) -> Result<bool, AllocError> {
    Ok(core_told(alloc, core)?.as_str() == told)
}

/// The same, if this is told of the core before the call.
fn answers_from(
    rt: &(impl Abort + Print),
    alloc: Global,
    core: &mut Core,
    call: Call,
    expected: Answer,
    before: &str,
) -> Result<(), Fail> {
    let first = made(alloc, core, call)?;
    if first != Refused(99) {
        assert!(rt; first == expected);
        return Ok(());
    }
    assert!(rt; tells(alloc, core, before)?);
    let second = made(alloc, core, call)?;
    assert!(rt; second == expected);
    let name = call.name();
    let _ = println!(rt; "seen: {name}: refused 99, all as before, then the row's answer");
    Ok(())
}

/// All calls are answered as in their rows, one after another.
pub(crate) fn all_answer(
    rt: &(impl Abort + Print),
    alloc: Global,
    core: &mut Core,
    rows: &[(Call, Answer)],
) -> Result<(), Fail> {
    for (call, expected) in rows {
        answers(rt, alloc, core, *call, *expected)?;
    }
    Ok(())
}

/// Moment 4 has a report that a cut of nobody parts node 2 from node 1, and one that nothing splits node 1; moment 6
/// has one that nothing splits its nodes.
fn has_reports(core: &Core) -> bool {
    let (Some(apart), Some(alone), Some(linked)) = (
        core.report(4),
        core.group_report(4, &[NodeId(1)]),
        core.report(6),
    ) else {
        return false;
    };
    matches!(apart.checked().cert(), Cert::Split(split) if split.k == 0 && split.near == NodeId(2))
        && matches!(alone.checked().cert(), Cert::Linked { k: 0 })
        && matches!(linked.checked().cert(), Cert::Linked { k: 1 })
}

/// All calls are answered as in their rows by a core with a world of this scale, and its reports are made.
fn rows_answer(rt: &(impl Abort + Print), alloc: Global, scale: Scale) -> Result<(), Fail> {
    let mut core = new_core(alloc, scale)?;
    all_answer(rt, alloc, &mut core, &ROWS)?;
    assert!(rt; has_reports(&core));
    Ok(())
}

/// A refused call changes nothing, and is answered as in its row when it is made again.
#[test]
fn out_of_memory_changes_no_core(rt: HostRuntime) -> Result<(), Fail> {
    rows_answer(&rt, rt.alloc(), Scale::Profile)
}

/// The same where the world is large, so that the links of a snapshot are made of the views.
#[test]
fn out_of_memory_changes_no_large_core(rt: HostRuntime) -> Result<(), Fail> {
    rows_answer(&rt, rt.alloc(), Scale::Large)
}
