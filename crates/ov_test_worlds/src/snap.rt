//! Snapshots of a world, and the reports that are filed for them.
mod desks;

use ov_cert::{Cert, Checked, Split};
use ov_graph::Graph;
use ov_ids::{NodeId, Seq};
use ov_net::{Entry, Event, NetFault};
use ov_snap::{Core, CoreFault, CoreStep, Report, run_core};
use ov_test_kit::{sized, words};
use std::alloc::Global;
use std::process::Abort;
use std::test::Fail;

fn new_core(alloc: Global) -> Result<Core, Fail> {
    Ok(Core::new(alloc, sized(5, 30)?))
}

/// A step with words that are all zero.
fn step(core: &mut Core, event: Event) -> Result<Entry, NetFault> {
    core.step(event, &words(&[]))
}

/// Two nodes join. Entry 4 is a snapshot when only one of them holds the other, entry 6 when both do.
fn two_join() -> [Event; 6] {
    [
        Event::Boot(NodeId(1), None),
        Event::Boot(NodeId(2), Some(NodeId(1))),
        Event::Deliver(0),
        Event::Snapshot,
        Event::Deliver(0),
        Event::Snapshot,
    ]
}

fn join(core: &mut Core) -> Result<(), NetFault> {
    for event in two_join() {
        step(core, event)?;
    }
    Ok(())
}

/// Two nodes that are not linked split without a crash.
fn unlinked(alloc: Global) -> Result<Checked, Fail> {
    let graph = Graph::new(alloc, &[NodeId(1), NodeId(2)], &[])?;
    let cert = Cert::Split(Split {
        k: 0,
        cut: Seq::new(Vec::new(alloc)),
        near: NodeId(2),
        far: NodeId(1),
        side: Seq::new(Vec::from_slice(alloc, &[NodeId(2)])?),
        pairs: Seq::new(Vec::new(alloc)),
        fans: Seq::new(Vec::new(alloc)),
    });
    Ok(Checked::new(graph, cert).ok().ok_or("a valid certificate")?)
}

fn linked(alloc: Global) -> Result<Checked, Fail> {
    let graph = Graph::new(alloc, &[NodeId(1), NodeId(2)], &[(NodeId(1), NodeId(2))])?;
    Ok(
        Checked::new(graph, Cert::Linked { k: 1 })
            .ok()
            .ok_or("a valid certificate")?,
    )
}

/// A report of this moment on nodes 1 and 2, linked or not.
pub(crate) fn report(alloc: Global, moment: u32, is_linked: bool) -> Result<Report, Fail> {
    let checked = if is_linked {
        linked(alloc)?
    } else {
        unlinked(alloc)?
    };
    Ok(Report::new(alloc, moment, checked)?)
}

/// A moment, whether its report says that nodes 1 and 2 are linked, the fault of filing it, and whether one is filed.
static FILINGS: [(u32, bool, Option<CoreFault>, bool); 8] = [
    (4, true, Some(CoreFault::OtherGraph), false),
    (4, false, None, true),
    (4, false, Some(CoreFault::AlreadyFiled), true),
    (4, true, Some(CoreFault::OtherGraph), true),
    (5, false, Some(CoreFault::NoSuchMoment), false),
    (6, false, Some(CoreFault::OtherGraph), false),
    (6, true, None, true),
    (7, true, Some(CoreFault::NoSuchMoment), false),
];

/// The fault of a filing, unless it is out of memory.
fn filing(
    alloc: Global,
    core: &mut Core,
    moment: u32,
    is_linked: bool,
) -> Result<Option<CoreFault>, Fail> {
    match core.file(report(alloc, moment, is_linked)?) {
        Err(CoreFault::OutOfMemory) => Err(CoreFault::OutOfMemory.into()),
        answer => Ok(answer.err()),
    }
}

/// The report of moment 4 is of that moment, and has a cut of nobody.
fn has_split(core: &Core) -> bool {
    let Some(report) = core.report(4) else {
        return false;
    };
    report.moment() == 4 && matches!(report.checked().cert(), Cert::Split(split) if split.k == 0)
}

/// Two nodes join, and reports are filed.
fn files(rt: &impl Abort, alloc: Global, core: &mut Core) -> Result<(), Fail> {
    join(core)?;
    for (moment, is_linked, expected, is_filed) in &FILINGS {
        let fault = filing(alloc, core, *moment, *is_linked)?;
        assert_eq!(rt; fault, *expected, "moment {moment} linked {is_linked}");
        assert_eq!(rt;
            core.report(*moment).is_some(),
            *is_filed,
            "moment {moment}"
        );
    }
    assert!(rt; has_split(core));
    Ok(())
}

#[test]
fn a_report_is_filed_once_for_its_own_moment(rt: HostRuntime) -> Result<(), Fail> {
    files(&rt, rt.alloc(), &mut new_core(rt.alloc())?)
}

/// The fault of an analysis of this moment.
fn fault_of(core: &Core, moment: u32) -> Option<CoreFault> {
    core.begin(moment).err()
}

fn has_nobody(rt: &impl Abort, core: &mut Core) -> Result<(), Fail> {
    assert_eq!(rt; core.snapshot()?, 1);
    assert!(rt; fault_of(core, 1) == Some(CoreFault::NoNodes));
    assert!(rt; fault_of(core, 2) == Some(CoreFault::NoSuchMoment));
    Ok(())
}

#[test]
fn nobody_lives_in_an_empty_world(rt: HostRuntime) -> Result<(), Fail> {
    has_nobody(&rt, &mut new_core(rt.alloc())?)
}

/// Two nodes join, one boots again and is refused, and reports are filed, of which the first is refused.
fn steps(alloc: Global) -> Result<Vec<CoreStep>, Fail> {
    let mut steps = Vec::with_capacity(alloc, 10)?;
    for event in two_join() {
        steps.push(CoreStep::Net(event, words(&[])))?;
    }
    steps.push(CoreStep::Net(Event::Boot(NodeId(1), None), words(&[])))?;
    for (moment, is_linked) in [(4, true), (4, false), (6, true)] {
        steps.push(CoreStep::File(report(alloc, moment, is_linked)?))?;
    }
    Ok(steps)
}

/// Where memory is wanted there is no core, and the same steps make it when they are run once more.
fn run_twice(alloc: Global) -> Result<Core, Fail> {
    for _ in 0..2 {
        if let Ok(core) = run_core(alloc, sized(5, 30)?, steps(alloc)?) {
            return Ok(core);
        }
    }
    Err("memory was wanted twice".into())
}

/// Six entries, and a report for each of the moments 4 and 6 and for no other.
fn is_filed(core: &Core) -> bool {
    core.world().journal().len() == 6
        && core.report(4).is_some()
        && core.report(5).is_none()
        && core.report(6).is_some()
}

#[test]
fn a_run_files_what_its_steps_file(rt: HostRuntime) -> Result<(), Fail> {
    let core = run_twice(rt.alloc())?;
    assert!(rt; is_filed(&core));
    Ok(())
}
