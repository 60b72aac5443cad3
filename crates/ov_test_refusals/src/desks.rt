//! Desks of a core, at which workers share out pieces.
use crate::cores::Answer::{Begun, Done, Numbered, Refused};
use crate::cores::Call::{Begin, BeginFor, Open, OpenFor, Take};
use crate::cores::{Answer, Call, all_answer, new_core};
use crate::events::Line::{Boot, BootBy, Deliver, Lose};
use Turn::{Claim, File, Look, Settle};
use ov_cert::Cert;
use ov_ids::{NodeId, Scale};
use ov_snap::{Core, CoreFault, Report};
use ov_test_kit::words;
use std::alloc::Global;
use std::process::Abort;
use std::test::Fail;

/// What happens at a desk, by the number of the desk and of the worker.
#[derive(Clone, Copy, Drop)]
pub(crate) enum Turn {
    Claim(u32, u32),
    Look(u32, u32),
    Settle(u32, u32),
    File(u32),
}

impl Turn {
    /// The name of the call.
    pub(crate) fn name(self) -> &'static str {
        match self {
            Claim(..) => "claim",
            Look(..) => "look",
            Settle(..) => "settle",
            File(_) => "file_desk",
        }
    }
}

fn numbered(answer: Result<u64, CoreFault>) -> Answer {
    match answer {
        Ok(number) => Numbered(number),
        Err(fault) => Refused(fault.number()),
    }
}

fn done(answer: Result<(), CoreFault>) -> Answer {
    match answer {
        Ok(()) => Done,
        Err(fault) => Refused(fault.number()),
    }
}

/// What the turn answers.
pub(crate) fn takes(core: &mut Core, turn: Turn) -> Answer {
    match turn {
        Claim(desk, worker) => numbered(core.claim(desk, worker)),
        Look(desk, worker) => numbered(core.look(desk, worker)),
        Settle(desk, worker) => done(core.settle(desk, worker)),
        File(desk) => done(core.file_desk(desk)),
    }
}

/// Nodes 1 and 2, and then 2 and 3 take each other in. Word of node 3 for node 1 is lost, so these two are not linked.
/// The snapshot is entry 9. The world has this scale.
fn path_of_three(alloc: Global, scale: Scale) -> Result<Core, Fail> {
    let mut core = new_core(alloc, scale)?;
    let lines = [
        Boot(1),
        BootBy(2, 1),
        Deliver(0),
        Deliver(0),
        BootBy(3, 2),
        Deliver(0),
        Lose(1),
        Deliver(0),
    ];
    for line in lines {
        core.step(line.event(alloc)?, &words(&[]))?;
    }
    core.snapshot()?;
    Ok(core)
}

/// The four pieces of the path 1, 2, 3: three are good, and the last, the fan of 3 at level 2, comes to the cut 2.
static ALL_NODES: [(Call, Answer); 17] = [
    (Begin(9), Begun(3, true)),
    (Open(9, 2), Numbered(0)),
    (Take(Claim(0, 0)), Numbered(0)),
    (Take(Claim(0, 1)), Numbered(1)),
    (Take(Look(0, 0)), Numbered(4)),
    (Take(Settle(0, 0)), Done),
    (Take(Claim(0, 0)), Numbered(2)),
    (Take(Look(0, 1)), Numbered(4)),
    (Take(Settle(0, 1)), Done),
    (Take(Claim(0, 1)), Numbered(3)),
    (Take(Look(0, 1)), Numbered(4)),
    (Take(Settle(0, 1)), Done),
    (Take(Look(0, 0)), Numbered(3)),
    (Take(Settle(0, 0)), Done),
    (Take(Claim(0, 0)), Numbered(4)),
    (Take(Claim(0, 1)), Numbered(5)),
    (Take(File(0)), Done),
];

/// The two pieces of the group 1 and 3: the fan of 3 at level 1 is good, and the pair at level 2 comes to the cut 2.
static ENDS: [(Call, Answer); 11] = [
    (BeginFor(9, &[1, 3]), Begun(3, true)),
    (OpenFor(9, &[1, 3], 2), Numbered(1)),
    (Take(Claim(1, 0)), Numbered(0)),
    (Take(Look(1, 0)), Numbered(2)),
    (Take(Claim(1, 1)), Numbered(1)),
    (Take(Settle(1, 0)), Done),
    (Take(Look(1, 1)), Numbered(2)),
    (Take(Settle(1, 1)), Done),
    (Take(Claim(1, 0)), Numbered(2)),
    (Take(Claim(1, 1)), Numbered(3)),
    (Take(File(1)), Done),
];

/// The report says that the crash of node 2 splits the group.
fn is_cut_at_2(report: Option<&Report>, near: u32, far: u32) -> bool {
    let Some(report) = report else {
        return false;
    };
    let Cert::Split(split) = report.checked().cert() else {
        return false;
    };
    split.cut.as_slice() == [NodeId(2)].as_slice()
        && split.near == NodeId(near)
        && split.far == NodeId(far)
}

/// In a world of this scale two workers settle the pieces of all nodes, and then those of a group, and certificates are
/// made of them.
fn rows_answer(rt: &(impl Abort + Print), alloc: Global, scale: Scale) -> Result<(), Fail> {
    let mut core = path_of_three(alloc, scale)?;
    all_answer(rt, alloc, &mut core, &ALL_NODES)?;
    all_answer(rt, alloc, &mut core, &ENDS)?;
    let (all, ends) = (
        core.report(9),
        core.group_report(9, &[NodeId(1), NodeId(3)]),
    );
    assert!(rt; is_cut_at_2(all, 3, 1) && is_cut_at_2(ends, 1, 3));
    Ok(())
}

/// A refused call changes nothing, and is answered as in its row when it is made again.
#[test]
fn out_of_memory_changes_no_desk(rt: HostRuntime) -> Result<(), Fail> {
    rows_answer(&rt, rt.alloc(), Scale::Profile)
}

/// The same of a large world's snapshot.
#[test]
fn out_of_memory_changes_no_desk_of_a_large_world(rt: HostRuntime) -> Result<(), Fail> {
    rows_answer(&rt, rt.alloc(), Scale::Large)
}
