//! Desks at which workers share out the pieces of a snapshot's overlay. The answers were worked out by hand.
use super::{join, new_core, two_join};
use ov_cert::Cert;
use ov_ids::NodeId;
use ov_snap::{Core, CoreFault, CoreStep, run_core};
use ov_test_kit::{ids, sized, words};
use std::alloc::Global;
use std::process::Abort;
use std::test::Fail;

/// What happens at desk 0 or 1, by the number of the desk and of the worker.
#[derive(Clone, Copy, Debug)]
enum Turn {
    Claim(u32, u32),
    Look(u32, u32),
    Settle(u32, u32),
    File(u32),
}

/// What the turn answers; 0 where it answers nothing.
fn takes(core: &mut Core, turn: Turn) -> Result<u64, CoreFault> {
    match turn {
        Turn::Claim(desk, worker) => core.claim(desk, worker),
        Turn::Look(desk, worker) => core.look(desk, worker),
        Turn::Settle(desk, worker) => {
            core.settle(desk, worker)?;
            Ok(0)
        }
        Turn::File(desk) => {
            core.file_desk(desk)?;
            Ok(0)
        }
    }
}

/// The turns of two workers at a desk with one piece: nodes 1 and 2, of whom only one holds the other. Worker 0 claims
/// piece 0, and worker 1 finds none left. The piece comes to a cut of nobody.
static TURNS: [(Turn, Result<u64, CoreFault>); 14] = [
    (Turn::Claim(1, 0), Err(CoreFault::NoSuchDesk)),
    (Turn::Claim(0, 2), Err(CoreFault::NoSuchWorker)),
    (Turn::Look(0, 0), Err(CoreFault::WrongTurn)),
    (Turn::Claim(0, 0), Ok(0)),
    (Turn::Claim(0, 0), Err(CoreFault::WrongTurn)),
    (Turn::Claim(0, 1), Ok(1)),
    (Turn::Settle(0, 1), Err(CoreFault::WrongTurn)),
    (Turn::File(0), Err(CoreFault::NotEnded)),
    (Turn::Look(0, 0), Ok(1)),
    (Turn::Look(0, 0), Err(CoreFault::WrongTurn)),
    (Turn::Settle(0, 0), Ok(0)),
    (Turn::Claim(0, 0), Ok(2)),
    (Turn::File(0), Ok(0)),
    (Turn::File(0), Err(CoreFault::AlreadyFiled)),
];

/// The report of this moment says that so many crashes split the overlay, and part these two nodes.
fn is_split(core: &Core, moment: u32, k: u32, near: u32, far: u32) -> bool {
    let Some(report) = core.report(moment) else {
        return false;
    };
    let Cert::Split(split) = report.checked().cert() else {
        return false;
    };
    split.k == k && split.near == NodeId(near) && split.far == NodeId(far)
}

/// The least number that failed at desk 0, and how many numbers it shares out.
fn least_and_total(core: &Core) -> Option<(u64, u64)> {
    let desk = core.desk(0)?;
    Some((desk.least(), desk.total()))
}

/// Opens a desk of two workers, who take these turns at it.
fn work(rt: &impl Abort, core: &mut Core, moment: u32, turns: &[(Turn, Result<u64, CoreFault>)]) {
    assert_eq!(rt; core.open_desk(moment, 2), Ok(0));
    for (turn, answer) in turns {
        assert_eq!(rt; takes(core, *turn), *answer, "at {turn:?}");
    }
}

#[test]
fn workers_take_turns_at_a_desk(rt: HostRuntime) -> Result<(), Fail> {
    let mut core = new_core(rt.alloc())?;
    join(&mut core)?;
    work(&rt, &mut core, 4, &TURNS);
    assert_eq!(rt; least_and_total(&core), Some((0, 1)));
    assert!(rt; is_split(&core, 4, 0, 2, 1));
    Ok(())
}

/// How many desks a core may have.
const MOST_DESKS: u32 = 65_536;

/// As many desks of moment 4 are opened as there may be, and each has its number.
fn opens_all(core: &mut Core) -> bool {
    for place in 0..MOST_DESKS {
        if core.open_desk(4, 1) != Ok(place) {
            return false;
        }
    }
    true
}

#[test]
fn a_core_has_65536_desks_at_most(rt: HostRuntime) -> Result<(), Fail> {
    let mut core = new_core(rt.alloc())?;
    join(&mut core)?;
    assert!(rt; opens_all(&mut core));
    assert!(rt; core.open_desk(4, 1) == Err(CoreFault::TooManyDesks));
    Ok(())
}

/// A report is filed for node 1 alone, which nothing splits, and none for all nodes.
fn is_of_one(core: &Core) -> bool {
    let Some(report) = core.group_report(4, &[NodeId(1)]) else {
        return false;
    };
    matches!(report.checked().cert(), Cert::Linked { k: 0 }) && core.report(4).is_none()
}

#[test]
fn a_group_of_one_shares_out_nothing(rt: HostRuntime) -> Result<(), Fail> {
    let alloc = rt.alloc();
    let mut core = new_core(alloc)?;
    join(&mut core)?;
    let members = ids(alloc, &[1])?.into_vec();
    assert_eq!(rt; core.open_group_desk(4, members, 1), Ok(0));
    assert_eq!(rt; least_and_total(&core), Some((0, 0)));
    assert_eq!(rt; core.claim(0, 0), Ok(0));
    assert_eq!(rt; core.file_desk(0), Ok(()));
    assert!(rt; is_of_one(&core));
    Ok(())
}

/// The step of a core that is this turn.
fn step_of(turn: Turn) -> CoreStep {
    match turn {
        Turn::Claim(desk, worker) => CoreStep::Claim { desk, worker },
        Turn::Look(desk, worker) => CoreStep::Look { desk, worker },
        Turn::Settle(desk, worker) => CoreStep::Settle { desk, worker },
        Turn::File(desk) => CoreStep::FileDesk { desk },
    }
}

/// The six events by which two nodes join.
fn joined(alloc: Global) -> Result<Vec<CoreStep>, Fail> {
    let mut steps = Vec::new(alloc);
    for event in two_join() {
        steps.push(CoreStep::Net(event, words(&[])))?;
    }
    Ok(steps)
}

#[test]
fn a_run_takes_the_turns_at_a_desk(rt: HostRuntime) -> Result<(), Fail> {
    let alloc = rt.alloc();
    let mut steps = joined(alloc)?;
    steps.push(CoreStep::OpenDesk {
        moment: 4,
        workers: 2,
    })?;
    for (turn, _) in &TURNS {
        steps.push(step_of(*turn))?;
    }
    let core = run_core(alloc, sized(5, 30)?, steps)?;
    assert_eq!(rt; core.world().journal().len(), 6);
    assert!(rt; is_split(&core, 4, 0, 2, 1));
    Ok(())
}

#[test]
fn a_run_takes_the_turns_of_a_group(rt: HostRuntime) -> Result<(), Fail> {
    let alloc = rt.alloc();
    let mut steps = joined(alloc)?;
    let members = ids(alloc, &[1])?.into_vec();
    steps.push(CoreStep::OpenGroupDesk {
        moment: 4,
        members,
        workers: 1,
    })?;
    steps.push(step_of(Turn::Claim(0, 0)))?;
    steps.push(step_of(Turn::File(0)))?;
    let core = run_core(alloc, sized(5, 30)?, steps)?;
    assert!(rt; is_of_one(&core));
    Ok(())
}
