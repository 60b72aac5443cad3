ghost use Rattle.std.specs.Prelude.{◌≡◌, ◌≢◌, IfErr, IfOk, MatchResult, OnErr, OnOk};
ghost use Rattle.ov_ids.specs.Members.{Has};
ghost use Rattle.ov_snap.specs.ReportState.{IsTrueReport, ReportState};
ghost use Rattle.ov_snap.specs.Run.{CoreRun, MayRunOut, RanOut, Takes};
ghost use Rattle.ov_snap.specs.declared.refused_core_call.CoreFault.TheVariants.{OutOfMemory as out_of_memory};

use crate::analysis_report::Report;
use crate::refused_core_call::CoreFault;
use crate::snapshot_core::Core;
use ov_ids::{NodeId, OutOfMemory, Params};
use ov_net::{Event, NetFault};
use ov_words::Words;
use std::alloc::Global;

/// A step that a core may take.
#[derive(Drop)]
pub enum CoreStep {
    /// An event of the world, with its random words.
    Net(Event, Words),
    /// A desk is opened for all nodes of a moment.
    OpenDesk {
        moment: u32,
        workers: u32,
    },
    /// A desk is opened for a group of the nodes of a moment.
    OpenGroupDesk {
        moment: u32,
        members: Vec<NodeId>,
        workers: u32,
    },
    /// A worker of a desk claims the next number.
    Claim {
        desk: u32,
        worker: u32,
    },
    /// A worker of a desk looks whether a lower number has failed.
    Look {
        desk: u32,
        worker: u32,
    },
    /// A worker of a desk settles the piece of its number.
    Settle {
        desk: u32,
        worker: u32,
    },
    /// The result of a desk is filed.
    FileDesk {
        desk: u32,
    },
    /// A report is filed.
    File(Report),
}

/// The core that these steps make, in order, of one in which nothing happened. A step that is refused changes nothing,
/// and the next one follows. What every filed report says is true. OutOfMemory (99) is returned in place of a core
/// if a step ran out of memory; only a step to which no refusal applies can do so.
pub fn run_core(alloc: Global, params: Params, steps: Vec<CoreStep>) -> Result<Core, OutOfMemory>
    ensures run { IfOk result (λ c. CoreRun params steps.items c) }
    ensures is_true { IfOk result (λ c. (r : ReportState) → Has c.reports r → IsTrueReport c.world.journal r) }
    ensures ended { OnErr result (RanOut params steps.items) }
{
    let mut core = Core::new(alloc, params);
    for step in steps {
        take(&mut core, step)?;
    }
    Ok(core)
}

/// Takes one step. A step that is refused changes nothing.
fn take(core: &mut Core, step: CoreStep) -> Result<(), OutOfMemory>
    ensures took { OnOk result (Takes core.old step core.new) }
    ensures ended { OnErr result (MayRunOut core.old step) }
{
    match step {
        CoreStep::Net(event, words) => match core.step(event, &words) {
            Err(NetFault::OutOfMemory) => Err(OutOfMemory),
            _ => Ok(()),
        },
        CoreStep::OpenDesk { moment, workers } => go_on(core.open_desk(moment, workers)),
        CoreStep::OpenGroupDesk {
            moment,
            members,
            workers,
        } => go_on(core.open_group_desk(moment, members, workers)),
        CoreStep::Claim { desk, worker } => go_on(core.claim(desk, worker)),
        CoreStep::Look { desk, worker } => go_on(core.look(desk, worker)),
        CoreStep::Settle { desk, worker } => go_on(core.settle(desk, worker)),
        CoreStep::FileDesk { desk } => go_on(core.file_desk(desk)),
        CoreStep::File(report) => go_on(core.file(report)),
    }
}

/// Goes on after a call that did its work or was refused, but not after one that was out of memory.
fn go_on<T: Drop>(answer: Result<T, CoreFault>) -> Result<(), OutOfMemory>
    ensures on { OnOk result (IfErr answer (λ f. f ≢ out_of_memory)) }
    ensures out { OnErr result (MatchResult answer (λ _. ⊥) (λ f. f ≡ out_of_memory)) }
{
    match answer {
        Err(CoreFault::OutOfMemory) => Err(OutOfMemory),
        _ => Ok(()),
    }
}
