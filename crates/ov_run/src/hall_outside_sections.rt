//! The hall of a run while one hand has it: what lines outside sections need of it.
ghost use Rattle.std.specs.Prelude.{◌≡◌, length, IfOk, IfErr, OnOk, OnErr};
ghost use Rattle.ov_snap.specs.Logs.{core_made};
ghost use Rattle.ov_ids.specs.FaultOrder.{IsRefusedBy};
ghost use Rattle.ov_net.specs.Refusals.{IsRefusal};
ghost use Rattle.ov_net.specs.declared.journal_entry_and_changes.Entry.{Entry};
ghost use Rattle.ov_snap.specs.CoreState.{opening_core};
ghost use Rattle.ov_snap.specs.Filing.{WasFiled};
ghost use Rattle.ov_snap.specs.Refusals.{FilingJudged};
ghost use Rattle.ov_snap.specs.Run.{Happened};
ghost use Rattle.ov_snap.specs.declared.refused_core_call.CoreFault.TheVariants.{OutOfMemory as out_of_memory};

use ov_hall::{HallName, Opening, Whole};
use ov_ids::{OutOfMemory, Params};
use ov_net::{Event, NetFault};
use ov_snap::{Core, CoreFault, Report};
use ov_words::Words;
use std::alloc::Global;
use std::marker::Model;

/// The hall of a run, in one hand. It lies in a box, so that it stays in its place when lines hand it on. Contracts see
/// the core that its log makes, and no driver: which driver did something is nothing to what a run prints.
pub struct RunHall<N: HallName> {
    pub(crate) hall: Box<Whole<N>>,
}

impl<N: HallName> Drop for RunHall<N> {
    /// Drops the parts. It is written by hand since a call is proved faster than the same drops at each exit.
    fn drop(self) {
        let RunHall { hall: _ } = self;
    }
}

impl<N: HallName> Model for RunHall<N> {
    ghost use Rattle.ov_snap.specs.Logs.{core_made};
    ghost use Rattle.ov_snap.specs.CoreState.{CoreState};
    ghost use Rattle.ov_snap.specs.Code.Codes.{core_code};

    ghost Value = { CoreState };

    ghost coded = { core_code };

    ghost view = { λ r. core_made N.params r.hall.value };
}

impl<N: HallName> RunHall<N> {
    /// The hall of a run in which nothing happened, or out of memory (99).
    pub(crate) fn new(
        alloc: Global,
        params: Params,
        opening: Opening,
    ) -> Result<RunHall<N>, OutOfMemory>
        requires name { (opening.table ≡ N.table) × (opening.drivers ≡ N.drivers) }
        requires params { params ≡ N.params }
        ensures { IfOk result (λ hall. hall ≡ opening_core params) }
    {
        RunHall::of(alloc, Whole::<N>::new(alloc, params, opening))
    }

    /// The hall of a run, from one at rest, or out of memory (99).
    pub(crate) fn of(alloc: Global, hall: Whole<N>) -> Result<RunHall<N>, OutOfMemory>
        ensures { IfOk result (λ run. run ≡ core_made N.params hall) }
    {
        Ok(RunHall {
            hall: Box::new(alloc, hall)?,
        })
    }

    /// The hall at rest.
    pub(crate) fn into_inner(self) -> Whole<N>
        ensures { core_made N.params result ≡ self }
    {
        let RunHall { hall } = self;
        Box::into_inner(hall)
    }

    /// The core.
    pub(crate) fn core(&self) -> &Core
        ensures { result.now ≡ self.now }
    {
        self.hall.core()
    }

    /// Takes one event, as `Core::take_event` does.
    pub(crate) fn take_event(&mut self, event: Event, words: &Words) -> Result<(), NetFault>
        ensures happened { OnOk result ((e : Entry) × Happened self.old event words.now e self.new) }
        ensures refused { IfErr result (IsRefusal self.old.world.net (length self.old.world.journal) event) }
        ensures err { OnErr result (self.new ≡ self.old) }
    {
        self.hall.take_event(event, words)
    }

    /// Files a report, as `Core::file` does.
    pub(crate) fn file(&mut self, report: Report) -> Result<(), CoreFault>
        ensures filed { OnOk result (WasFiled self.old report self.new) }
        ensures refused { IfErr result (IsRefusedBy out_of_memory (FilingJudged self.old report)) }
        ensures err { OnErr result (self.new ≡ self.old) }
    {
        self.hall.file(report)
    }
}
