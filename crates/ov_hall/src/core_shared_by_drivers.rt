ghost use Rattle.std.specs.Prelude.{◌≡◌, ◌<◌, length, IfOk, IfErr, OnOk, OnErr};
ghost use Rattle.ov_ids.specs.FaultOrder.{IsRefusedBy};
ghost use Rattle.ov_net.specs.Refusals.{IsRefusal};
ghost use Rattle.ov_net.specs.declared.event.Event.TheVariants as told;
ghost use Rattle.ov_net.specs.declared.journal_entry_and_changes.Entry.{Entry as EntryOf};
ghost use Rattle.ov_snap.specs.Refusals.{FilingJudged};
ghost use Rattle.ov_snap.specs.declared.refused_core_call.CoreFault.TheVariants.{OutOfMemory as out_of_memory};
ghost use Rattle.ov_hall.specs.Histories.{IsHistory};
ghost use Rattle.ov_snap.specs.Logs.{IsLog, core_made};
ghost use Rattle.ov_snap.specs.DriverSteps.{HasFiled, HasLooked, HasStepped, HasTakenSnapshot};

use crate::driver_passes::Pass;
use crate::ghost_knowledge_of_driver_seat::View;
use crate::ghost_log_rule::{HallName, Law};
use crate::locked_state::State;
use atomic_table::Table;
use ov_net::{Entry, Event, NetFault};
use ov_snap::{Core, CoreFault, Report};
use ov_words::{WORDS_PER_EVENT, Words};
use std::alloc::Global;
use std::sync::{Mutex, Wait};

/// A core that drivers share. Whenever its lock is free, what each filed report says is true, and each entry and each
/// report has its driver.
#[derive(Drop)]
pub struct Hall<N: HallName> {
    pub(crate) table: Table<(), View, u64, Law, Global>,
    pub(crate) state: Mutex<State<N>>,
    pub(crate) drivers: u64,
    ghost table_is: { table.shared.table_id ≡ N.table },
    ghost one_word: { table.shared.table_id.words ≡ 1 },
    ghost count: { drivers ≡ N.drivers },
    ghost some: { 0 < N.drivers },
}

/// What is left of a hall.
#[derive(Drop)]
pub struct Gathered {
    /// The core.
    pub core: Core,
    /// The driver of each entry, in the order of the journal.
    pub entry_drivers: Vec<u64>,
    /// The driver of each report, in the order of filing.
    pub report_drivers: Vec<u64>,
}

impl Gathered {
    /// What is left of the state of a hall.
    pub(crate) fn of<N: HallName>(state: State<N>) -> Gathered
        ensures { IsHistory N.params N.drivers state result.core result.entry_drivers.items
            result.report_drivers.items }
    {
        let State {
            core,
            entry_drivers,
            report_drivers,
            place: _,
            of: _,
        } = state;
        Gathered {
            core,
            entry_drivers,
            report_drivers,
        }
    }
}

impl<N: HallName> Hall<N> {
    /// Lends the core to `f` while nobody steps it. The pass has then seen that core's log. That it is the newest one
    /// is not said: a clause can't know what other drivers did.
    pub fn look_at<T, F: FnOnce(&Core) -> T>(
        &self,
        rt: &impl Wait,
        mut pass: Pass<N>,
        f: F,
    ) -> (T, Pass<N>)
        requires { F.IsAlwaysCallable f }
        ensures seen { HasLooked pass result.1 }
        ensures log { IsLog N.params N.drivers result.1.seen }
        ensures answer { (core : _) × (core.now ≡ core_made N.params result.1.seen) × F.post f core result.0 }
    {
        let mut state = self.state.lock(rt);
        let answer = state.look_at(&self.table.shared, &mut pass.stand, f);
        (answer, pass)
    }

    /// Takes one event by the driver of the pass, as `Core::step` does, with the same faults. What is refused changes
    /// nothing. The pass has then seen all that was done, up to this event.
    pub fn step(
        &self,
        rt: &impl Wait,
        mut pass: Pass<N>,
        event: Event,
        words: &Words,
    ) -> (Result<Entry, NetFault>, Pass<N>)
        ensures happened { IfOk result.0 (λ e. HasStepped N.params pass event words.now e result.1) }
        ensures refused { IfErr result.0 (λ f. IsRefusal (core_made N.params result.1.seen).world.net
            (length (core_made N.params result.1.seen).world.journal) event f) }
        ensures err { OnErr result.0 (HasLooked pass result.1) }
        ensures log { IsLog N.params N.drivers result.1.seen }
    {
        let driver = pass.driver;
        let answer = self
            .state
            .lock(rt)
            .step(&self.table.shared, &mut pass.stand, driver, event, words);
        (answer, pass)
    }

    /// Takes one event as `step` does, with the same faults, and copies nothing of its entry.
    pub fn take_event(
        &self,
        rt: &impl Wait,
        mut pass: Pass<N>,
        event: Event,
        words: &Words,
    ) -> (Result<(), NetFault>, Pass<N>)
        ensures happened { OnOk result.0 ((e : EntryOf) × HasStepped N.params pass event words.now e result.1) }
        ensures refused { IfErr result.0 (λ f. IsRefusal (core_made N.params result.1.seen).world.net
            (length (core_made N.params result.1.seen).world.journal) event f) }
        ensures err { OnErr result.0 (HasLooked pass result.1) }
        ensures log { IsLog N.params N.drivers result.1.seen }
    {
        let driver = pass.driver;
        let answer = self
            .state
            .lock(rt)
            .take_event(&self.table.shared, &mut pass.stand, driver, event, words);
        (answer, pass)
    }

    /// Takes a snapshot by the driver of the pass, as `Core::snapshot` does, with the same faults. Returns its moment.
    pub fn snapshot(&self, rt: &impl Wait, pass: Pass<N>) -> (Result<u32, NetFault>, Pass<N>)
        ensures happened { IfOk result.0 (λ m. HasTakenSnapshot N.params pass m result.1) }
        ensures refused { IfErr result.0 (λ f. IsRefusal (core_made N.params result.1.seen).world.net
            (length (core_made N.params result.1.seen).world.journal) told.Snapshot f) }
        ensures err { OnErr result.0 (HasLooked pass result.1) }
        ensures log { IsLog N.params N.drivers result.1.seen }
    {
        let zero = Words::new([0; WORDS_PER_EVENT]);
        let (answer, pass) = self.step(rt, pass, Event::Snapshot, &zero);
        match answer {
            Ok(entry) => (Ok(entry.number), pass),
            Err(fault) => (Err(fault), pass),
        }
    }

    /// Files a report by the driver of the pass, as `Core::file` does, with the same faults. What is refused changes
    /// nothing. The pass has then seen all that was done, up to this filing.
    pub fn file(
        &self,
        rt: &impl Wait,
        mut pass: Pass<N>,
        report: Report,
    ) -> (Result<(), CoreFault>, Pass<N>)
        ensures filed { OnOk result.0 (HasFiled N.params pass report result.1) }
        ensures refused { IfErr result.0
            (IsRefusedBy out_of_memory (FilingJudged (core_made N.params result.1.seen) report)) }
        ensures err { OnErr result.0 (HasLooked pass result.1) }
        ensures log { IsLog N.params N.drivers result.1.seen }
    {
        let driver = pass.driver;
        let answer = self
            .state
            .lock(rt)
            .file(&self.table.shared, &mut pass.stand, driver, report);
        (answer, pass)
    }
}
