ghost use Rattle.std.specs.Prelude.{◌≡◌, [], ◌∷◌, ◌++◌, false, true, length, IfOk, IfErr, OnOk, OnErr};
ghost use Rattle.ov_ids.specs.FaultOrder.{IsRefusedBy};
ghost use Rattle.ov_net.specs.Refusals.{IsRefusal};
ghost use Rattle.ov_net.specs.declared.event.Event.TheVariants as told;
ghost use Rattle.ov_net.specs.declared.journal_entry_and_changes.Entry.{Entry as EntryOf};
ghost use Rattle.ov_snap.specs.Filing.{WasFiled};
ghost use Rattle.ov_snap.specs.Refusals.{FilingJudged};
ghost use Rattle.ov_snap.specs.Run.{Happened, TookSnapshot};
ghost use Rattle.ov_snap.specs.declared.refused_core_call.CoreFault.TheVariants.{OutOfMemory as out_of_memory};
ghost use Rattle.ov_hall.specs.Histories.{IsHistory};
ghost use Rattle.ov_snap.specs.Logs.{IsLog, core_made, mark};
ghost use Rattle.ov_hall.specs.Passes.{AreDrivers, seen_alike};

use crate::core_shared_by_drivers::{Gathered, Hall};
use crate::driver_passes::{Pass, Stand};
use crate::ghost_knowledge_of_driver_seat::View;
use crate::ghost_log_rule::{HallName, Law, Leave};
use crate::hall_opening::Opening;
use crate::locked_state::State;
use atomic_table::Table;
use ov_ids::Params;
use ov_net::{Entry, Event, NetFault};
use ov_snap::{Core, CoreFault, Report};
use ov_words::{WORDS_PER_EVENT, Words};
use std::alloc::Global;
use std::marker::{Model, PhantomData};
use std::sync::Mutex;

/// A hall at rest: one hand has the core and the passes of all drivers, and there is no lock. Contracts see the log,
/// which makes the core. What one hand does is marked as driver 0's.
pub struct Whole<N: HallName> {
    pub(crate) table: Table<(), View, u64, Law, Global>,
    pub(crate) state: State<N>,
    pub(crate) drivers: u64,
    pub(crate) stand: Stand<N>,
}

impl<N: HallName> Drop for Whole<N> {
    /// Drops the parts. It is written by hand since a call is proved faster than the same drops at each exit.
    fn drop(self) {
        let Whole {
            table: _,
            state: _,
            drivers: _,
            stand: _,
        } = self;
    }
}

impl<N: HallName> Model for Whole<N> {
    ghost use Rattle.std.specs.Prelude.{◌≡◌, ◌<◌, List};
    ghost use Rattle.ov_hall.specs.Code.Codes.{log_code};
    ghost use Rattle.ov_hall.specs.Passes.{first_seen, seen_alike};
    ghost use Rattle.ov_snap.specs.declared.ghost_log_of_drivers.Mark.{Mark};

    ghost Value = { List Mark };

    ghost coded = { log_code };

    ghost view = { λ w. first_seen w.stand };

    ghost invariant = { λ w. ((w.stand ≡ seen_alike 0 N.drivers (first_seen w.stand)) × (0 < N.drivers))
        × (w.state ≡ first_seen w.stand) × (w.table.shared.table_id ≡ N.table)
        × (w.table.shared.table_id.words ≡ 1) × (w.drivers ≡ N.drivers) };
}

impl<N: HallName> Whole<N> {
    /// A hall over a core in which nothing happened. Nothing is allocated.
    pub fn new(alloc: Global, params: Params, opening: Opening) -> Whole<N>
        requires name { (opening.table ≡ N.table) × (opening.drivers ≡ N.drivers) }
        requires params { params ≡ N.params }
        ensures { result ≡ [] }
    {
        let Opening {
            table,
            mut place,
            drivers,
        } = opening;
        let all = table.shared.split_seat::<Leave>(&mut place);
        let state = State {
            core: Core::new(alloc, params),
            entry_drivers: Vec::new(alloc),
            report_drivers: Vec::new(alloc),
            place,
            of: PhantomData,
        };
        let stand = Stand {
            place: all,
            of: PhantomData,
        };
        Whole {
            table,
            state,
            drivers,
            stand,
        }
    }

    /// The core, which is the one that the log makes.
    pub fn core(&self) -> &Core
        ensures { result.now ≡ core_made N.params self.now }
    {
        &self.state.core
    }

    /// Takes one event by driver 0, as `Core::step` does, with the same faults. What is refused changes nothing.
    pub fn step(&mut self, event: Event, words: &Words) -> Result<Entry, NetFault>
        ensures happened { IfOk result
            (λ e. Happened (core_made N.params self.old) event words.now e (core_made N.params self.new)) }
        ensures marked { OnOk result (self.new ≡ self.old ++ mark 0 false (core_made N.params self.new) ∷ []) }
        ensures refused { IfErr result (IsRefusal (core_made N.params self.old).world.net
            (length (core_made N.params self.old).world.journal) event) }
        ensures err { OnErr result (self.new ≡ self.old) }
    {
        self.state
            .step(&self.table.shared, &mut self.stand, 0, event, words)
    }

    /// Takes one event as `step` does, with the same faults, and copies nothing of its entry, which is the last of the
    /// journal then.
    pub fn take_event(&mut self, event: Event, words: &Words) -> Result<(), NetFault>
        ensures happened { OnOk result ((e : EntryOf)
            × Happened (core_made N.params self.old) event words.now e (core_made N.params self.new)) }
        ensures marked { OnOk result (self.new ≡ self.old ++ mark 0 false (core_made N.params self.new) ∷ []) }
        ensures refused { IfErr result (IsRefusal (core_made N.params self.old).world.net
            (length (core_made N.params self.old).world.journal) event) }
        ensures err { OnErr result (self.new ≡ self.old) }
    {
        self.state
            .take_event(&self.table.shared, &mut self.stand, 0, event, words)
    }

    /// Takes a snapshot by driver 0, as `Core::snapshot` does, with the same faults. Returns its moment. What is
    /// refused changes nothing.
    pub fn snapshot(&mut self) -> Result<u32, NetFault>
        ensures happened { IfOk result
            (λ m. TookSnapshot (core_made N.params self.old) m (core_made N.params self.new)) }
        ensures marked { OnOk result (self.new ≡ self.old ++ mark 0 false (core_made N.params self.new) ∷ []) }
        ensures refused { IfErr result (λ f. IsRefusal (core_made N.params self.old).world.net
            (length (core_made N.params self.old).world.journal) told.Snapshot f) }
        ensures err { OnErr result (self.new ≡ self.old) }
    {
        let entry = self.step(Event::Snapshot, &Words::new([0; WORDS_PER_EVENT]))?;
        Ok(entry.number)
    }

    /// Files a report by driver 0, as `Core::file` does, with the same faults. What is refused changes nothing.
    pub fn file(&mut self, report: Report) -> Result<(), CoreFault>
        ensures filed { OnOk result (WasFiled (core_made N.params self.old) report (core_made N.params self.new)) }
        ensures marked { OnOk result (self.new ≡ self.old ++ mark 0 true (core_made N.params self.new) ∷ []) }
        ensures refused { IfErr result
            (IsRefusedBy out_of_memory (FilingJudged (core_made N.params self.old) report)) }
        ensures err { OnErr result (self.new ≡ self.old) }
    {
        self.state
            .file(&self.table.shared, &mut self.stand, 0, report)
    }

    /// The lock round the core, and the pass of each driver, in the order of their numbers from 0. Each has seen the
    /// whole log. Out of memory gives all back.
    pub fn part(self, alloc: Global) -> Result<(Hall<N>, Vec<Pass<N>>), Whole<N>>
        ensures passes { IfOk result (λ r. r.1.items ≡ seen_alike 0 N.drivers self) }
        ensures log { IsLog N.params N.drivers self }
        ensures all { IfOk result (λ r. AreDrivers N.drivers r.1.items) }
        ensures err { IfErr result (λ w. w ≡ self) }
    {
        let Whole {
            table,
            state,
            drivers,
            stand,
        } = self;
        match stand.part(alloc, &table.shared, drivers) {
            Ok(passes) => {
                let hall = Hall {
                    table,
                    state: Mutex::new(state),
                    drivers,
                };
                Ok((hall, passes))
            }
            Err(stand) => Err(Whole {
                table,
                state,
                drivers,
                stand,
            }),
        }
    }

    /// The core that the log makes, and the drivers of its entries and of its reports, as the log names them.
    pub fn close(self) -> Gathered
        ensures history { IsHistory N.params N.drivers self result.core result.entry_drivers.items
            result.report_drivers.items }
    {
        let Whole {
            table: _,
            state,
            drivers: _,
            stand: _,
        } = self;
        Gathered::of(state)
    }
}
