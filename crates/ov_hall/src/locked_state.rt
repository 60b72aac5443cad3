ghost use Rattle.std.specs.Prelude.{◌≡◌, ◌<◌, [], ◌∷◌, ◌++◌, length, IfOk, IfErr, OnOk, OnErr, false, true};
ghost use Rattle.ov_ids.specs.FaultOrder.{IsRefusedBy};
ghost use Rattle.ov_net.specs.Refusals.{IsRefusal};
ghost use Rattle.ov_net.specs.declared.journal_entry_and_changes.Entry.{Entry as EntryOf};
ghost use Rattle.ov_snap.specs.CoreState.{CoreState};
ghost use Rattle.ov_snap.specs.Filing.{WasFiled};
ghost use Rattle.ov_snap.specs.Refusals.{FilingJudged};
ghost use Rattle.ov_snap.specs.Run.{Happened};
ghost use Rattle.ov_snap.specs.declared.refused_core_call.CoreFault.TheVariants.{OutOfMemory as out_of_memory};
ghost use Rattle.ov_snap.specs.Logs.{IsLog, core_made, mark};
ghost use Rattle.ov_hall.specs.Passes.{AllBegin, having_seen, standing_for};

use crate::driver_passes::Stand;
use crate::ghost_log_rule::{Count, HallName, Leave, Place, add, look};
use ov_net::{Entry, Event, NetFault};
use ov_snap::{Core, CoreFault, Report};
use ov_words::Words;
use std::marker::{Model, PhantomData};

/// What the lock has: the core, the drivers of its entries and of its reports, and the seat that keeps the log.
/// Contracts see the log. What each report says is true, and each entry and each report has its driver.
#[derive(Drop)]
pub struct State<N: HallName> {
    pub core: Core,
    pub entry_drivers: Vec<u64>,
    pub report_drivers: Vec<u64>,
    pub place: Place,
    pub of: PhantomData<N>,
}

impl<N: HallName> Model for State<N> {
    ghost use Rattle.std.specs.Prelude.{◌≡◌, List, []};
    ghost use Rattle.ov_snap.specs.declared.ghost_log_of_drivers.Mark.{Mark};
    ghost use Rattle.ov_hall.specs.Histories.{IsHistory};
    ghost use Rattle.ov_hall.specs.Code.Codes.{log_code};
    ghost use Rattle.ov_hall.specs.Code.Rules.{keeper, log_in};

    ghost Value = { List Mark };

    ghost coded = { log_code };

    ghost view = { λ s. log_in s.place.me.0 };

    ghost invariant = { λ s. (s.place.table_id ≡ N.table) × (s.place.me ≡ (keeper (log_in s.place.me.0), []))
        × IsHistory N.params N.drivers (log_in s.place.me.0) s.core s.entry_drivers.items s.report_drivers.items };
}

impl<N: HallName> State<N> {
    /// A seat that stands for nobody.
    pub fn nobody(&mut self, count: &Count) -> Stand<N>
        requires count { (count.now.table_id ≡ N.table) × (0 < count.now.table_id.words) }
        ensures same { self.new ≡ self.old }
        ensures nobody { result ≡ [] }
    {
        Stand {
            place: count.split_seat::<Leave>(&mut self.place),
            of: PhantomData,
        }
    }

    /// The drivers of a seat see the log.
    pub fn look(&mut self, count: &Count, stand: &mut Stand<N>)
        requires count { (count.now.table_id ≡ N.table) × (0 < count.now.table_id.words) }
        ensures same { self.new ≡ self.old }
        ensures seen { stand.new ≡ having_seen self.old stand.old }
        ensures began { AllBegin stand.old self.old }
        ensures log { IsLog N.params N.drivers self.old }
    {
        look(count, &mut self.place, &mut stand.place);
    }

    /// The drivers of a seat see the log, and the core is lent.
    pub fn look_at<T, F: FnOnce(&Core) -> T>(
        &mut self,
        count: &Count,
        stand: &mut Stand<N>,
        f: F,
    ) -> T
        requires count { (count.now.table_id ≡ N.table) × (0 < count.now.table_id.words) }
        requires call { F.IsAlwaysCallable f }
        ensures same { self.new ≡ self.old }
        ensures seen { stand.new ≡ having_seen self.old stand.old }
        ensures began { AllBegin stand.old self.old }
        ensures log { IsLog N.params N.drivers self.old }
        ensures answer { (core : _) × (core.now ≡ core_made N.params self.old) × F.post f core result }
    {
        look(count, &mut self.place, &mut stand.place);
        f(&self.core)
    }

    /// One event by a driver of a seat.
    pub fn step(
        &mut self,
        count: &Count,
        stand: &mut Stand<N>,
        driver: u64,
        event: Event,
        words: &Words,
    ) -> Result<Entry, NetFault>
        requires count { (count.now.table_id ≡ N.table) × (0 < count.now.table_id.words) }
        requires stands { 0 < standing_for driver stand.old }
        ensures happened { IfOk result (λ e. (u : CoreState)
            × Happened (core_made N.params self.old) event words.now e u
            × (self.new ≡ self.old ++ mark driver false u ∷ [])) }
        ensures refused { IfErr result (λ f. IsRefusal (core_made N.params self.old).world.net
            (length (core_made N.params self.old).world.journal) event f) }
        ensures err { OnErr result (self.new ≡ self.old) }
        ensures seen { stand.new ≡ having_seen self.new stand.old }
        ensures began { AllBegin stand.old self.old }
        ensures log { IsLog N.params N.drivers self.old }
        ensures after { IsLog N.params N.drivers self.new }
    {
        match write_event(
            &mut self.core,
            &mut self.entry_drivers,
            driver,
            event,
            words,
        ) {
            Ok(entry) => {
                add(
                    count,
                    &mut self.place,
                    &mut stand.place,
                    driver,
                    false,
                    &self.core,
                );
                Ok(entry)
            }
            Err(fault) => {
                look(count, &mut self.place, &mut stand.place);
                Err(fault)
            }
        }
    }

    /// One event by a driver of a seat, as `step` does. Nothing is copied of its entry.
    pub fn take_event(
        &mut self,
        count: &Count,
        stand: &mut Stand<N>,
        driver: u64,
        event: Event,
        words: &Words,
    ) -> Result<(), NetFault>
        requires count { (count.now.table_id ≡ N.table) × (0 < count.now.table_id.words) }
        requires stands { 0 < standing_for driver stand.old }
        ensures happened { OnOk result ((e : EntryOf) × (u : CoreState)
            × Happened (core_made N.params self.old) event words.now e u
            × (self.new ≡ self.old ++ mark driver false u ∷ [])) }
        ensures refused { IfErr result (λ f. IsRefusal (core_made N.params self.old).world.net
            (length (core_made N.params self.old).world.journal) event f) }
        ensures err { OnErr result (self.new ≡ self.old) }
        ensures seen { stand.new ≡ having_seen self.new stand.old }
        ensures began { AllBegin stand.old self.old }
        ensures log { IsLog N.params N.drivers self.old }
        ensures after { IsLog N.params N.drivers self.new }
    {
        match drive_event(
            &mut self.core,
            &mut self.entry_drivers,
            driver,
            event,
            words,
        ) {
            Ok(()) => {
                add(
                    count,
                    &mut self.place,
                    &mut stand.place,
                    driver,
                    false,
                    &self.core,
                );
                Ok(())
            }
            Err(fault) => {
                look(count, &mut self.place, &mut stand.place);
                Err(fault)
            }
        }
    }

    /// Files a report by a driver of a seat.
    pub fn file(
        &mut self,
        count: &Count,
        stand: &mut Stand<N>,
        driver: u64,
        report: Report,
    ) -> Result<(), CoreFault>
        requires count { (count.now.table_id ≡ N.table) × (0 < count.now.table_id.words) }
        requires stands { 0 < standing_for driver stand.old }
        ensures filed { OnOk result ((u : CoreState) × WasFiled (core_made N.params self.old) report u
            × (self.new ≡ self.old ++ mark driver true u ∷ [])) }
        ensures refused { IfErr result
            (IsRefusedBy out_of_memory (FilingJudged (core_made N.params self.old) report)) }
        ensures err { OnErr result (self.new ≡ self.old) }
        ensures seen { stand.new ≡ having_seen self.new stand.old }
        ensures began { AllBegin stand.old self.old }
        ensures log { IsLog N.params N.drivers self.old }
        ensures after { IsLog N.params N.drivers self.new }
    {
        match write_report(&mut self.core, &mut self.report_drivers, driver, report) {
            Ok(()) => {
                add(
                    count,
                    &mut self.place,
                    &mut stand.place,
                    driver,
                    true,
                    &self.core,
                );
                Ok(())
            }
            Err(fault) => {
                look(count, &mut self.place, &mut stand.place);
                Err(fault)
            }
        }
    }
}

/// One event of the core, with its driver beside it. Room for the driver is made first, so that an event which happened
/// can't lack it.
fn write_event(
    core: &mut Core,
    drivers: &mut Vec<u64>,
    driver: u64,
    event: Event,
    words: &Words,
) -> Result<Entry, NetFault>
    ensures happened { IfOk result (λ e. Happened core.old event words.now e core.new) }
    ensures driver { OnOk result (drivers.new.items ≡ drivers.old.items ++ driver ∷ []) }
    ensures refused { IfErr result (IsRefusal core.old.world.net (length core.old.world.journal) event) }
    ensures err { OnErr result ((core.new ≡ core.old) × (drivers.new.items ≡ drivers.old.items)) }
{
    if drivers.reserve(1).is_err() {
        return Err(fault_without_room(core, &event));
    }
    let entry = core.step(event, words)?;
    drivers.push_reserved(driver);
    Ok(entry)
}

/// One event of the core, with its driver beside it, likewise. Nothing is copied of its entry.
fn drive_event(
    core: &mut Core,
    drivers: &mut Vec<u64>,
    driver: u64,
    event: Event,
    words: &Words,
) -> Result<(), NetFault>
    ensures happened { OnOk result ((e : EntryOf) × Happened core.old event words.now e core.new) }
    ensures driver { OnOk result (drivers.new.items ≡ drivers.old.items ++ driver ∷ []) }
    ensures refused { IfErr result (IsRefusal core.old.world.net (length core.old.world.journal) event) }
    ensures err { OnErr result ((core.new ≡ core.old) × (drivers.new.items ≡ drivers.old.items)) }
{
    if drivers.reserve(1).is_err() {
        return Err(fault_without_room(core, &event));
    }
    core.take_event(event, words)?;
    drivers.push_reserved(driver);
    Ok(())
}

/// Why an event is refused for which there is no room: the first applicable refusal, or else out of memory.
fn fault_without_room(core: &Core, event: &Event) -> NetFault
    ensures { IsRefusal core.now.world.net (length core.now.world.journal) event.now result }
{
    match core.world().judge(event) {
        Ok(()) => NetFault::OutOfMemory,
        Err(fault) => fault,
    }
}

/// One report of the core, likewise.
fn write_report(
    core: &mut Core,
    drivers: &mut Vec<u64>,
    driver: u64,
    report: Report,
) -> Result<(), CoreFault>
    ensures filed { OnOk result (WasFiled core.old report core.new) }
    ensures driver { OnOk result (drivers.new.items ≡ drivers.old.items ++ driver ∷ []) }
    ensures refused { IfErr result (IsRefusedBy out_of_memory (FilingJudged core.old report)) }
    ensures err { OnErr result ((core.new ≡ core.old) × (drivers.new.items ≡ drivers.old.items)) }
{
    if drivers.reserve(1).is_err() {
        return Err(report_fault_without_room(core, &report));
    }
    core.file(report)?;
    drivers.push_reserved(driver);
    Ok(())
}

/// Why a report is refused for which there is no room: the first applicable refusal, or else out of memory.
fn report_fault_without_room(core: &Core, report: &Report) -> CoreFault
    ensures { IsRefusedBy out_of_memory (FilingJudged core.now report.now) result }
{
    match core.judge_report(report) {
        Ok(()) => CoreFault::OutOfMemory,
        Err(fault) => fault,
    }
}
