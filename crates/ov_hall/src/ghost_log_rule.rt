//! One word, by whose steps the views of the passes follow the log of the core.
ghost use Rattle.std.specs.Prelude.{◌≡◌, ◌<◌, [], ◌∷◌, ◌++◌};
ghost use Rattle.ov_snap.specs.Logs.{mark};
ghost use Rattle.ov_hall.specs.Passes.{AllBegin, standing_for, having_seen};
ghost use Rattle.ov_hall.specs.Code.Rules.{Grows, keeper, log_in, standing};

use crate::ghost_knowledge_of_driver_seat::View;
use atomic_table::{Join, Play, Seat, Shared, Split, TableRule};
use ov_snap::Core;
use std::marker::{Brand, PhantomData};

/// The rule of the count: one seat keeps the log, and what each driver has seen begins it, with all that is its own.
pub struct Law;

impl TableRule<(), View, u64> for Law {
    ghost use Rattle.ov_hall.specs.Code.Rules.{Kept, opening_view};

    ghost holds = { λ _. Kept };

    ghost first = { opening_view };
}

/// Names one hall: its table, how many drivers it has, and the parameters of its core.
pub trait HallName {
    ghost use Rattle.std.specs.Prelude.{ℕ};
    ghost use Rattle.atomic_table.specs.Seated.{TableId};
    ghost use Rattle.ov_ids.specs.ParamsState.{ParamsState};

    ghost table: { TableId };

    ghost drivers: { ℕ };

    ghost params: { ParamsState };
}

impl HallName for Brand {
    ghost use Rattle.ov_hall.specs.Code.Rules.{no_params, no_table};

    ghost table = { no_table };

    ghost drivers = { 0 };

    ghost params = { no_params };
}

/// A log that a step writes.
pub trait Log {
    ghost use Rattle.std.specs.Prelude.{List};
    ghost use Rattle.ov_snap.specs.declared.ghost_log_of_drivers.Mark.{Mark};

    ghost log: { List Mark };
}

impl Log for Brand {
    ghost use Rattle.std.specs.Prelude.{[]};

    ghost log = { [] };
}

/// The step that writes a log.
pub struct Writes<L> {
    of: PhantomData<L>,
}

impl<L: Log> Play<(), View> for Writes<L> {
    ghost use Rattle.ov_hall.specs.Code.Rules.{Written};

    ghost then = { Written L.log };
}

/// The first driver is cut off.
pub struct Apart;

impl Split<View> for Apart {
    ghost use Rattle.ov_hall.specs.Code.Rules.{one, others};

    ghost left = { others };

    ghost right = { one };
}

/// All drivers are cut off.
pub struct Leave;

impl Split<View> for Leave {
    ghost use Rattle.ov_hall.specs.Code.Rules.{leaves, stays};

    ghost left = { stays };

    ghost right = { leaves };
}

/// Drivers come to a seat.
pub struct Together;

impl Join<View> for Together {
    ghost use Rattle.ov_hall.specs.Code.Rules.{both, spent};

    ghost both = { both };

    ghost spent = { spent };
}

/// The count: a table of one word, which nobody reads.
pub type Count = Shared<(), View, u64, Law>;

/// A seat at the count.
pub type Place = Seat<(), View>;

/// The drivers of a seat come to the keeper, whose log becomes L's, and leave, having seen it.
fn meet<L: Log>(count: &Count, all: &mut Place, seat: &mut Place)
    requires ids { (all.old.table_id ≡ count.now.table_id) × (seat.old.table_id ≡ count.now.table_id)
        × (0 < count.now.table_id.words) }
    requires keeper { all.old.me ≡ (keeper (log_in all.old.me.0), []) }
    requires seat { seat.old.me ≡ (standing seat.old.me.0.tickets, []) }
    requires grows { Grows seat.old.me.0.tickets (log_in all.old.me.0) L.log }
    ensures ids { (all.new.table_id ≡ all.old.table_id) × (seat.new.table_id ≡ seat.old.table_id) }
    ensures keeper { all.new.me ≡ (keeper L.log, []) }
    ensures seat { seat.new.me ≡ (standing (having_seen L.log seat.old.me.0.tickets), []) }
    ensures began { AllBegin seat.old.me.0.tickets (log_in all.old.me.0) }
{
    let drivers = count.split_seat::<Leave>(seat);
    count.join_seat::<Together>(all, drivers);
    count.load::<Writes<L>>(all, 0);
    let drivers = count.split_seat::<Leave>(all);
    count.join_seat::<Together>(seat, drivers);
}

/// The drivers of a seat see the log.
pub fn look(count: &Count, all: &mut Place, seat: &mut Place)
    requires ids { (all.old.table_id ≡ count.now.table_id) × (seat.old.table_id ≡ count.now.table_id)
        × (0 < count.now.table_id.words) }
    requires keeper { all.old.me ≡ (keeper (log_in all.old.me.0), []) }
    requires seat { seat.old.me ≡ (standing seat.old.me.0.tickets, []) }
    ensures ids { (all.new.table_id ≡ all.old.table_id) × (seat.new.table_id ≡ seat.old.table_id) }
    ensures keeper { all.new.me ≡ all.old.me }
    ensures seat { seat.new.me ≡ (standing (having_seen (log_in all.old.me.0) seat.old.me.0.tickets), []) }
    ensures began { AllBegin seat.old.me.0.tickets (log_in all.old.me.0) }
{
    meet::<Brand>(count, all, seat);
}

/// One driver of a seat has made this core, and the drivers of the seat see it.
pub fn add(count: &Count, all: &mut Place, seat: &mut Place, driver: u64, filed: bool, core: &Core)
    requires ids { (all.old.table_id ≡ count.now.table_id) × (seat.old.table_id ≡ count.now.table_id)
        × (0 < count.now.table_id.words) }
    requires keeper { all.old.me ≡ (keeper (log_in all.old.me.0), []) }
    requires seat { seat.old.me ≡ (standing seat.old.me.0.tickets, []) }
    requires stands { 0 < standing_for driver seat.old.me.0.tickets }
    ensures ids { (all.new.table_id ≡ all.old.table_id) × (seat.new.table_id ≡ seat.old.table_id) }
    ensures keeper { all.new.me ≡ (keeper (log_in all.old.me.0 ++ mark driver filed core.now ∷ []), []) }
    ensures seat { seat.new.me ≡ (
      standing
          (having_seen (log_in all.old.me.0 ++ mark driver filed core.now ∷ []) seat.old.me.0.tickets),
      [],
    ) }
    ensures began { AllBegin seat.old.me.0.tickets (log_in all.old.me.0) }
{
    add_as::<Brand>(count, all, seat, driver, filed, core);
}

/// The same, by the name of the log that is written.
fn add_as<L: Log>(
    count: &Count,
    all: &mut Place,
    seat: &mut Place,
    driver: u64,
    filed: bool,
    core: &Core,
)
    requires ids { (all.old.table_id ≡ count.now.table_id) × (seat.old.table_id ≡ count.now.table_id)
        × (0 < count.now.table_id.words) }
    requires keeper { all.old.me ≡ (keeper (log_in all.old.me.0), []) }
    requires seat { seat.old.me ≡ (standing seat.old.me.0.tickets, []) }
    requires stands { 0 < standing_for driver seat.old.me.0.tickets }
    requires log { L.log ≡ log_in all.old.me.0 ++ mark driver filed core.now ∷ [] }
    ensures ids { (all.new.table_id ≡ all.old.table_id) × (seat.new.table_id ≡ seat.old.table_id) }
    ensures keeper { all.new.me ≡ (keeper L.log, []) }
    ensures seat { seat.new.me ≡ (standing (having_seen L.log seat.old.me.0.tickets), []) }
    ensures began { AllBegin seat.old.me.0.tickets (log_in all.old.me.0) }
{
    let _driver = driver;
    let _filed = filed;
    let _core = core;
    meet::<L>(count, all, seat);
}
