ghost use Rattle.std.specs.Prelude.{◌≡◌, ◌<◌, ◌≤◌, IfOk};

use crate::ghost_knowledge_of_driver_seat::View;
use crate::ghost_log_rule::{Law, Place};
use atomic_table::Table;
use ov_ids::OutOfMemory;
use std::alloc::Global;
use std::marker::Model;

/// A new hall before it has a name. Contracts see its table and the number of its drivers.
#[derive(Drop)]
pub struct Opening {
    pub(crate) table: Table<(), View, u64, Law, Global>,
    pub(crate) place: Place,
    pub(crate) drivers: u64,
}

impl Model for Opening {
    ghost use Rattle.std.specs.Prelude.{◌≡◌, ◌<◌, []};
    ghost use Rattle.ov_hall.specs.Passes.{HallId};
    ghost use Rattle.ov_hall.specs.Code.Rules.{opening_view};

    ghost Value = { HallId };

    ghost view = { λ o. record { table = o.table.shared.table_id; drivers = o.drivers } };

    ghost invariant = { λ o. (o.table.shared.table_id.words ≡ 1) × (o.place.table_id ≡ o.table.shared.table_id)
        × (o.place.me ≡ (opening_view o.drivers, [])) × (0 < o.drivers) };
}

impl Opening {
    /// An opening for 1 to 64 drivers. Faults: out of memory (99).
    pub fn new(alloc: Global, drivers: u64) -> Result<Opening, OutOfMemory>
        requires { (0 < drivers) × (drivers ≤ 64) }
        ensures { IfOk result (λ o. o.drivers ≡ drivers) }
    {
        let (table, place) = Table::of_words(alloc, &[0], &drivers)?;
        Ok(Opening {
            table,
            place,
            drivers,
        })
    }
}
