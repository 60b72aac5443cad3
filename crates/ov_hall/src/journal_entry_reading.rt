ghost use Rattle.std.specs.Prelude.{IfOk};
ghost use Rattle.ov_snap.specs.Logs.{IsLog, core_made};
ghost use Rattle.ov_snap.specs.DriverSteps.{HasLooked};
ghost use Rattle.ov_hall.specs.Passes.{IsEntryOf};

use crate::core_shared_by_drivers::Hall;
use crate::driver_passes::Pass;
use crate::ghost_log_rule::HallName;
use ov_ids::OutOfMemory;
use ov_net::Entry;
use ov_snap::Core;
use std::alloc::Global;
use std::sync::Wait;

impl<N: HallName> Hall<N> {
    /// The entry of this number, counted from 1, or None if the journal has none; or out of memory (99).
    pub fn entry(
        &self,
        rt: &impl Wait,
        alloc: Global,
        pass: Pass<N>,
        number: u32,
    ) -> (Result<Option<Entry>, OutOfMemory>, Pass<N>)
        ensures entry { IfOk result.0
            (λ e. IsEntryOf (core_made N.params result.1.seen).world.journal number e) }
        ensures seen { HasLooked pass result.1 }
        ensures log { IsLog N.params N.drivers result.1.seen }
    {
        self.look_at(
            rt,
            pass,
            |core: &Core| -> Result<Option<Entry>, OutOfMemory>
                ensures { IfOk result (λ e. IsEntryOf core.now.world.journal number e) }
            { entry_of(core, alloc, number) },
        )
    }
}

/// A copy of the entry of this number.
fn entry_of(core: &Core, alloc: Global, number: u32) -> Result<Option<Entry>, OutOfMemory>
    ensures { IfOk result (λ e. IsEntryOf core.now.world.journal number e) }
{
    if number == 0 {
        return Ok(None);
    }
    match core.world().journal().get(number as usize - 1) {
        Some(entry) => Ok(Some(entry.copy(alloc)?)),
        None => Ok(None),
    }
}
