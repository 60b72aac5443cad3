//! What a flow allocates.
ghost use Rattle.std.specs.Prelude.{◌≡◌, IfOk};

use crate::augmenting_paths::{WorkRoom, new_work_room};
use ov_ids::OutOfMemory;
use std::alloc::Global;
use std::marker::Model;

/// What a flow allocates for nets of so many places. Sets of places are no part of it, so it is small and may be handed
/// on by value. Contracts see how many places they are.
#[derive(Drop)]
pub struct FlowRoom<const W: usize> {
    pub(crate) work: WorkRoom<W>,
    pub(crate) alloc: Global,
}

impl<const W: usize> Model for FlowRoom<W> {
    ghost use Rattle.std.specs.Prelude.{ℕ, length};
    ghost use Rattle.ov_flow.specs.Code.Held.{IsFreshRoom};

    ghost Value = { ℕ };

    ghost view = { λ r. length r.work.from };

    ghost invariant = { λ r. IsFreshRoom (length r.work.from) r.work };
}

impl<const W: usize> FlowRoom<W> {
    /// Allocates the room for nets of so many places. OutOfMemory (99) if an allocation is refused.
    pub fn new(alloc: Global, places: usize) -> Result<FlowRoom<W>, OutOfMemory>
        ensures { IfOk result (λ r. r ≡ places) }
    {
        let work = new_work_room(alloc, places)?;
        Ok(FlowRoom { work, alloc })
    }
}
