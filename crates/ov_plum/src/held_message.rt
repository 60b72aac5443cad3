ghost use Rattle.std.specs.Prelude.{◌≡◌, ◌≤◌, length, IfOk};
ghost use Rattle.ov_wire.specs.Messages.{most_payload};

use crate::map_by_id::TryCopy;
use ov_ids::{OutOfMemory, Seq};
use std::alloc::Global;
use std::marker::Model;
use std::sync::Arc;

/// A message that is held: the round with which it is sent on, and its payload of at most 1,024 bytes, which copies
/// share.
#[derive(Drop)]
pub struct Held {
    round: u16,
    payload: Arc<Seq<u8>>,
}

impl Model for Held {
    ghost use Rattle.std.specs.Prelude.{◌≤◌, length};
    ghost use Rattle.std.specs.Arc.{arc_value};
    ghost use Rattle.ov_plum.specs.PlumState.{HeldState};
    ghost use Rattle.ov_wire.specs.Messages.{most_payload};

    ghost Value = { HeldState };

    ghost view = { λ a. record { round = a.round; payload = arc_value a.payload } };

    ghost invariant = { λ a. length (arc_value a.payload) ≤ most_payload };
}

impl Held {
    /// Holds a message.
    pub(crate) fn new(alloc: Global, round: u16, payload: Seq<u8>) -> Result<Held, OutOfMemory>
        requires { length payload ≤ most_payload }
        ensures { IfOk result (λ h. h ≡ record { round = round; payload = payload }) }
    {
        Ok(Held {
            round,
            payload: Arc::new(alloc, payload)?,
        })
    }

    /// The round with which it is sent on.
    pub(crate) fn round(&self) -> u16
        ensures { result ≡ self.now.round }
    {
        self.round
    }

    /// A copy of its payload.
    pub(crate) fn copy_payload(&self, alloc: Global) -> Result<Seq<u8>, OutOfMemory>
        ensures value { IfOk result (λ p. p ≡ self.now.payload) }
        ensures short { length self.now.payload ≤ most_payload }
    {
        self.payload.copy(alloc)
    }
}

impl TryCopy for Held {
    /// The same message, with the payload shared.
    fn try_copy(&self) -> Result<Held, OutOfMemory> {
        Ok(Held {
            round: self.round,
            payload: Arc::try_clone(&self.payload)?,
        })
    }
}
