ghost use Rattle.std.specs.Prelude.{IsTrue};
ghost use Rattle.ov_wire.specs.Messages.{IsBodyInRange};

use ov_wire::{Body, MOST_IDS, MOST_PAYLOAD, MOST_TTL, Message, WireFault, encode};
use std::alloc::Global;

/// The bytes of a message, unless a field is out of its range.
pub fn bytes_of(alloc: Global, message: &Message) -> Result<Vec<u8>, WireFault> {
    if !is_in_range(&message.body) {
        return Err(WireFault::BadField);
    }
    encode(alloc, message).map_err(|_| WireFault::OutOfMemory)
}

/// The message has these bytes.
pub fn is_spelt(alloc: Global, message: &Message, bytes: &[u8]) -> Result<bool, WireFault> {
    let written = bytes_of(alloc, message)?;
    Ok(written.as_slice() == bytes)
}

fn is_in_range(body: &Body) -> bool
    ensures { IsTrue result → IsBodyInRange body.now }
{
    match body {
        Body::ForwardJoin { ttl, .. } => *ttl <= MOST_TTL,
        Body::Shuffle { ttl, ids, .. } => *ttl <= MOST_TTL
            && ids.as_slice().len() <= MOST_IDS as usize,
        Body::ShuffleReply { ids } => ids.as_slice().len() <= MOST_IDS as usize,
        Body::Gossip { payload, .. } => payload.as_slice().len() <= MOST_PAYLOAD as usize,
        _ => true,
    }
}
