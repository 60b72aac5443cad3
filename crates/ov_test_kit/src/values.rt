ghost use Rattle.std.specs.Prelude.{◌≡◌, IfOk};

use ov_ids::{BadParams, MsgId, NodeId, OutOfMemory, Params, Seq};
use ov_words::Words;
use std::alloc::Global;

/// An event's words: these first, and then zeros.
pub fn words(first: &[u64]) -> Words {
    let mut words = [0; 64];
    for (word, given) in words.iter_mut().zip(first) {
        *word = *given;
    }
    Words::new(words)
}

/// The id of a node's broadcast.
pub fn message_id(origin: u32, seq: u32) -> MsgId
    ensures { result ≡ record { origin = origin; seq = seq } }
{
    MsgId {
        origin: NodeId(origin),
        seq,
    }
}

/// The ids with these numbers.
pub fn ids(alloc: Global, numbers: &[u32]) -> Result<Seq<NodeId>, OutOfMemory>
    ensures { IfOk result (λ ids. ids ≡ numbers.now) }
{
    let mut ids = Vec::with_capacity(alloc, numbers.len())?;
    for number in numbers {
        ids.push(NodeId(*number))?;
    }
    Ok(Seq::new(ids))
}

/// A payload of these bytes.
pub fn payload(alloc: Global, bytes: &[u8]) -> Result<Seq<u8>, OutOfMemory>
    ensures { IfOk result (λ payload. payload ≡ bytes.now) }
{
    Ok(Seq::new(Vec::from_slice(alloc, bytes)?))
}

/// The parameters with views of these sizes, and walks and samples as is usual.
pub fn sized(active: u32, passive: u32) -> Result<Params, BadParams> {
    Params::new(active, passive, 6, 3, 3, 4, 4)
}
