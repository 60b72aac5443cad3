ghost use Rattle.std.specs.Prelude.{◌≡◌, ◌-◌, ◌≤◌, ◌^◌, [], ◌∷◌, length, slice_index, IfOk, IsErrOf, OnOk, IfErr};
ghost use Rattle.std.specs.Prelude.{◌<◌, ◌⊎◌, ◌≢◌, Ok, Err};
ghost use Rattle.std.specs.Int.{w8, w16, w32};
ghost use Rattle.ov_wire.specs.declared.fault.WireFault.TheVariants.{Short, BadVersion, BadKind, BadField, Trailing};
ghost use Rattle.ov_wire.specs.declared.fault.WireFault.TheVariants.{OutOfMemory};
ghost use Rattle.ov_wire.specs.declared.message.Message.{Message};
ghost use Rattle.ov_wire.specs.Faults.{FirstFault};
ghost use Rattle.ov_wire.specs.Fields.{up_to, any, Ids, Payload, One, Many};
ghost use Rattle.ov_wire.specs.Messages.{own_fields, fields_of, kind_of, own_values, flag, HasList, Spelling};
ghost use Rattle.ov_wire.specs.Messages.{AreInRange, most_kind};
ghost use Rattle.ov_wire.specs.Code.Reading.{ReadsAs, MapsResult, number_at, values_at, ids_in};

use crate::fault::WireFault;
use crate::message::{Body, MOST_IDS, MOST_KIND, MOST_PAYLOAD, MOST_TTL, Message};
use ov_ids::{MsgId, NodeId, Seq};
use std::alloc::{AllocError, Global};

fn u32_at(bytes: &[u8]) -> Result<(u32, &[u8]), WireFault>
    ensures { ReadsAs (λ x. (x.0, x.1.now)) result (number_at w32 0 (256 ^ 4 - 1) BadField bytes.now) }
{
    match bytes.split_first_chunk::<4>() {
        Some((number, rest)) => Ok((u32::from_be_bytes(*number), rest)),
        None => Err(WireFault::Short),
    }
}

fn u16_at(most: u16, bytes: &[u8]) -> Result<(u16, &[u8]), WireFault>
    ensures { ReadsAs (λ x. (x.0, x.1.now)) result (number_at w16 0 most BadField bytes.now) }
{
    match bytes.split_first_chunk::<2>() {
        Some((number, rest)) => {
            let number = u16::from_be_bytes(*number);
            if number > most {
                return Err(WireFault::BadField);
            }
            Ok((number, rest))
        }
        None => Err(WireFault::Short),
    }
}

/// Reads a byte from `least` to `most`.
fn byte_at(
    least: u8,
    most: u8,
    otherwise: WireFault,
    bytes: &[u8],
) -> Result<(u8, &[u8]), WireFault>
    ensures value { ReadsAs (λ x. (x.0, x.1.now)) result (number_at w8 least most otherwise bytes.now) }
    ensures front { IfOk result (λ x. bytes.now ≡ x.0 ∷ x.1.now) }
    ensures range { IfOk result (λ x. (least ≤ x.0) × (x.0 ≤ most)) }
{
    match bytes.split_first() {
        Some((&number, rest)) => {
            if number < least || number > most {
                return Err(otherwise);
            }
            Ok((number, rest))
        }
        None => Err(WireFault::Short),
    }
}

/// Ok if nothing follows the last field.
fn end(bytes: &[u8]) -> Result<(), WireFault>
    ensures { ReadsAs (λ _. []) result (values_at [] bytes.now) }
{
    if bytes.is_empty() {
        Ok(())
    } else {
        Err(WireFault::Trailing)
    }
}

/// Ok if there are exactly `count` bytes.
fn whole(count: usize, bytes: &[u8]) -> Result<(), WireFault>
    ensures ok { OnOk result (length bytes.now ≡ count) }
    ensures short { IfErr result (λ fault. length bytes.now < count → fault ≡ Short) }
    ensures trailing { IfErr result (λ fault. count ≤ length bytes.now →
        (count < length bytes.now) × (fault ≡ Trailing)) }
{
    if bytes.len() < count {
        return Err(WireFault::Short);
    }
    if bytes.len() > count {
        return Err(WireFault::Trailing);
    }
    Ok(())
}

fn ids_of(alloc: Global, count: usize, bytes: &[u8]) -> Result<Seq<NodeId>, AllocError>
    ensures { IfOk result (λ ids. ids ≡ ids_in bytes.now) }
{
    let mut ids = Vec::with_capacity(alloc, count)?;
    let mut left = bytes;
    while let Some((number, rest)) = left.split_first_chunk::<4>() {
        ids.push(NodeId::new(u32::from_be_bytes(*number)))?;
        left = rest;
    }
    Ok(Seq::new(ids))
}

/// Reads a list of ids, as the last field.
fn last_ids(alloc: Global, bytes: &[u8]) -> Result<Seq<NodeId>, WireFault>
    ensures { MapsResult (λ ids. Many ids ∷ []) result (values_at (Ids ∷ []) bytes.now) }
{
    let (count, rest) = byte_at(0, MOST_IDS, WireFault::BadField, bytes)?;
    let count = count as usize;
    whole(4 * count, rest)?;
    Ok(ids_of(alloc, count, rest)?)
}

/// Reads a payload, as the last field.
fn last_payload(alloc: Global, bytes: &[u8]) -> Result<Seq<u8>, WireFault>
    ensures { MapsResult (λ payload. Many payload ∷ []) result (values_at (Payload ∷ []) bytes.now) }
{
    let (len, rest) = u16_at(MOST_PAYLOAD, bytes)?;
    whole(len as usize, rest)?;
    Ok(Seq::new(Vec::from_slice(alloc, rest)?))
}

/// Reads the id of a broadcast, as the last field.
fn last_id(bytes: &[u8]) -> Result<MsgId, WireFault>
    ensures { ReadsAs (λ id. One id.origin ∷ One id.seq ∷ []) result (values_at (any w32 ∷ any w32 ∷ []) bytes.now) }
{
    let (origin, rest) = u32_at(bytes)?;
    let (seq, rest) = u32_at(rest)?;
    end(rest)?;
    Ok(MsgId {
        origin: NodeId::new(origin),
        seq,
    })
}

fn forward_join(bytes: &[u8]) -> Result<Body, WireFault>
    ensures read { ReadsAs own_values result (values_at (own_fields 2) bytes.now) }
    ensures kind { IfOk result (λ body. kind_of body ≡ 2) }
{
    let (node, rest) = u32_at(bytes)?;
    let (ttl, rest) = byte_at(0, MOST_TTL, WireFault::BadField, rest)?;
    end(rest)?;
    Ok(Body::ForwardJoin {
        node: NodeId::new(node),
        ttl,
    })
}

/// Reads a flag, as the last field.
fn last_flag(bytes: &[u8]) -> Result<bool, WireFault>
    ensures { ReadsAs (λ x. One (flag x) ∷ []) result (values_at (up_to w8 1 ∷ []) bytes.now) }
{
    let (number, rest) = byte_at(0, 1, WireFault::BadField, bytes)?;
    end(rest)?;
    Ok(number == 1)
}

fn shuffle(alloc: Global, bytes: &[u8]) -> Result<Body, WireFault>
    ensures read { MapsResult own_values result (values_at (own_fields 7) bytes.now) }
    ensures kind { IfOk result (λ body. kind_of body ≡ 7) }
{
    let (origin, rest) = u32_at(bytes)?;
    let (ttl, rest) = byte_at(0, MOST_TTL, WireFault::BadField, rest)?;
    let ids = last_ids(alloc, rest)?;
    Ok(Body::Shuffle {
        origin: NodeId::new(origin),
        ttl,
        ids,
    })
}

fn gossip(alloc: Global, bytes: &[u8]) -> Result<Body, WireFault>
    ensures read { MapsResult own_values result (values_at (own_fields 9) bytes.now) }
    ensures kind { IfOk result (λ body. kind_of body ≡ 9) }
{
    let (origin, rest) = u32_at(bytes)?;
    let (seq, rest) = u32_at(rest)?;
    let (round, rest) = u16_at(u16::MAX, rest)?;
    let payload = last_payload(alloc, rest)?;
    let id = MsgId {
        origin: NodeId::new(origin),
        seq,
    };
    Ok(Body::Gossip { id, round, payload })
}

/// Reads the body of a message of this kind.
fn body_of(alloc: Global, kind: u8, bytes: &[u8]) -> Result<Body, WireFault>
    requires low { 1 ≤ kind }
    requires high { kind ≤ most_kind }
    ensures read { MapsResult own_values result (values_at (own_fields kind) bytes.now) }
    ensures kind { IfOk result (λ body. kind_of body ≡ kind) }
    ensures memory { IsErrOf result OutOfMemory → HasList kind }
{
    match kind {
        2 => forward_join(bytes),
        4 => Ok(Body::Neighbor {
            high: last_flag(bytes)?,
        }),
        5 => Ok(Body::NeighborReply {
            accepted: last_flag(bytes)?,
        }),
        7 => shuffle(alloc, bytes),
        8 => Ok(Body::ShuffleReply {
            ids: last_ids(alloc, bytes)?,
        }),
        9 => gossip(alloc, bytes),
        10 => Ok(Body::IHave {
            id: last_id(bytes)?,
        }),
        11 => Ok(Body::Graft {
            id: last_id(bytes)?,
        }),
        _ => {
            end(bytes)?;
            Ok(match kind {
                1 => Body::Join,
                3 => Body::Joined,
                6 => Body::Disconnect,
                _ => Body::Prune,
            })
        }
    }
}

/// Reads a message, by all fields of its kind.
fn message_of(alloc: Global, bytes: &[u8]) -> Result<Message, WireFault>
    ensures read { MapsResult (λ m. One 1 ∷ One (kind_of m.body) ∷ One m.from ∷ own_values m.body) result
        (values_at (fields_of (slice_index bytes.now 1)) bytes.now) }
    ensures kind { IfOk result (λ m. kind_of m.body ≡ slice_index bytes.now 1) }
    ensures memory { IsErrOf result OutOfMemory → HasList (slice_index bytes.now 1) }
{
    let (_, rest) = byte_at(1, 1, WireFault::BadVersion, bytes)?;
    let (kind, rest) = byte_at(1, MOST_KIND, WireFault::BadKind, rest)?;
    let (from, rest) = u32_at(rest)?;
    let body = body_of(alloc, kind, rest)?;
    Ok(Message {
        from: NodeId::new(from),
        body,
    })
}

/// The message that the bytes spell. If they spell none, the fault of the first wrong field from the left. OutOfMemory
/// (99) if an allocation is refused, and only if the bytes spell a message with a list or a payload.
pub fn decode(alloc: Global, bytes: &[u8]) -> Result<Message, WireFault>
    // The bytes spell the message that is returned.
    ensures ok { IfOk result (λ m. Spelling m bytes.now × AreInRange m) }
    // The message that the bytes spell is returned, or the call is out of memory.
    ensures only { (m : Message) → Spelling m bytes.now → (result ≡ Ok m) ⊎ (result ≡ Err OutOfMemory) }
    // Any other fault is the first fault of the bytes, and they spell no message.
    ensures fault { IfErr result (λ fault. fault ≢ OutOfMemory →
        FirstFault bytes.now fault × ((m : Message) → ¬ Spelling m bytes.now)) }
    // Out of memory only if the bytes spell a message of the kinds 7, 8 and 9, which have a list or a payload.
    ensures memory { IsErrOf result OutOfMemory →
        HasList (slice_index bytes.now 1) × ((m : Message) × Spelling m bytes.now) }
{
    message_of(alloc, bytes)
}
