ghost use Rattle.std.specs.Prelude.{◌≡◌, ◌≤◌, ◌∷◌, ◌+◌, ◌*◌, ◌++◌, length, [], IfOk, OnOk};
ghost use Rattle.std.specs.Int.{w32};
ghost use Rattle.ov_wire.specs.Fields.{spelled, spelled_all, AllFit, Fits, any, Ids, Payload, One, Many};
ghost use Rattle.ov_wire.specs.Limits.{most_ids, most_payload};
ghost use Rattle.ov_wire.specs.Messages.{own_fields, kind_of, own_values, Spelling, AreInRange, IsBodyInRange};

use crate::message::{Body, Message};
use ov_ids::{MsgId, NodeId, OutOfMemory};
use std::alloc::{AllocError, Global};

fn put_id(out: &mut Vec<u8>, id: MsgId) -> Result<(), AllocError>
    ensures ok { OnOk result (out.new.items ≡
        out.old.items ++ spelled_all (any w32 ∷ any w32 ∷ []) (One id.origin ∷ One id.seq ∷ [])) }
    ensures fit { AllFit (any w32 ∷ any w32 ∷ []) (One id.origin ∷ One id.seq ∷ []) }
{
    out.extend_from_slice(&id.origin.number().to_be_bytes())?;
    out.extend_from_slice(&id.seq.to_be_bytes())
}

fn put_ids(out: &mut Vec<u8>, ids: &[NodeId]) -> Result<(), AllocError>
    requires { length ids.now ≤ most_ids }
    ensures ok { OnOk result (out.new.items ≡ out.old.items ++ spelled Ids (Many ids.now)) }
    ensures fit { OnOk result (Fits Ids (Many ids.now)) }
{
    out.push(ids.len() as u8)?;
    for id in ids {
        out.extend_from_slice(&id.number().to_be_bytes())?;
    }
    Ok(())
}

fn put_payload(out: &mut Vec<u8>, payload: &[u8]) -> Result<(), AllocError>
    requires { length payload.now ≤ most_payload }
    ensures ok { OnOk result (out.new.items ≡ out.old.items ++ spelled Payload (Many payload.now)) }
    ensures fit { OnOk result (Fits Payload (Many payload.now)) }
{
    out.extend_from_slice(&(payload.len() as u16).to_be_bytes())?;
    out.extend_from_slice(payload)
}

/// The number of the body's kind, 1 to 12.
fn kind_of(body: &Body) -> u8
    ensures { result ≡ kind_of body.now }
{
    match body {
        Body::Join => 1,
        Body::ForwardJoin { .. } => 2,
        Body::Joined => 3,
        Body::Neighbor { .. } => 4,
        Body::NeighborReply { .. } => 5,
        Body::Disconnect => 6,
        Body::Shuffle { .. } => 7,
        Body::ShuffleReply { .. } => 8,
        Body::Gossip { .. } => 9,
        Body::IHave { .. } => 10,
        Body::Graft { .. } => 11,
        Body::Prune => 12,
    }
}

/// The number of bytes of a message with this body.
fn len_of(body: &Body) -> usize
    requires { IsBodyInRange body.now }
    ensures { result ≡ 6 + length (spelled_all (own_fields (kind_of body.now)) (own_values body.now)) }
{
    match body {
        Body::Join | Body::Joined | Body::Disconnect | Body::Prune => 6,
        Body::Neighbor { .. } | Body::NeighborReply { .. } => 7,
        Body::ForwardJoin { .. } => 11,
        Body::IHave { .. } | Body::Graft { .. } => 14,
        Body::Shuffle { ids, .. } => 12 + 4 * ids.as_slice().len(),
        Body::ShuffleReply { ids } => 7 + 4 * ids.as_slice().len(),
        Body::Gossip { payload, .. } => 18 + payload.as_slice().len(),
    }
}

fn put_body(out: &mut Vec<u8>, body: &Body) -> Result<(), AllocError>
    requires { IsBodyInRange body.now }
    ensures ok { OnOk result (out.new.items ≡
        out.old.items ++ spelled_all (own_fields (kind_of body.now)) (own_values body.now)) }
    ensures fit { OnOk result (AllFit (own_fields (kind_of body.now)) (own_values body.now)) }
{
    match body {
        Body::Join | Body::Joined | Body::Disconnect | Body::Prune => Ok(()),
        Body::ForwardJoin { node, ttl } => {
            out.extend_from_slice(&node.number().to_be_bytes())?;
            Ok(out.push(*ttl)?)
        }
        Body::Neighbor { high } => Ok(out.push(u8::from(*high))?),
        Body::NeighborReply { accepted } => Ok(out.push(u8::from(*accepted))?),
        Body::Shuffle { origin, ttl, ids } => {
            out.extend_from_slice(&origin.number().to_be_bytes())?;
            out.push(*ttl)?;
            put_ids(out, ids.as_slice())
        }
        Body::ShuffleReply { ids } => put_ids(out, ids.as_slice()),
        Body::Gossip { id, round, payload } => {
            put_id(out, *id)?;
            out.extend_from_slice(&round.to_be_bytes())?;
            Ok(put_payload(out, payload.as_slice())?)
        }
        Body::IHave { id } | Body::Graft { id } => put_id(out, *id),
    }
}

/// The bytes that spell the message, whose fields must be within their ranges. OutOfMemory (99) if an allocation is
/// refused.
pub fn encode(alloc: Global, message: &Message) -> Result<Vec<u8>, OutOfMemory>
    requires { AreInRange message.now }
    ensures { IfOk result (λ bytes. Spelling message.now bytes.items) }
{
    let body = &message.body;
    let mut out = Vec::with_capacity(alloc, len_of(body))?;
    out.push(1)?;
    out.push(kind_of(body))?;
    out.extend_from_slice(&message.from.number().to_be_bytes())?;
    put_body(&mut out, body)?;
    Ok(out)
}
