ghost use Rattle.std.specs.Prelude.{◌≡◌, ◌≤◌, ◌+◌, ◌++◌, [], ◌∷◌, None, length, vec_len, IfOk, OnOk, map};
ghost use Rattle.ov_wire.specs.Messages.{AreInRange, say, AreSendsInRange};
ghost use Rattle.ov_wire.specs.declared.message.Body.TheVariants.{IHave};
ghost use Rattle.ov_plum.specs.PlumRows.{gossip, spread};
ghost use Rattle.ov_plum.specs.PlumState.{most_neighbours};

use crate::eager_and_lazy_neighbours::Branches;
use crate::held_message::Held;
use ov_ids::{MsgId, NodeId, OutOfMemory, Seq};
use ov_wire::{Body, Message};
use std::alloc::Global;

/// The effects of a step: what the node sends and to whom, in order, and what it delivers.
#[derive(Debug, Drop)]
pub struct Spread {
    pub sends: Vec<(NodeId, Message)>,
    pub delivered: Option<(MsgId, Seq<u8>)>,
}

impl Spread {
    /// Nothing is sent or delivered. Nothing is allocated.
    pub(crate) fn quiet(alloc: Global) -> Spread
        ensures sends { result.sends.items ≡ [] }
        ensures len { vec_len result.sends ≡ 0 }
        ensures delivered { result.delivered ≡ None }
    {
        Spread {
            sends: Vec::new(alloc),
            delivered: None,
        }
    }

    /// One message is sent.
    pub(crate) fn one(alloc: Global, to: NodeId, message: Message) -> Result<Spread, OutOfMemory>
        ensures sends { IfOk result (λ s. s.sends.items ≡ (to, message) ∷ []) }
        ensures len { IfOk result (λ s. vec_len s.sends ≡ 1) }
        ensures delivered { IfOk result (λ s. s.delivered ≡ None) }
    {
        let mut sends = Vec::with_capacity(alloc, 1)?;
        sends.push((to, message))?;
        Ok(Spread {
            sends,
            delivered: None,
        })
    }

    /// A message is delivered, and sent on to these neighbours.
    pub(crate) fn whole(
        alloc: Global,
        me: NodeId,
        id: &MsgId,
        held: &Held,
        branches: &Branches,
    ) -> Result<Spread, OutOfMemory>
        ensures sends { IfOk result (λ s. s.sends.items ≡ spread me id.now held.now branches.now) }
        ensures len { IfOk result (λ s. vec_len s.sends ≡ length branches.now.eager + length branches.now.lazy) }
        ensures most { IfOk result (λ s. vec_len s.sends ≤ most_neighbours) }
        ensures delivered { IfOk result (λ s. s.delivered ≡ Some (id.now, held.now.payload)) }
        ensures ranges { IfOk result (λ s. AreSendsInRange s.sends.items) }
    {
        let count = branches.eager().len() + branches.lazy().len();
        let mut sends = Vec::with_capacity(alloc, count)?;
        send_whole(alloc, &mut sends, me, *id, held, branches.eager())?;
        announce(&mut sends, me, id, branches.lazy())?;
        Ok(Spread {
            sends,
            delivered: Some((*id, held.copy_payload(alloc)?)),
        })
    }
}

/// The message that carries a held one to a neighbour.
pub(crate) fn whole_message(
    alloc: Global,
    me: NodeId,
    id: MsgId,
    held: &Held,
) -> Result<Message, OutOfMemory>
    ensures message { IfOk result (λ m. m ≡ say me (gossip id held.now)) }
    ensures range { IfOk result AreInRange }
{
    Ok(Message {
        from: me,
        body: Body::Gossip {
            id,
            round: held.round(),
            payload: held.copy_payload(alloc)?,
        },
    })
}

/// Sends a held message to each of these.
fn send_whole(
    alloc: Global,
    sends: &mut Vec<(NodeId, Message)>,
    me: NodeId,
    id: MsgId,
    held: &Held,
    to: &[NodeId],
) -> Result<(), OutOfMemory>
    ensures sends { OnOk result
        (sends.new.items ≡ sends.old.items ++ map (λ x. (x, say me (gossip id held.now))) to.now) }
    ensures len { OnOk result (vec_len sends.new ≡ vec_len sends.old + length to.now) }
{
    for neighbour in to {
        sends.push((*neighbour, whole_message(alloc, me, id, held)?))?;
    }
    Ok(())
}

/// The message that announces a held one to a neighbour.
fn announcement(me: NodeId, id: MsgId) -> Message
    ensures { result ≡ say me (IHave id) }
{
    Message {
        from: me,
        body: Body::IHave { id },
    }
}

/// Announces a message to each of these.
fn announce(
    sends: &mut Vec<(NodeId, Message)>,
    me: NodeId,
    id: &MsgId,
    to: &[NodeId],
) -> Result<(), OutOfMemory>
    ensures sends { OnOk result (sends.new.items ≡ sends.old.items ++ map (λ x. (x, say me (IHave id.now))) to.now) }
    ensures len { OnOk result (vec_len sends.new ≡ vec_len sends.old + length to.now) }
{
    for neighbour in to {
        sends.push((*neighbour, announcement(me, *id)))?;
    }
    Ok(())
}
