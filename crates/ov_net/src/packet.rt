ghost use Rattle.std.specs.Prelude.{◌≡◌, IfOk};
ghost use Rattle.ov_wire.specs.Messages.{Spelling, AreInRange};

use ov_ids::{NodeId, OutOfMemory};
use ov_wire::{Message, WireFault};
use std::alloc::Global;
use std::marker::Model;

/// A message on its way to a node. Contracts see its receiver and the message that its bytes spell.
#[derive(Debug, Drop)]
pub struct Packet {
    to: NodeId,
    bytes: Vec<u8>,
}

impl Model for Packet {
    ghost use Rattle.std.specs.Prelude.{ℕ};
    ghost use Rattle.ov_wire.specs.Code.Meaning.{message_in};
    ghost use Rattle.ov_wire.specs.Messages.{Spelling};
    ghost use Rattle.ov_wire.specs.declared.message.Message.{Message};

    ghost Value = { ℕ × Message };

    ghost view = { λ a. (a.to, message_in a.bytes.items) };

    ghost invariant = { λ a. Spelling (message_in a.bytes.items) a.bytes.items };
}

impl Packet {
    /// The packet of this message, whose fields are within their ranges.
    #[tactic(auto, using(crate::proofs::Steps::Packets::spelled))]
    pub(crate) fn new(alloc: Global, to: NodeId, message: &Message) -> Result<Packet, OutOfMemory>
        requires { AreInRange message.now }
        ensures { IfOk result (λ p. p ≡ (to, message.now)) }
    {
        Ok(Packet {
            to,
            bytes: ov_wire::encode(alloc, message)?,
        })
    }

    /// The receiver.
    pub fn to(&self) -> NodeId
        ensures { result ≡ self.now.0 }
    {
        self.to
    }

    /// The bytes. They spell the packet's message, as `ov_wire` encodes it.
    pub fn bytes(&self) -> &[u8]
        ensures { Spelling self.now.1 result.now }
    {
        &self.bytes
    }

    /// The message. Its fields are within their ranges.
    pub(crate) fn message(&self, alloc: Global) -> Result<Message, OutOfMemory>
        ensures value { IfOk result (λ m. m ≡ self.now.1) }
        ensures range { IfOk result AreInRange }
    {
        match ov_wire::decode(alloc, &self.bytes) {
            Ok(message) => Ok(message),
            Err(WireFault::OutOfMemory) => Err(OutOfMemory),
            Err(_) => unreachable!(),
        }
    }

    /// An equal packet.
    pub(crate) fn copy(&self) -> Result<Packet, OutOfMemory>
        ensures { IfOk result (λ p. p ≡ self.now) }
    {
        Ok(Packet {
            to: self.to,
            bytes: self.bytes.clone()?,
        })
    }
}
