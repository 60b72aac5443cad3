ghost use Rattle.std.specs.Prelude.{◌≡◌};
ghost use Rattle.ov_net.specs.Refusals.{number_of};
ghost use Rattle.ov_net.specs.declared.fault.NetFault.TheVariants.{OutOfMemory as out_of_memory};

use thiserror::Error;

/// Why a world refuses an event. Nothing has changed then. The faults and their order are chosen here.
#[derive(Clone, Copy, Debug, PartialEq, Eq, Error)]
pub enum NetFault {
    /// No node with this id was born.
    #[error("no node of this id was born")]
    UnknownNode,
    /// A node with this id was born before.
    #[error("the id was used")]
    UsedId,
    /// The node crashed.
    #[error("the node crashed")]
    CrashedNode,
    /// As many nodes were born as may be: 256, or 32,768 in a large world.
    #[error("too many nodes were born")]
    TooManyNodes,
    /// There is no packet at this place.
    #[error("there is no packet at this place")]
    NoSuchPacket,
    /// Fewer than 64 of the places for packets are free: of 65,536, or of 1,048,576 in a large world. A step may send
    /// 64.
    #[error("too few places for packets are free")]
    TooManyPackets,
    /// The journal has as many entries as it may have: 65,536, or 16,777,216 in a large world.
    #[error("the journal is full")]
    TooManyEntries,
    /// The node that is reported did not crash.
    #[error("the node did not crash")]
    NotCrashed,
    /// The timer of this message does not run at the node.
    #[error("the timer is not set")]
    NoTimer,
    /// The payload has more than 1,024 bytes.
    #[error("the payload is too long")]
    PayloadTooLong,
    /// The node has made 4,096 broadcasts, the most that it may make.
    #[error("the node has made too many broadcasts")]
    TooManyMessages,
    /// An allocation was refused.
    #[error("out of memory")]
    OutOfMemory,
}

impl NetFault {
    /// The fault's number: 10 to 20 in the order above, and 99 for out of memory.
    pub fn number(&self) -> u32
        ensures { result ≡ number_of self.now }
    {
        match self {
            NetFault::UnknownNode => 10,
            NetFault::UsedId => 11,
            NetFault::CrashedNode => 12,
            NetFault::TooManyNodes => 13,
            NetFault::NoSuchPacket => 14,
            NetFault::TooManyPackets => 15,
            NetFault::TooManyEntries => 16,
            NetFault::NotCrashed => 17,
            NetFault::NoTimer => 18,
            NetFault::PayloadTooLong => 19,
            NetFault::TooManyMessages => 20,
            NetFault::OutOfMemory => 99,
        }
    }
}

impl From<ov_ids::OutOfMemory> for NetFault {
    ghost from_gives = { λ _ e. e ≡ out_of_memory };

    fn from(_error: ov_ids::OutOfMemory) -> NetFault {
        NetFault::OutOfMemory
    }
}
