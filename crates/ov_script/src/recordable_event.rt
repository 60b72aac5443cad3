ghost use Rattle.std.specs.Prelude.{◌≡◌};
ghost use Rattle.ov_script.specs.Acts.{event_of};

use ov_ids::{MsgId, NodeId, Seq};
use ov_net::Event;
use std::alloc::Global;

/// What a line of a script does: an event of a world, whose payload is empty if it is a broadcast. Places of packets
/// are counted from 0, the oldest first. (Chosen here.)
#[derive(Clone, Copy, Debug, PartialEq, Eq)]
pub enum Act {
    /// A node is born, and joins by a contact if there is one.
    Boot(NodeId, Option<NodeId>),
    /// The packet at this place reaches its receiver.
    Deliver(u32),
    /// The packet at this place is lost.
    Lose(u32),
    /// A copy of the packet at this place goes last.
    Repeat(u32),
    /// A node crashes, for good.
    Crash(NodeId),
    /// The crash of the second node is reported to the first.
    CrashReport(NodeId, NodeId),
    /// A node starts a shuffle.
    Shuffle(NodeId),
    /// A node broadcasts an empty payload.
    Broadcast(NodeId),
    /// The timer of a message fires at a node.
    Timer(NodeId, MsgId),
    /// Nothing but an entry. Its number names this moment.
    Snapshot,
}

impl Act {
    /// The event. Nothing is allocated.
    pub fn event(&self, alloc: Global) -> Event
        ensures { result ≡ event_of self.now }
    {
        match self {
            Act::Boot(node, contact) => Event::Boot(*node, *contact),
            Act::Deliver(place) => Event::Deliver(*place),
            Act::Lose(place) => Event::Lose(*place),
            Act::Repeat(place) => Event::Repeat(*place),
            Act::Crash(node) => Event::Crash(*node),
            Act::CrashReport(node, crashed) => Event::CrashReport(*node, *crashed),
            Act::Shuffle(node) => Event::Shuffle(*node),
            Act::Broadcast(node) => Event::Broadcast(*node, Seq::new(Vec::new(alloc))),
            Act::Timer(node, id) => Event::Timer(*node, *id),
            Act::Snapshot => Event::Snapshot,
        }
    }
}
