ghost use Rattle.std.specs.Prelude.{◌≡◌, ◌++◌, [], Some, None, OnOk, IfOk, drop, length, option_map, if◌then◌else◌};
ghost use Rattle.std.specs.Option.{option_to_list};
ghost use Rattle.ov_net.specs.Net.{Net};
ghost use Rattle.ov_script.specs.Acts.{event_of};
ghost use Rattle.ov_grow.specs.BroadcastLog.{made_by, mark_of, marks_after, marks_kept, sent_marks};
ghost use Rattle.ov_grow.specs.Code.Logging.{first_new};
ghost use Rattle.ov_grow.specs.declared.broadcast_log.BroadcastMark.TheVariants as told;

use crate::core_recorded_as_script::Recording;
use ov_ids::{MsgId, OutOfMemory};
use ov_lists::BlockList;
use ov_net::Packet;
use ov_script::Act;
use ov_wire::Body;
use std::alloc::Global;

/// What the log of broadcasts tells.
#[derive(Clone, Copy)]
pub(crate) enum BroadcastMark {
    /// A broadcast was made.
    Made(MsgId),
    /// A node sent GOSSIP with this id.
    Gossip(MsgId),
    /// A node sent IHAVE with this id.
    Ihave(MsgId),
    /// A node sent GRAFT with this id.
    Graft(MsgId),
    /// A node sent PRUNE.
    Prune,
}

/// The log of broadcasts, if one is kept: what was told since the last snapshot, in order.
#[derive(Drop)]
pub(crate) struct BroadcastLog {
    pub(crate) kept: bool,
    pub(crate) marks: Vec<BroadcastMark>,
}

impl BroadcastLog {
    ghost use Rattle.ov_grow.specs.Code.Logging.{log_of};

    /// A log that tells nothing, if one is to be kept. Nothing is allocated.
    pub(crate) fn new(alloc: Global, kept: bool) -> BroadcastLog
        ensures { log_of result ≡ (if kept then Some [] else None) }
    {
        BroadcastLog {
            kept,
            marks: Vec::new(alloc),
        }
    }

    /// Tells of an act that was done, if a log is kept: of the broadcast that it made, and of what nodes sent by it.
    /// Before it so many packets were on their way. OutOfMemory (99) is returned if an allocation was refused.
    pub(crate) fn tell(
        &mut self,
        alloc: Global,
        act: &Act,
        made: Option<MsgId>,
        before: usize,
        recording: &Recording,
    ) -> Result<(), OutOfMemory>
        ensures { OnOk result ((w : Net) → before ≡ length w.packets → made ≡ made_by (event_of act.now) w
            → log_of self.new
            ≡ option_map (marks_after (event_of act.now) w recording.now.core.world.net) (log_of self.old)) }
    {
        if !self.kept {
            return Ok(());
        }
        let packets = recording.core().world().packets();
        let from = new_from(act, before, packets.len());
        forget(&mut self.marks, act);
        push_made(&mut self.marks, made)?;
        push_sent(&mut self.marks, alloc, packets, from)
    }
}

/// Empties the marks at a snapshot.
fn forget(marks: &mut Vec<BroadcastMark>, act: &Act)
    ensures { marks.new.items ≡ marks_kept (event_of act.now) marks.old.items }
{
    match act {
        Act::Snapshot => marks.clear(),
        Act::Boot(_, _) | Act::Crash(_) | Act::CrashReport(_, _) | Act::Shuffle(_) => {}
        Act::Deliver(_) | Act::Lose(_) | Act::Repeat(_) | Act::Broadcast(_) | Act::Timer(_, _) => {}
    }
}

/// The place from which on packets are new.
fn new_from(act: &Act, before: usize, after: usize) -> usize
    ensures { result ≡ first_new (event_of act.now) before after }
{
    match act {
        Act::Deliver(_) => before.saturating_sub(1),
        Act::Lose(_) | Act::Repeat(_) => after,
        Act::Boot(_, _) | Act::Crash(_) | Act::CrashReport(_, _) | Act::Shuffle(_) => before,
        Act::Broadcast(_) | Act::Timer(_, _) | Act::Snapshot => before,
    }
}

/// Puts the mark of a broadcast that was made, if one was.
fn push_made(marks: &mut Vec<BroadcastMark>, made: Option<MsgId>) -> Result<(), OutOfMemory>
    ensures { OnOk result (marks.new.items ≡ marks.old.items ++ option_to_list (option_map told.Made made)) }
{
    if let Some(id) = made {
        marks.push(BroadcastMark::Made(id))?;
    }
    Ok(())
}

/// Puts the marks of the packets from a place on.
fn push_sent(
    marks: &mut Vec<BroadcastMark>,
    alloc: Global,
    packets: &BlockList<Packet>,
    from: usize,
) -> Result<(), OutOfMemory>
    ensures { OnOk result (marks.new.items ≡ marks.old.items ++ sent_marks (drop from packets.now.items)) }
{
    let _count = packets.len();
    let mut place = from;
    while let Some(packet) = packets.get(place) {
        push_mark(marks, mark_of_packet(alloc, packet)?)?;
        place += 1;
    }
    Ok(())
}

/// Puts a mark, if there is one.
fn push_mark(marks: &mut Vec<BroadcastMark>, mark: Option<BroadcastMark>) -> Result<(), OutOfMemory>
    ensures { OnOk result (marks.new.items ≡ marks.old.items ++ option_to_list mark) }
{
    if let Some(mark) = mark {
        marks.push(mark)?;
    }
    Ok(())
}

/// What the log tells of a packet that was sent. OutOfMemory (99) is returned if an allocation was refused.
fn mark_of_packet(alloc: Global, packet: &Packet) -> Result<Option<BroadcastMark>, OutOfMemory>
    ensures { IfOk result (λ mark. mark ≡ mark_of packet.now.1.body) }
{
    match ov_wire::decode(alloc, packet.bytes()) {
        Ok(message) => Ok(mark_in(&message.body)),
        Err(_) => Err(OutOfMemory),
    }
}

/// What the log tells of a message that says this.
fn mark_in(body: &Body) -> Option<BroadcastMark>
    ensures { result ≡ mark_of body.now }
{
    match body {
        Body::Gossip { id, .. } => Some(BroadcastMark::Gossip(*id)),
        Body::IHave { id } => Some(BroadcastMark::Ihave(*id)),
        Body::Graft { id } => Some(BroadcastMark::Graft(*id)),
        Body::Prune => Some(BroadcastMark::Prune),
        Body::Join | Body::ForwardJoin { .. } | Body::Joined | Body::Neighbor { .. } => None,
        Body::NeighborReply { .. } | Body::Disconnect => None,
        Body::Shuffle { .. } | Body::ShuffleReply { .. } => None,
    }
}
