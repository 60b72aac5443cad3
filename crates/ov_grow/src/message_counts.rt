ghost use Rattle.std.specs.Prelude.{◌≡◌, OnOk, IfOk, None, if◌then◌else◌};
ghost use Rattle.ov_ids.specs.declared.id.MsgId.{MsgId as Id};
ghost use Rattle.ov_grow.specs.MessageCosts.{same_id};
ghost use Rattle.ov_grow.specs.Code.Counting.{counted, counted_all, counts_at, last_after, no_counts, one_more};
ghost use Rattle.ov_grow.specs.declared.broadcast_log.BroadcastMark.TheVariants.{Prune as prune};

use crate::broadcast_log::BroadcastMark;
use crate::message_cost::{CountedKind, MessageCounts};
use ov_ids::{MsgId, OutOfMemory};
use std::alloc::Global;
use std::collections::BTreeMap;

/// How many messages these marks tell of for each broadcast.
pub(crate) fn message_counts(
    alloc: Global,
    marks: &[BroadcastMark],
) -> Result<BTreeMap<MsgId, MessageCounts>, OutOfMemory>
    ensures { IfOk result (λ counts. (id : Id) → counts_at counts id ≡ counted_all id None marks.now no_counts) }
{
    let mut counts = BTreeMap::new(alloc);
    let mut last = None;
    for mark in marks {
        count(&mut counts, &last, *mark)?;
        last = last_after(&last, mark);
    }
    Ok(counts)
}

/// Counts a mark. The last broadcast that was made before it is given.
fn count(
    counts: &mut BTreeMap<MsgId, MessageCounts>,
    last: &Option<MsgId>,
    mark: BroadcastMark,
) -> Result<(), OutOfMemory>
    ensures { OnOk result ((id : Id) → counts_at counts.new id ≡ counted id last.now mark (counts_at counts.old id)) }
{
    match mark {
        BroadcastMark::Made(_) => Ok(()),
        BroadcastMark::Gossip(id) => add(counts, &id, CountedKind::Gossip),
        BroadcastMark::Ihave(id) => add(counts, &id, CountedKind::Ihave),
        BroadcastMark::Graft(id) => add(counts, &id, CountedKind::Graft),
        BroadcastMark::Prune => add_prune(counts, last),
    }
}

/// Counts PRUNE for the last broadcast that was made, if there is one.
fn add_prune(
    counts: &mut BTreeMap<MsgId, MessageCounts>,
    last: &Option<MsgId>,
) -> Result<(), OutOfMemory>
    ensures { OnOk result ((id : Id) → counts_at counts.new id ≡ counted id last.now prune (counts_at counts.old id)) }
{
    match last {
        Some(id) => add(counts, id, CountedKind::Prune),
        None => Ok(()),
    }
}

/// Counts one message more of a kind for a broadcast.
fn add(
    counts: &mut BTreeMap<MsgId, MessageCounts>,
    id: &MsgId,
    kind: CountedKind,
) -> Result<(), OutOfMemory>
    ensures { OnOk result ((other : Id) → counts_at counts.new other
        ≡ (if same_id id.now other then one_more kind (counts_at counts.old other) else counts_at counts.old other)) }
{
    let more = counts_at(counts, id).with(kind)?;
    counts.insert(*id, more)?;
    Ok(())
}

/// What was counted of a broadcast.
pub(crate) fn counts_at(counts: &BTreeMap<MsgId, MessageCounts>, id: &MsgId) -> MessageCounts
    ensures { result ≡ counts_at counts.now id.now }
{
    match counts.get(id) {
        Some(counted) => *counted,
        None => MessageCounts::NONE,
    }
}

/// The last broadcast that was made, after a mark more.
fn last_after(last: &Option<MsgId>, mark: &BroadcastMark) -> Option<MsgId>
    ensures { result ≡ last_after last.now mark.now }
{
    match mark {
        BroadcastMark::Made(id) => Some(*id),
        BroadcastMark::Gossip(_)
        | BroadcastMark::Ihave(_)
        | BroadcastMark::Graft(_)
        | BroadcastMark::Prune => *last,
    }
}
