use ov_ids::{NodeId, Scale};
use ov_net::{Event, NetFault, STEP_PACKETS, World};
use ov_peer::MOST_BROADCASTS;
use ov_wire::MOST_PAYLOAD;
use std::alloc::AllocError;
use std::fmt::Write;

/// Appends why a world refuses an event for this fault. The world is as the event found it.
pub(crate) fn push_event_reason(
    text: &mut String,
    world: &World,
    event: &Event,
    fault: NetFault,
) -> Result<(), AllocError> {
    match fault {
        NetFault::UnknownNode => push_node(text, "no node ", unborn(world, event), " was born"),
        NetFault::UsedId => push_node(text, "node ", acting(event), " was born before"),
        NetFault::CrashedNode => push_node(text, "node ", met(event), " crashed"),
        NetFault::NotCrashed => push_node(text, "node ", reported(event), " did not crash"),
        NetFault::NoSuchPacket => push_no_packet(text, world, event),
        NetFault::TooManyPackets => push_full_bag(text, world),
        NetFault::TooManyNodes => push_all_born(text, world.params().scale()),
        NetFault::TooManyEntries => push_full_journal(text, world.params().scale()),
        NetFault::TooManyMessages => {
            push_node(text, "node ", acting(event), " has made ")?;
            write!(text, "{MOST_BROADCASTS} broadcasts, as many as it may")
        }
        NetFault::NoTimer => push_no_timer(text, event),
        NetFault::PayloadTooLong => push_too_long(text, event),
        NetFault::OutOfMemory => text.push_str("out of memory"),
    }
}

/// Appends what is said of a node.
pub(crate) fn push_node(
    text: &mut String,
    before: &str,
    node: NodeId,
    behind: &str,
) -> Result<(), AllocError> {
    let node = node.number();
    write!(text, "{before}{node}{behind}")
}

/// The node at which the event happens; 0 if it names none.
fn acting(event: &Event) -> NodeId {
    match event {
        Event::Boot(node, _)
        | Event::Crash(node)
        | Event::CrashReport(node, _)
        | Event::Shuffle(node)
        | Event::Broadcast(node, _)
        | Event::Timer(node, _) => *node,
        Event::Deliver(_) | Event::Lose(_) | Event::Repeat(_) | Event::Snapshot => NodeId::new(0),
    }
}

/// The node that must live for the event: the contact of a birth, otherwise the node at which it happens.
fn met(event: &Event) -> NodeId {
    match event {
        Event::Boot(_, Some(contact)) => *contact,
        _ => acting(event),
    }
}

/// The node that is said to have crashed, otherwise the node that must live.
fn reported(event: &Event) -> NodeId {
    match event {
        Event::CrashReport(_, crashed) => *crashed,
        _ => met(event),
    }
}

/// The node that was not born: the one that must live, or else the one that is said to have crashed.
fn unborn(world: &World, event: &Event) -> NodeId {
    let node = met(event);
    if world.born(node) {
        reported(event)
    } else {
        node
    }
}

/// Appends that there is no packet at the place that an event names.
fn push_no_packet(text: &mut String, world: &World, event: &Event) -> Result<(), AllocError> {
    let count = world.packets().len();
    let place = match event {
        Event::Deliver(place) | Event::Lose(place) | Event::Repeat(place) => *place,
        _ => 0,
    };
    write!(
        text,
        "no packet {place}; packets are counted from 0, and the bag has {count}"
    )
}

/// Appends that as many nodes were born as may be in a world of this scale.
fn push_all_born(text: &mut String, scale: Scale) -> Result<(), AllocError> {
    let most = scale.most_born();
    write!(text, "{most} nodes were born, as many as may be")
}

/// Appends that the journal is full in a world of this scale.
fn push_full_journal(text: &mut String, scale: Scale) -> Result<(), AllocError> {
    let most = scale.most_entries();
    write!(
        text,
        "the journal has {most} entries, as many as it may have"
    )
}

/// Appends that too few places for packets are free.
fn push_full_bag(text: &mut String, world: &World) -> Result<(), AllocError> {
    let count = world.packets().len();
    let (free, most) = (STEP_PACKETS, world.params().scale().most_packets());
    write!(
        text,
        "the bag has {count} packets, and {free} of its {most} places must be free"
    )
}

/// Appends that a timer does not run.
fn push_no_timer(text: &mut String, event: &Event) -> Result<(), AllocError> {
    let Event::Timer(node, id) = event else {
        return text.push_str("the timer does not run");
    };
    let (node, origin, message) = (node.number(), id.origin.number(), id.seq);
    write!(
        text,
        "at node {node} no timer runs for message {message} of node {origin}"
    )
}

/// Appends that a payload is too long.
fn push_too_long(text: &mut String, event: &Event) -> Result<(), AllocError> {
    let Event::Broadcast(_, payload) = event else {
        return text.push_str("the payload is too long");
    };
    let count = payload.as_slice().len();
    write!(
        text,
        "the payload has {count} bytes, and may have {MOST_PAYLOAD}"
    )
}
