//! Worlds of nodes: what events come to, and what is refused.
use ov_ids::{IdsText, NodeId, OutOfMemory};
use ov_net::{Change, Entry, Event, NetFault, World};
use ov_test_kit::{message_id, payload, put_hex, words};
use std::alloc::{AllocError, Global};
use std::process::Abort;

mod full;
mod rows;

/// A line of a run: an event, or a look at the world.
#[derive(Clone, Copy, Drop)]
pub(crate) enum Line {
    Boot(u32),
    /// A node starts, and joins by the second one.
    BootBy(u32, u32),
    Deliver(u32),
    Lose(u32),
    Repeat(u32),
    Crash(u32),
    /// The first node hears that the second one crashed.
    Report(u32, u32),
    Shuffle(u32),
    Broadcast(u32, &'static [u8]),
    /// At the first node, the timer of the message with this origin and number.
    Timer(u32, u32, u32),
    Snapshot,
    /// The views of a node.
    Show(u32),
    /// The packets on their way.
    Packets,
    /// The graph of this moment.
    Links,
}

/// The event of a line that is one.
pub(crate) fn event_of(alloc: Global, line: Line) -> Result<Option<Event>, OutOfMemory> {
    Ok(Some(match line {
        Line::Boot(node) => Event::Boot(NodeId(node), None),
        Line::BootBy(node, contact) => Event::Boot(NodeId(node), Some(NodeId(contact))),
        Line::Deliver(place) => Event::Deliver(place),
        Line::Lose(place) => Event::Lose(place),
        Line::Repeat(place) => Event::Repeat(place),
        Line::Crash(node) => Event::Crash(NodeId(node)),
        Line::Report(node, crashed) => Event::CrashReport(NodeId(node), NodeId(crashed)),
        Line::Shuffle(node) => Event::Shuffle(NodeId(node)),
        Line::Broadcast(node, bytes) => Event::Broadcast(NodeId(node), payload(alloc, bytes)?),
        Line::Timer(node, origin, seq) => Event::Timer(NodeId(node), message_id(origin, seq)),
        Line::Snapshot => Event::Snapshot,
        Line::Show(_) => return Ok(None),
        Line::Packets => return Ok(None),
        Line::Links => return Ok(None),
    }))
}

/// A step with the words of every event: 5, and then zeros.
fn step(world: &mut World, event: Event) -> Result<Entry, NetFault> {
    world.step(event, &words(&[5]))
}

/// A node's views and branches; 10 where it was not born, and 12 where it crashed.
pub(crate) fn put_node(told: &mut String, world: &World, node: u32) -> Result<(), AllocError> {
    let Some(peer) = world.peer(NodeId(node)) else {
        let number = if world.born(NodeId(node)) { 12 } else { 10 };
        return write!(told, "refused {number}");
    };
    let (active, passive) = (IdsText(peer.active()), IdsText(peer.passive()));
    let (eager, lazy) = (IdsText(peer.eager()), IdsText(peer.lazy()));
    write!(
        told,
        "node {node} active {active} passive {passive} eager {eager} lazy {lazy}"
    )
}

/// The packets on their way.
fn put_packets(told: &mut String, world: &World) -> Result<(), AllocError> {
    for (place, packet) in world.packets().iter().enumerate() {
        let to = packet.to().number();
        write!(told, "packet {place} to {to} ")?;
        put_hex(told, packet.bytes())?;
        told.push_str("; ")?;
    }
    Ok(())
}

/// The nodes of the graph of this moment, and its links.
fn put_links(told: &mut String, world: &World) -> Result<(), OutOfMemory> {
    let graph = world.links()?;
    let nodes = IdsText(graph.nodes());
    write!(told, "nodes {nodes} links")?;
    for (one, other) in graph.links() {
        let (one, other) = (one.number(), other.number());
        write!(told, " {one}-{other}")?;
    }
    Ok(())
}

/// The name of a change, its node, and the other node.
fn parts_of(change: Change) -> (&'static str, u32, Option<u32>) {
    match change {
        Change::Born(node) => ("born", node.number(), None),
        Change::Up(node, other) => ("up", node.number(), Some(other.number())),
        Change::Down(node, other) => ("down", node.number(), Some(other.number())),
        Change::Gone(node) => ("gone", node.number(), None),
    }
}

/// Appends a change.
fn put_change(told: &mut String, change: Change) -> Result<(), AllocError> {
    let (name, node, other) = parts_of(change);
    match other {
        Some(other) => write!(told, " {name} {node} {other}"),
        None => write!(told, " {name} {node}"),
    }
}

/// Appends an entry: its number, its changes, and its delivery.
fn put_entry(told: &mut String, entry: &Entry) -> Result<(), AllocError> {
    let number = entry.number;
    write!(told, "entry {number}")?;
    for change in entry.changes.as_slice() {
        put_change(told, *change)?;
    }
    let Some(delivery) = &entry.delivery else {
        return Ok(());
    };
    let (node, origin) = (delivery.node.number(), delivery.id.origin.number());
    let seq = delivery.id.seq;
    write!(told, " delivered {node} {origin} {seq}")
}

/// Appends what an event is answered.
pub(crate) fn put_answer(
    told: &mut String,
    answer: Result<Entry, NetFault>,
) -> Result<(), AllocError> {
    match answer {
        Ok(entry) => put_entry(told, &entry),
        Err(fault) => {
            let number = fault.number();
            write!(told, "refused {number}")
        }
    }
}

/// Appends what a look at the world shows.
fn put_look(told: &mut String, world: &World, line: Line) -> Result<(), OutOfMemory> {
    match line {
        Line::Show(node) => Ok(put_node(told, world, node)?),
        Line::Links => put_links(told, world),
        _ => Ok(put_packets(told, world)?),
    }
}

/// Appends what a line comes to.
fn put_told(
    told: &mut String,
    alloc: Global,
    world: &mut World,
    line: Line,
) -> Result<(), OutOfMemory> {
    match event_of(alloc, line)? {
        Some(event) => Ok(put_answer(told, step(world, event))?),
        None => put_look(told, world, line),
    }
}

/// Whether a line comes to this.
fn comes_to(alloc: Global, world: &mut World, line: Line, expected: &str) -> bool {
    let mut told = String::new(alloc);
    let is_told = put_told(&mut told, alloc, world, line).is_ok();
    is_told && told.as_str() == expected
}

/// The world answers these lines, one after another.
fn goes(rt: &impl Abort, alloc: Global, world: &mut World, lines: &[(Line, &'static str)]) {
    for (line, expected) in lines {
        assert!(rt; comes_to(alloc, world, *line, expected), "{expected}");
    }
}
