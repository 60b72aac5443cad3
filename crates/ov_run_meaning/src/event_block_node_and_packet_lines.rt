ghost use Rattle.std.specs.Prelude.{◌≡◌, ◌++◌, IfOk, OnOk, string_bytes};
ghost use Rattle.ov_run_meaning.specs.Printed.{entry_line, node_line, packet_line, together_line};

use crate::entry_part_writing::{write_changes, write_delivery, write_number};
use arrayvec::ArrayString;
use itoa::Buffer;
use ov_ids::{IdsText, NodeId, OutOfMemory};
use ov_net::Entry;
use ov_peer::Peer;
use std::alloc::Global;

/// Room for the line of an event without changes: four numbers of at most 10 digits, and 20 other bytes.
const LINE_ROOM: usize = 64;

/// Appends the line of an accepted event. OutOfMemory (99) is returned if the text may not grow.
#[tactic(auto, unfolding(crate::specs::Printed::entry_line))]
fn write_line(line: &mut String, entry: &Entry) -> Result<(), OutOfMemory>
    ensures { OnOk result (string_bytes line.new ≡ string_bytes line.old ++ entry_line entry.now) }
{
    write_number(line, "entry ", entry.number)?;
    write_changes(line, entry.changes.as_slice())?;
    write_delivery(line, &entry.delivery)?;
    Ok(line.push('\n')?)
}

/// The line of an accepted event: `entry N`, the changes in order, and what was delivered. Like every line here it ends
/// with a line feed, and its form is chosen here. OutOfMemory (99) is returned if an allocation was refused. A line
/// without changes takes one allocation.
pub fn entry_line(alloc: Global, entry: &Entry) -> Result<String, OutOfMemory>
    ensures { IfOk result (λ line. string_bytes line ≡ entry_line entry.now) }
{
    let mut line = String::with_capacity(alloc, LINE_ROOM)?;
    write_line(&mut line, entry)?;
    Ok(line)
}

/// The line of a block: `together D accepted A refused R`. Nothing is allocated.
#[tactic(auto, unfolding(crate::specs::Printed::together_line))]
pub fn together_line(sections: usize, accepted: u128, refused: u128) -> ArrayString<192>
    ensures { result.bytes ≡ together_line sections accepted refused }
{
    let mut digits = Buffer::new();
    let mut line = ArrayString::new();
    line.push_str("together ");
    line.push_str(digits.format(sections));
    line.push_str(" accepted ");
    line.push_str(digits.format(accepted));
    line.push_str(" refused ");
    line.push_str(digits.format(refused));
    line.push_str("\n");
    line
}

/// The line of a node and its views: `node N active L passive L eager L lazy L`. Each list has commas between its
/// ids, and is `-` without any. OutOfMemory (99) if an allocation is refused.
#[tactic(auto, unfolding(crate::specs::Printed::node_line))]
pub fn node_line(alloc: Global, id: NodeId, peer: &Peer) -> Result<String, OutOfMemory>
    ensures { IfOk result (λ line. string_bytes line ≡ node_line id peer.now) }
{
    let id = id.number();
    let active = IdsText(peer.active());
    let passive = IdsText(peer.passive());
    let eager = IdsText(peer.eager());
    let lazy = IdsText(peer.lazy());
    Ok(format!(in alloc;
        "node {id} active {active} passive {passive} eager {eager} lazy {lazy}\n"
    )?)
}

/// The line of a packet by its place among all: `packet I to N HEX`, with two digits for each byte, in lower case.
/// OutOfMemory (99) if an allocation is refused.
#[tactic(auto, unfolding(crate::specs::Printed::packet_line))]
pub fn packet_line(
    alloc: Global,
    place: u32,
    to: NodeId,
    bytes: &[u8],
) -> Result<String, OutOfMemory>
    ensures { IfOk result (λ line. string_bytes line ≡ packet_line place to bytes.now) }
{
    let to = to.number();
    let bytes = hex::encode(alloc, bytes)?;
    Ok(format!(in alloc; "packet {place} to {to} {bytes}\n")?)
}
