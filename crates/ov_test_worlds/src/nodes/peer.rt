ghost use Rattle.std.specs.Prelude.{IfOk};
ghost use Rattle.ov_peer.specs.Faults.{IsInputInRange};

use crate::nodes::told::{is_spelt_as, is_whole, put_sends};
use ov_ids::{IdsText, NodeId};
use ov_peer::{Delivery, Input, Output, Peer, PeerFault};
use ov_test_kit::{message_id, payload, put_hex, sized};
use ov_views::ViewChange;
use ov_wire::{WireFault, decode};
use ov_words::Words;
use std::alloc::{AllocError, Global};
use std::process::Abort;
use std::test::Fail;

/// What comes to a node.
#[derive(Clone, Copy, Drop)]
enum Given<'a> {
    Boot,
    BootBy(u32),
    /// A message of these bytes.
    Hears(&'a [u8]),
    Crash(u32),
    Shuffle,
    Broadcast(&'a [u8]),
    /// The timer of the message with this origin and number.
    Timer(u32, u32),
}

fn input_of(alloc: Global, given: Given<'_>) -> Result<Input, Fail>
    ensures { IfOk result (λ i. IsInputInRange i) }
{
    Ok(match given {
        Given::Boot => Input::Boot(None),
        Given::BootBy(contact) => Input::Boot(Some(NodeId(contact))),
        Given::Hears(bytes) => Input::Receive(decode(alloc, bytes)?),
        Given::Crash(id) => Input::CrashReport(NodeId(id)),
        Given::Shuffle => Input::Shuffle,
        Given::Broadcast(bytes) => Input::Broadcast(payload(alloc, bytes)?),
        Given::Timer(origin, seq) => Input::Timer(message_id(origin, seq)),
    })
}

/// Appends the node's views and branches, the number of its next broadcast, and whether the timer of (7, 0) runs.
fn put_state(told: &mut String, peer: &Peer) -> Result<(), AllocError> {
    let (active, passive) = (IdsText(peer.active()), IdsText(peer.passive()));
    let (eager, lazy) = (IdsText(peer.eager()), IdsText(peer.lazy()));
    let made = peer.made();
    write!(
        told,
        "active{active}passive{passive}eager{eager}lazy{lazy}made{made}"
    )?;
    if peer.has_timer(message_id(7, 0)) {
        told.push_str("timer")?;
    }
    Ok(())
}

fn put_changes(told: &mut String, changes: &[ViewChange]) -> Result<(), AllocError> {
    for change in changes {
        let (name, id) = match *change {
            ViewChange::Up(id) => ("up", id.number()),
            ViewChange::Down(id) => ("down", id.number()),
        };
        write!(told, ";{name}{id}")?;
    }
    Ok(())
}

fn put_delivery(told: &mut String, delivery: &Delivery) -> Result<(), AllocError> {
    let node = delivery.node.number();
    let (origin, seq) = (delivery.id.origin.number(), delivery.id.seq);
    write!(told, ";{node}delivers({origin},{seq})")?;
    put_hex(told, delivery.payload.as_slice())
}

/// Appends what a step did.
fn put_output(alloc: Global, told: &mut String, output: &Output) -> Result<(), WireFault> {
    put_changes(told, &output.changes)?;
    put_sends(alloc, told, ";", &output.sends)?;
    if let Some(delivery) = &output.delivered {
        put_delivery(told, delivery)?;
    }
    Ok(())
}

/// How a step is taken: at once, or as it was planned.
#[derive(Clone, Copy, Drop)]
enum Way {
    AtOnce,
    PlumPlan,
}

/// A step by a plan, which says beforehand what the node does.
fn follow(peer: &mut Peer, input: Input, words: &Words) -> Result<Output, PeerFault>
    requires { IsInputInRange input }
{
    let plan = peer.plan(input, words)?;
    match peer.apply(plan) {
        Ok(output) => Ok(output),
        Err(_) => Err(PeerFault::OutOfMemory),
    }
}

/// One step, where each word of the event is 5.
fn take(
    alloc: Global,
    peer: &mut Peer,
    given: Given<'_>,
    way: Way,
) -> Result<Result<Output, PeerFault>, Fail> {
    let input = input_of(alloc, given)?;
    let words = Words::new([5; 64]);
    match way {
        Way::AtOnce => Ok(peer.step(input, &words)),
        Way::PlumPlan => Ok(follow(peer, input, &words)),
    }
}

/// Appends what is told of a step: the state after it, and what it did.
fn put_step(
    alloc: Global,
    told: &mut String,
    peer: &Peer,
    answer: &Result<Output, PeerFault>,
) -> Result<(), WireFault> {
    put_state(told, peer)?;
    match answer {
        Ok(output) => put_output(alloc, told, output),
        Err(fault) => {
            let number = fault.number();
            Ok(write!(told, ";refused{number}")?)
        }
    }
}

/// Whether this is told of a step.
fn does(
    alloc: Global,
    peer: &mut Peer,
    given: Given<'_>,
    way: Way,
    expected: &str,
) -> Result<bool, Fail> {
    let answer = take(alloc, peer, given, way)?;
    let mut told = String::new(alloc);
    let is_told = put_step(alloc, &mut told, peer, &answer).is_ok();
    Ok(is_told && is_spelt_as(told.as_str(), expected))
}

/// What comes to a node; then its state afterwards, its changes, what it sends to whom, and what it delivers, where
/// spaces do not count.
type Row = (Given<'static>, &'static str);

/// The node does as each row says, one after another.
fn goes(
    rt: &impl Abort,
    alloc: Global,
    peer: &mut Peer,
    rows: &[Row],
    way: Way,
) -> Result<(), Fail> {
    for (given, expected) in rows {
        assert!(rt; does(alloc, peer, *given, way, expected)?, "{expected}");
    }
    Ok(())
}

/// Node 1 with two active places. Word 5 picks the second of two.
static FULL_VIEW: [Row; 17] = [
    (Given::Boot, "active - passive - eager - lazy - made 0"),
    (
        Given::BootBy(4),
        "active - passive - eager - lazy - made 0; to 4: 01 01 00000001",
    ),
    (
        Given::Hears(&[1, 1, 0, 0, 0, 3]),
        "active 3 passive - eager 3 lazy - made 0; up 3; to 3: 01 03 00000001",
    ),
    (
        Given::Hears(&[1, 1, 0, 0, 0, 7]),
        "active 3,7 passive - eager 3,7 lazy - made 0; up 7; to 7: 01 03 00000001; to 3: 01 02 00000001 00000007 06",
    ),
    (
        Given::Hears(&[1, 1, 0, 0, 0, 9]),
        "active 3,9 passive 7 eager 3,9 lazy - made 0; down 7; up 9; to 7: 01 06 00000001; to 9: 01 03 00000001; \
         to 3: 01 02 00000001 00000009 06",
    ),
    (
        Given::Crash(9),
        "active 3 passive 7 eager 3 lazy - made 0; down 9; to 7: 01 04 00000001 00",
    ),
    (
        Given::Hears(&[1, 5, 0, 0, 0, 7, 1]),
        "active 3,7 passive - eager 3,7 lazy - made 0; up 7",
    ),
    (
        Given::Shuffle,
        "active 3,7 passive - eager 3,7 lazy - made 0; to 7: 01 07 00000001 00000001 04 03 00000001 00000007 00000003",
    ),
    (
        Given::Hears(&[1, 8, 0, 0, 0, 7, 1, 0, 0, 0, 4]),
        "active 3,7 passive 4 eager 3,7 lazy - made 0",
    ),
    (
        Given::Hears(&[1, 7, 0, 0, 0, 3, 0, 0, 0, 9, 1, 1, 0, 0, 0, 9]),
        "active 3,7 passive 4,9 eager 3,7 lazy - made 0; to 9: 01 08 00000001 01 00000004",
    ),
    (
        Given::Hears(&[1, 2, 0, 0, 0, 3, 0, 0, 0, 8, 3]),
        "active 3,7 passive 4,8,9 eager 3,7 lazy - made 0; to 7: 01 02 00000001 00000008 02",
    ),
    (
        Given::Hears(&[1, 4, 0, 0, 0, 6, 0]),
        "active 3,7 passive 4,8,9 eager 3,7 lazy - made 0; to 6: 01 05 00000001 00",
    ),
    (
        Given::Hears(&[1, 1, 0, 0, 0, 1]),
        "active 3,7 passive 4,8,9 eager 3,7 lazy - made 0",
    ),
    (
        Given::Hears(&[1, 12, 0, 0, 0, 7]),
        "active 3,7 passive 4,8,9 eager 3 lazy 7 made 0",
    ),
    (
        Given::Hears(&[1, 3, 0, 0, 0, 8]),
        "active 3,8 passive 4,7,9 eager 3,8 lazy - made 0; down 7; up 8; to 7: 01 06 00000001",
    ),
    (
        Given::Hears(&[1, 6, 0, 0, 0, 3]),
        "active 8 passive 3,4,7,9 eager 8 lazy - made 0; down 3",
    ),
    (
        Given::Timer(7, 0),
        "active 8 passive 3,4,7,9 eager 8 lazy - made 0; refused 18",
    ),
];

#[test]
fn views_and_tree_go_together(rt: HostRuntime) -> Result<(), Fail> {
    for way in [Way::AtOnce, Way::PlumPlan] {
        let mut peer = Peer::new(rt.alloc(), NodeId(1), sized(2, 30)?);
        goes(&rt, rt.alloc(), &mut peer, &FULL_VIEW, way)?;
    }
    Ok(())
}

/// Node 2 comes to have neighbours 1 and 5, waits for (7, 0), and loses 1 with its note.
static WAITS: [Row; 6] = [
    (
        Given::Hears(&[1, 3, 0, 0, 0, 1]),
        "active 1 passive - eager 1 lazy - made 0; up 1",
    ),
    (
        Given::Hears(&[1, 3, 0, 0, 0, 5]),
        "active 1,5 passive - eager 1,5 lazy - made 0; up 5",
    ),
    (
        Given::Hears(&[1, 12, 0, 0, 0, 1]),
        "active 1,5 passive - eager 5 lazy 1 made 0",
    ),
    (
        Given::Hears(&[1, 10, 0, 0, 0, 1, 0, 0, 0, 7, 0, 0, 0, 0]),
        "active 1,5 passive - eager 5 lazy 1 made 0 timer",
    ),
    (
        Given::Hears(&[1, 10, 0, 0, 0, 5, 0, 0, 0, 7, 0, 0, 0, 0]),
        "active 1,5 passive - eager 5 lazy 1 made 0 timer",
    ),
    (
        Given::Hears(&[1, 6, 0, 0, 0, 1]),
        "active 5 passive 1 eager 5 lazy - made 0 timer; down 1",
    ),
];

/// Node 2 asks 5 for (7, 0), broadcasts, takes 1 in anew, and gets (7, 0) twice.
static GETS: [Row; 11] = [
    (
        Given::Timer(7, 0),
        "active 5 passive 1 eager 5 lazy - made 0 timer; to 5: 01 0b 00000002 00000007 00000000",
    ),
    (
        Given::Timer(7, 0),
        "active 5 passive 1 eager 5 lazy - made 0",
    ),
    (
        Given::Timer(7, 0),
        "active 5 passive 1 eager 5 lazy - made 0; refused 18",
    ),
    (
        Given::Broadcast(b"hi"),
        "active 5 passive 1 eager 5 lazy - made 1; to 5: 01 09 00000002 00000002 00000000 0000 0002 6869; \
         2 delivers (2, 0) 6869",
    ),
    (
        Given::Hears(&[1, 3, 0, 0, 0, 1]),
        "active 1,5 passive - eager 1,5 lazy - made 1; up 1",
    ),
    (
        Given::Hears(&[
            1, 9, 0, 0, 0, 5, 0, 0, 0, 7, 0, 0, 0, 0, 0, 0, 0, 2, 104, 105,
        ]),
        "active 1,5 passive - eager 1,5 lazy - made 1; to 1: 01 09 00000002 00000007 00000000 0001 0002 6869; \
         2 delivers (7, 0) 6869",
    ),
    (
        Given::Hears(&[
            1, 9, 0, 0, 0, 1, 0, 0, 0, 7, 0, 0, 0, 0, 0, 0, 0, 2, 104, 105,
        ]),
        "active 1,5 passive - eager 5 lazy 1 made 1; to 1: 01 0c 00000002",
    ),
    (
        Given::Hears(&[
            1, 9, 0, 0, 0, 2, 0, 0, 0, 7, 0, 0, 0, 9, 0, 0, 0, 2, 104, 105,
        ]),
        "active 1,5 passive - eager 5 lazy 1 made 1",
    ),
    (
        Given::Broadcast(&[0; 1025]),
        "active 1,5 passive - eager 5 lazy 1 made 1; refused 19",
    ),
    (
        Given::Hears(&[1, 11, 0, 0, 0, 1, 0, 0, 0, 7, 0, 0, 0, 0]),
        "active 1,5 passive - eager 1,5 lazy - made 1; to 1: 01 09 00000002 00000007 00000000 0001 0002 6869",
    ),
    (
        Given::Hears(&[1, 10, 0, 0, 0, 5, 0, 0, 0, 7, 0, 0, 0, 0]),
        "active 1,5 passive - eager 1,5 lazy - made 1",
    ),
];

fn copy_goes(rt: &impl Abort, alloc: Global, peer: &Peer) -> Result<(), Fail> {
    let mut copy = peer.copy()?;
    goes(rt, alloc, &mut copy, &GETS, Way::PlumPlan)
}

#[test]
fn a_node_and_its_copy_go_their_own_ways(rt: HostRuntime) -> Result<(), Fail> {
    let mut peer = Peer::new(rt.alloc(), NodeId(2), sized(5, 30)?);
    goes(&rt, rt.alloc(), &mut peer, &WAITS, Way::AtOnce)?;
    copy_goes(&rt, rt.alloc(), &peer)?;
    goes(&rt, rt.alloc(), &mut peer, &GETS, Way::AtOnce)
}

/// Node 3 becomes a neighbour.
static MET: [Row; 1] = [(
    Given::Hears(&[1, 3, 0, 0, 0, 3]),
    "active 3 passive - eager 3 lazy - made 0; up 3",
)];

/// As many bytes as a payload may have.
static MOST: [u8; 1024] = [7; 1024];

fn most() -> &'static [u8] {
    &MOST
}

fn is_delivered(output: &Output, payload: &[u8]) -> bool {
    match &output.delivered {
        Some(delivery) => delivery.payload.as_slice() == payload,
        None => false,
    }
}

/// One message is sent, whose bytes are this head and then the payload, and that is delivered.
fn brings(alloc: Global, output: &Output, head: &[u8], payload: &[u8]) -> Result<bool, WireFault> {
    if output.sends.len() != 1 || !is_delivered(output, payload) {
        return Ok(false);
    }
    is_whole(alloc, &output.sends[0].1, head, payload)
}

/// The bytes of GOSSIP of node 1 before a payload of 1,024 bytes.
static HEAD: [u8; 18] = [1, 9, 0, 0, 0, 1, 0, 0, 0, 1, 0, 0, 0, 0, 0, 0, 4, 0];

/// The node broadcasts `MOST`, and sends one message: the head and then `MOST`.
fn sends_most(alloc: Global, peer: &mut Peer) -> Result<bool, Fail> {
    match take(alloc, peer, Given::Broadcast(most()), Way::AtOnce)? {
        Ok(output) => Ok(brings(alloc, &output, &HEAD, most())?),
        Err(_) => Ok(false),
    }
}

#[test]
fn a_broadcast_of_1024_bytes(rt: HostRuntime) -> Result<(), Fail> {
    let mut peer = Peer::new(rt.alloc(), NodeId(1), sized(2, 30)?);
    goes(&rt, rt.alloc(), &mut peer, &MET, Way::AtOnce)?;
    assert!(rt; sends_most(rt.alloc(), &mut peer)?);
    Ok(())
}
