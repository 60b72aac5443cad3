use ov_ids::{NodeId, OutOfMemory};
use ov_test_kit::{ids, is_spelt, message_id, payload};
use ov_wire::{Body, Message, WireFault, decode};
use std::alloc::Global;
use std::process::Abort;

fn message(from: u32, body: Body) -> Message {
    Message {
        from: NodeId(from),
        body,
    }
}

/// The number of the fault of these bytes, or 0 where they are a message.
fn fault(alloc: Global, bytes: &[u8]) -> u32 {
    match decode(alloc, bytes) {
        Ok(_) => 0,
        Err(fault) => fault.number(),
    }
}

/// One byte more is too long.
fn is_longer_refused(alloc: Global, bytes: &[u8]) -> Result<bool, OutOfMemory> {
    let mut longer = Vec::from_slice(alloc, bytes)?;
    longer.push(0)?;
    Ok(fault(alloc, &longer) == 5)
}

/// Each part of the bytes is too short, and one byte more is too long.
fn ends_there(alloc: Global, bytes: &[u8]) -> bool {
    for len in 0..bytes.len() {
        if fault(alloc, &bytes[..len]) != 1 {
            return false;
        }
    }
    is_longer_refused(alloc, bytes) == Ok(true)
}

/// The copy of the message has these bytes.
fn is_copied(alloc: Global, message: &Message, bytes: &[u8]) -> Result<bool, WireFault> {
    let copy = message.copy(alloc).map_err(|_| WireFault::OutOfMemory)?;
    is_spelt(alloc, &copy, bytes)
}

/// What is read of these bytes has them.
fn is_read_back(alloc: Global, bytes: &[u8]) -> Result<bool, WireFault> {
    let read = decode(alloc, bytes)?;
    is_spelt(alloc, &read, bytes)
}

/// Both ways between the message and its bytes; each part of the bytes is too short, and one byte more is too long.
fn both_ways(alloc: Global, message: &Message, bytes: &[u8]) -> bool {
    is_spelt(alloc, message, bytes) == Ok(true)
        && is_copied(alloc, message, bytes) == Ok(true)
        && is_read_back(alloc, bytes) == Ok(true)
        && ends_there(alloc, bytes)
}

/// The same of a message with a list.
fn list_both_ways(alloc: Global, message: Result<Message, OutOfMemory>, bytes: &[u8]) -> bool {
    match message {
        Ok(message) => both_ways(alloc, &message, bytes),
        Err(_) => false,
    }
}

/// Bytes, and the number of their fault or 0.
type Judged = (&'static [u8], u32);

fn are_judged(rt: &impl Abort, alloc: Global, rows: &[Judged]) {
    for (bytes, number) in rows {
        assert!(rt; fault(alloc, *bytes) == *number, "of {bytes:?}");
    }
}

static OF_JOIN: [Judged; 5] = [
    (&[1, 1, 0, 0, 0], 1),
    (&[1, 1, 0, 0, 0, 2, 0], 5),
    (&[], 1),
    (&[2], 2),
    (&[1, 0x0d], 3),
];

#[test]
fn join_bytes(rt: HostRuntime) {
    assert!(rt; both_ways(rt.alloc(), &message(2, Body::Join), &[1, 1, 0, 0, 0, 2]));
    are_judged(&rt, rt.alloc(), &OF_JOIN);
}

fn shuffle(alloc: Global, ttl: u8, numbers: &[u32]) -> Result<Message, OutOfMemory> {
    let origin = NodeId(1);
    let ids = ids(alloc, numbers)?;
    Ok(message(1, Body::Shuffle { origin, ttl, ids }))
}

/// The bytes of SHUFFLE with the most steps and this count of ids, where 17 follow. Each is 0x01020304.
fn full_shuffle(count: u8) -> [u8; 80] {
    let mut bytes = [0; 80];
    bytes[..12].copy_from_slice(&[1, 7, 0, 0, 0, 1, 0, 0, 0, 1, 15, count]);
    for i in 12..80 {
        bytes[i] = (i % 4 + 1) as u8;
    }
    bytes
}

/// A list of 18 is refused before its ids are read.
fn refuses_18(rt: &impl Abort, alloc: Global) {
    let bytes = full_shuffle(18);
    for len in 12..80 {
        assert!(rt;
            fault(alloc, &bytes[..len]) == 4,
            "of a list of 18 in {len} bytes"
        );
    }
}

#[test]
fn shuffle_bytes(rt: HostRuntime) {
    let alloc = rt.alloc();
    let empty = [1, 7, 0, 0, 0, 1, 0, 0, 0, 1, 4, 0];
    assert!(rt; list_both_ways(alloc, shuffle(alloc, 4, &[]), &empty));
    let full = shuffle(alloc, 15, &[0x0102_0304; 17]);
    assert!(rt; list_both_ways(alloc, full, &full_shuffle(17)));
    refuses_18(&rt, alloc);
}

/// What a message without a list says.
#[derive(Clone, Copy)]
enum Plain {
    /// The new node and the steps left.
    ForwardJoin(u32, u8),
    Joined,
    Neighbor(bool),
    NeighborReply(bool),
    Disconnect,
    /// The node and the number of a broadcast.
    IHave(u32, u32),
    Graft(u32, u32),
    Prune,
}

fn body_of(plain: Plain) -> Body {
    match plain {
        Plain::ForwardJoin(node, ttl) => Body::ForwardJoin {
            node: NodeId(node),
            ttl,
        },
        Plain::Joined => Body::Joined,
        Plain::Neighbor(high) => Body::Neighbor { high },
        Plain::NeighborReply(accepted) => Body::NeighborReply { accepted },
        Plain::Disconnect => Body::Disconnect,
        Plain::IHave(origin, seq) => Body::IHave {
            id: message_id(origin, seq),
        },
        Plain::Graft(origin, seq) => Body::Graft {
            id: message_id(origin, seq),
        },
        Plain::Prune => Body::Prune,
    }
}

/// From whom a message comes, what it says, and its bytes.
static PLAIN: [(u32, Plain, &'static [u8]); 10] = [
    (
        1,
        Plain::ForwardJoin(9, 6),
        &[1, 2, 0, 0, 0, 1, 0, 0, 0, 9, 6],
    ),
    (3, Plain::Joined, &[1, 3, 0, 0, 0, 3]),
    (1, Plain::Neighbor(true), &[1, 4, 0, 0, 0, 1, 1]),
    (1, Plain::Neighbor(false), &[1, 4, 0, 0, 0, 1, 0]),
    (1, Plain::NeighborReply(true), &[1, 5, 0, 0, 0, 1, 1]),
    (1, Plain::NeighborReply(false), &[1, 5, 0, 0, 0, 1, 0]),
    (0xffff_fffe, Plain::Disconnect, &[1, 6, 255, 255, 255, 254]),
    (
        5,
        Plain::IHave(0x0102_0304, 0x0506_0708),
        &[1, 10, 0, 0, 0, 5, 1, 2, 3, 4, 5, 6, 7, 8],
    ),
    (
        2,
        Plain::Graft(1, 0),
        &[1, 0x0b, 0, 0, 0, 2, 0, 0, 0, 1, 0, 0, 0, 0],
    ),
    (2, Plain::Prune, &[1, 0x0c, 0, 0, 0, 2]),
];

fn reply(alloc: Global, numbers: &[u32]) -> Result<Message, OutOfMemory> {
    let ids = ids(alloc, numbers)?;
    Ok(message(3, Body::ShuffleReply { ids }))
}

fn gossip(alloc: Global, round: u16, bytes: &[u8]) -> Result<Message, OutOfMemory> {
    let id = message_id(1, 0);
    let payload = payload(alloc, bytes)?;
    Ok(message(1, Body::Gossip { id, round, payload }))
}

static OF_REPLY: [u8; 15] = [1, 8, 0, 0, 0, 3, 2, 0, 0, 0, 5, 0, 0, 0, 9];

static OF_GOSSIP: [u8; 20] = [
    1, 9, 0, 0, 0, 1, 0, 0, 0, 1, 0, 0, 0, 0, 0, 0, 0, 2, 0x68, 0x69,
];

/// The bytes of GOSSIP of round 0x0203, by which the payload has 1,024 bytes and so many more. 1,024 follow.
fn long_gossip(more: u8) -> [u8; 1042] {
    let mut bytes = [7; 1042];
    bytes[..18].copy_from_slice(&[1, 9, 0, 0, 0, 1, 0, 0, 0, 1, 0, 0, 0, 0, 2, 3, 4, more]);
    bytes
}

/// A payload of 1,025 bytes is refused before its bytes are read.
fn refuses_1025(alloc: Global) -> bool {
    let bytes = long_gossip(1);
    fault(alloc, &bytes) == 4 && fault(alloc, &bytes[..18]) == 4
}

/// A time to live out of range stands before a count out of range, and both before what is missing or follows.
static FIRST_FAULTS: [Judged; 10] = [
    (&[1, 2, 0, 0, 0, 1, 0, 0, 0, 9, 0x10], 4),
    (&[1, 4, 0, 0, 0, 1, 2], 4),
    (&[1, 9, 0, 0, 0, 1, 0, 0, 0, 1, 0, 0, 0, 0, 0, 0, 4, 1], 4),
    (&[1, 9, 0, 0, 0, 1, 0, 0, 0, 1, 0, 0, 0, 0, 0, 0, 4], 1),
    (&[1, 9, 0, 0, 0, 1, 0, 0, 0, 1, 0, 0, 0, 0, 0, 0, 4, 0], 1),
    (&[1, 7, 0, 0, 0, 1, 0, 0, 0, 9, 16, 18], 4),
    (&[1, 4, 0, 0, 0, 1, 2, 0], 4),
    (&[1, 8, 0, 0, 0, 1, 1, 0, 0, 0], 1),
    (&[1, 8, 0, 0, 0, 1, 1, 0, 0, 0, 0, 0], 5),
    (&[2, 13, 0], 2),
];

#[test]
fn the_bytes_of_each_kind(rt: HostRuntime) {
    let alloc = rt.alloc();
    for (from, plain, bytes) in &PLAIN {
        assert!(rt;
            both_ways(alloc, &message(*from, body_of(*plain)), bytes),
            "of {bytes:?}"
        );
    }
    assert!(rt; list_both_ways(alloc, reply(alloc, &[5, 9]), &OF_REPLY));
    assert!(rt; list_both_ways(alloc, gossip(alloc, 0, b"hi"), &OF_GOSSIP));
    let long = gossip(alloc, 0x0203, &[7; 1024]);
    assert!(rt; list_both_ways(alloc, long, &long_gossip(0)));
    are_judged(&rt, alloc, &FIRST_FAULTS);
    assert!(rt; refuses_1025(alloc));
}
