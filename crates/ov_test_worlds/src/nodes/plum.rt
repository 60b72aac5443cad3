use crate::nodes::told::{is_spelt_as, put_sends};
use ov_ids::{IdsText, NodeId};
use ov_plum::{Plum, Spread, TimerFault};
use ov_test_kit::{message_id, payload, put_hex};
use ov_wire::WireFault;
use std::alloc::{AllocError, Global};
use std::process::Abort;
use std::test::Fail;

/// What comes to a node. An id is a node and a number. The payload of a GOSSIP is `hi`, that of a broadcast `ho`.
#[derive(Clone, Copy, Drop)]
enum Input {
    Broadcast,
    /// The sender, the id and the round.
    Gossip(u32, u32, u32, u16),
    /// The sender and the id.
    IHave(u32, u32, u32),
    /// The sender and the id.
    Graft(u32, u32, u32),
    Prune(u32),
    Timer(u32, u32),
    Down(u32),
}

fn comes_up(rt: &impl Abort, plum: &mut Plum, id: u32) {
    assert!(rt; plum.eager().len() + plum.lazy().len() < 64);
    plum.up(NodeId(id));
}

/// Node 2 with neighbours 1 and 5.
fn node(rt: &impl Abort, alloc: Global) -> Plum {
    let mut plum = Plum::new(alloc, NodeId(2));
    comes_up(rt, &mut plum, 1);
    comes_up(rt, &mut plum, 5);
    plum
}

/// Nothing is sent or delivered.
fn silence(alloc: Global) -> Spread {
    Spread {
        sends: Vec::new(alloc),
        delivered: None,
    }
}

fn take(
    rt: &impl Abort,
    alloc: Global,
    plum: &mut Plum,
    input: Input,
) -> Result<Spread, TimerFault> {
    Ok(match input {
        Input::Broadcast => {
            assert!(rt; plum.made() < 4096);
            plum.broadcast(payload(alloc, b"ho")?)?
        }
        Input::Gossip(from, origin, seq, round) => {
            let id = message_id(origin, seq);
            plum.on_gossip(NodeId(from), id, round, payload(alloc, b"hi")?)?
        }
        Input::IHave(from, origin, seq) => plum.on_ihave(NodeId(from), message_id(origin, seq))?,
        Input::Graft(from, origin, seq) => plum.on_graft(NodeId(from), message_id(origin, seq))?,
        Input::Prune(from) => plum.on_prune(NodeId(from)),
        Input::Timer(origin, seq) => plum.on_timer(message_id(origin, seq))?,
        Input::Down(id) => {
            plum.down(NodeId(id));
            silence(alloc)
        }
    })
}

/// Appends the node's neighbours, and which timers of (2,0), (2,1) and (7,0) run.
fn put_state(told: &mut String, plum: &Plum) -> Result<(), AllocError> {
    let (eager, lazy) = (IdsText(plum.eager()), IdsText(plum.lazy()));
    write!(told, "eager{eager}lazy{lazy}")?;
    for (origin, seq) in [(2, 0), (2, 1), (7, 0)] {
        if plum.has_timer(message_id(origin, seq)) {
            write!(told, ",timer({origin},{seq})")?;
        }
    }
    Ok(())
}

/// Appends what is sent and what is delivered.
fn put_spread(alloc: Global, told: &mut String, spread: &Spread) -> Result<(), WireFault> {
    put_sends(alloc, told, ",", &spread.sends)?;
    if let Some((id, payload)) = &spread.delivered {
        let (origin, seq) = (id.origin.number(), id.seq);
        write!(told, ",delivered({origin},{seq}):")?;
        put_hex(told, payload.as_slice())?;
    }
    Ok(())
}

/// Appends what is told of a step.
fn put_step(
    alloc: Global,
    told: &mut String,
    plum: &Plum,
    answer: &Result<Spread, TimerFault>,
) -> Result<(), WireFault> {
    put_state(told, plum)?;
    match answer {
        Ok(spread) => put_spread(alloc, told, spread),
        Err(TimerFault::NoTimer) => Ok(told.push_str(",refused18")?),
        Err(TimerFault::OutOfMemory) => Err(WireFault::OutOfMemory),
    }
}

/// Whether this is told of a step.
fn does(rt: &impl Abort, alloc: Global, plum: &mut Plum, input: Input, expected: &str) -> bool {
    let answer = take(rt, alloc, plum, input);
    let mut told = String::new(alloc);
    let is_told = put_step(alloc, &mut told, plum, &answer).is_ok();
    is_told && is_spelt_as(told.as_str(), expected)
}

/// The node does as each row says, one after another. A row has what comes to the node; then its state afterwards,
/// what it sends to whom, and what it delivers, where spaces do not count.
fn goes(rt: &impl Abort, alloc: Global, plum: &mut Plum, rows: &[(Input, &'static str)]) {
    for (input, expected) in rows {
        assert!(rt; does(rt, alloc, plum, *input, expected), "{expected}");
    }
}

static AWAITED: [(Input, &str); 12] = [
    (Input::IHave(1, 7, 0), "eager 1,5 lazy -, timer (7,0)"),
    (Input::IHave(5, 7, 0), "eager 1,5 lazy -, timer (7,0)"),
    (
        Input::Timer(7, 0),
        "eager 1,5 lazy -, timer (7,0), to 1: 01 0b 00000002 00000007 00000000",
    ),
    (
        Input::Timer(7, 0),
        "eager 1,5 lazy -, timer (7,0), to 5: 01 0b 00000002 00000007 00000000",
    ),
    (Input::Timer(7, 0), "eager 1,5 lazy -"),
    (Input::Timer(7, 0), "eager 1,5 lazy -, refused 18"),
    (
        Input::Gossip(5, 7, 0, 0),
        "eager 1,5 lazy -, to 1: 01 09 00000002 00000007 00000000 0001 0002 6869, delivered (7,0): 6869",
    ),
    (
        Input::Gossip(1, 7, 0, 0),
        "eager 5 lazy 1, to 1: 01 0c 00000002",
    ),
    (
        Input::Gossip(1, 7, 0, 7),
        "eager 5 lazy 1, to 1: 01 0c 00000002",
    ),
    (
        Input::Graft(1, 7, 0),
        "eager 1,5 lazy -, to 1: 01 09 00000002 00000007 00000000 0001 0002 6869",
    ),
    (Input::IHave(1, 7, 0), "eager 1,5 lazy -"),
    (Input::Timer(7, 0), "eager 1,5 lazy -, refused 18"),
];

#[test]
fn an_awaited_message_comes(rt: HostRuntime) {
    let mut plum = node(&rt, rt.alloc());
    goes(&rt, rt.alloc(), &mut plum, &AWAITED);
}

static BEFORE: [(Input, &str); 4] = [
    (Input::Prune(5), "eager 1 lazy 5"),
    (
        Input::Broadcast,
        "eager 1 lazy 5, to 1: 01 09 00000002 00000002 00000000 0000 0002 686f, \
         to 5: 01 0a 00000002 00000002 00000000, delivered (2,0): 686f",
    ),
    (Input::IHave(5, 7, 0), "eager 1 lazy 5, timer (7,0)"),
    (Input::IHave(1, 7, 0), "eager 1 lazy 5, timer (7,0)"),
];

static AFTER: [(Input, &str); 5] = [
    (
        Input::Timer(7, 0),
        "eager 1,5 lazy -, timer (7,0), to 5: 01 0b 00000002 00000007 00000000",
    ),
    (
        Input::Timer(7, 0),
        "eager 1,5 lazy -, timer (7,0), to 1: 01 0b 00000002 00000007 00000000",
    ),
    (
        Input::Graft(9, 2, 0),
        "eager 1,5 lazy -, timer (7,0), to 9: 01 09 00000002 00000002 00000000 0000 0002 686f",
    ),
    (Input::Down(1), "eager 5 lazy -, timer (7,0)"),
    (
        Input::Broadcast,
        "eager 5 lazy -, timer (7,0), to 5: 01 09 00000002 00000002 00000001 0000 0002 686f, delivered (2,1): 686f",
    ),
];

/// A copy of the node goes on.
fn copy_goes(rt: &impl Abort, alloc: Global, plum: &Plum) -> Result<(), Fail> {
    let mut copy = plum.copy()?;
    assert!(rt; copy.made() == 1);
    goes(rt, alloc, &mut copy, &AFTER);
    Ok(())
}

#[test]
fn a_copy_goes_its_own_way(rt: HostRuntime) -> Result<(), Fail> {
    let mut plum = node(&rt, rt.alloc());
    goes(&rt, rt.alloc(), &mut plum, &BEFORE);
    copy_goes(&rt, rt.alloc(), &plum)?;
    goes(&rt, rt.alloc(), &mut plum, &AFTER);
    Ok(())
}
