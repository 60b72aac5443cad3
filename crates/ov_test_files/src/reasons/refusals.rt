//! Why lines of scenarios are refused when they are run, where no example shows it.
use ov_ids::Params;
use ov_net::NetFault;
use ov_reasons::world_refusal_reason;
use ov_snap::Core;
use ov_test_kit::sized;
use std::alloc::Global;
use std::test::Fail;

/// Lines, a fault of a world in which nothing happened, and what is told of it. No line is run.
static OF_WORLD: [(&[u8], NetFault, &str); 8] = [
    (b"show 3", NetFault::UnknownNode, "no node 3 was born"),
    (b"show 3", NetFault::CrashedNode, "node 3 crashed"),
    (b"packets", NetFault::OutOfMemory, "out of memory"),
    (
        b"broadcast 1 x",
        NetFault::TooManyPackets,
        "the bag has 0 packets, and 64 of its 65536 places must be free",
    ),
    (
        b"broadcast 1 x",
        NetFault::TooManyEntries,
        "the journal has 65536 entries, as many as it may have",
    ),
    (
        b"broadcast 1 x",
        NetFault::TooManyMessages,
        "node 1 has made 4096 broadcasts, as many as it may",
    ),
    (b"broadcast 1 x", NetFault::OutOfMemory, "out of memory"),
    (
        b"deliver",
        NetFault::UnknownNode,
        "no node of this id was born",
    ),
];

/// Whether this is said of the fault of a line.
fn is_said(alloc: Global, core: &Core, line: &[u8], fault: NetFault, text: &str) -> bool {
    match world_refusal_reason(alloc, core, line, fault) {
        Ok(said) => said.as_str() == text,
        Err(_) => false,
    }
}

/// Whether what is told of each line is said, in a world of these parameters in which nothing happened.
fn are_said(alloc: Global, params: Params) -> bool {
    let core = Core::new(alloc, params);
    for (line, fault, text) in &OF_WORLD {
        if !is_said(alloc, &core, line, *fault, text) {
            return false;
        }
    }
    true
}

#[test]
fn refusals_of_a_world_are_told(rt: HostRuntime) -> Result<(), Fail> {
    assert!(rt; are_said(rt.alloc(), sized(5, 30)?));
    Ok(())
}
