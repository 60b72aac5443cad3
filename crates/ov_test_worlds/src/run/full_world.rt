//! Scenarios that fill a world: with packets and then its journal, and with nodes.
use ov_io::{Sink, Source};
use ov_run::run;
use std::alloc::{AllocError, Global};
use std::sync::Wait;
use std::test::Fail;
use std::thread::Threads;

/// How often the one packet is repeated. With it there are 65,473 packets then, and 63 places are left.
const REPEATS: u32 = 65_472;

/// The number of entries before the snapshots: two nodes are born, and the packet is repeated.
const ENTRIES: u32 = REPEATS + 2;

/// The most entries.
const MOST_ENTRIES: u32 = 65_536;

/// Appends a line so many times.
fn put_times(text: &mut String, line: &str, count: u32) -> Result<(), AllocError> {
    for _ in 0..count {
        write!(text, "{line}\n")?;
    }
    Ok(())
}

/// Appends the lines of entries without changes, from the first number to the last.
fn put_entries(text: &mut String, first: u32, last: u32) -> Result<(), AllocError> {
    for number in first..=last {
        write!(text, "entry {number}\n")?;
    }
    Ok(())
}

/// Appends the lines of so many packets, each of which brings the join of node 2 to node 1.
fn put_packets(text: &mut String, count: u32) -> Result<(), AllocError> {
    for place in 0..count {
        write!(text, "packet {place} to 1 010100000002\n")?;
    }
    Ok(())
}

fn scenario(alloc: Global) -> Result<String, AllocError> {
    let mut text = String::from_str(alloc, "boot 1\nboot 2 by 1\n")?;
    put_times(&mut text, "repeat 0", REPEATS)?;
    text.push_str("packets\nrepeat 0\ndeliver 0\n")?;
    put_times(&mut text, "snapshot", MOST_ENTRIES - ENTRIES)?;
    text.push_str("boot 1\nlose 0\nsnapshot\n")?;
    Ok(text)
}

fn printed(alloc: Global) -> Result<String, AllocError> {
    let mut text = String::from_str(alloc, "entry 1 born 1\nentry 2 born 2\n")?;
    put_entries(&mut text, 3, ENTRIES)?;
    put_packets(&mut text, REPEATS + 1)?;
    text.push_str("refused 15\nrefused 15\n")?;
    put_entries(&mut text, ENTRIES + 1, MOST_ENTRIES)?;
    text.push_str("refused 16\nrefused 16\nrefused 16\n")?;
    Ok(text)
}

/// The most nodes that are ever born in a world of the profile's scale.
const MOST_NODES: u32 = 256;

/// A line of the scale or none, and what the birth of one node more than `MOST_NODES` prints.
static ONE_MORE: [(&str, &str); 3] = [
    ("", "refused 13\n"),
    ("scale profile\n", "refused 13\n"),
    ("scale large\n", "entry 257 born 257\n"),
];

/// A scenario of this scale, in which one node more is born than the profile's scale lets.
fn births(alloc: Global, scale: &str) -> Result<String, AllocError> {
    let mut text = String::from_str(alloc, scale)?;
    for node in 1..=MOST_NODES + 1 {
        write!(text, "boot {node}\n")?;
    }
    Ok(text)
}

/// What the births print, the last of which prints this.
fn births_printed(alloc: Global, last: &str) -> Result<String, AllocError> {
    let mut text = String::new(alloc);
    for node in 1..=MOST_NODES {
        write!(text, "entry {node} born {node}\n")?;
    }
    text.push_str(last)?;
    Ok(text)
}

/// A run of the scenario prints this text.
fn prints(rt: &(impl AllocGlobal + Threads + Wait + Sync), scenario: &str, text: &str) -> bool {
    let mut source = Source::new(scenario.as_bytes());
    let mut sink = Sink::new(Vec::new(rt.alloc()));
    let answer = run(rt, rt.alloc(), &mut source, &mut sink);
    answer == Ok(0) && sink.into_writer().as_slice() == text.as_bytes()
}

#[test]
fn a_scenario_fills_a_world(rt: HostRuntime) -> Result<(), Fail> {
    let scenario = scenario(rt.alloc())?;
    let printed = printed(rt.alloc())?;
    assert!(rt; prints(&rt, scenario.as_str(), printed.as_str()));
    Ok(())
}

#[test]
fn the_scale_says_how_many_nodes_are_born(rt: HostRuntime) -> Result<(), Fail> {
    for (scale, last) in ONE_MORE {
        let scenario = births(rt.alloc(), scale)?;
        let printed = births_printed(rt.alloc(), last)?;
        assert!(rt; prints(&rt, scenario.as_str(), printed.as_str()));
    }
    Ok(())
}
