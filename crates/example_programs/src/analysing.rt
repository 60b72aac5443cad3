//! How many routers of a network may fail before two offices lose each other.
use crate::failures::{analysis, withstands};
use crate::routers::{Names, OFFICES, network};
use anyhow::Result;
use ov_cert::{Cert, Checked};
use ov_ids::NodeId;
use std::alloc::Global;
use std::thread::Threads;

/// The highest number of failures that is asked about.
const MOST_FAILURES: u32 = 3;

/// Analyses the network, and prints what it withstands.
pub(crate) fn print_failures(rt: &(impl Print + Threads + Sync), alloc: Global) -> Result<()> {
    let network = network(alloc)?;
    let offices = OFFICES.map(|place| NodeId(place));
    let checked = analysis(rt, alloc, &network, &offices)?;
    print_cut(rt, &checked)?;
    for failures in 0..=MOST_FAILURES {
        let holds = withstands(&checked, failures);
        println!(rt;
            "after any {failures} failures all offices that are left stay joined: {holds}"
        )?;
    }
    Ok(())
}

/// Prints which routers must fail to part two offices, and which two that parts.
fn print_cut(rt: &impl Print, checked: &Checked) -> Result<()> {
    match checked.cert() {
        Cert::Linked { .. } => println!(rt; "each two offices have a cable")?,
        Cert::Split(split) => {
            let cut = Names(split.cut.as_slice());
            println!(rt; "without{cut}")?;
            let near = [split.near];
            let far = [split.far];
            println!(rt; "no way leads from{} to{}", Names(&near), Names(&far))?;
        }
    }
    Ok(())
}
