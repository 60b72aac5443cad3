//! Analyses in which an allocation is refused. `dev/refuse-allocations` refuses each in turn.
use crate::crew::crews::{Row, crew_of, gives};
use crate::crew::graphs::{Family, of_size};
use ov_cert::Cert;
use ov_crew::{OpenGate, analyse};
use ov_even::AnalyseFault;
use std::alloc::Global;
use std::test::Fail;
use std::thread::Threads;

/// Each of 32 odd nodes is linked to each of 32 even ones. Of the first 32 members 240 pairs are not linked, and there
/// are 32 later members. These are 272 entries with 32 paths each, 8,704 paths, and a thread more pays for each 4,096.
static NAMED_BY_TWO: Row = Row {
    family: Family::TwoSides,
    nodes: 64,
    members: 64,
    k: 32,
    cut: &[
        2, 4, 6, 8, 10, 12, 14, 16, 18, 20, 22, 24, 26, 28, 30, 32, 34, 36, 38, 40, 42, 44, 46, 48,
        50, 52, 54, 56, 58, 60, 62, 64,
    ],
    near: 1,
    far: 3,
    side: &[1],
};

/// The number of entries of its certificate, for pairs and for fans.
const ENTRIES_BY_TWO: (usize, usize) = (240, 32);

/// The certificate gives the answer, and has all entries.
fn is_whole(cert: &Cert, row: &Row, entries: (usize, usize)) -> bool {
    let Cert::Split(split) = cert else {
        return false;
    };
    let found = (split.pairs.as_slice().len(), split.fans.as_slice().len());
    gives(cert, row) && found == entries
}

/// So many workers find the whole certificate, the second time if memory is refused the first time. Tells whether it
/// was refused.
fn is_refused_once<R: Threads + Sync>(
    rt: &R,
    alloc: Global,
    row: &Row,
    entries: (usize, usize),
    count: u32,
) -> Result<bool, Fail> {
    let graph = of_size(alloc, row.family, row.nodes)?;
    let workers = crew_of(count)?;
    match analyse(rt, alloc, &graph, workers, &OpenGate) {
        Ok(first) if is_whole(first.cert(), row, entries) => return Ok(false),
        Err(AnalyseFault::OutOfMemory) => {}
        _ => return Err("an analysis has another answer".into()),
    }
    match analyse(rt, alloc, &graph, workers, &OpenGate) {
        Ok(again) if is_whole(again.cert(), row, entries) => Ok(true),
        _ => Err("an analysis that is made again has another answer".into()),
    }
}

/// If an allocation of an analysis is refused, it is out of memory. The same call, made again, gives the answer.
#[test]
fn out_of_memory_changes_no_certificate(rt: HostRuntime) -> Result<(), Fail> {
    if is_refused_once(&rt, rt.alloc(), &NAMED_BY_TWO, ENTRIES_BY_TWO, 2)? {
        let _ = println!(rt; "seen: analyse of 64 nodes by 2: refused 99, then the row's answer");
    }
    Ok(())
}
