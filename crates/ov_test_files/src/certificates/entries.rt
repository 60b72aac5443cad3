//! The verdict on each of the entries that are expected of a certificate.
ghost use Rattle.std.specs.Prelude.{◌<◌, length};
ghost use Rattle.ov_cert.specs.Entries.{AreExpected};
ghost use Rattle.ov_cert.specs.Verdict.{PassesFrame};
ghost use Rattle.ov_cert.specs.declared.cert.Cert.TheVariants as cert;

use crate::certificates::files::{FIVE_BUT_ONE, RING_GROUP, SQUARE, TWO_UNLINKED};
use crate::certificates::told::changed;
use ov_cert::{
    Cert, CheckFault, Expected, Split, check_group_frame, expected_group, judge_group_entry,
};
use ov_certfile::{Filed, from_text};
use ov_graph::Graph;
use ov_ids::{NodeId, OutOfMemory};
use std::alloc::Global;

/// A verdict in numbers: 0 if the entry holds, or the number of the fault and the node or the two nodes of the entry.
type Told = (u32, u32, u32);

const HOLDS: Told = (0, 0, 0);

/// The verdict in numbers.
fn numbers_of(verdict: Result<(), CheckFault>) -> Told {
    let Err(fault) = verdict else {
        return HOLDS;
    };
    match fault {
        CheckFault::Pair { i, j, .. } => (fault.number(), i.number(), j.number()),
        CheckFault::Fan { j, .. } => (fault.number(), j.number(), 0),
        _ => (fault.number(), 0, 0),
    }
}

/// The verdict on the entry of a group at a place.
fn verdict_of_at(
    graph: &Graph,
    group: &[NodeId],
    split: &Split,
    entries: &[Expected],
    place: usize,
) -> Told
    requires frame { PassesFrame graph.now group.now (cert.Split split.now) }
    requires expected { AreExpected graph.now group.now split.now.k entries.now }
    requires place { place < length entries.now }
{
    numbers_of(judge_group_entry(graph, group, split, entries[place]))
}

/// Whether the entries have these verdicts.
fn have_verdicts(
    graph: &Graph,
    group: &[NodeId],
    split: &Split,
    entries: &[Expected],
    told: &[Told],
) -> bool
    requires frame { PassesFrame graph.now group.now (cert.Split split.now) }
    requires expected { AreExpected graph.now group.now split.now.k entries.now }
{
    for place in 0..entries.len() {
        let verdict = verdict_of_at(graph, group, split, entries, place);
        if told.get(place) != Some(&verdict) {
            return false;
        }
    }
    entries.len() == told.len()
}

/// Whether the entries that are expected of a certificate have these verdicts.
fn are_judged(
    alloc: Global,
    graph: &Graph,
    group: &[NodeId],
    cert: &Cert,
    told: &[Told],
) -> Result<bool, OutOfMemory> {
    if check_group_frame(graph, group, cert).is_err() {
        return Ok(false);
    }
    if let Cert::Split(split) = cert {
        let entries = expected_group(alloc, graph, group, split)?;
        return Ok(have_verdicts(graph, group, split, &entries, told));
    }
    Ok(false)
}

/// Whether the entries that are expected of the certificate in a file have these verdicts.
fn has_verdicts(alloc: Global, text: &str, told: &[Told]) -> bool {
    match from_text(alloc, text) {
        Ok(filed) => is_judged(alloc, &filed, told),
        Err(_) => false,
    }
}

fn is_judged(alloc: Global, filed: &Filed, told: &[Told]) -> bool {
    are_judged(
        alloc,
        &filed.graph,
        filed.group.as_slice(),
        &filed.cert,
        told,
    ) == Ok(true)
}

/// Whether the file with one part in place of another has these verdicts.
fn has_row(alloc: Global, file: &str, old: &str, new: &str, told: &[Told]) -> bool {
    match changed(alloc, file, old, new) {
        Ok(text) => has_verdicts(alloc, text.as_str(), told),
        Err(_) => false,
    }
}

/// A file, a part of it and what stands in its place, and the verdicts on the entries that are expected.
type Row = (&'static str, &'static str, &'static str, &'static [Told]);

static JUDGED: [Row; 9] = [
    (SQUARE, r#""k":2"#, r#""k":2"#, &[HOLDS, HOLDS]),
    (SQUARE, "[4,1],[4,3]", "[4,3,1],[4,3]", &[HOLDS, (44, 4, 0)]),
    (
        SQUARE,
        r#"[[3,2],[3,4,1]]},{"j":4,"paths":[[4,1],[4,3]]"#,
        r#"[[3,4,1,2],[3,2]]},{"j":4,"paths":[[4,3,1],[4,3]]"#,
        &[(44, 3, 0), (44, 4, 0)],
    ),
    (
        FIVE_BUT_ONE,
        r#"{"i":1,"j":2,"paths":[[1,3,2],[1,4,2],[1,5,2]]}"#,
        "",
        &[(43, 1, 2), HOLDS, HOLDS],
    ),
    (TWO_UNLINKED, r#""k":0"#, r#""k":0"#, &[]),
    (RING_GROUP, r#""k":2"#, r#""k":2"#, &[HOLDS, HOLDS]),
    (
        RING_GROUP,
        r#"{"i":1,"j":3,"paths":[[1,2,3],[1,5,4,3]]}"#,
        "",
        &[(43, 1, 3), HOLDS],
    ),
    (RING_GROUP, "[5,4,3]]}]", "[5,4]]}]", &[HOLDS, (44, 5, 0)]),
    (
        RING_GROUP,
        r#"{"j":5,"paths":[[5,1],[5,4,3]]}],"far":3,"group":[1,3,5]"#,
        r#"],"far":3,"group":[1,3]"#,
        &[HOLDS],
    ),
];

#[test]
fn entries_are_judged_one_by_one(rt: HostRuntime) {
    for (place, (file, old, new, told)) in JUDGED.iter().enumerate() {
        assert!(rt; has_row(rt.alloc(), file, old, new, told), "in row {place}");
    }
}
