ghost use Rattle.std.specs.Prelude.{◌≡◌, ◌≢◌, ◌↔◌, ◌^◌, ◌<◌, ◌≤◌, Err, length, slice_get, IsTrue, IsOk, OnOk};
ghost use Rattle.std.specs.Prelude.{MatchOption, MatchResult};
ghost use Rattle.ov_graph.specs.Joined.{Fewest, FewestForGroup, IsNodeSet};
ghost use Rattle.ov_graph.specs.Even.{later_members};
ghost use Rattle.ov_cert.specs.declared.cert.Cert.TheVariants as cert;
ghost use Rattle.ov_cert.specs.Valid.{IsValid, IsValidForGroup, k_of};
ghost use Rattle.ov_cert.specs.Verdict.{AllHold, IsFirstAtFault, PassesFrame, JudgedForAll, JudgedForGroup};
ghost use Rattle.ov_cert.specs.Entries.{AreExpected, IsExpected, HoldsEntry};
ghost use Rattle.ov_check.specs.Parallel.{SaysVerdict, NeedsEntries};
ghost use Rattle.ov_check.specs.Code.Threads.{Misses};

use crate::check_or_memory_fault::ParallelFault;
use ov_cert::{
    Cert, CheckFault, Expected, Split, check_group_frame, expected_group, judge_group_entry,
};
use ov_graph::Graph;
use ov_ids::{NodeId, OutOfMemory};
use rayon::prelude::*;
use std::alloc::Global;
use std::thread::Threads;

/// The fewest entries that a thread judges. One thread judges all entries if there are fewer than twice this number:
/// starting another thread takes longer than judging them.
const LEAST_SHARE: usize = 32;

/// Judges a certificate for the group of all nodes by many threads. See `check_group_parallel`.
pub fn check_parallel(
    rt: &(impl AllocGlobal + Threads + Sync),
    graph: &Graph,
    cert: &Cert,
) -> Result<(), ParallelFault>
    ensures verdict { SaysVerdict (JudgedForAll graph.now cert.now) result }
    ensures valid { result ≢ Err ParallelFault.OutOfMemory → (IsOk result ↔ IsValid graph.now cert.now) }
    ensures memory { result ≡ Err ParallelFault.OutOfMemory → NeedsEntries graph.now graph.now.nodes cert.now }
    ensures fewest { OnOk result (Fewest graph.now (k_of cert.now)) }
{
    check_group_parallel(rt, graph, graph.nodes(), cert)
}

/// Judges a certificate for a group. The entries are judged by as many threads as `rayon` uses. The result is that of
/// `check_group`, with the same first fault.
///
/// `OutOfMemory` (99): an allocation was refused. This happens only if there are entries to judge: the certificate says
/// that k nodes split the group, k is not 0, and the frame has no fault.
pub fn check_group_parallel(
    rt: &(impl AllocGlobal + Threads + Sync),
    graph: &Graph,
    group: &[NodeId],
    cert: &Cert,
) -> Result<(), ParallelFault>
    ensures verdict { SaysVerdict (JudgedForGroup graph.now group.now cert.now) result }
    ensures valid { result ≢ Err ParallelFault.OutOfMemory
        → (IsOk result ↔ IsValidForGroup graph.now group.now cert.now) }
    ensures memory { result ≡ Err ParallelFault.OutOfMemory → NeedsEntries graph.now group.now cert.now }
    ensures fewest { OnOk result (FewestForGroup graph.now group.now (k_of cert.now)) }
{
    prove!(graph.nodes().len() <= Graph::MOST_OF_ANY);
    judge_parts(rt, graph, group, cert)
}

/// Judges the frame of a certificate, and then its entries.
fn judge_parts(
    rt: &(impl AllocGlobal + Threads + Sync),
    graph: &Graph,
    group: &[NodeId],
    cert: &Cert,
) -> Result<(), ParallelFault>
    ensures verdict { SaysVerdict (JudgedForGroup graph.now group.now cert.now) result }
    ensures memory { result ≡ Err ParallelFault.OutOfMemory → NeedsEntries graph.now group.now cert.now }
{
    check_group_frame(graph, group, cert)?;
    match cert {
        Cert::Linked { .. } => Ok(()),
        Cert::Split(split) => judge_entries(rt, graph, group, split),
    }
}

/// Judges the entries of a certificate whose frame passes.
fn judge_entries(
    rt: &(impl AllocGlobal + Threads + Sync),
    graph: &Graph,
    group: &[NodeId],
    split: &Split,
) -> Result<(), ParallelFault>
    requires { PassesFrame graph.now group.now (cert.Split split.now) }
    ensures verdict { SaysVerdict (JudgedForGroup graph.now group.now (cert.Split split.now)) result }
    ensures memory { result ≡ Err ParallelFault.OutOfMemory
        → NeedsEntries graph.now group.now (cert.Split split.now) }
{
    let entries = entries_of(rt.alloc(), graph, group, split)?;
    let count = entries.len();
    if let Some(entry) = first_missing(rt, graph, group, split, &entries) {
        return Err(ParallelFault::Check(entry.fault()));
    }
    let fans = count_fans(group, split.k as usize);
    if !has_no_more(split, count - fans, fans) {
        return Err(ParallelFault::Check(CheckFault::Extra));
    }
    Ok(())
}

/// The expected entries. If k is 0, there are none, and nothing is allocated.
#[tactic(auto, using(crate::proofs::Placed::none_expected))]
fn entries_of(
    alloc: Global,
    graph: &Graph,
    group: &[NodeId],
    split: &Split,
) -> Result<Vec<Expected>, OutOfMemory>
    requires { IsNodeSet graph.now group.now }
    ensures { MatchResult result (λ entries. AreExpected graph.now group.now split.now.k entries.items)
        (λ _. 0 < split.now.k) }
{
    if split.k == 0 {
        return Ok(Vec::new(alloc));
    }
    Ok(expected_group(alloc, graph, group, split)?)
}

/// The first of the expected entries that does not hold, if there is one. The later ones are judged too.
fn first_missing(
    rt: &(impl Threads + Sync),
    graph: &Graph,
    group: &[NodeId],
    split: &Split,
    entries: &[Expected],
) -> Option<Expected>
    requires frame { PassesFrame graph.now group.now (cert.Split split.now) }
    requires expected { AreExpected graph.now group.now split.now.k entries.now }
    requires few { length entries.now < 2 ^ 63 }
    ensures { MatchOption result
        (AllHold (λ _ entry. HoldsEntry graph.now group.now split.now entry) entries.now)
        (IsFirstAtFault (λ _ entry. HoldsEntry graph.now group.now split.now entry) entries.now) }
{
    let place = entries.par_iter().with_min_len(LEAST_SHARE).position_first(
        rt,
        |wanted: &Expected| -> bool
            requires frame { PassesFrame graph.now group.now (cert.Split split.now) }
            requires expected { IsExpected graph.now group.now split.now.k wanted.now }
            ensures { Misses (HoldsEntry graph.entry.now group.entry.now split.entry.now) wanted.now result }
        { judge_group_entry(graph, group, split, *wanted).is_err() },
    )?;
    entry_at(entries, place)
}

/// The entry at a place, counted from 0, if there is one.
fn entry_at(entries: &[Expected], place: usize) -> Option<Expected>
    ensures { result ≡ slice_get entries.now place }
{
    entries.get(place).copied()
}

/// How many fans are expected at k.
fn count_fans(group: &[NodeId], k: usize) -> usize
    ensures { result ≡ length (later_members group.now k) }
{
    if k == 0 {
        0
    } else {
        group.len().saturating_sub(k)
    }
}

/// Whether there are no more entries of pairs, and no more of fans, than these numbers.
fn has_no_more(split: &Split, pairs: usize, fans: usize) -> bool
    ensures { IsTrue result ↔ ((length split.now.pairs ≤ pairs) × (length split.now.fans ≤ fans)) }
{
    split.pairs.as_slice().len() <= pairs && split.fans.as_slice().len() <= fans
}
