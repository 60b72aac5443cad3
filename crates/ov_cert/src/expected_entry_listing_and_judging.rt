ghost use Rattle.std.specs.Prelude.{◌≡◌, ◌↔◌, ◌++◌, length, [], IfSome, IsNone, IsOk, IfOk, IfErr, OnOk};
ghost use Rattle.ov_graph.specs.Joined.{IsNodeSet};
ghost use Rattle.ov_graph.specs.Even.{later_members};
ghost use Rattle.ov_cert.specs.declared.cert.Cert.TheVariants as cert;
ghost use Rattle.ov_cert.specs.Verdict.{PassesFrame};
ghost use Rattle.ov_cert.specs.Entries.{of_pairs, of_fans, AreExpected, IsExpected, HoldsEntry, entry_fault};
ghost use Rattle.ov_cert.specs.Flaws.{HasEntryFlaw};
ghost use Rattle.ov_cert.specs.Code.Tests.{unlinked_before, pairs_after};

use crate::cert::Split;
use crate::entry_judging::{fan_flaw, pair_flaw};
use crate::expected_entry_with_place_and_fault::Expected;
use crate::fault::CheckFault;
use crate::first_and_later_members::{first_members, later_members};
use crate::path_and_entry_flaws::EntryFlaw;
use crate::path_judging::are_linked;
use ov_graph::Graph;
use ov_ids::{NodeId, OutOfMemory};
use std::alloc::Global;

/// The expected entries of a certificate for the group of all nodes. See `expected_group`. OutOfMemory (99) if an
/// allocation is refused.
pub fn expected(alloc: Global, graph: &Graph, split: &Split) -> Result<Vec<Expected>, OutOfMemory>
    ensures { IfOk result (λ entries. AreExpected graph.now graph.now.nodes split.now.k entries.items) }
{
    expected_group(alloc, graph, graph.nodes(), split)
}

/// The expected entries of a certificate for a group, which is a set of nodes. First come the unlinked pairs among the
/// first k members, then the fans of the later members. Faults: out of memory (99).
pub fn expected_group(
    alloc: Global,
    graph: &Graph,
    group: &[NodeId],
    split: &Split,
) -> Result<Vec<Expected>, OutOfMemory>
    requires { IsNodeSet graph.now group.now }
    ensures { IfOk result (λ entries. AreExpected graph.now group.now split.now.k entries.items) }
{
    let k = split.k as usize;
    let mut entries = Vec::new(alloc);
    add_pairs(graph, first_members(group, k), &mut entries)?;
    add_fans(later_members(group, k), &mut entries)?;
    Ok(entries)
}

/// Appends the expected pairs among these members.
fn add_pairs(
    graph: &Graph,
    first: &[NodeId],
    entries: &mut Vec<Expected>,
) -> Result<(), OutOfMemory>
    requires { entries.old.items ≡ [] }
    ensures { OnOk result (entries.new.items ≡ of_pairs 0 (pairs_after graph.now [] first.now)) }
{
    for (place, j) in first.iter().enumerate() {
        add_pairs_of(graph, &first[..place], *j, entries)?;
    }
    Ok(())
}

/// Appends the expected pairs of `j` with the earlier members.
fn add_pairs_of(
    graph: &Graph,
    earlier: &[NodeId],
    j: NodeId,
    entries: &mut Vec<Expected>,
) -> Result<(), OutOfMemory>
    ensures { OnOk result (entries.new.items ≡ entries.old.items ++ of_pairs (length entries.old.items)
        (unlinked_before graph.now earlier.now j)) }
{
    for i in earlier {
        if are_linked(graph, *i, j) {
            continue;
        }
        let at = entries.len();
        entries.push(Expected::Pair { at, i: *i, j })?;
    }
    Ok(())
}

/// Appends the expected fans of these members.
fn add_fans(later: &[NodeId], entries: &mut Vec<Expected>) -> Result<(), OutOfMemory>
    ensures { OnOk result (entries.new.items ≡ entries.old.items ++ of_fans 0 later.now) }
{
    for (at, j) in later.iter().enumerate() {
        entries.push(Expected::Fan { at, j: *j })?;
    }
    Ok(())
}

/// Checks one expected entry of a certificate for the group of all nodes. See `judge_group_entry`. Allocates nothing.
pub fn judge_entry(graph: &Graph, split: &Split, entry: Expected) -> Result<(), CheckFault>
    requires frame { PassesFrame graph.now graph.now.nodes (cert.Split split.now) }
    requires expected { IsExpected graph.now graph.now.nodes split.now.k entry }
    ensures holds { IsOk result ↔ HoldsEntry graph.now graph.now.nodes split.now entry }
    ensures fault { IfErr result (λ fault. fault ≡ entry_fault entry) }
{
    judge_group_entry(graph, graph.nodes(), split, entry)
}

/// Checks one expected entry of a certificate for a group. The frame must have no fault. Returns Pair (43) or Fan (44)
/// exactly if the entry is missing, names other nodes, or has wrong paths. Allocates nothing.
pub fn judge_group_entry(
    graph: &Graph,
    group: &[NodeId],
    split: &Split,
    entry: Expected,
) -> Result<(), CheckFault>
    requires frame { PassesFrame graph.now group.now (cert.Split split.now) }
    requires expected { IsExpected graph.now group.now split.now.k entry }
    ensures holds { IsOk result ↔ HoldsEntry graph.now group.now split.now entry }
    ensures fault { IfErr result (λ fault. fault ≡ entry_fault entry) }
{
    match entry_flaw(graph, group, split, entry) {
        Some(_) => Err(entry.fault()),
        None => Ok(()),
    }
}

/// What is wrong with the entry at the place of an expected entry of a group, which is a set of nodes. None exactly if
/// the certificate has the right entry there. Allocates nothing.
pub fn entry_flaw(
    graph: &Graph,
    group: &[NodeId],
    split: &Split,
    entry: Expected,
) -> Option<EntryFlaw>
    requires group { IsNodeSet graph.now group.now }
    requires expected { IsExpected graph.now group.now split.now.k entry }
    ensures right { IsNone result ↔ HoldsEntry graph.now group.now split.now entry }
    ensures flaw { IfSome result (λ flaw. HasEntryFlaw graph.now group.now split.now entry flaw) }
{
    let k = split.k as usize;
    match entry {
        Expected::Pair { at, i, j } => pair_flaw(graph, k, split.pairs.as_slice(), at, i, j),
        Expected::Fan { at, j } => fan_flaw(graph, group, k, split.fans.as_slice(), at, j),
    }
}
