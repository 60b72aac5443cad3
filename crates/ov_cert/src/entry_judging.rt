ghost use Rattle.std.specs.Prelude.{◌≡◌, ◌≢◌, ◌+◌, ℕ, ◌<◌, length, true, Some, is_none, slice_get};
ghost use Rattle.ov_ids.specs.Members.{Has, Ascends};
ghost use Rattle.ov_graph.specs.Links.{IsGroup};
ghost use Rattle.ov_graph.specs.Even.{later_members};
ghost use Rattle.ov_cert.specs.Code.Tests.{is_pair_entry, is_fan_entry, unlinked_before, expected_pairs};
ghost use Rattle.ov_cert.specs.Code.Tests.{pairs_fault, fans_fault, IsCheckOf};
ghost use Rattle.ov_cert.specs.Code.Flaws.{pair_entry_flaw, fan_entry_flaw};

use crate::cert::{FanPaths, PairPaths};
use crate::fault::CheckFault;
use crate::first_and_later_members::{first_members, later_members};
use crate::path_and_entry_flaws::EntryFlaw;
use crate::path_judging::{are_linked, flaw_of_fan, flaw_of_paths};
use ov_graph::Graph;
use ov_ids::NodeId;

/// What is wrong with an entry that should name the pair and have k right paths.
fn flaw_of_pair(
    graph: &Graph,
    k: usize,
    i: NodeId,
    j: NodeId,
    entry: &PairPaths,
) -> Option<EntryFlaw>
    requires i { Has graph.now.nodes i }
    requires j { Has graph.now.nodes j }
    requires differ { i ≢ j }
    ensures { result ≡ pair_entry_flaw graph.now k (i, j) (Some entry.now) }
{
    if entry.i != i || entry.j != j {
        return Some(EntryFlaw::NamesOthers);
    }
    if entry.paths.len() != k {
        return Some(EntryFlaw::Number);
    }
    flaw_of_paths(graph, i, j, &entry.paths)
}

/// What is wrong with an entry that should name the member and have a fan of k right paths.
fn flaw_of_member(
    graph: &Graph,
    group: &[NodeId],
    k: usize,
    j: NodeId,
    entry: &FanPaths,
) -> Option<EntryFlaw>
    requires group { Ascends group.now }
    requires j { Has graph.now.nodes j }
    ensures { result ≡ fan_entry_flaw graph.now group.now k j (Some entry.now) }
{
    if entry.j != j {
        return Some(EntryFlaw::NamesOthers);
    }
    if entry.paths.len() != k {
        return Some(EntryFlaw::Number);
    }
    flaw_of_fan(graph, group, j, &entry.paths)
}

/// What is wrong with the entry at a place, which should be a right entry of the pair.
pub(crate) fn pair_flaw(
    graph: &Graph,
    k: usize,
    entries: &[PairPaths],
    place: usize,
    i: NodeId,
    j: NodeId,
) -> Option<EntryFlaw>
    requires i { Has graph.now.nodes i }
    requires j { Has graph.now.nodes j }
    requires differ { i ≢ j }
    ensures flaw { result ≡ pair_entry_flaw graph.now k (i, j) (slice_get entries.now place) }
    ensures right { is_none result ≡ is_pair_entry graph.now k (i, j) (slice_get entries.now place) }
    ensures within { is_none result ≡ true → place < length entries.now }
{
    match entries.get(place) {
        Some(entry) => flaw_of_pair(graph, k, i, j, entry),
        None => Some(EntryFlaw::Missing),
    }
}

/// What is wrong with the entry at a place, which should be a right fan of the member.
pub(crate) fn fan_flaw(
    graph: &Graph,
    group: &[NodeId],
    k: usize,
    entries: &[FanPaths],
    place: usize,
    j: NodeId,
) -> Option<EntryFlaw>
    requires group { Ascends group.now }
    requires j { Has graph.now.nodes j }
    ensures flaw { result ≡ fan_entry_flaw graph.now group.now k j (slice_get entries.now place) }
    ensures right { is_none result ≡ is_fan_entry graph.now group.now k j (slice_get entries.now place) }
{
    match entries.get(place) {
        Some(entry) => flaw_of_member(graph, group, k, j, entry),
        None => Some(EntryFlaw::Missing),
    }
}

/// Checks the entries of the unlinked pairs of `j` with the earlier nodes, from a place on. Returns the place after
/// them.
fn check_pairs_of(
    graph: &Graph,
    k: usize,
    entries: &[PairPaths],
    place: usize,
    earlier: &[NodeId],
    j: NodeId,
) -> Result<usize, CheckFault>
    requires earlier { (i : ℕ) → Has earlier.now i → Has graph.now.nodes i × (i ≢ j) }
    requires j { Has graph.now.nodes j }
    ensures { IsCheckOf (place + length (unlinked_before graph.now earlier.now j))
        (pairs_fault graph.now k entries.now place (unlinked_before graph.now earlier.now j)) result }
{
    let mut next = place;
    for i in earlier {
        if are_linked(graph, *i, j) {
            continue;
        }
        if pair_flaw(graph, k, entries, next, *i, j).is_some() {
            return Err(CheckFault::Pair { i: *i, j });
        }
        next += 1;
    }
    Ok(next)
}

/// Checks the entries of the unlinked pairs among the first k members. Returns the number of these pairs.
pub(crate) fn check_pairs(
    graph: &Graph,
    group: &[NodeId],
    k: usize,
    entries: &[PairPaths],
) -> Result<usize, CheckFault>
    requires { IsGroup graph.now group.now }
    ensures { IsCheckOf (length (expected_pairs graph.now group.now k))
        (pairs_fault graph.now k entries.now 0 (expected_pairs graph.now group.now k)) result }
{
    let first = first_members(group, k);
    let mut count = 0;
    for (place, j) in first.iter().enumerate() {
        match check_pairs_of(graph, k, entries, count, &first[..place], *j) {
            Ok(next) => count = next,
            Err(fault) => return Err(fault),
        }
    }
    Ok(count)
}

/// Checks the fans of the members after the first k. Returns the number of these members.
pub(crate) fn check_fans(
    graph: &Graph,
    group: &[NodeId],
    k: usize,
    entries: &[FanPaths],
) -> Result<usize, CheckFault>
    requires { IsGroup graph.now group.now }
    ensures { IsCheckOf (length (later_members group.now k))
        (fans_fault graph.now group.now k entries.now 0 (later_members group.now k)) result }
{
    let later = later_members(group, k);
    for (place, j) in later.iter().enumerate() {
        if fan_flaw(graph, group, k, entries, place, *j).is_some() {
            return Err(CheckFault::Fan { j: *j });
        }
    }
    Ok(later.len())
}
