//! Paths are read from one flat list. Each is written there from its end back to the source.
ghost use Rattle.std.specs.Prelude.{◌≡◌, ◌-◌, ◌<◌, ◌≤◌, ◌==◌, ℕ, [], ◌∷◌, ◌++◌, map, reverse, length};
ghost use Rattle.std.specs.Prelude.{get_or, slice_index, IfSome, MatchOption, OnOk};
ghost use Rattle.std.specs.List.{position};
ghost use Rattle.ov_ids.specs.Members.{Has};
ghost use Rattle.ov_flow.specs.Flow.{ended_by};
ghost use Rattle.ov_flow.specs.Code.Flat.{paths_after, paths_in};

use ov_ids::{NodeId, OutOfMemory};
use ov_lists::PathsBuilder;

/// The source, which is the last place of a flat list, or 0 if the list is empty.
pub(crate) fn source_in(flat: &[u16]) -> u16
    ensures { result ≡ get_or flat.now (length flat.now - 1) 0 }
{
    match flat.last() {
        Some(source) => *source,
        None => 0,
    }
}

/// How many paths a flat list has.
pub(crate) fn count_paths(flat: &[u16]) -> usize
    ensures count { result ≡ length (paths_in flat.now) }
    ensures few { result ≤ length flat.now }
{
    let source = source_in(flat);
    let mut count = 0;
    for place in flat.iter() {
        if *place == source {
            count += 1;
        }
    }
    count
}

/// The first place of the source in a flat list.
#[inline(always)]
fn place_of(flat: &[u16], source: u16) -> Option<usize>
    ensures place { result ≡ position (λ p. p == source) flat.now }
    ensures within { IfSome result (λ i. i < length flat.now) }
{
    flat.iter().position(|place| *place == source)
}

/// The first path as it is written, and the rest of the flat list.
#[inline(always)]
pub(crate) fn split_path(flat: &[u16], source: u16) -> Option<(&[u16], &[u16])>
    ensures paths { MatchOption result (paths_after source [] flat.now ≡ []) (λ parts. paths_after source [] flat.now
        ≡ reverse parts.0.now ∷ paths_after source [] parts.1.now) }
    ensures shorter { IfSome result (λ parts. length parts.1.now < length flat.now) }
{
    match place_of(flat, source) {
        Some(end) => Some(flat.split_at(end + 1)),
        None => None,
    }
}

/// Appends a path by ids, from the source to its end, and then `last` if one is given. `path` is written from its end
/// back to the source. No path may be begun.
pub(crate) fn push_by_ids(
    paths: &mut PathsBuilder,
    nodes: &[NodeId],
    path: &[u16],
    last: Option<NodeId>,
) -> Result<(), OutOfMemory>
    requires places { (p : ℕ) → Has path.now p → p < length nodes.now }
    requires begun { paths.old.begun ≡ [] }
    ensures pushed { OnOk result (paths.new.paths ≡ paths.old.paths
        ++ ended_by last (map (λ p. slice_index nodes.now p) (reverse path.now)) ∷ []) }
    ensures ended { OnOk result (paths.new.begun ≡ []) }
{
    let mut left = path;
    while let Some((place, before)) = left.split_last() {
        paths.push_id(nodes[*place as usize])?;
        left = before;
    }
    if let Some(id) = last {
        paths.push_id(id)?;
    }
    paths.end_path()
}
