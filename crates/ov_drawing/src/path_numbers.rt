ghost use Rattle.std.specs.Prelude.{◌≡◌, ℕ, IfOk, OnOk};
ghost use Rattle.std.specs.BTreeMap.{get};
ghost use Rattle.ov_drawing.specs.Code.PathTests.{link_cmp, is_step, goes_along, or_at, path_from};

use ov_ids::{NodeId, OutOfMemory};
use ov_lists::Paths;
use std::alloc::Global;
use std::collections::BTreeMap;

/// The places of paths by the links that they go along, each link with its lower end first.
pub(crate) type PathNumbers = BTreeMap<(NodeId, NodeId), usize>;

/// For each link that one of the paths goes along, the place of the first path that does, counted from 0.
pub(crate) fn path_numbers(alloc: Global, paths: &Paths) -> Result<PathNumbers, OutOfMemory>
    ensures { IfOk result (λ numbers. (l : ℕ × ℕ) → get link_cmp numbers l ≡ path_from 0 paths.now l) }
{
    let mut numbers = BTreeMap::new(alloc);
    for (at, path) in paths.iter().enumerate() {
        put_path(&mut numbers, path, at)?;
    }
    Ok(numbers)
}

/// Puts the place of a path at each link that it goes along, unless one is there.
fn put_path(numbers: &mut PathNumbers, path: &[NodeId], at: usize) -> Result<(), OutOfMemory>
    ensures { OnOk result ((l : ℕ × ℕ) → get link_cmp numbers.new l
        ≡ or_at (get link_cmp numbers.old l) (goes_along path.now l) at) }
{
    let Some((first, mut rest)) = path.split_first() else {
        return Ok(());
    };
    let mut from = *first;
    while let Some((next, more)) = rest.split_first() {
        put_step(numbers, from, *next, at)?;
        from = *next;
        rest = more;
    }
    Ok(())
}

/// Puts the place of a path at the link between two ids, unless one is there.
fn put_step(numbers: &mut PathNumbers, a: NodeId, b: NodeId, at: usize) -> Result<(), OutOfMemory>
    ensures { OnOk result ((l : ℕ × ℕ) → get link_cmp numbers.new l
        ≡ or_at (get link_cmp numbers.old l) (is_step l a b) at) }
{
    let link = if a < b { (a, b) } else { (b, a) };
    if !numbers.contains_key(&link) {
        numbers.insert(link, at)?;
    }
    Ok(())
}
