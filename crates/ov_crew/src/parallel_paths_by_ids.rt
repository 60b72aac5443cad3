//! Names paths by ids in several threads.
ghost use Rattle.std.specs.Prelude.{◌≡◌, ℕ, ◌<◌, ◌≤◌, ◌*◌, List, length, map, IfOk};
ghost use Rattle.ov_even.specs.Naming.{AreFound, named_of};
ghost use Rattle.ov_even.specs.declared.paths_by_ids.NamedPaths.{NamedPaths as named_paths};
ghost use Rattle.ov_crew.specs.Code.Parts.{AreParts};

use crate::threads_by_amount_of_work::Hiring;
use ov_even::{FoundPaths, NamedPaths, name_paths};
use ov_graph::Graph;
use ov_ids::{NodeId, OutOfMemory};
use std::alloc::Global;
use std::thread;
use std::thread::Threads;

/// The same pieces in the same order, with their paths by ids. Each thread takes the pieces of one part of the list.
/// Faults: out of memory.
pub(crate) fn name_by_crew<R: Threads + Sync>(
    rt: &R,
    alloc: Global,
    graph: &Graph,
    group: &[NodeId],
    found: &[FoundPaths<'_>],
    hiring: &Hiring,
) -> Result<Vec<NamedPaths>, OutOfMemory>
    requires { AreFound graph.now group.now found.now }
    ensures { IfOk result (λ named. named.items ≡ map (named_of graph.now group.now) found.now) }
{
    let size = hiring.pieces_a_thread(found);
    let parts = name_parts(rt, alloc, graph, group, found, size)?;
    Ok(joined(alloc, parts)?)
}

/// A part of the list with its paths by ids, or out of memory.
type Part = Result<Vec<NamedPaths>, OutOfMemory>;

/// The parts of the list, in order. Each has `size` pieces, but the last may have fewer. Each is named in a thread of
/// its own.
fn name_parts<R: Threads + Sync>(
    rt: &R,
    alloc: Global,
    graph: &Graph,
    group: &[NodeId],
    found: &[FoundPaths<'_>],
    size: usize,
) -> Result<Vec<Part>, OutOfMemory>
    requires found { AreFound graph.now group.now found.now }
    requires size { 0 < size }
    ensures parts { IfOk result (λ parts. AreParts size (map (named_of graph.now group.now) found.now) parts.items) }
    ensures enough { IfOk result (λ parts. length found.now ≤ length parts.items * size) }
{
    let name = |_start: usize, part: &[FoundPaths<'_>]| -> Result<Vec<NamedPaths>, OutOfMemory>
        requires { AreFound graph.now group.now part.now }
        ensures { IfOk result (λ named. named.items ≡ map (named_of graph.entry.now group.entry.now) part.entry.now) }
    { name_paths(alloc, graph, group, part) };
    Ok(thread::map_chunks(rt, alloc, found, size, &name)?)
}

/// All parts in one list. Faults: out of memory, if any part is out of memory.
fn joined(alloc: Global, parts: Vec<Part>) -> Result<Vec<NamedPaths>, OutOfMemory>
    ensures { (size : ℕ) (named : List named_paths) → AreParts size named parts.items
        → length named ≤ length parts.items * size → IfOk result (λ all. all.items ≡ named) }
{
    let mut all = Vec::new(alloc);
    for part in parts {
        let mut part = part?;
        all.append(&mut part)?;
    }
    Ok(all)
}
