//! The most bytes that the texts of entries need.
ghost use Rattle.std.specs.Prelude.{◌<◌, ◌≤◌, ◌*◌, length, IfOk};
ghost use Rattle.std.specs.List.{All};
ghost use Rattle.ov_certwriter.specs.Code.Blocks.{AreWithin, AreRoomsOf};

use crate::entry_texts::Entry;
use ov_ids::{OutOfMemory, Workers};
use std::alloc::Global;
use std::thread;
use std::thread::Threads;

/// How many entries there are at least before one more thread saves time.
const ENTRIES_WORTH_A_THREAD: u64 = 1 << 10;

/// A number that no room of these entries is above; the largest number, if some room is so large. The entries are
/// shared out among the workers who save time. OutOfMemory (99) if an allocation is refused.
pub(crate) fn largest_room<R: Threads + Sync, T: Entry>(
    rt: &R,
    alloc: Global,
    workers: Workers,
    entries: &[T],
) -> Result<usize, OutOfMemory>
    ensures { IfOk result (λ room. room < usize.MAX → AreWithin T.paths_of room entries.now) }
{
    let threads = workers
        .at_most(entries.len() as u64 / ENTRIES_WORTH_A_THREAD)
        .count();
    let size = entries.len().div_ceil(threads as usize).max(1);
    let rooms = rooms_of_parts(rt, alloc, entries, size)?;
    Ok(largest(&rooms))
}

/// For each part of these entries a number that no room of the part is above; or the largest number, if some room is so
/// large. Each part has this many entries, but the last may have fewer, and is looked at in a thread of its own.
fn rooms_of_parts<R: Threads + Sync, T: Entry>(
    rt: &R,
    alloc: Global,
    entries: &[T],
    size: usize,
) -> Result<Vec<usize>, OutOfMemory>
    requires { 0 < size }
    ensures parts { IfOk result (λ rooms. AreRoomsOf T.paths_of size entries.now rooms.items) }
    ensures enough { IfOk result (λ rooms. length entries.now ≤ length rooms.items * size) }
{
    let room_of_part = |_start: usize, part: &[T]| -> usize
        ensures { result < usize.MAX → AreWithin T.paths_of result part.entry.now }
    { room_of_all(part) };
    Ok(thread::map_chunks(rt, alloc, entries, size, &room_of_part)?)
}

/// A number that none of these is above.
fn largest(numbers: &[usize]) -> usize
    ensures { All (λ number. number ≤ result) numbers.now }
{
    let mut largest = 0;
    for number in numbers {
        largest = (*number).max(largest);
    }
    largest
}

/// A number that no room of these entries is above; the largest number, if some room is so large.
fn room_of_all<T: Entry>(entries: &[T]) -> usize
    ensures { result < usize.MAX → AreWithin T.paths_of result entries.now }
{
    let mut largest = 0;
    for entry in entries {
        largest = entry.room().max(largest);
    }
    largest
}
