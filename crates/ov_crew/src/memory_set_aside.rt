//! Memory for the many short lists of one thread.

use ov_even::Keeping;
use std::alloc::Global;

/// How many bytes a large block has. (Chosen here: the allocator takes blocks of up to 32 MB from a thread's place, and
/// a place has 64 MB.)
const LARGE: usize = 28 << 20;

/// From how many pieces on it is worth it. (Chosen here.)
const MANY_PIECES: u64 = 4096;

/// Sets memory aside for a thread that keeps the paths of many pieces. The allocator of the C library gives each thread
/// a place of its own, and asks the system to lengthen it by as little as one list needs, for which all other threads
/// wait. A place stays as long as it was once: so two large blocks are taken and given back. One more comes before
/// them, since the allocator asks the system for the first large block by itself. If memory is short, nothing is set
/// aside.
pub(crate) fn set_memory_aside(alloc: Global, pieces: u64, keeping: Keeping) {
    if pieces < MANY_PIECES || matches!(keeping, Keeping::CutsAlone) {
        return;
    }
    let _ = Vec::<u8>::with_capacity(alloc, LARGE);
    let _one = Vec::<u8>::with_capacity(alloc, LARGE);
    let _other = Vec::<u8>::with_capacity(alloc, LARGE);
}
