//! Blocks in order, and those that are spare.
ghost use Rattle.std.specs.Prelude.{◌≡◌, ◌+◌, ◌-◌, ◌*◌, ◌^◌, ◌≤◌, ◌<◌, ◌⊎◌, ◌++◌, take, length, slice_index_or, OnOk};
ghost use Rattle.std.specs.List.{AllByRecursion, remove};
ghost use Rattle.ov_lists.specs.Code.Blocks.{Filled, block_size, joined, IsWhole, IsSpare};
ghost use Rattle.ov_lists.specs.Code.Dense.{AreDense, FitsWithNext, sizes, with_more, with_next};

use crate::block::{BLOCK, Block};
use ov_ids::OutOfMemory;
use std::alloc::Global;
use std::mem::replace;

/// Neighbours are joined if both together have at most this many items.
const JOINED: usize = BLOCK - 1;

/// The block in which the item at the place is, and its place there.
pub fn find<T>(blocks: &[Block<T>], place: usize) -> (usize, usize)
    requires { place < length (joined blocks.now) }
    ensures block { result.0 < length blocks.now }
    ensures inside { (d : Filled T) → result.1 < length (slice_index_or blocks.now result.0 d).items }
    ensures place { place ≡ length (joined (take result.0 blocks.now)) + result.1 }
{
    let mut block = 0;
    let mut rest = place;
    while block < blocks.len() {
        let count = blocks[block].len();
        if rest < count {
            return (block, rest);
        }
        rest -= count;
        block += 1;
    }
    unreachable!()
}

/// Takes the item at the place out, and returns it with the block that had it. The other blocks stay as they are. They
/// were dense, so they are if that block had one item more.
pub fn take_out<T>(blocks: &mut Vec<Block<T>>, place: usize) -> (T, usize)
    requires inside { place < length (joined blocks.old.items) }
    requires whole { AllByRecursion IsWhole blocks.old.items }
    requires dense { AreDense (sizes blocks.old.items) }
    ensures value { result.0 ≡ slice_index_or (joined blocks.old.items) place result.0 }
    ensures items { joined blocks.new.items ≡ remove (joined blocks.old.items) place }
    ensures whole { AllByRecursion IsWhole blocks.new.items }
    ensures dense { AreDense (with_more (sizes blocks.new.items) result.1) }
    ensures block { result.1 < length blocks.new.items }
    ensures count { length blocks.new.items ≡ length blocks.old.items }
    ensures room { blocks.new.cap ≡ blocks.old.cap }
{
    let (block, rest) = find(blocks, place);
    (blocks[block].remove(rest), block)
}

/// Puts the blocks in order after an item was taken out of the one at the place: it becomes spare if it is empty, and
/// is joined with a neighbour if both together have at most `JOINED` items. The blocks were dense when it had one item
/// more, and are dense again. The spare blocks must have room for one more.
pub fn tidy<T>(full: &mut Vec<Block<T>>, spare: &mut Vec<Block<T>>, block: usize)
    requires block { block < length full.old.items }
    requires whole { AllByRecursion IsWhole full.old.items }
    requires dense { AreDense (with_more (sizes full.old.items) block) }
    requires spare { AllByRecursion IsSpare spare.old.items }
    requires room { length spare.old.items < spare.old.cap }
    ensures items { joined full.new.items ≡ joined full.old.items }
    ensures whole { AllByRecursion IsWhole full.new.items }
    ensures dense { AreDense (sizes full.new.items) }
    ensures spare { AllByRecursion IsSpare spare.new.items }
    ensures count { length full.new.items + length spare.new.items ≡ length full.old.items + length spare.old.items }
    ensures more_spare { length spare.old.items ≤ length spare.new.items }
    ensures full_room { full.new.cap ≡ full.old.cap }
    ensures spare_room { spare.new.cap ≡ spare.old.cap }
{
    let count = full[block].len();
    if count == 0 {
        let emptied = full.remove(block);
        spare.push_reserved(emptied);
        return;
    }
    if block + 1 < full.len() && count + full[block + 1].len() <= JOINED {
        join(full, spare, block);
        return;
    }
    if block > 0 && full[block - 1].len() + count <= JOINED {
        join(full, spare, block - 1);
    }
}

/// Moves the items of the next block behind those of this one, and makes the next one spare.
fn join<T>(full: &mut Vec<Block<T>>, spare: &mut Vec<Block<T>>, block: usize)
    requires next { block + 1 < length full.old.items }
    requires fits { FitsWithNext full.old.items block }
    requires whole { AllByRecursion IsWhole full.old.items }
    requires spare { AllByRecursion IsSpare spare.old.items }
    requires room { length spare.old.items < spare.old.cap }
    ensures items { joined full.new.items ≡ joined full.old.items }
    ensures whole { AllByRecursion IsWhole full.new.items }
    ensures sizes { sizes full.new.items ≡ with_next (sizes full.old.items) block }
    ensures spare { AllByRecursion IsSpare spare.new.items }
    ensures count { length full.new.items + 1 ≡ length full.old.items }
    ensures more_spare { length spare.new.items ≡ length spare.old.items + 1 }
    ensures full_room { full.new.cap ≡ full.old.cap }
    ensures spare_room { spare.new.cap ≡ spare.old.cap }
{
    let mut next = full.remove(block + 1);
    full[block].append(&mut next);
    spare.push_reserved(next);
}

/// Begins a new last block: a spare one, without items. The old one has no room, and comes behind the full blocks if it
/// has items.
pub fn begin<T>(full: &mut Vec<Block<T>>, last: &mut Block<T>, spare: &mut Vec<Block<T>>)
    requires some { 0 < length spare.old.items }
    requires whole { AllByRecursion IsWhole full.old.items }
    requires spare { AllByRecursion IsSpare spare.old.items }
    requires last { (last.old.capacity ≡ 0) ⊎ (last.old.capacity ≡ block_size) }
    requires at_end { length last.old.items ≡ last.old.capacity }
    requires dense { AreDense (sizes full.old.items) }
    requires room { length full.old.items < full.old.cap }
    ensures items { joined full.new.items ≡ joined full.old.items ++ last.old.items }
    ensures last { IsSpare last.new }
    ensures dense { AreDense (sizes full.new.items) }
    ensures whole { AllByRecursion IsWhole full.new.items }
    ensures spare { AllByRecursion IsSpare spare.new.items }
    ensures one_less { length spare.new.items + 1 ≡ length spare.old.items }
    ensures one_more { length full.new.items ≤ length full.old.items + 1 }
    ensures full_room { full.new.cap ≡ full.old.cap }
    ensures spare_room { spare.new.cap ≡ spare.old.cap }
{
    let before = replace(last, spare.take_last());
    if before.len() == 0 {
        before.release();
    } else {
        full.push_reserved(before);
    }
}

/// For how many blocks to reserve memory, if the list is to have `blocks` in all but for the last one: `wanted`, or
/// more than any memory holds if the items of so many blocks could not be counted in a `usize`.
pub fn countable(blocks: usize, wanted: usize) -> usize
    requires { blocks < 2 ^ 64 - 1 }
    ensures asked { wanted ≤ result }
    ensures counted { result < 2 ^ 63 → block_size * (blocks + 1) < 2 ^ 64 }
{
    match (blocks + 1).checked_mul(BLOCK) {
        Some(_) => wanted,
        None => usize::MAX,
    }
}

/// Makes as many more spare blocks. There must be room for them. OutOfMemory (99) if an allocation is refused: fewer
/// blocks are made then.
pub fn add_spare<T>(
    spare: &mut Vec<Block<T>>,
    alloc: Global,
    count: usize,
) -> Result<(), OutOfMemory>
    requires spare { AllByRecursion IsSpare spare.old.items }
    requires room { length spare.old.items + count ≤ spare.old.cap }
    ensures made { OnOk result (length spare.new.items ≡ length spare.old.items + count) }
    ensures spare { AllByRecursion IsSpare spare.new.items }
    ensures more { length spare.old.items ≤ length spare.new.items }
    ensures few { length spare.new.items ≤ length spare.old.items + count }
    ensures spare_room { spare.new.cap ≡ spare.old.cap }
{
    for _ in 0..count {
        let block = Block::with_memory(alloc)?;
        spare.push_reserved(block);
    }
    Ok(())
}
