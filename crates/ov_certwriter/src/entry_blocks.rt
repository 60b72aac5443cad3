//! The texts of entries, made in blocks by several threads and written in order. All memory is there before the first
//! byte is written.
ghost use Rattle.std.specs.Prelude.{◌≡◌, ◌≤◌, ◌<◌, ◌+◌, ◌*◌, ◌^◌, ◌||◌, false, true, nat_lt, length, take, drop};
ghost use Rattle.std.specs.Prelude.{OnOk, IfOk};
ghost use Rattle.std.specs.Io.KnownBytes.{Appends};
ghost use Rattle.ov_io.specs.Device.{most_faults, write_faults, write_number, AppendsPrefixOf};
ghost use Rattle.ov_certwriter.specs.Code.Blocks.{items_after, entries_room, AreWithin};
ghost use Rattle.ov_certwriter.specs.Code.Blocks.{block_text, HaveRoom, HoldParts};
ghost use Rattle.ov_certwriter.specs.Code.Writing.{WritesFirst};

use crate::byte_putting::put_comma;
use crate::entry_texts::Entry;
use ov_ids::OutOfMemory;
use ov_io::{Sink, WriteFault};
use std::alloc::{AllocError, Global};
use std::io::Write;
use std::thread::Threads;
use std::{mem, thread};

/// Memory for the texts of some entries, and how much of it they take.
#[derive(Drop)]
struct Block {
    memory: Vec<u8>,
    filled: usize,
}

/// Memory that is filled with the texts of entries again and again: one block for each thread.
#[derive(Drop)]
struct Blocks {
    blocks: Vec<Block>,
    /// How many entries each block takes.
    size: usize,
    /// The most bytes that an entry needs, with a comma.
    room: usize,
    ghost some: { 0 < length blocks.items * size },
    ghost few: { length blocks.items * size < 2 ^ 64 },
    ghost wide: { HaveRoom (size * room) blocks.items },
}

impl Blocks {
    /// This many blocks, each of which takes this many entries of this room. OutOfMemory (99) if an allocation is
    /// refused.
    fn new(alloc: Global, count: usize, size: usize, room: usize) -> Result<Blocks, OutOfMemory>
        requires some { 0 < count * size }
        requires few { count * size < 2 ^ 64 }
        ensures room { IfOk result (λ b. b.room ≡ room) }
        ensures small { IfOk result (λ b. b.room < 2 ^ 63) }
    {
        let blocks = blocks_of(alloc, count, size.saturating_mul(room))?;
        Ok(Blocks { blocks, size, room })
    }
}

/// This many blocks, each with room for this many bytes.
fn blocks_of(alloc: Global, count: usize, bytes: usize) -> Result<Vec<Block>, AllocError>
    ensures count { IfOk result (λ blocks. length blocks.items ≡ count) }
    ensures room { IfOk result (λ blocks. HaveRoom bytes blocks.items) }
    ensures small { IfOk result (λ blocks. 0 < count → bytes < 2 ^ 63) }
{
    let mut blocks = Vec::with_capacity(alloc, count)?;
    for _ in 0..count {
        let memory = vec![in alloc; 0; bytes]?;
        blocks.push_reserved(Block { memory, filled: 0 });
    }
    Ok(blocks)
}

/// Two sets of blocks: one is written while the other is filled.
#[derive(Drop)]
pub(crate) struct BlockSets {
    full: Blocks,
    free: Blocks,
    ghost alike: { full.room ≡ free.room },
}

impl BlockSets {
    /// Two sets of this many blocks, each of which takes this many entries of this room. OutOfMemory (99) if an
    /// allocation is refused.
    pub(crate) fn new(
        alloc: Global,
        count: usize,
        size: usize,
        room: usize,
    ) -> Result<BlockSets, OutOfMemory>
        requires some { 0 < count * size }
        requires few { count * size < 2 ^ 64 }
        ensures room { IfOk result (λ s. s.full.room ≡ room) }
        ensures small { IfOk result (λ s. s.full.room < 2 ^ 63) }
    {
        let full = Blocks::new(alloc, count, size, room)?;
        let free = Blocks::new(alloc, count, size, room)?;
        Ok(BlockSets { full, free })
    }
}

/// Writes the texts of entries, with commas between them.
pub(crate) fn write_entries<R: Threads + Sync, W: Write, T: Entry>(
    rt: &R,
    sink: &mut Sink<W>,
    blocks: &mut BlockSets,
    entries: &[T],
) -> Result<(), WriteFault>
    requires within { AreWithin T.paths_of blocks.old.full.room entries.now }
    requires faults { sink.old.faults < most_faults }
    ensures bytes { OnOk result (Appends (W.contents sink.old.writer) (W.contents sink.new.writer)
        (items_after T.as_data false entries.now)) }
    ensures prefix { AppendsPrefixOf (items_after T.as_data false entries.now)
        (W.contents sink.old.writer) (W.contents sink.new.writer) }
    ensures faults { sink.new.faults ≡ sink.old.faults + write_faults write_number result }
    ensures room { blocks.new.full.room ≡ blocks.old.full.room }
{
    let mut rest = entries;
    let mut later = false;
    fill_blocks(rt, &mut blocks.full, later, rest);
    while !rest.is_empty() {
        let next = behind(rest, blocks.full.blocks.len() * blocks.full.size);
        write_and_fill(rt, sink, &blocks.full, later, rest, &mut blocks.free, next)?;
        mem::swap(&mut blocks.full, &mut blocks.free);
        rest = next;
        later = true;
    }
    Ok(())
}

/// Writes what the full blocks hold: the texts of the first of these entries. Meanwhile other threads fill the free
/// blocks with those of the next entries, unless each set has one block alone.
fn write_and_fill<R: Threads + Sync, W: Write, T: Entry>(
    rt: &R,
    sink: &mut Sink<W>,
    full: &Blocks,
    later: bool,
    entries: &[T],
    free: &mut Blocks,
    next: &[T],
) -> Result<(), WriteFault>
    requires parts { HoldParts T.as_data full.now.size later entries.now full.now.blocks.items }
    requires within { AreWithin T.paths_of free.old.room next.now }
    requires faults { sink.old.faults < most_faults }
    ensures written { WritesFirst T.as_data later (length full.now.blocks.items * full.now.size) entries.now
        W.contents sink.old sink.new result }
    ensures parts { HoldParts T.as_data free.new.size true next.now free.new.blocks.items }
    ensures room { free.new.room ≡ free.old.room }
{
    if free.blocks.len() == 1 {
        let written = write_blocks(sink, full, later, entries);
        fill_blocks(rt, free, true, next);
        return written;
    }
    let mut fill_next = ||
        requires { AreWithin T.paths_of free.now.room next.now }
        ensures parts { HoldParts T.as_data free.exit.now.size true next.entry.now free.exit.now.blocks.items }
        ensures room { free.exit.now.room ≡ free.entry.now.room }
    { fill_blocks(rt, free, true, next) };
    let mut write_full = || -> Result<(), WriteFault>
        requires parts { HoldParts T.as_data full.now.size later entries.now full.now.blocks.items }
        requires faults { sink.now.faults < most_faults }
        ensures { WritesFirst T.as_data later (length full.entry.now.blocks.items * full.entry.now.size)
            entries.entry.now W.contents sink.entry.now sink.exit.now result }
    { write_blocks(sink, full, later, entries) };
    thread::join_mut(rt, &mut fill_next, &mut write_full).1
}

/// Fills each block, in a thread of its own, with the part of these entries at its place.
fn fill_blocks<R: Threads + Sync, T: Entry>(rt: &R, blocks: &mut Blocks, later: bool, entries: &[T])
    requires within { AreWithin T.paths_of blocks.old.room entries.now }
    ensures parts { HoldParts T.as_data blocks.new.size later entries.now blocks.new.blocks.items }
    ensures count { length blocks.new.blocks.items ≡ length blocks.old.blocks.items }
    ensures size { blocks.new.size ≡ blocks.old.size }
    ensures room { blocks.new.room ≡ blocks.old.room }
{
    let size = blocks.size;
    let fill_one = |place: usize, block: &mut Block|
        requires place { place * size < 2 ^ 64 }
        requires room { entries_room T.paths_of (take size (drop (place * size) entries.now))
            ≤ length block.old.memory.items }
        ensures part { block_text block.new ≡ items_after T.as_data (nat_lt 0 place || later)
            (take size (drop (place * size) entries.entry.now)) }
        ensures room { length block.new.memory.items ≡ length block.old.memory.items }
    { fill(block, is_later(place, later), part_at(entries, place, size)) };
    let threads = blocks.blocks.len();
    thread::for_each_mut(rt, &mut blocks.blocks, threads, &fill_one);
}

/// Fills a block with the texts of entries, in place of what it holds. There is room for them.
fn fill<T: Entry>(block: &mut Block, later: bool, entries: &[T])
    requires { entries_room T.paths_of entries.now ≤ length block.old.memory.items }
    ensures text { block_text block.new ≡ items_after T.as_data later entries.now }
    ensures room { length block.new.memory.items ≡ length block.old.memory.items }
{
    block.filled = put_entries(&mut block.memory, later, entries);
}

/// Puts the texts of entries at the front of this memory, which has room for them. How long they are.
fn put_entries<T: Entry>(out: &mut [u8], later: bool, entries: &[T]) -> usize
    requires { entries_room T.paths_of entries.now ≤ length out.old }
    ensures text { take result out.new ≡ items_after T.as_data later entries.now }
    ensures room { length out.new ≡ length out.old }
{
    let mut end = 0;
    let mut later = later;
    for entry in entries {
        let entry_at = put_comma(out, end, later);
        end = entry.put_into(out, entry_at);
        later = true;
    }
    end
}

/// Whether items stand before those of a block: before a block that is not the first, or before all of them.
fn is_later(place: usize, later: bool) -> bool
    ensures { result ≡ (nat_lt 0 place || later) }
{
    place > 0 || later
}

/// The part of these entries at a place, if each part has this many. Behind the end there are none.
fn part_at<T>(entries: &[T], place: usize, size: usize) -> &[T]
    requires { place * size < 2 ^ 64 }
    ensures { result.now ≡ take size (drop (place * size) entries.now) }
{
    first(behind(entries, place * size), size)
}

/// The first items, this many or all that there are.
fn first<T>(items: &[T], count: usize) -> &[T]
    ensures { result.now ≡ take count items.now }
{
    &items[..count.min(items.len())]
}

/// The items behind the first ones, of which there are this many.
fn behind<T>(items: &[T], count: usize) -> &[T]
    ensures { result.now ≡ drop count items.now }
{
    &items[count.min(items.len())..]
}

/// Writes what the blocks hold: the texts of the first of these entries.
fn write_blocks<W: Write, T: Entry>(
    sink: &mut Sink<W>,
    blocks: &Blocks,
    later: bool,
    entries: &[T],
) -> Result<(), WriteFault>
    requires parts { HoldParts T.as_data blocks.now.size later entries.now blocks.now.blocks.items }
    requires faults { sink.old.faults < most_faults }
    ensures { WritesFirst T.as_data later (length blocks.now.blocks.items * blocks.now.size) entries.now
        W.contents sink.old sink.new result }
{
    for block in &blocks.blocks {
        sink.write_all(first(&block.memory, block.filled))?;
    }
    Ok(())
}
