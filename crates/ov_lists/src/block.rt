ghost use Rattle.std.specs.Prelude.{◌≡◌, ◌+◌, ◌≤◌, ◌<◌, [], ◌∷◌, ◌++◌, length, IfOk, slice_index_or};
ghost use Rattle.std.specs.List.{remove};
ghost use Rattle.ov_lists.specs.Code.Blocks.{block_size};

use ov_ids::OutOfMemory;
use std::alloc::Global;
use std::marker::Model;

/// How many items a block has room for. (Chosen here.)
pub const BLOCK: usize = 128;

/// Some items of a list, in order, at most `BLOCK`. Contracts see them, and for how many items the block has memory in
/// all, where memory for more than `BLOCK` does not count.
#[derive(Drop)]
pub struct Block<T>(Vec<T>);

impl<T> Model for Block<T> {
    ghost use Rattle.std.specs.Prelude.{◌≤◌, length, min};
    ghost use Rattle.ov_lists.specs.Code.Blocks.{Filled, block_size};

    ghost Value = { Filled T };

    ghost view = { λ a. record { items = a.0.items; capacity = min a.0.cap block_size } };

    ghost invariant = { λ a. length a.0.items ≤ min a.0.cap block_size };
}

impl<T> Block<T> {
    /// A block without memory.
    pub fn new(alloc: Global) -> Block<T>
        ensures items { result.items ≡ [] }
        ensures capacity { result.capacity ≡ 0 }
    {
        Block(Vec::new(alloc))
    }

    /// An empty block with memory for `BLOCK` items. OutOfMemory (99) if the allocation is refused.
    pub fn with_memory(alloc: Global) -> Result<Block<T>, OutOfMemory>
        ensures items { IfOk result (λ block. block.items ≡ []) }
        ensures capacity { IfOk result (λ block. block.capacity ≡ block_size) }
    {
        Ok(Block(Vec::with_capacity(alloc, BLOCK)?))
    }

    /// How many items it has.
    pub fn len(&self) -> usize
        ensures value { result ≡ length self.now.items }
        ensures fits { result ≤ self.now.capacity }
        ensures few { result ≤ block_size }
    {
        self.0.len()
    }

    /// How many more items it has memory for.
    pub fn room(&self) -> usize
        ensures value { result + length self.now.items ≡ self.now.capacity }
        ensures fits { self.now.capacity ≤ block_size }
    {
        let capacity = self.0.capacity();
        if capacity < BLOCK {
            capacity - self.0.len()
        } else {
            BLOCK - self.0.len()
        }
    }

    /// The items in order.
    pub fn as_slice(&self) -> &[T]
        ensures { result.now ≡ self.now.items }
    {
        &self.0
    }

    /// Appends the item. The block must have memory for it.
    pub fn push(&mut self, item: T)
        requires { length self.old.items < self.old.capacity }
        ensures items { self.new.items ≡ self.old.items ++ item ∷ [] }
        ensures capacity { self.new.capacity ≡ self.old.capacity }
    {
        self.0.push_reserved(item);
    }

    /// Takes the item at the place out.
    pub fn remove(&mut self, place: usize) -> T
        requires { place < length self.old.items }
        ensures value { result ≡ slice_index_or self.old.items place result }
        ensures items { self.new.items ≡ remove self.old.items place }
        ensures capacity { self.new.capacity ≡ self.old.capacity }
    {
        self.0.remove(place)
    }

    /// Appends all items of the other block, which is then empty. The block must have memory for them, and for `BLOCK`.
    pub fn append(&mut self, other: &mut Block<T>)
        requires whole { self.old.capacity ≡ block_size }
        requires fits { length self.old.items + length other.old.items ≤ self.old.capacity }
        ensures items { self.new.items ≡ self.old.items ++ other.old.items }
        ensures capacity { self.new.capacity ≡ self.old.capacity }
        ensures emptied { other.new.items ≡ [] }
        ensures other_capacity { other.new.capacity ≡ other.old.capacity }
    {
        match self.0.append(&mut other.0) {
            Ok(()) => (),
            Err(_) => unreachable!(),
        }
    }

    /// Releases an empty block.
    pub fn release(self)
        requires { self.items ≡ [] }
    {
        self.0.destroy_empty();
    }
}
