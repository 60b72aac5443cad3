ghost use Rattle.std.specs.Prelude.{◌≡◌, ◌+◌, ◌*◌, ◌≤◌, ◌<◌, [], ◌∷◌, ◌++◌, ◌==◌, ◌↔◌, length, OnOk, IsSome, IfSome};
ghost use Rattle.std.specs.Prelude.{slice_index_or};
ghost use Rattle.std.specs.List.{remove};
ghost use Rattle.ov_lists.specs.Listed.{Listed};

use crate::block::{BLOCK, Block};
use crate::block_sequence::{add_spare, begin, countable, find, take_out, tidy};
use crate::item_iter::Items;
use ov_ids::OutOfMemory;
use std::alloc::Global;
use std::marker::Model;

/// A list from which an item at any place is taken out in little time. Contracts see it as `Listed`.
///
/// The items are in blocks, in order: some full blocks, from which items may have been taken out, and the last one, to
/// which items are appended. Blocks that became empty are spare.
#[derive(Drop)]
pub struct BlockList<T> {
    full: Vec<Block<T>>,
    last: Block<T>,
    spare: Vec<Block<T>>,
    before_last: usize,
}

impl<T> Model for BlockList<T> {
    ghost use Rattle.std.specs.Prelude.{◌+◌, length};
    ghost use Rattle.ov_lists.specs.Listed.{Listed};

    ghost Value = { Listed T };

    ghost use Rattle.ov_lists.specs.Code.Kept.{items_of, room_of, AreKept};

    ghost view = { λ a. record {
      items = items_of a.full.items a.last;
      room = room_of a.last a.spare.items;
      blocks = length a.full.items + 1;
    } };

    ghost invariant = { λ a. AreKept a.full.items a.full.cap a.last a.spare.items a.spare.cap a.before_last };
}

impl<T> BlockList<T> {
    /// The empty list. It allocates nothing.
    pub fn new(alloc: Global) -> BlockList<T>
        ensures items { result.items ≡ [] }
        ensures room { result.room ≡ 0 }
    {
        BlockList {
            full: Vec::new(alloc),
            last: Block::new(alloc),
            spare: Vec::new(alloc),
            before_last: 0,
        }
    }

    /// How many items the list has.
    #[tactic(auto, using(crate::proofs::Joining::few_items))]
    pub fn len(&self) -> usize
        ensures { result ≡ length self.now.items }
    {
        self.before_last + self.last.len()
    }

    /// Whether the list has no items.
    pub fn is_empty(&self) -> bool
        ensures { result ≡ (length self.now.items == 0) }
    {
        self.len() == 0
    }

    /// How many blocks a take-out may have to look at: one for each 64 items, and two more at most.
    pub fn blocks(&self) -> usize
        ensures value { result ≡ self.now.blocks }
        ensures few { 64 * self.now.blocks ≤ length self.now.items + 128 }
    {
        self.full.len() + 1
    }

    /// The item at the place, or None behind the last one.
    pub fn get(&self, place: usize) -> Option<&T>
        ensures some { IsSome result ↔ (place < length self.now.items) }
        ensures value { IfSome result (λ item. item.now ≡ slice_index_or self.now.items place item.now) }
    {
        if place < self.before_last {
            let (block, rest) = find(&self.full, place);
            return Some(&self.full[block].as_slice()[rest]);
        }
        self.last.as_slice().get(place - self.before_last)
    }

    /// The items in order.
    pub fn iter(&self) -> Items<'_, T>
        ensures { result ≡ self.now.items }
    {
        Items::new(&self.full, &self.last)
    }

    /// Makes room for as many more items. OutOfMemory (99) if an allocation is refused; the items are the same then
    /// too, and the room is not less than before.
    pub fn reserve(&mut self, count: usize) -> Result<(), OutOfMemory>
        ensures items { self.new.items ≡ self.old.items }
        ensures room { OnOk result (count ≤ self.new.room) }
        ensures kept { self.old.room ≤ self.new.room }
    {
        let free = self.last.room();
        if count <= free {
            return Ok(());
        }
        let wanted = (count - free - 1) / BLOCK + 1;
        let spare = self.spare.len();
        if wanted <= spare {
            return Ok(());
        }
        let more = wanted - spare;
        let full = self.full.len();
        self.full
            .reserve(countable(full + spare + more, spare + more))?;
        self.spare.reserve(full + more)?;
        let alloc = *self.full.allocator();
        add_spare(&mut self.spare, alloc, more)
    }

    /// Appends the item. There must be room for it.
    #[tactic(auto, using(crate::proofs::Joining::few_items))]
    pub fn push_reserved(&mut self, item: T)
        requires { 1 ≤ self.old.room }
        ensures items { self.new.items ≡ self.old.items ++ item ∷ [] }
        ensures room { self.new.room + 1 ≡ self.old.room }
    {
        if self.last.room() == 0 {
            self.before_last += self.last.len();
            begin(&mut self.full, &mut self.last, &mut self.spare);
        }
        self.last.push(item);
    }

    /// Appends the items, in order. There must be room for them.
    pub fn append_reserved(&mut self, items: Vec<T>)
    where
        T: Drop,
        requires { length items.items ≤ self.old.room }
        ensures items { self.new.items ≡ self.old.items ++ items.items }
        ensures room { self.new.room + length items.items ≡ self.old.room }
    {
        for item in items {
            self.push_reserved(item);
        }
    }

    /// Takes the item at the place out. Nothing is allocated, and the room is not less than before.
    pub fn remove(&mut self, place: usize) -> T
        requires { place < length self.old.items }
        ensures value { result ≡ slice_index_or self.old.items place result }
        ensures items { self.new.items ≡ remove self.old.items place }
        ensures room { self.old.room ≤ self.new.room }
    {
        if self.before_last <= place {
            return self.last.remove(place - self.before_last);
        }
        let (item, block) = take_out(&mut self.full, place);
        self.before_last -= 1;
        tidy(&mut self.full, &mut self.spare, block);
        item
    }
}
