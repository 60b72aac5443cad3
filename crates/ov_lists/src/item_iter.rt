ghost use Rattle.std.specs.Prelude.{◌≡◌, ◌++◌};
ghost use Rattle.std.specs.Iterator.{YieldsFirstRef, item_count};
ghost use Rattle.ov_lists.specs.Code.Blocks.{joined};

use crate::block::Block;
use std::marker::Model;

/// The items of a list, in order. Contracts see those that are still to come.
#[derive(Drop)]
pub struct Items<'a, T> {
    now: &'a [T],
    blocks: &'a [Block<T>],
    last: &'a [T],
}

impl<'a, T> Model for Items<'a, T> {
    ghost use Rattle.std.specs.Prelude.{List, ◌++◌};
    ghost use Rattle.ov_lists.specs.Code.Blocks.{joined};

    ghost Value = { List T };

    ghost view = { λ i. i.now.now ++ (joined i.blocks.now ++ i.last.now) };
}

impl<'a, T> Items<'a, T> {
    /// The items of the blocks, and then those of the last one.
    pub(crate) fn new(blocks: &'a [Block<T>], last: &'a Block<T>) -> Items<'a, T>
        ensures { result ≡ joined blocks.now ++ last.now.items }
    {
        let last = last.as_slice();
        Items {
            now: &last[..0],
            blocks,
            last,
        }
    }
}

impl<'a, T> Iterator for Items<'a, T> {
    type Item = &'a T;

    ghost next_gives = { YieldsFirstRef (λ i. i) };

    ghost remaining = { item_count (λ i. i) };

    fn next(&mut self) -> Option<&'a T> {
        while self.now.is_empty() {
            let Some((block, rest)) = self.blocks.split_first() else {
                break;
            };
            self.now = block.as_slice();
            self.blocks = rest;
        }
        if self.now.is_empty() {
            self.now = self.last;
            self.last = &self.last[..0];
        }
        let (item, rest) = self.now.split_first()?;
        self.now = rest;
        Some(item)
    }
}
