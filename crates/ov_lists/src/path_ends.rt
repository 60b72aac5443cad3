//! Where the paths of a list end.
ghost use Rattle.std.specs.Prelude.{◌≡◌, ◌<◌, ◌^◌, [], ◌∷◌, ◌++◌, length, get_or, IfOk, OnOk, OnErr, MatchOption};

use ov_ids::OutOfMemory;
use std::alloc::Global;
use std::marker::Model;

/// The ends of paths whose ids stand one after another: how many ids there are up to the last one of each path.
/// Contracts see them in order.
///
/// They ascend, so those that fit 32 bits come first, and take half the memory of those behind them.
#[derive(Debug, Drop)]
pub(crate) struct Ends {
    short: Vec<u32>,
    long: Vec<usize>,
}

impl Model for Ends {
    ghost use Rattle.std.specs.Prelude.{List, ℕ, ◌++◌};

    ghost Value = { List ℕ };

    ghost view = { λ e. e.short.items ++ e.long.items };
}

impl Ends {
    /// No ends. Nothing is allocated.
    pub(crate) fn new(alloc: Global) -> Ends
        ensures { result ≡ [] }
    {
        Ends {
            short: Vec::new(alloc),
            long: Vec::new(alloc),
        }
    }

    /// No ends, with memory for this many that fit 32 bits. OutOfMemory (99) if the allocation is refused.
    pub(crate) fn with_capacity(alloc: Global, count: usize) -> Result<Ends, OutOfMemory>
        ensures { IfOk result (λ ends. ends ≡ []) }
    {
        Ok(Ends {
            short: Vec::with_capacity(alloc, count)?,
            long: Vec::new(alloc),
        })
    }

    /// Appends an end. OutOfMemory (99) if an allocation is refused; nothing has changed then.
    pub(crate) fn push(&mut self, end: usize) -> Result<(), OutOfMemory>
        ensures pushed { OnOk result (self.new ≡ self.old ++ end ∷ []) }
        ensures unchanged { OnErr result (self.new ≡ self.old) }
    {
        if self.long.is_empty() && end <= u32::MAX as usize {
            self.short.push(end as u32)?;
            return Ok(());
        }
        self.long.push(end)?;
        Ok(())
    }

    /// How many ends there are.
    pub(crate) fn len(&self) -> usize
        ensures { result ≡ length self.now }
    {
        self.short.len() + self.long.len()
    }

    /// The end at a place.
    pub(crate) fn get(&self, place: usize) -> usize
        requires { place < length self.now }
        ensures { result ≡ get_or self.now place result }
    {
        let short = self.short.len();
        if place < short {
            return self.short[place] as usize;
        }
        self.long[place - short]
    }

    /// The ends in order.
    pub(crate) fn iter(&self) -> EndIter<'_>
        ensures ends { result ≡ self.now }
        ensures few { length self.now < 2 ^ 64 }
    {
        EndIter {
            short: &self.short,
            long: &self.long,
        }
    }
}

/// Ends in order. Contracts see those that are still to come.
#[derive(Drop)]
pub(crate) struct EndIter<'a> {
    short: &'a [u32],
    long: &'a [usize],
}

impl<'a> Model for EndIter<'a> {
    ghost use Rattle.std.specs.Prelude.{List, ℕ, ◌++◌};

    ghost Value = { List ℕ };

    ghost view = { λ e. e.short.now ++ e.long.now };
}

impl<'a> EndIter<'a> {
    /// The next end, or None behind the last one.
    pub(crate) fn next_end(&mut self) -> Option<usize>
        ensures { MatchOption result ((self.old ≡ []) × (self.new ≡ [])) (λ end. self.old ≡ end ∷ self.new) }
    {
        match self.short.split_first() {
            Some((end, rest)) => {
                self.short = rest;
                return Some(*end as usize);
            }
            None => {}
        }
        match self.long.split_first() {
            Some((end, rest)) => {
                self.long = rest;
                Some(*end)
            }
            None => None,
        }
    }
}
