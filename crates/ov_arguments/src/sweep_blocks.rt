ghost use Rattle.std.specs.Prelude.{◌-◌, ◌^◌, ◌≤◌};
ghost use Rattle.std.specs.Iterator.{at_most};

use crate::SweepRequest;
use ov_grow_options::GrowOptions;
use ov_ids::OutOfMemory;
use std::alloc::Global;
use std::fmt::Write;

/// A part of a sweep: some runs of one setting, whose seeds follow one another.
#[derive(Clone, Copy)]
pub struct SweepBlock {
    /// The options of the first run.
    pub first: GrowOptions,
    /// How many runs there are.
    pub runs: u32,
    /// Whether to measure what broadcasts cost.
    pub costs: bool,
    /// Whether to measure shapes.
    pub shape: bool,
}

impl SweepBlock {
    /// The command that prints the rows of these runs. OutOfMemory (99) if an allocation is refused.
    pub fn command(&self, alloc: Global) -> Result<String, OutOfMemory> {
        let first = self.first;
        let grow = format!(in alloc; "{first}")?;
        let options = grow.as_str().strip_prefix("overlay grow").unwrap_or("");
        let runs = self.runs;
        let costs = self.costs_words();
        let shape = if self.shape { " --shape" } else { "" };
        Ok(format!(in alloc; "overlay sweep{options} --runs {runs}{costs}{shape}")?)
    }

    /// The words that ask for what broadcasts cost. That there are none is said, since `--costs` needs it.
    fn costs_words(&self) -> &'static str {
        match (self.costs, self.first.broadcasts.get()) {
            (false, _) => "",
            (true, 0) => " --broadcasts 0 --costs",
            (true, _) => " --costs",
        }
    }
}

/// The blocks of a sweep that are still to come, setting after setting, and seed after seed.
#[derive(Drop)]
pub struct SweepBlocks<'a> {
    sweep: &'a SweepRequest,
    place: u64,
    block: u32,
}

impl<'a> SweepBlocks<'a> {
    /// All blocks, each of so many runs, or fewer if the setting has no more. 0 stands for 1.
    pub(crate) fn new(sweep: &'a SweepRequest, block: u32) -> SweepBlocks<'a> {
        SweepBlocks {
            sweep,
            place: 0,
            block,
        }
    }

    /// How many runs the block at this place has.
    fn runs(&self) -> u32
        ensures { 1 ≤ result }
    {
        let done = self.place % u64::from(self.sweep.runs.max(1));
        let left = u64::from(self.sweep.runs).saturating_sub(done);
        u32::try_from(left).unwrap_or(0).min(self.block).max(1)
    }
}

impl Iterator for SweepBlocks<'_> {
    type Item = SweepBlock;

    ghost remaining = { λ s. at_most (2 ^ 64 - s.place) };

    fn next(&mut self) -> Option<SweepBlock> {
        let first = self.sweep.get(self.place)?;
        let runs = self.runs();
        self.place = self.place.checked_add(u64::from(runs))?;
        Some(SweepBlock {
            first,
            runs,
            costs: self.sweep.costs,
            shape: self.sweep.shape,
        })
    }
}
