ghost use Rattle.std.specs.Prelude.{◌≡◌, [], IfOk};
ghost use Rattle.ov_scenario.specs.Scenarios.{before_of, stated_lines};
ghost use Rattle.ov_scenario.specs.Code.Judging.{Judges, faulty_of};

use crate::line_judging::Before;
use crate::lines_ahead::LinesAhead;
use crate::open_block::OpenBlock;
use crate::scenario_fault::{FaultyLine, LineFault};
use crate::statement::Stated;
use ov_ids::OutOfMemory;
use std::alloc::Global;

/// The lines of a file that are left to judge. Each is judged by what is known of the lines before it and by the lines
/// after it. Of these one is read ahead, and only a line that begins a block asks for more: whether it is ended.
pub(crate) struct Judging<'a> {
    before: Before,
    ahead: LinesAhead<'a>,
}

/// A line that was judged.
pub(crate) struct Judged<'a> {
    pub(crate) line: Stated<'a>,
    /// What is wrong with it, if it is at fault.
    pub(crate) fault: Option<LineFault>,
}

impl<'a> Drop for Judging<'a> {
    /// Drops the parts. It is written by hand since a call is proved faster than the same drops at each exit.
    fn drop(self) {
        let Judging {
            before: _,
            ahead: _,
        } = self;
    }
}

impl<'a> Drop for Judged<'a> {
    /// Drops the parts. It is written by hand since a call is proved faster than the same drops at each exit.
    fn drop(self) {
        let Judged { line: _, fault: _ } = self;
    }
}

impl<'a> Judged<'a> {
    /// The line and what is wrong with it, if it is at fault.
    pub(crate) fn faulty(&self) -> Option<FaultyLine>
        ensures { result ≡ faulty_of self.now }
    {
        let fault = self.fault?;
        let line = self.line.number;
        Some(FaultyLine { line, fault })
    }
}

impl<'a> Judging<'a> {
    /// All lines of a file are left to judge.
    pub(crate) fn new(alloc: Global, bytes: &'a [u8]) -> Result<Judging<'a>, OutOfMemory>
        ensures before { IfOk result (λ judging. judging.before ≡ before_of []) }
        ensures lines { IfOk result (λ judging. judging.ahead ≡ stated_lines bytes.now) }
    {
        let ahead = LinesAhead::new(alloc, bytes)?;
        let before = Before::nothing();
        Ok(Judging { before, ahead })
    }

    /// Judges the next line, if there is one.
    pub(crate) fn next_line(&mut self, alloc: Global) -> Result<Option<Judged<'a>>, OutOfMemory>
        ensures { IfOk result (λ judged. Judges self.old judged self.new) }
    {
        let Some(line) = self.ahead.take(alloc)? else {
            return Ok(None);
        };
        let fault = self.before.fault_of(&line, &self.ahead);
        self.before = self.before.with(&line);
        Ok(Some(Judged { line, fault }))
    }

    /// The block that is open after the lines that were judged, if one is.
    pub(crate) fn open_block(&self) -> Option<OpenBlock>
        ensures { result ≡ self.now.before.block }
    {
        self.before.open_block()
    }
}
