ghost use Rattle.std.specs.Prelude.{◌≡◌, ◌∷◌, ◌↔◌, [], map, IfOk, IsTrue, MatchOption};
ghost use Rattle.ov_scenario.specs.Scenarios.{BeginWithEvent, first_number, stated_at, stated_lines};
ghost use Rattle.ov_scenario.specs.Sections.{has_end, is_end};
ghost use Rattle.ov_scenario.specs.Statements.{statement_of};
ghost use Rattle.ov_scenario.specs.Code.Ahead.{lines_left};

use crate::statement::{Stated, Statement};
use crate::statement_reading::state;
use ov_ids::OutOfMemory;
use ov_lines::{KeptLine, KeptLines, LineCursor, is_word};
use std::alloc::Global;
use std::marker::Model;
use std::mem::replace;

/// The lines of a file that are not judged yet. The first of them is read ahead, as the line before it is judged by it.
/// Contracts see what they say.
pub(crate) struct LinesAhead<'a> {
    next: Option<Stated<'a>>,
    after: KeptLines<'a>,
}

impl<'a> Model for LinesAhead<'a> {
    ghost use Rattle.std.specs.Prelude.{List};
    ghost use Rattle.ov_scenario.specs.Statements.{Stated};
    ghost use Rattle.ov_scenario.specs.Code.Ahead.{lines_left};

    ghost Value = { List Stated };

    ghost view = { λ l. lines_left l.next l.after };
}

impl<'a> Drop for LinesAhead<'a> {
    /// Drops the parts. It is written by hand since a call is proved faster than the same drops at each exit.
    fn drop(self) {
        let LinesAhead { next: _, after: _ } = self;
    }
}

impl<'a> LinesAhead<'a> {
    /// All lines of a file.
    #[tactic(auto, unfolding(crate::specs::Scenarios::stated_lines))]
    pub(crate) fn new(alloc: Global, bytes: &'a [u8]) -> Result<LinesAhead<'a>, OutOfMemory>
        ensures { IfOk result (λ ahead. ahead ≡ stated_lines bytes.now) }
    {
        let mut after = KeptLines::new(bytes);
        let next = state_next(alloc, &mut after)?;
        Ok(LinesAhead { next, after })
    }

    /// Takes the first of these lines, if there is one, and reads the next one.
    pub(crate) fn take(&mut self, alloc: Global) -> Result<Option<Stated<'a>>, OutOfMemory>
        ensures { IfOk result (λ first. MatchOption first (self.old ≡ []) (λ line. self.old ≡ line ∷ self.new)) }
    {
        let next = state_next(alloc, &mut self.after)?;
        Ok(replace(&mut self.next, next))
    }

    /// The number of the first of these lines.
    pub(crate) fn first_number(&self) -> Option<usize>
        ensures { result ≡ first_number self.now }
    {
        match &self.next {
            Some(line) => Some(line.number),
            None => None,
        }
    }

    /// Whether the first of these lines is an event.
    pub(crate) fn begin_with_event(&self) -> bool
        ensures { IsTrue result ↔ BeginWithEvent self.now }
    {
        match &self.next {
            Some(line) => matches!(&line.says, Ok(Statement::Event(_))),
            None => false,
        }
    }

    /// Whether one of these lines ends a block.
    #[tactic(auto, unfolding(crate::specs::Sections::has_end))]
    pub(crate) fn have_end(&self) -> bool
        ensures { result ≡ has_end self.now }
    {
        match &self.next {
            Some(line) => line.is_end() || have_end(&self.after),
            None => false,
        }
    }
}

/// Whether one of these lines of a file ends a block.
#[tactic(auto, unfolding(crate::specs::Sections::has_end))]
fn have_end(lines: &KeptLines) -> bool
    ensures { result ≡ has_end (map stated_at lines.now) }
{
    let mut left = lines.copy();
    while let Some(KeptLine { text, .. }) = left.next_line() {
        if is_end_line(text) {
            return true;
        }
    }
    false
}

/// Whether a line with this text ends a block.
#[tactic(auto, using(crate::proofs::Lines::Ending::ends_tested))]
fn is_end_line(text: &[u8]) -> bool
    ensures { result ≡ is_end (statement_of text.now) }
{
    let mut cursor = LineCursor::new(text);
    let Some(name) = cursor.word() else {
        return false;
    };
    if !is_word(name, b"end") {
        return false;
    }
    cursor.is_at_end()
}

/// Reads what the next line says that is not skipped, if there is one.
fn state_next<'a>(
    alloc: Global,
    lines: &mut KeptLines<'a>,
) -> Result<Option<Stated<'a>>, OutOfMemory>
    ensures { IfOk result (λ next. map stated_at lines.old ≡ lines_left next lines.new) }
{
    match lines.next_line() {
        Some(line) => Ok(Some(state(alloc, line.number, line.text)?)),
        None => Ok(None),
    }
}
