ghost use Rattle.std.specs.Prelude.{◌≡◌, ◌∷◌, [], false, Ok, None, IfOk, IfErr, IfSome, MatchOption};
ghost use Rattle.ov_scenario.specs.Draws.{seeded};
ghost use Rattle.ov_scenario.specs.RunLines.{lines_that_run, runs, FirstNeedsMemory, HasZeros, IsLineOf};
ghost use Rattle.ov_scenario.specs.RunLines.{ReadingNeedsMemory};
ghost use Rattle.ov_scenario.specs.Sections.{is_together};
ghost use Rattle.ov_scenario.specs.Statements.{statement_of, told, workers_or_one};
ghost use Rattle.ov_scenario.specs.Code.RunnableLines.{AreReadable, TakesLine, stream_now, to_run};
ghost use Rattle.ov_lines.specs.Lines.{kept_lines};

use crate::block_reading::read_sections;
use crate::event_words::EventWords;
use crate::given_random_words_reading::GivenWords;
use crate::scenario::Line;
use crate::statement::{Stated, Statement};
use crate::statement_reading::{Unstated, read_statement, state};
use crate::words_from_seed::SeedWords;
use ov_ids::{OutOfMemory, Seq, Workers};
use ov_lines::{KeptLine, KeptLines};
use std::alloc::Global;
use std::marker::Model;

/// A line to run, and the line of the file that asks for it. Of a block of sections that is its first line.
#[derive(Drop)]
pub struct LineToRun<'a> {
    /// The number of that line among all lines of the file. These are counted from 1.
    pub number: usize,
    /// Its text, without its line feed and one carriage return before that.
    pub text: &'a [u8],
    pub line: Line<'a>,
}

/// The lines of a scenario file that are still to run: the events, the looks, the analyses and the blocks of sections
/// in order, each read from the file's own text as it is taken. Each event has the random words of the line right
/// before it, or else the next that the seed gives. Each line that is left of the file can be read.
#[derive(Drop)]
pub struct LinesToRun<'a> {
    left: KeptLines<'a>,
    draws: SeedWords,
}

impl<'a> Model for LinesToRun<'a> {
    ghost use Rattle.ov_scenario.specs.RunLines.{RunLines, those_that_run};
    ghost use Rattle.ov_scenario.specs.Statements.{told};
    ghost use Rattle.ov_scenario.specs.Code.RunnableLines.{AreReadable, stream_now, to_run};

    ghost Value = { RunLines };

    ghost view = { λ l.
        record { items = to_run (stream_now l.draws) (told l.left); file_lines = those_that_run l.left } };

    ghost invariant = { λ l. AreReadable l.left };
}

impl<'a> LinesToRun<'a> {
    /// The lines that a file asks to run, with this seed. All lines of the file can be read.
    #[tactic(auto, unfolding(crate::specs::RunLines::those_that_run))]
    pub(crate) fn new(bytes: &'a [u8], seed: u64) -> LinesToRun<'a>
        requires readable { AreReadable (kept_lines bytes.now) }
        ensures lines { result.items ≡ to_run (seeded seed) (told (kept_lines bytes.now)) }
        ensures file_lines { result.file_lines ≡ lines_that_run bytes.now }
    {
        LinesToRun {
            left: KeptLines::new(bytes),
            draws: SeedWords::new(seed),
        }
    }

    /// Takes the next line to run, if there is one. A block of sections is read whole. If an allocation was refused,
    /// OutOfMemory (99) is returned, and all lines are left as they were. The next line then has a payload, or the ids
    /// of a group, or is a block.
    pub fn next_line(&mut self, alloc: Global) -> Result<Option<LineToRun<'a>>, OutOfMemory>
        ensures line { IfOk result (λ next. MatchOption next (self.old.items ≡ [])
            (λ l. self.old.items ≡ l.line ∷ self.new.items)) }
        ensures file_line { IfOk result (λ next. MatchOption next (self.old.file_lines ≡ [])
            (λ l. self.old.file_lines ≡ (l.number, l.text.now) ∷ self.new.file_lines)) }
        ensures says { IfOk result (λ next. IfSome next (λ l. IsLineOf (statement_of l.text.now) l.line)) }
        ensures end { result ≡ Ok None → self.new ≡ self.old }
        ensures err { IfErr result (λ _. self.new ≡ self.old) }
        ensures memory { IfErr result (λ _. FirstNeedsMemory self.old.items) }
    {
        let mut left = self.left.copy();
        let mut given = None;
        while let Some(KeptLine { number, text }) = left.next_line() {
            let stated = state(alloc, number, text)?;
            if stated.is_together() {
                let mut draws = self.draws.copy()?;
                let line = Line::Together(read_sections(alloc, &mut left, &mut draws)?);
                self.left = left;
                self.draws = draws;
                return Ok(Some(LineToRun { number, text, line }));
            }
            if let Some(line) = line_of(stated, &mut given, &mut self.draws) {
                self.left = left;
                return Ok(Some(LineToRun { number, text, line }));
            }
        }
        Ok(None)
    }
}

/// The line to run that a line of a file asks for that begins no block, if it asks for one. Random words that it gives
/// wait for the next line. An event has the random words that wait, or else the next that the seed gives.
fn line_of<'a>(
    stated: Stated<'a>,
    given: &mut Option<GivenWords<'a>>,
    draws: &mut SeedWords,
) -> Option<Line<'a>>
    requires single { is_together stated.says ≡ false }
    ensures { TakesLine (stream_now draws.old) given.old stated.entry.says result (stream_now draws.new) given.new }
{
    let waiting = given.take();
    match stated.says {
        Ok(Statement::Event(event)) => {
            let words = draws.event_words(waiting);
            Some(Line::Event { event, words })
        }
        Ok(Statement::Look(look)) => Some(Line::Look(look)),
        Ok(Statement::Analyse { subject, workers }) => {
            let workers = workers_or_one(workers);
            Some(Line::Analyse { subject, workers })
        }
        Ok(Statement::Words(words)) => {
            *given = Some(words);
            None
        }
        Ok(Statement::Params(_)) => None,
        Ok(Statement::Seed(_)) => None,
        Ok(Statement::Refill(_)) => None,
        Ok(Statement::Scale(_)) => None,
        Ok(Statement::Together) => None,
        Ok(Statement::Also) => None,
        Ok(Statement::End) => None,
        Err(_) => None,
    }
}

/// The workers of an analysis: as many as are named, or else one.
fn workers_or_one(named: Option<Workers>) -> Workers
    ensures { result ≡ workers_or_one named }
{
    match named {
        Some(workers) => workers,
        None => Workers::ONE,
    }
}

/// The line that a line of a file with this text asks to run, whatever comes before it. The random words of an event
/// are zeros, and a block has no sections. None if it asks for no line. OutOfMemory (99) is returned if an allocation
/// was refused: the line then has a payload or the ids of a group, or it can't be read.
pub fn line_asked_by<'a>(alloc: Global, text: &'a [u8]) -> Result<Option<Line<'a>>, OutOfMemory>
    ensures line { IfOk result (λ line. MatchOption line (runs (statement_of text.now) ≡ false)
        (λ l. IsLineOf (statement_of text.now) l)) }
    ensures zeros { IfOk result (λ line. IfSome line HasZeros) }
    ensures memory { IfErr result (λ _. IfSome (statement_of text.now) ReadingNeedsMemory) }
{
    match read_statement(alloc, text) {
        Ok(Statement::Event(event)) => {
            let words = EventWords::zeros();
            Ok(Some(Line::Event { event, words }))
        }
        Ok(Statement::Look(look)) => Ok(Some(Line::Look(look))),
        Ok(Statement::Analyse { subject, workers }) => {
            let workers = workers_or_one(workers);
            let line = Line::Analyse { subject, workers };
            Ok(Some(line))
        }
        Ok(Statement::Together) => Ok(Some(Line::Together(Seq::new(Vec::new(alloc))))),
        Ok(Statement::Params(_) | Statement::Seed(_)) => Ok(None),
        Ok(Statement::Refill(_) | Statement::Scale(_)) => Ok(None),
        Ok(Statement::Words(_)) => Ok(None),
        Ok(Statement::Also | Statement::End) => Ok(None),
        Err(Unstated::Unread(_)) => Ok(None),
        Err(Unstated::OutOfMemory) => Err(OutOfMemory),
    }
}
