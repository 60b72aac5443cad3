ghost use Rattle.std.specs.Prelude.{◌≡◌, ◌∷◌, ◌++◌, [], true, false, None, IfOk, OnOk};
ghost use Rattle.ov_scenario.specs.RunLines.{outside_blocks};
ghost use Rattle.ov_scenario.specs.Statements.{told};
ghost use Rattle.ov_scenario.specs.Code.RunnableLines.{AreReadable, TakesIn, TakesPart, block_to_run, stream_now};
ghost use Rattle.ov_scenario.specs.Code.RunnableLines.{to_run};
ghost use Rattle.ov_scenario.specs.declared.scenario.Line.TheVariants as line;

use crate::given_random_words_reading::GivenWords;
use crate::line_of_section::{Deed, SectionLine};
use crate::statement::{Stated, Statement};
use crate::statement_reading::state;
use crate::words_from_seed::SeedWords;
use ov_ids::{OutOfMemory, Seq};
use ov_lines::{KeptLine, KeptLines};
use std::alloc::Global;
use std::mem::replace;

/// What a line of a block is for.
#[derive(Drop)]
pub(crate) enum Part<'a> {
    /// It does something, in the section that is read.
    Deed(Deed<'a>),
    /// The next section begins.
    Section,
    /// The block ends.
    End,
    /// It gives random words to the next line, or it is a line that no section holds.
    Nothing,
}

/// A block of sections as far as it is read.
#[derive(Drop)]
struct BlockSoFar<'a> {
    /// The sections that have ended.
    ended: Vec<Seq<SectionLine<'a>>>,
    /// The lines of the section that has not.
    held: Vec<SectionLine<'a>>,
    /// The random words that wait for the next line.
    given: Option<GivenWords<'a>>,
}

impl<'a> BlockSoFar<'a> {
    /// No line is read. Nothing is allocated.
    fn new(alloc: Global) -> BlockSoFar<'a>
        ensures ended { result.ended.items ≡ [] }
        ensures held { result.held.items ≡ [] }
        ensures given { result.given ≡ None }
    {
        BlockSoFar {
            ended: Vec::new(alloc),
            held: Vec::new(alloc),
            given: None,
        }
    }

    /// Takes in the next line. Whether it ends the block, and with it the last section.
    fn take(
        &mut self,
        alloc: Global,
        line: KeptLine<'a>,
        draws: &mut SeedWords,
    ) -> Result<bool, OutOfMemory>
        ensures { IfOk result (λ is_last. TakesIn (stream_now draws.old) self.old
            (line.entry.number, line.entry.text.now) is_last (stream_now draws.new) self.new) }
    {
        let KeptLine { number, text } = line;
        let stated = state(alloc, number, text)?;
        match part_of(stated, &mut self.given, draws) {
            Part::Deed(deed) => {
                self.held.push(SectionLine { number, text, deed })?;
                Ok(false)
            }
            Part::Section => {
                self.end_section(alloc)?;
                Ok(false)
            }
            Part::End => {
                self.end_section(alloc)?;
                Ok(true)
            }
            Part::Nothing => Ok(false),
        }
    }

    /// Ends the section that has not ended.
    fn end_section(&mut self, alloc: Global) -> Result<(), OutOfMemory>
        ensures ended { OnOk result (self.new.ended.items ≡ self.old.ended.items ++ self.old.held.items ∷ []) }
        ensures held { OnOk result (self.new.held.items ≡ []) }
        ensures given { OnOk result (self.new.given ≡ self.old.given) }
    {
        let lines = replace(&mut self.held, Vec::new(alloc));
        self.ended.push(Seq::new(lines))?;
        Ok(())
    }

    /// The sections that have ended.
    fn sections(self) -> Seq<Seq<SectionLine<'a>>>
        ensures { result ≡ self.entry.ended.items }
    {
        let BlockSoFar { ended, .. } = self;
        Seq::new(ended)
    }
}

/// Reads the lines of a block, up to its end: its sections, each with its lines in order. OutOfMemory (99) is returned
/// if an allocation was refused.
pub(crate) fn read_sections<'a>(
    alloc: Global,
    left: &mut KeptLines<'a>,
    draws: &mut SeedWords,
) -> Result<Seq<Seq<SectionLine<'a>>>, OutOfMemory>
    ensures sections { IfOk result (λ sections. block_to_run (stream_now draws.old) [] [] (told left.old)
        ≡ line.Together sections ∷ to_run (stream_now draws.new) (told left.new)) }
    ensures outside { IfOk result (λ _. outside_blocks true left.old ≡ outside_blocks false left.new) }
    ensures readable { IfOk result (λ _. AreReadable left.old → AreReadable left.new) }
{
    let mut block = BlockSoFar::new(alloc);
    let mut rest = left.copy();
    while let Some(next) = rest.next_line() {
        *left = rest.copy();
        if block.take(alloc, next, draws)? {
            return Ok(block.sections());
        }
    }
    block.end_section(alloc)?;
    Ok(block.sections())
}

/// What a line of a block is for. Random words that it gives wait for the next line. An event has the random words that
/// wait, or else the next that the seed gives.
fn part_of<'a>(
    stated: Stated<'a>,
    given: &mut Option<GivenWords<'a>>,
    draws: &mut SeedWords,
) -> Part<'a>
    ensures { TakesPart (stream_now draws.old) given.old stated.entry.says result (stream_now draws.new) given.new }
{
    let waiting = given.take();
    match stated.says {
        Ok(Statement::Event(event)) => {
            let words = draws.event_words(waiting);
            Part::Deed(Deed::Event { event, words })
        }
        Ok(Statement::Analyse { subject, .. }) => Part::Deed(Deed::Analyse {
            moment: subject.moment,
        }),
        Ok(Statement::Words(words)) => {
            *given = Some(words);
            Part::Nothing
        }
        Ok(Statement::Also) => Part::Section,
        Ok(Statement::End) => Part::End,
        Ok(Statement::Params(_)) => Part::Nothing,
        Ok(Statement::Seed(_)) => Part::Nothing,
        Ok(Statement::Refill(_)) => Part::Nothing,
        Ok(Statement::Scale(_)) => Part::Nothing,
        Ok(Statement::Look(_)) => Part::Nothing,
        Ok(Statement::Together) => Part::Nothing,
        Err(_) => Part::Nothing,
    }
}
