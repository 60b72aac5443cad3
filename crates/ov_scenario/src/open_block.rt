ghost use Rattle.std.specs.Prelude.{◌≡◌, None};
ghost use Rattle.ov_scenario.specs.Sections.{open_next, with_section};
ghost use Rattle.ov_scenario.specs.Code.Judging.{sections_of};

use crate::statement::{Stated, Statement};
use ov_ids::Workers;

/// A block of sections that has begun and has not ended.
#[derive(Clone, Copy)]
pub(crate) struct OpenBlock {
    /// The number of the line `together` that began it.
    pub(crate) together: usize,
    /// How many sections have begun, each for a driver of its own.
    pub(crate) sections: Workers,
}

impl OpenBlock {
    /// One section more has begun, if the block may have one more.
    fn with_section(self) -> OpenBlock
        ensures { result ≡ with_section self }
    {
        match Workers::new(self.sections.count() + 1) {
            Some(sections) => OpenBlock {
                together: self.together,
                sections,
            },
            None => self,
        }
    }
}

/// The block that is open after a line, if one is. This one was open before it, if one was.
pub(crate) fn block_after(before: Option<OpenBlock>, line: &Stated) -> Option<OpenBlock>
    ensures { result ≡ open_next before line.now.number line.now.says }
{
    match before {
        Some(block) => match &line.says {
            Ok(Statement::Also) => Some(block.with_section()),
            Ok(Statement::End) => None,
            _ => Some(block),
        },
        None => begun_by(line),
    }
}

/// The block that a line begins that stands in none, if it begins one.
fn begun_by(line: &Stated) -> Option<OpenBlock>
    ensures { result ≡ open_next None line.now.number line.now.says }
{
    if !line.is_together() {
        return None;
    }
    let together = line.number;
    let sections = Workers::ONE;
    Some(OpenBlock { together, sections })
}

/// How many sections a block has, or one if there is none.
pub(crate) fn sections_of(block: Option<OpenBlock>) -> Workers
    ensures { result ≡ sections_of block }
{
    match block {
        Some(block) => block.sections,
        None => Workers::ONE,
    }
}
