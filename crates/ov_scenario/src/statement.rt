ghost use Rattle.std.specs.Prelude.{◌≡◌};
ghost use Rattle.ov_scenario.specs.Sections.{is_end, is_together};

use crate::given_random_words_reading::GivenWords;
use crate::scenario::{Look, Subject};
use ov_ids::{Refill, Scale, Workers};
use ov_lines::Unread;
use ov_net::Event;
use std::marker::Model;

/// What one line says by itself, whatever comes before it and after it.
#[derive(Drop)]
pub(crate) enum Statement<'a> {
    /// The numbers of the parameters, which may be out of their limits.
    Params([u32; 7]),
    /// The seed of the random words that no line gives.
    Seed(u64),
    /// The rule at DISCONNECT of all nodes.
    Refill(Refill),
    /// How large the world may grow.
    Scale(Scale),
    /// The random words of the next event.
    Words(GivenWords<'a>),
    Event(Event),
    Look(Look),
    /// What is analysed, and by how many workers, if the line names a number.
    Analyse {
        subject: Subject,
        workers: Option<Workers>,
    },
    /// A block of sections begins with its first section.
    Together,
    /// The next section of the block begins.
    Also,
    /// The block ends.
    End,
}

/// A line that is not skipped. Contracts see of a line that can't be read only that it says nothing.
#[derive(Drop)]
pub(crate) struct Stated<'a> {
    /// Its number among all lines of the file. These are counted from 1.
    pub(crate) number: usize,
    /// What it says, or why it can't be read.
    pub(crate) says: Result<Statement<'a>, Unread>,
}

impl<'a> Stated<'a> {
    /// Whether it begins a block of sections.
    pub(crate) fn is_together(&self) -> bool
        ensures { result ≡ is_together self.now.says }
    {
        matches!(&self.says, Ok(Statement::Together))
    }

    /// Whether it ends a block of sections.
    pub(crate) fn is_end(&self) -> bool
        ensures { result ≡ is_end self.now.says }
    {
        matches!(&self.says, Ok(Statement::End))
    }
}

impl<'a> Model for Stated<'a> {
    ghost use Rattle.std.specs.Result.{result_ok};
    ghost use Rattle.ov_scenario.specs.Statements.{Stated};

    ghost Value = { Stated };

    ghost view = { λ line. record { number = line.number; says = result_ok line.says } };
}
