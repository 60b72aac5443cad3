use crate::event_words::EventWords;
use ov_net::Event;
use std::marker::Model;

/// What a line of a section does.
#[derive(Drop)]
pub enum Deed<'a> {
    /// An event happens, with these random words.
    Event { event: Event, words: EventWords<'a> },
    /// The overlay at this moment is analysed, for all of its nodes and by one worker, and a report is filed.
    Analyse { moment: u32 },
}

/// A line of a section: what it does, and the line of the file that asks for it.
#[derive(Drop)]
pub struct SectionLine<'a> {
    /// The number of that line among all lines of the file. These are counted from 1.
    pub number: usize,
    /// Its text, without its line feed and one carriage return before that.
    pub text: &'a [u8],
    pub deed: Deed<'a>,
}

impl<'a> Model for SectionLine<'a> {
    ghost use Rattle.ov_scenario.specs.Sections.{SectionLine};

    ghost Value = { SectionLine };

    ghost view = { λ line. record { number = line.number; text = line.text.now; deed = line.deed } };
}
