ghost use Rattle.std.specs.Prelude.{◌≡◌};
ghost use Rattle.ov_scenario.specs.Code.Reading.{numbered};

use ov_ids::NodeId;
use ov_lines::{ID, Kind};
use ov_net::Event;

/// An event whose line has one number behind its name.
#[derive(Clone, Copy)]
pub(crate) enum Numbered {
    /// The packet at a place is delivered.
    Deliver,
    /// The packet at a place is lost.
    Lose,
    /// The packet at a place is repeated.
    Repeat,
    /// A node crashes.
    Crash,
    /// A node starts a shuffle.
    Shuffle,
}

impl Numbered {
    /// What the number is.
    pub(crate) fn wanted(self) -> &'static [Kind] {
        match self {
            Numbered::Deliver | Numbered::Lose | Numbered::Repeat => {
                &[Kind::Short("the place of a packet")]
            }
            Numbered::Crash | Numbered::Shuffle => &[ID],
        }
    }

    /// The event with this number.
    pub(crate) fn with(self, number: u32) -> Event
        ensures { result ≡ numbered self number }
    {
        match self {
            Numbered::Deliver => Event::Deliver(number),
            Numbered::Lose => Event::Lose(number),
            Numbered::Repeat => Event::Repeat(number),
            Numbered::Crash => Event::Crash(NodeId::new(number)),
            Numbered::Shuffle => Event::Shuffle(NodeId::new(number)),
        }
    }
}
