use crate::event_words::EventWords;
use crate::line_of_section::SectionLine;
use crate::lines_to_run::LinesToRun;
use ov_ids::{NodeId, Params, Seq, Workers};
use ov_net::Event;

/// A line of a scenario that is run.
#[derive(Drop)]
pub enum Line<'a> {
    /// An event happens, with these random words.
    Event { event: Event, words: EventWords<'a> },
    /// Something is looked at, and nothing changes.
    Look(Look),
    /// The overlay is analysed by this many workers, and a report is filed.
    Analyse { subject: Subject, workers: Workers },
    /// Sections run at once, each by a driver of its own: 1 to 64 of them, each with its lines in order.
    Together(Seq<Seq<SectionLine<'a>>>),
}

/// What is analysed: the overlay at a moment, for a group of its nodes, or for all of them if no group is named.
#[derive(Debug, Drop)]
pub struct Subject {
    pub moment: u32,
    pub group: Option<Seq<NodeId>>,
}

/// What is looked at between events.
#[derive(Debug, Drop)]
pub enum Look {
    /// The views of a node.
    Show(NodeId),
    /// All packets on their way.
    Packets,
    /// The certificate file of the report that is filed for a moment and a group.
    Certificate(Subject),
}

/// What a scenario file asks for: the parameters of all nodes, with their rule at DISCONNECT and the scale of their
/// world, the seed of the random words that no line gives, how many drivers its sections need, and the lines to run, in
/// order. The file's bytes are all that is kept of the lines.
#[derive(Drop)]
pub struct Scenario<'a> {
    pub params: Params,
    pub seed: u64,
    /// How many drivers the lines need: as many as the largest block has sections, and one if there is no block.
    pub drivers: Workers,
    pub lines: LinesToRun<'a>,
}
