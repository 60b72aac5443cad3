//! A scenario is made line by line, each line of an event or of an analysis. Its text, which is written when it is
//! asked for, says at any time the scenario whose lines were added, each event with the random words that its seed
//! gives next.
#![tactic(auto)]

mod line_to_write;
mod line_writing;
mod recordable_event;
mod scenario_written_line_by_line;

pub use recordable_event::Act;
pub use scenario_written_line_by_line::Script;
