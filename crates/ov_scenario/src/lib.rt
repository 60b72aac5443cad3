//! Scenario files: what their lines say, which lines are at fault and why, and the scenario that a file says.
#![tactic(auto)]

mod block_reading;
mod event_words;
mod fault_listing;
mod first_fault_theorem;
mod given_random_words_reading;
mod judged_line_iterator;
mod line_judging;
mod line_judging_inside_together_block;
mod line_of_section;
mod lines_ahead;
mod lines_to_run;
mod numbered_events;
mod open_block;
mod scenario;
mod scenario_fault;
mod scenario_reading;
mod statement;
mod statement_reading;
mod whole_run_settings;
mod words_from_seed;

pub use event_words::EventWords;
pub use fault_listing::{FaultyLines, faulty_lines};
pub use first_fault_theorem::first_line_has_the_fault;
pub use line_of_section::{Deed, SectionLine};
pub use lines_to_run::{LineToRun, LinesToRun, line_asked_by};
pub use scenario::{Line, Look, Scenario, Subject};
pub use scenario_fault::{FaultyLine, LineFault, ScenarioFault, Setting};
pub use scenario_reading::read_scenario;
pub use statement_reading::{PARAMETERS, line_names};
pub use words_from_seed::draw;
