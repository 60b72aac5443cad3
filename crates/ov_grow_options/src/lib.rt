//! The options of growing an overlay, each within its limits, their table, and the command that says them.
#![tactic(auto)]

mod number_within_limits;
mod option_table;
mod options;
mod options_as_command;
mod options_from_values;

pub use number_within_limits::{
    Chance, Count, HEALING_ROUNDS, MOST_NODES, MOST_OF_HUNDRED, MOST_ROUNDS, MOST_SHARE,
    MOST_TURNS, NO_CHANCE, NO_ROUNDS, NO_SHARE, NODES, NodeCount, Pace, SETTLING_ROUNDS, Share,
    Within,
};
pub use option_table::{
    BROADCASTS, CRASH_CUT, OPTION_COUNT, OPTIONS, OptionRow, OptionValue, SEED, Unit,
    growing_options,
};
pub use options::{Crash, GrowOptions, Order};
pub use options_as_command::Shown;
pub use options_from_values::OptionValues;
