//! The commands of `overlay` with their options, each a row of a table: what `clap` makes of them, help of them, and
//! what a person may mean whose words they refuse.
#![tactic(auto)]

mod argument_tips;
mod clap_commands_and_help;
mod found_values;
mod grow_and_sweep_clap_commands;
mod grow_and_sweep_option_tables;
mod help_and_version;
mod known_commands;
mod refused_word_slips;
mod slip_tips;
mod value_slips;

pub use argument_tips::{HELP_BELOW, joined_list, push_list, shown, unopened_tip, with_tip};
pub use clap_commands_and_help::command;
pub use found_values::{has_flag, text_of};
pub use grow_and_sweep_clap_commands::{GrowingCommand, command_tree, growing_command};
pub use grow_and_sweep_option_tables::{AFTER, BOUND, LIST, RUNS, WORKERS};
pub use help_and_version::{CommandTopic, Telling, telling_asked, telling_text};
pub use known_commands::is_command;
pub use ov_grow_options::{CRASH_CUT, growing_options};
pub use refused_word_slips::reason_meant;
pub use slip_tips::SlipTip;
pub use value_slips::{RANGE, is_gapped, list_tip, one_value, slip_tip};
