//! What the runs of a sweep come to, for people: a summary in plain text, and which settings split seldom enough.
#![tactic(auto)]

mod confidence_interval;
mod means_of_measures;
mod measure;
mod phase_summary;
mod repeated_rows;
mod runs_by_setting;
mod seen_texts;
mod setting_names;
mod settings_by_size;
mod shown_cell;
mod split_answer;
mod split_bound;
mod summary_text_writing;
mod survived_crashes_in_words;
mod text_table;

pub use confidence_interval::{Interval, wilson_interval};
pub use means_of_measures::{ends_after, is_known, mean_after};
pub use measure::Measure;
pub use phase_summary::{ascending_ks, split_runs};
pub use repeated_rows::{RepeatedRuns, repeated_runs};
pub use runs_by_setting::{SettingRuns, differing, push_swept_command, run_counts, settings_of};
pub use setting_names::{SettingName, setting_name};
pub use shown_cell::ShownCell;
pub use split_answer::{SplitQuestion, few_runs_text, split_answer_text};
pub use split_bound::{SplitRuns, Verdict, first_below};
pub use summary_text_writing::{phase_name, summary_text};
pub use survived_crashes_in_words::Survival;
