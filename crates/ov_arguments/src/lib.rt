//! What the arguments of the command `overlay` ask for, and why they are refused.
#![tactic(auto)]

mod arguments;
mod choice_of_grow_or_sweep;
mod clap_parsing_and_faults;
mod grow_arguments_fault;
mod grow_request;
mod import_and_picture_requests;
mod messages_option_slips;
mod option_values;
mod refused_argument_texts;
mod setting_lists;
mod sweep_blocks;
mod sweep_list_reading;
mod sweep_request;
mod sweep_runs;

pub use arguments::{AnalysisRequest, ArgumentsFault, Request, RunRequest, read_arguments};
pub use choice_of_grow_or_sweep::{GrowingRequest, read_growing};
pub use grow_arguments_fault::GrowArgumentsFault;
pub use grow_request::{GrowRequest, read_grow_arguments};
pub use import_and_picture_requests::{AskedEntry, DumpFormat, ImportRequest, PictureRequest};
pub use refused_argument_texts::argument_reasons;
pub use sweep_blocks::{SweepBlock, SweepBlocks};
pub use sweep_request::{AskedPhase, Printed, SplitAsked, SweepRequest, read_sweep_arguments};
pub use sweep_runs::SweepRuns;
