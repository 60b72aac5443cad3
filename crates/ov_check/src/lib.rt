//! The outcome of a certificate file, and the line that is printed of it. One thread judges a certificate, or many do.
#![tactic(auto)]

mod arguments_and_exit_status;
mod check_or_memory_fault;
mod outcome_line;
mod outcome_of_file_bytes;
mod parallel;
mod read_judge_and_print_outcome;
mod read_or_write_fault;

pub use arguments_and_exit_status::{
    FaultLine, ProgramFault, exit_status, failure_text, input_named, why_no_input,
};
pub use check_or_memory_fault::ParallelFault;
pub use outcome_of_file_bytes::{Outcome, filed_in, outcome_of};
pub use parallel::{check_group_parallel, check_parallel};
pub use read_judge_and_print_outcome::{Judged, judge, judge_kept, judge_large, judge_parallel};
pub use read_or_write_fault::JudgeFault;
