//! A sweep grows many overlays by workers. Each is told as a row of numbers, or its broadcasts as a row each.
#![tactic(auto)]

mod message_row_making;
mod options_determine_rows;
mod overlay_batch_growing;
mod phase_costs;
mod phase_measurements;
mod phase_shape;
mod sweep_fault;
mod sweep_row_making;
mod sweeping;

pub use message_row_making::message_rows_of;
pub use options_determine_rows::{one_messages, one_row};
pub use overlay_batch_growing::{GrownBatch, RefusedRun, grow_batch};
pub use sweep_fault::SweepFault;
pub use sweep_row_making::row_of;
pub use sweeping::{RowTaker, sweep};
