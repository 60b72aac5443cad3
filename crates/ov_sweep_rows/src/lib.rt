//! The rows of a sweep, one for each run: their columns, and how they are written and read as CSV.
#![tactic(auto)]

mod broadcast_row;
mod cell;
mod cells_to_row;
mod column_name;
mod columns;
mod delivered_share;
mod field_reading;
mod four_decimals;
mod header_slips;
mod measured;
mod measures;
mod phase_column;
mod phase_costs;
mod phase_shape;
mod row;
mod row_cells;
mod row_fault;
mod row_form;
mod row_reading;
mod row_writing;

pub use broadcast_row::MessageRow;
pub use cell::Cell;
pub use cells_to_row::cell_at;
pub use column_name::ColumnName;
pub use delivered_share::DeliveredShare;
pub use four_decimals::FourDecimals;
pub use header_slips::{HeaderSlip, header_slip};
pub use measured::Measured;
pub use measures::Measures;
pub use phase_column::PhaseColumn;
pub use phase_costs::PhaseCosts;
pub use phase_shape::PhaseShape;
pub use row::{Phase, PhaseRow, Row};
pub use row_cells::option_cells;
pub use row_fault::{FieldFault, FieldForm, RowFault};
pub use row_form::RowForm;
pub use row_reading::read_rows;
pub use row_writing::{header_text, message_header_text, message_row_text, row_text};
