use ov_sweep_rows::Measured;

/// What is told of a phase by the mean of runs: what it is of, its place among the columns of a phase for that, counted
/// from 0, and the head of its column in a table.
pub type Measure = (Measured, usize, &'static str);
