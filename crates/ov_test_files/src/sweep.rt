//! Tests of sweeps: the words of the command, rows, the summary and the picture.
mod command_words;
mod costs_and_shapes_in_rows;
mod memory;
mod reports;
mod rows;
