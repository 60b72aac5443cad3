//! Tests of lists in blocks, of parameters, messages and views, and of HyParView's handlers.
mod blocks;
mod join;
mod neighbor;
mod nodes;
mod shuffle;
mod views;
mod wire;
