//! Tests of the claim board, and of workers in threads that settle the pieces of Even's test together.
mod crews;
mod gates;
mod graphs;
mod highest_levels;
mod memory;
mod outlines;
mod tries;
