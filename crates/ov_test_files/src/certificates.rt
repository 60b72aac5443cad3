//! Tests of graphs, certificates, their files, and what the checker says of them.
mod check;
mod entries;
mod failing_calls;
mod files;
mod graph;
mod rows;
mod tokens;
mod told;
