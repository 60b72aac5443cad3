//! Scenarios that run: reads and writes that fail, refused allocations, a full world, and what a watcher is told. What
//! is printed is an example.
mod failing_calls;
mod full_world;
mod memory;
mod watched;
