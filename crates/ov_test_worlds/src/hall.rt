//! Tests of halls, whose drivers step one core.
mod analyses_beside;
mod halls;
mod many_drivers;
mod stories;
