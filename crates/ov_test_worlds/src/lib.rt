//! Tests of messages, handlers and nodes, of worlds with their snapshots and reports, of scenarios that run, and of
//! halls.
#![tactic(auto)]

#[cfg(test)]
mod hall;
#[cfg(test)]
mod handlers;
#[cfg(test)]
mod net;
#[cfg(test)]
mod nodes;
#[cfg(test)]
mod run;
#[cfg(test)]
mod snap;
