//! Stories of worlds, cores, desks, pieces, analyses, files that are written and read, and halls.
//! `dev/refuse-allocations` refuses each of their allocations in turn.
#![tactic(auto)]

#[cfg(test)]
mod analyses;
#[cfg(test)]
mod cores;
#[cfg(test)]
mod desks;
#[cfg(test)]
mod events;
#[cfg(test)]
mod files;
#[cfg(test)]
mod halls;
#[cfg(test)]
mod pieces;
#[cfg(test)]
mod readings;
#[cfg(test)]
mod square_groups;
#[cfg(test)]
mod told;
#[cfg(test)]
mod worlds;
