//! Tests of the search for paths, of the pieces that it settles, and of workers in threads that settle them together.
#![tactic(auto)]

#[cfg(test)]
mod articulations;
#[cfg(test)]
mod crew;
#[cfg(test)]
mod drawn;
#[cfg(test)]
mod families;
#[cfg(test)]
mod memory;
#[cfg(test)]
mod path_judge;
#[cfg(test)]
mod piece_numbers;
#[cfg(test)]
mod pieces;
#[cfg(test)]
mod searches;
#[cfg(test)]
mod shapes;
#[cfg(test)]
mod sizes;
#[cfg(test)]
mod wanted;
