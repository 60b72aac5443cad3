//! Tests of files: certificates and what the checker says of them, dumps, pictures, rows of sweeps, and what a person
//! is told. What a program shows of texts is an example.
#![tactic(auto)]

#[cfg(test)]
mod certificates;
#[cfg(test)]
mod drawn_words;
#[cfg(test)]
mod dumps;
#[cfg(test)]
mod file_kinds;
#[cfg(test)]
mod near_keys;
#[cfg(test)]
mod picture;
#[cfg(test)]
mod reasons;
#[cfg(test)]
mod sweep;
#[cfg(test)]
mod watched_analyses;
