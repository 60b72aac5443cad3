//! Reads what Graphviz's language, DOT, says of a graph: the tokens of a text, which names are nodes, and which of
//! them list each other.
#![tactic(auto)]

mod dot_reading;
mod dump_making;
mod fault;
mod grammar_state;
mod lexeme_scanning;
mod name_reading;
mod same_tokens_theorem;
mod statement_reading;
mod token;
mod token_reading;
mod unique_tokens_theorems;

pub use dot_reading::read_dot;
pub use fault::{DotFault, Why};
pub use same_tokens_theorem::one_saying;
pub use token::{Kind, Token};
pub use unique_tokens_theorems::{no_reading, no_torn_reading, one_reading};
