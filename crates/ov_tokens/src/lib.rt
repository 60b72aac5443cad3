//! A cursor over the tokens of a JSON text: whoever knows which token is next takes it off the front, and the value of
//! the text is not made.
#![tactic(auto)]

mod token_cursor;
mod token_texts;

pub use token_cursor::{OtherToken, TokenCursor};
