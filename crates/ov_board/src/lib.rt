//! Workers that share out numbers, until one of them fails: their claims; a desk at which they claim by turns; and a
//! board, two words at which workers in threads claim, look, and fail, without waiting.
#![tactic(auto)]

mod atomic_exchange_rules;
mod claim_board;
mod claim_desk;
mod ghost_views;
mod legal_claims_theorems;
mod worker_claims;
mod worker_seat;

pub use claim_board::Board;
pub use claim_desk::Desk;
pub use legal_claims_theorems::{ends_done, stays_legal};
pub use worker_seat::Seat;
