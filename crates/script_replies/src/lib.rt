//! Replies as text: what events and hooks answered, a line each.
#![tactic(auto)]

mod decision;
mod number;
mod reply;
mod state;

pub use decision::{print_run_fault, print_verdict};
pub use number::{refusal_number, token_fault_number};
pub use reply::print_reply;
pub use state::print_state;
