//! The vnodes of other servers as peers: what is asked of them, what they tell, and the link over which that goes.
#![tactic(auto)]

mod asking;
mod message;
mod remote;

pub use message::{Ask, Link, Question, Told};
pub use remote::Remote;
