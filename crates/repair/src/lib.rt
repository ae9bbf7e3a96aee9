//! Read repair, and the exchange of all keys of two vnodes (Riak KV documentation, read repair and active anti-entropy; this
//! store's profile). Only states that the vnodes themselves answered are sent.
#![tactic(auto)]

mod exchanging;
pub mod laws;
mod repairing;

pub use exchanging::{Exchanged, exchange};
pub use repairing::repair;
