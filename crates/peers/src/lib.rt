//! The vnodes of a store, as whoever reaches them: calls on them, and what came back. A call is at most one event at its vnode, and
//! may be lost or refused.
#![tactic(auto)]

mod fault;
pub mod laws;
mod local;
mod peers;

pub use fault::PeerFault;
pub use local::Local;
pub use peers::{Answer, PartAnswer, Peers, SummaryAnswer, fails_within};
