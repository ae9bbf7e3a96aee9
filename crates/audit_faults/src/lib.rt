//! What comes of following journals: why entries aren't taken, what is wrong with one, and what is said of all of them at the end.
#![tactic(auto)]

mod fault;

pub use fault::{AuditFault, EntryFault, Followed, TakeFault, WatchFault};
