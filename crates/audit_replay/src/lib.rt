//! Entries of several vnodes happen again: one after another as they come, or all of some journals in the order of their stamps, with the
//! tests that an audit is made of.
#![tactic(auto)]

mod again;
mod followed;
mod heads;
mod kept;
pub mod laws;
mod rerun;
mod sizes;
mod sources;
mod stamps;
mod start;
mod turns;

pub use audit_faults::{AuditFault, EntryFault};
pub use kept::Recent;
pub use rerun::Rerun;
pub use sizes::bytes_of_entry;
pub use sources::check_sources;
pub use stamps::{check_rising, check_single};
pub use start::Start;
