//! An auditor that goes along: journals are handed over in blocks, and happen again in the order of their stamps.
#![tactic(auto)]

mod follower;
mod queue;
mod run;

pub use audit_faults::{AuditFault, EntryFault, TakeFault};
pub use audit_replay::{Recent, Start};
pub use follower::{Follower, Untaken};
