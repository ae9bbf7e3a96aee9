//! Whether the journals of some vnodes are one run of the world, in the order of their stamps.
#![tactic(auto)]

mod auditing;

pub use audit_faults::{AuditFault, EntryFault};
pub use auditing::audit;
