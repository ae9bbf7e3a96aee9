//! The registry of hooks: verified programs under names, and which of them a bucket's hooks are.
#![tactic(auto)]

mod bindings;
mod changing;
mod fault;
pub mod laws;
mod lookup;
mod names;
mod registry;

pub use changing::HookChanges;
pub use fault::{HookFault, NameFault, NotSeen};
pub use lookup::Hooks;
pub use registry::Registry;
