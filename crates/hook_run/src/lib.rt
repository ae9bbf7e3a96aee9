//! Runs of hooks: from a program that was let in and the siblings of a key to a verdict.
#![tactic(auto)]

pub mod deciding;
pub mod laws;
pub mod resolving;

pub use deciding::{Room, RunFault, decide};
pub use resolving::{Resolution, Unresolved, resolve};
