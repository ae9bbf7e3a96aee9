//! The store that a front calls: reads with read repair and resolvers, writes with pre-commit hooks, and the hooks themselves,
//! over vnodes and hooks, whoever reaches them (Riak KV documentation, reads, writes and hooks; this store's profile).
#![tactic(auto)]

mod backend;
mod bindings;
mod hooking;
mod notes;
mod noting;
mod store;

pub use bindings::bindings_of;
pub use hooking::install_program;
pub use notes::NotingBackend;
pub use store::{Read, Store};
