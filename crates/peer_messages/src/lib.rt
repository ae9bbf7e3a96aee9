//! Messages between servers: what is asked of a vnode and what is told, as bytes. Each message has one spelling, in which keys, clocks,
//! contents and states stand as in records. The format is this store's profile.
#![tactic(auto)]

mod fault;
mod kinds;
pub mod laws;
mod limits;
mod parts;
mod read;
mod write;

pub use fault::Unread;
pub use read::{read_ask, read_told};
pub use write::{write_ask, write_told};
