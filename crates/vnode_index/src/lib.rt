//! An index from hashes to the places of items in a list that somebody else keeps: a hash map without its keys and
//! values. It takes 6 bytes a slot, and an eighth of the slots stays free.
#![tactic(auto)]

mod index;
mod probe;
mod slot;

pub use index::Index;
pub use slot::Fingerprint;
