//! Which servers of a ring hold a key: rendezvous hashing (Thaler and Ravishankar, 1998). Each key stands in one of 1,024 partitions, and
//! each partition at the three servers that weigh most for it. So a server that comes takes its share from the others and moves nothing
//! among them, and what one held that goes is all that moves.
#![tactic(auto)]

pub mod laws;
mod ranking;
mod table;

pub use ranking::{Candidate, partition, row};
pub use table::PartitionTable;

/// The number of partitions.
pub const PARTITIONS: u32 = 1024;
