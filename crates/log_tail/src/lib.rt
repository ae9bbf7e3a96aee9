//! The records of a log's file, whatever a crash made of its end.
#![tactic(auto)]

mod front;
pub mod laws;

pub use front::records_in_front;
