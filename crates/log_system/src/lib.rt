//! The file of a log, in the system's files.
//!
//! No contract can say what a file of the system holds. So this one has a history of its calls that only proofs read, and what stands in
//! the file, and what a crash leaves of it, is said by that history: the file's [`Device`](log_file::Device) is a supposed one.
//!
//! Supposed of the system are three things. A call that succeeds did what POSIX says of `write` in append mode, `ftruncate` and
//! `fdatasync`, on a file that nobody else writes; one that fails did a part of it, and no clause says which. A force that succeeds,
//! where none failed before, leaves on the device what stands in the file. A write behind the end, and a cut, leave what stands before
//! them, whatever crash comes: SQLite's property of powersafe overwrite.
#![tactic(auto)]

mod history;
mod system;
#[cfg(test)]
mod tests;

pub use system::SystemLog;
