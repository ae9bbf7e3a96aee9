//! What happened at a vnode, oldest first, and what that means.
#![tactic(auto)]

mod blocks;
mod entry;
mod front;
mod journal;
pub mod laws;
pub mod rows;
mod whole;

pub use blocks::BLOCK;
pub use entry::{Entry, Merged, Said, Taken, Write};
pub use front::{Front, Handout, Past};
pub use journal::{Journal, JournalFault};
pub use whole::Whole;
