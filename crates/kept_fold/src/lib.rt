//! Keys that many starts have written: their contents are written anew, so that their clocks don't grow with starts.
#![tactic(auto)]

mod anew;
mod candidates;
mod fold;
pub mod laws;
mod limits;
mod stale;

pub use fold::fold_files;
pub use limits::{FOLD_INDEX, MAX_FORMER_ENTRIES};
