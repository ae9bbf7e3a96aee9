//! Scripts, and what their lines print.
#![tactic(auto)]

mod dumping;
mod loading;
mod printing;

pub use dumping::{Dumping, run_and_dump};
pub use loading::run_from;
pub use printing::sim;
