//! Where threads look hooks up: in what was published of a list of changes, without waiting.
#![tactic(auto)]

mod edit;
mod rack;
mod reader;

pub use edit::Edit;
pub use rack::{Op, Rack};
pub use reader::{HookReader, Note};
