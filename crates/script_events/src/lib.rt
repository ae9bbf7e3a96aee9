//! Scripts: the events over vnodes that their lines ask for.
#![tactic(auto)]

mod asking;
mod changing;
mod check;
mod hooking;
mod images;
mod names;
mod reading;
mod script;
mod spelling;

pub use check::Check;
pub use images::{Images, NoHook};
pub use script::{Answered, BadAt, MAX_VNODES, Script, parse, parse_from};
