//! Helpers that a program may call: stored closures, each beside what is known of it.
#![tactic(auto)]

mod fit;
mod helper;
pub mod laws;
mod layout;
mod sig;
mod sigs;
mod table;
mod text;
mod written;

pub use fit::fits;
pub use helper::{Body, Call, Closures, Helper};
pub use layout::{Row, newest};
pub use sig::{ARGUMENT_REGISTERS, ArgRule, Entry, Sig, is_helper_number};
pub use sigs::Sigs;
pub use table::{HelperFault, Table};
pub use text::{decimal, find, order};
pub use written::written_sig;
