//! The log buffer, where workers hand over what they noted, and the log writer, which writes that to a log's file and forces it.
#![tactic(auto)]

mod buffer;
mod prefixes;
mod sheet;
mod writer;

pub use buffer::{Batch, BufferFault, LogBuffer};
pub use prefixes::{Forced, Receipt, Written};
pub use sheet::Sheet;
pub use writer::{LogWriter, WriteFault};
