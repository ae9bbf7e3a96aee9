//! The file of a log: bytes are appended to it, and what was forced to its device outlives every crash.
#![tactic(auto)]

mod device;
mod file;
mod memory;

pub use device::{Device, DeviceFault};
pub use file::LogFile;
pub use memory::Memory;
