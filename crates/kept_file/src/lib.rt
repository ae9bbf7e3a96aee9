//! What outlives a process of the store, but for files: the file of a vnode's records and those of a log, the number of the next start,
//! what vnodes begin with of such files, and the records of a vnode that serves, or serves no more.
#![tactic(auto)]

mod file;
mod halves;
mod logs;
mod number;
mod placing;
mod snapshot;
mod whole;

pub use file::{KeptFile, Source, Unkept, read_file};
pub use logs::{read_last_log, read_log};
pub use number::{MAX_NUMBER, Spent, next_number};
pub use placing::placed;
pub use snapshot::{Pace, SnapshotFault, Subject, write_snapshot};
pub use whole::write_whole;
