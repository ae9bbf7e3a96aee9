//! A folder that outlives its process: what is read from it at a start, and how its files are replaced.
//!
//! It holds `incarnation`, the number of the last start and how many vnodes have files; `vnode-0.records` to `vnode-15.records`, a file of records for each vnode, of
//! which there may be fewer; `log-N`, records of any vnode in the order in which they were written, N rising from file to file;
//! `hooks.requests`, the requests that install and bind hooks; and `settings`, which who runs the store may have written. Each file stands
//! for itself: its records are merges, and merges of records of another moment are as true. So files are replaced one by one, no file has
//! to be of the same moment as another, and a log whose records stand in the vnodes' files too changes nothing.
#![tactic(auto)]

mod files;
mod limits;
mod lines;
mod log_folder;
mod logs;
mod names;
mod opening;
mod sealing;
mod settings;
mod writing;

pub use files::{FileFault, Folder};
pub use log_folder::{LogFolder, end_bytes, end_log};
pub use logs::{LogFault, Logs};
pub use names::HOOKS;
pub use opening::{Held, OpenFault, Opened, keep_start, open};
pub use settings::{Settings, SyncPolicy};
pub use writing::{Unreplaced, WriteFault, keep_all, keep_requests, keep_served};
