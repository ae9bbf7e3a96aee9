//! The desk of a log, which workers share: each puts its sheet down, and whoever has the pen writes all that wait, and forces them as it is
//! set. A snapshot turns the page: the log ends in order and the next one begins, and the ended ones are removed once all files stand.
#![tactic(auto)]

mod desk;
mod hooks_file;
mod kept;
mod ledger;
mod limits;
mod page;
mod pen;
mod tray;

pub use desk::{Desk, open};
pub use hooks_file::HooksFile;
pub use kept::{Covered, Kept};
pub use ledger::{Ledger, NoLedger, Pages};
pub use page::{Page, PageFault};
