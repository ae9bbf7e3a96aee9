//! How a cluster ends: its passes are gathered, and what a follower has not followed yet while it served is followed. Journals that are
//! whole may be audited.
#![tactic(auto)]

mod closing;
mod copying;
mod ending;
pub mod laws;
mod limits;
mod watch;

pub use audit_faults::{Followed, WatchFault};
pub use audit_follower::Start;
pub use closing::{Audited, CloseFault, audit_vnodes};
pub use ending::{Closed, Verdict, close_watched};
pub use limits::RECENT;
pub use watch::{Alarm, Notice, Spot, Watch};
