//! The store behind a TCP socket: one thread takes the connections that come and hands them out to workers in turn, and hears when it is
//! to stop.
#![tactic(auto)]

mod acceptor;
mod console;
mod ending;
mod lobby;
mod roster;
mod snapshots;
mod start;
mod timer;

pub use acceptor::{Acceptor, Setup};
pub use ending::Ending;
pub use lobby::{Lobby, open};
pub use roster::{Post, Roster};
pub use snapshots::Snapshots;
pub use start::{Bound, bind, tell_listening};
pub use timer::{Stint, Timer};
