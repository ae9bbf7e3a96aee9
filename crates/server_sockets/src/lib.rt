//! The sockets of one worker that has many connections, over `mio`: a [`Worker`] has a hall, its sockets and their limits of time; an
//! [`Inlet`] is where a thread that accepts hands connections over to it.
//!
//! For those who write the threads around it:
//! - A worker's thread calls [`Inlet::begin`], then [`Worker::turn`] until `open` is 0 and no more come, and [`Inlet::end`] before its last
//!   turn: that turn takes what was offered before.
//! - Where a log keeps what it does, [`Unlogged`] is noted before something is done that the log is to have, and its answers wait. Once the
//!   log has all of it, the worker's thread forgets the note and calls [`Worker::release`].
//! - `Turned::lacks` counts the connections that ended for want of memory since the turn before.
//! - Times are those of `Orders::now`. A wait may be as long as `most`: a limit of time is never short, and late by a wait and a second at
//!   the most.
#![tactic(auto)]

mod inlet;
pub mod limits;
mod line;
mod looks;
mod orders;
mod outcome;
mod sockets;
mod unlogged;
mod watch;
mod worker;

pub use inlet::Inlet;
pub use orders::{Orders, Stance, Turned};
pub use unlogged::Unlogged;
pub use watch::Watch;
pub use worker::{Worker, open};
