//! The clocks by which limits are kept.

ghost use Rattle.std.specs.Prelude.{◌≤◌};

use libc::types::timespec;
use libc::{CLOCK_MONOTONIC, CLOCK_THREAD_CPUTIME_ID, clock_gettime};

/// Milliseconds of the system's clock that never goes back. Each look at a clock that can't be read counts as one.
///
/// It is the system's own call: a thread of a server isn't lent the handle of a clock.
#[derive(Clone, Copy, Debug)]
pub struct Timer {
    /// The latest that was told.
    pub last: u64,
}

impl Timer {
    /// A timer that has told nothing.
    pub fn new() -> Timer {
        Timer { last: 0 }
    }

    /// What time it is.
    pub fn now(&mut self) -> u64
        ensures { self.old.last ≤ result }
    {
        self.last = match micros(CLOCK_MONOTONIC) {
            Some(now) => self.last.max(now / 1_000),
            None => self.last.saturating_add(1),
        };
        self.last
    }
}

/// A piece of a thread's work, of which it is known for how long the thread waited: for a processor, a lock or a device.
#[derive(Clone, Copy, Debug)]
pub struct Stint {
    /// When it began, in microseconds.
    begin: u64,
    /// For how long the thread had worked before.
    worked: u64,
}

impl Stint {
    /// One of the calling thread that begins now.
    pub fn begin() -> Stint {
        Stint {
            begin: monotonic(),
            worked: micros(CLOCK_THREAD_CPUTIME_ID).unwrap_or(0),
        }
    }

    /// So many microseconds have passed since it began.
    pub fn lasted(&self) -> u64 {
        monotonic().saturating_sub(self.begin)
    }

    /// For so many microseconds the thread, which is the calling one, has waited since it began.
    pub fn waited(&self) -> u64 {
        let Stint { begin, worked } = Stint::begin();
        let lasted = begin.saturating_sub(self.begin);
        lasted.saturating_sub(worked.saturating_sub(self.worked))
    }
}

/// The microseconds of the system's clock that never goes back, or 0 where it can't be read.
fn monotonic() -> u64 {
    micros(CLOCK_MONOTONIC).unwrap_or(0)
}

/// The microseconds of a clock of the system, if it can be read.
fn micros(clock: i32) -> Option<u64> {
    let mut time = timespec {
        tv_sec: 0,
        tv_nsec: 0,
    };
    if clock_gettime(clock, &mut time) != 0 {
        return None;
    }
    let seconds = time.tv_sec.unsigned_abs();
    let part = time.tv_nsec.unsigned_abs() / 1_000;
    Some(seconds.saturating_mul(1_000_000).saturating_add(part))
}
