//! When workers rest, so that what they do can be followed, and when it is.

ghost use Rattle.std.specs.Prelude.{◌≡◌, true};

use crate::limits::{
    CONTENT_BYTES_PER_ENTRY, FEW_ENTRIES, FOLLOW_BREATH_MS, FOLLOW_TICK_MS, PAUSE_ENTRIES,
    RESUME_ENTRIES, SNAPSHOTS_PAUSE_ENTRIES,
};
use audit_cluster::{Spot, Watch};
use cluster::Room;
use std::time::Duration;

/// When the next turn is of the thread that follows.
#[derive(Clone, Copy, Debug)]
pub(crate) enum Next {
    /// At once: much waits to be followed.
    Now,
    /// Soon: little does. A client whose thread shares the processor isn't kept waiting for milliseconds.
    Soon,
    /// Later: nothing does.
    Later,
}

impl Next {
    /// By what waits, and whether there is more to follow.
    pub(crate) fn after<B: Room + Spot>(watch: &Watch<B>, is_more: bool) -> Next {
        if !is_more {
            Next::Later
        } else if is_below(watch, FEW_ENTRIES) {
            Next::Soon
        } else {
            Next::Now
        }
    }

    /// How long connections are waited for until then.
    pub(crate) fn pause(self) -> Duration {
        let millis = match self {
            Next::Now => 0,
            Next::Soon => FOLLOW_BREATH_MS,
            Next::Later => FOLLOW_TICK_MS,
        };
        Duration::from_millis(millis)
    }
}

/// Whether workers rest, by how much waits to be followed.
///
/// A watch starts vnodes again at which nothing happens long before so much waits, so what waits can be followed, and a rest has an end.
#[derive(Clone, Copy, Debug)]
pub(crate) struct Pace {
    rests: bool,
}

impl Pace {
    /// Nobody rests.
    pub(crate) fn new() -> Pace {
        Pace { rests: false }
    }

    /// Whether workers rest from now on. They do so only where there is something to follow.
    pub(crate) fn look<B: Room + Spot>(&mut self, watch: &Watch<B>, is_more: bool) -> bool
        ensures { result ≡ true → is_more ≡ true }
    {
        let most = if self.rests {
            RESUME_ENTRIES
        } else {
            PAUSE_ENTRIES
        };
        self.rests = is_more && !is_below(watch, most);
        self.rests
    }
}

/// Whether snapshots wait until more is followed. They do so only where there is something to follow.
pub(crate) fn keeps_snapshots_waiting<B: Room + Spot>(watch: &Watch<B>, is_more: bool) -> bool {
    is_more && !is_below(watch, SNAPSHOTS_PAUSE_ENTRIES)
}

/// Whether fewer than so many entries wait, with less than their bytes of contents.
fn is_below<B: Room + Spot>(watch: &Watch<B>, many: usize) -> bool {
    watch.can_go_on(many) && watch.holds_less((many as u64).saturating_mul(CONTENT_BYTES_PER_ENTRY))
}
