//! How long clients may take.

ghost use Rattle.std.specs.Prelude.{◌≡◌, ◌≢◌, ◌-◌, ◌&&◌, ◌||◌, nat_lt, not, true, false, Some, None, unwrap_or, if◌then◌else◌};
ghost use Rattle.server_sockets.specs.Limits.{is_past_full, is_past_stop, is_too_slow, most_of};

use crate::limits::{FULL_LIMIT_MS, IDLE_LIMIT_MS, STALL_LIMIT_MS, STOP_LIMIT_MS};
use http_connections::Standing;

/// How a connection stands, and since when, in milliseconds: how long it is idle, or its next request is coming, or its client takes
/// nothing of its answers.
#[derive(Clone, Copy, Debug, PartialEq, Eq)]
pub struct Watch {
    /// How it stands.
    pub standing: Standing,
    /// Since when.
    pub since: u64,
}

impl Watch {
    /// A connection that came now.
    pub fn new(now: u64) -> Watch
        ensures standing { result.standing ≡ Standing.Idle }
        ensures since { result.since ≡ now }
    {
        Watch {
            standing: Standing::Idle,
            since: now,
        }
    }

    /// The connection stands so now, and some bytes of its answers were taken meanwhile or not. Where it stands as before, and none were,
    /// it does so since then, and else since now.
    pub fn after(self, standing: Standing, has_taken: bool, now: u64) -> Watch
        ensures standing { result.standing ≡ standing }
        ensures goes_on { standing ≡ self.standing → has_taken ≡ false → result.since ≡ self.since }
        ensures other { standing ≢ self.standing → result.since ≡ now }
        ensures taken { has_taken ≡ true → result.since ≡ now }
    {
        let goes_on = standing == self.standing && !has_taken;
        Watch {
            standing,
            since: if goes_on { self.since } else { now },
        }
    }

    /// Whether it has stood so for longer than it may.
    pub fn is_overdue(self, now: u64) -> bool
        ensures { result ≡ nat_lt (most_of self.standing) (now - self.since) }
    {
        let limit = match self.standing {
            Standing::Idle => IDLE_LIMIT_MS,
            Standing::Asking | Standing::Telling => STALL_LIMIT_MS,
        };
        now.saturating_sub(self.since) > limit
    }

    /// Whether its client is given up: it has stood so for longer than it may, and is read from, so that its client is to blame; or its
    /// worker was told to stop at that moment, and the time that is left then is over.
    pub fn is_given_up(self, is_held: bool, stopped: Option<u64>, now: u64) -> bool
        ensures { result ≡ is_too_slow self is_held stopped now }
    {
        has_had_its_time(stopped, now) || !is_held && self.is_overdue(now)
    }
}

// Whether a connection has had its time since its worker was told to stop, if it was.
fn has_had_its_time(stopped: Option<u64>, now: u64) -> bool
    ensures { result ≡ is_past_stop stopped now }
{
    match stopped {
        Some(stopped) => now.saturating_sub(stopped) > STOP_LIMIT_MS,
        None => false,
    }
}

/// Since when a worker has been full, as long as it is.
pub(crate) fn while_full(since: Option<u64>, is_full: bool) -> Option<u64>
    ensures { result ≡ (if is_full then since else None) }
{
    if is_full { since } else { None }
}

/// Since when a worker has been full, where it is now, and was before since that moment, if it was.
pub(crate) fn full_since(before: Option<u64>, is_full: bool, now: u64) -> Option<u64>
    ensures { result ≡ (if is_full then Some (unwrap_or before now) else None) }
{
    if is_full {
        Some(before.unwrap_or(now))
    } else {
        None
    }
}

/// Whether a worker that has been full since that moment, if it has, was so for as long as it may.
pub(crate) fn is_full_for_long(since: Option<u64>, now: u64) -> bool
    ensures { result ≡ is_past_full since now }
{
    match since {
        Some(since) => now.saturating_sub(since) >= FULL_LIMIT_MS,
        None => false,
    }
}
