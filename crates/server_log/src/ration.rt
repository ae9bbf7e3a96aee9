//! How often troubles are told.

ghost use Rattle.std.specs.Prelude.{◌≡◌, replicate, slice_set};
ghost use Rattle.server_log.specs.Rations.{is_due, kept_of, left_by, place_of, told_by, untold};

use crate::limits::{APART_MS, KINDS};
use crate::trouble::Trouble;

/// What is kept of the troubles of one kind.
#[derive(Clone, Copy, Drop)]
pub struct Kept {
    /// When one was told last, in milliseconds of a clock; none where none was.
    pub last: Option<u64>,
    /// How many were left out since; the count stays at its greatest.
    pub left_out: u64,
}

impl Kept {
    // Whether one that comes now is told.
    fn is_due(&self, now: u64) -> bool
        ensures { result ≡ is_due self.now.last now }
    {
        match self.last {
            Some(last) => now.saturating_sub(last) >= APART_MS,
            None => true,
        }
    }

    // Takes one that comes now: where it is told, how many were left out since the last that was.
    fn take(&mut self, now: u64) -> Option<u64>
        ensures told { result ≡ told_by self.old now }
        ensures left { self.new ≡ left_by self.old now }
    {
        let left_out = self.left_out;
        if self.is_due(now) {
            self.last = Some(now);
            self.left_out = 0;
            Some(left_out)
        } else {
            self.left_out = left_out.saturating_add(1);
            None
        }
    }
}

/// Which troubles are told: the first of each kind, and then those that come a second or more after the last of their kind that was told.
#[derive(Drop)]
pub struct Ration {
    /// What is kept of each kind.
    pub kinds: [Kept; KINDS],
}

impl Ration {
    /// None was told, and none left out.
    pub fn new() -> Ration
        ensures { result.kinds ≡ replicate 10 untold }
    {
        Ration {
            kinds: [Kept {
                last: None,
                left_out: 0,
            }; KINDS],
        }
    }

    /// Whether a trouble is told that comes at this moment, in milliseconds of a clock that any kind's last one was told by: if so, how many of its kind
    /// were left out since.
    pub fn ask(&mut self, trouble: Trouble, now: u64) -> Option<u64>
        ensures told { result ≡ told_by (kept_of self.old.kinds trouble) now }
        ensures kept { self.new.kinds ≡ slice_set self.old.kinds (place_of trouble) (left_by (kept_of self.old.kinds trouble) now) }
    {
        self.kinds[trouble.place()].take(now)
    }
}
