//! How often a worker looks for something to do before it sleeps.

ghost use Rattle.std.specs.Prelude.{◌≡◌};
ghost use Rattle.server_sockets.specs.Looks.{looks_after, most_looks};

use crate::limits::{MAX_LOOKS, SLEEPS_PER_LOOK};

/// How often a worker looks whether something is to be done before it sleeps until something is.
///
/// A thread that sleeps is woken later than a client that asks one request after another sends the next one, so a worker looks for a while
/// first. Where that finds nothing it looks half as often the next time, and in the end but once in a while, so that an idle worker, or one
/// whose clients take longer, leaves the processor to others.
#[derive(Clone, Copy, Debug, PartialEq, Eq)]
pub(crate) struct Looks {
    /// How often it looks before the next sleep.
    pub(crate) count: u32,
    /// So many sleeps passed without a look before them.
    unlooked: u32,
}

impl Looks {
    /// It looks as often as it may.
    pub(crate) fn new() -> Looks
        ensures { result ≡ most_looks }
    {
        Looks {
            count: MAX_LOOKS,
            unlooked: 0,
        }
    }

    /// What follows where something was found by a look, or nothing was and it slept.
    pub(crate) fn after(self, found: bool) -> Looks
        ensures { result ≡ looks_after self found }
    {
        if found || self.unlooked >= SLEEPS_PER_LOOK {
            return Looks::new();
        }
        let unlooked = if self.count == 0 {
            self.unlooked + 1
        } else {
            0
        };
        Looks {
            count: self.count / 2,
            unlooked,
        }
    }
}
