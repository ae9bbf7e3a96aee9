//! How a server ends.

ghost use Rattle.std.specs.Prelude.{◌≡◌};
ghost use Rattle.server_accept.specs.Endings.{stance_of};

use server_sockets::Stance;
use std::sync::atomic::AtomicBool;
use std::sync::atomic::Ordering::SeqCst;

/// How far the end of a server has come. Each step is told once, by the thread that accepts, and is never taken back.
#[derive(Drop)]
pub struct Ending {
    /// No more connections come.
    is_full: AtomicBool,
    /// What was read whole is answered, and all connections close.
    is_stopped: AtomicBool,
    /// No client is waited for.
    is_cut: AtomicBool,
}

impl Ending {
    /// No end yet.
    pub(crate) fn new() -> Ending {
        Ending {
            is_full: AtomicBool::new(false),
            is_stopped: AtomicBool::new(false),
            is_cut: AtomicBool::new(false),
        }
    }

    /// As many connections have come as may: those that are open go on to their ends.
    pub(crate) fn finish(&self) {
        self.is_full.store(true, SeqCst);
    }

    /// The server is told to stop: in order, the first time, and the second time at once.
    pub(crate) fn stop(&self) {
        if self.is_stopped.swap(true, SeqCst) {
            self.is_cut.store(true, SeqCst);
        }
    }

    /// What workers do.
    pub fn stance(&self) -> Stance {
        stance_of(self.is_stopped.load(SeqCst), self.is_full.load(SeqCst))
    }

    /// Whether workers end without waiting for clients.
    pub fn is_cut(&self) -> bool {
        self.is_cut.load(SeqCst)
    }
}

/// What workers do, where the server was told to stop or wasn't, and where more connections may come or not.
fn stance_of(is_stopped: bool, is_full: bool) -> Stance
    ensures { result ≡ stance_of is_stopped is_full }
{
    if is_stopped {
        Stance::Stopping
    } else if is_full {
        Stance::Finishing
    } else {
        Stance::Serving
    }
}
