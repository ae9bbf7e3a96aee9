//! Snapshots that are asked for.

use std::sync::atomic::AtomicBool;
use std::sync::atomic::Ordering::SeqCst;

/// Whether a snapshot is asked for. The thread that accepts asks; whoever makes snapshots looks.
#[derive(Drop)]
pub struct Snapshots {
    is_asked: AtomicBool,
}

impl Snapshots {
    /// None is asked for.
    pub(crate) fn new() -> Snapshots {
        Snapshots {
            is_asked: AtomicBool::new(false),
        }
    }

    /// Asks for one. Until somebody looks it is one, however often it is asked for.
    pub(crate) fn ask(&self) {
        self.is_asked.store(true, SeqCst);
    }

    /// Whether one was asked for since somebody looked.
    pub fn take(&self) -> bool {
        self.is_asked.swap(false, SeqCst)
    }
}
