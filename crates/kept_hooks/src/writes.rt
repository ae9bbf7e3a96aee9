//! What is noted of writes to a store, for who makes its snapshots.

use crate::list::Requests;
use std::sync::atomic::AtomicBool;
use std::sync::atomic::Ordering::SeqCst;

/// Whether something was written to a store since that was looked at last, as all who write there note it. Where a resolver may be bound each
/// read counts as a write, since what a resolver chooses is written.
#[derive(Drop)]
pub struct Writes {
    is_noted: AtomicBool,
    may_resolve: AtomicBool,
}

impl Writes {
    /// Nothing is noted, of a store whose hooks these requests made.
    pub fn new(requests: &Requests) -> Writes {
        Writes {
            is_noted: AtomicBool::new(false),
            may_resolve: AtomicBool::new(requests.may_bind_resolver()),
        }
    }

    /// Whether something was written, as far as is noted.
    pub fn is_noted(&self) -> bool {
        self.is_noted.load(SeqCst)
    }

    /// Notes that something may have been written. It is to be noted once that is done, so who forgets the note and reads the store then has
    /// it, or finds another note later.
    pub fn note(&self) {
        // Most often it is noted already: then the others' copies of it stay.
        if !self.is_noted() {
            self.is_noted.store(true, SeqCst);
        }
    }

    /// All that was written is known, or is read now: what is written from now on is noted again.
    pub fn forget(&self) {
        self.is_noted.store(false, SeqCst);
    }

    /// Whether a read may write, since a resolver may be bound.
    pub fn may_resolve(&self) -> bool {
        self.may_resolve.load(SeqCst)
    }

    /// Notes that a read is done, which may have written what a resolver chose.
    pub(crate) fn note_read(&self) {
        if self.may_resolve() {
            self.note();
        }
    }

    /// Notes that a resolver is about to be bound, so that each read that finds it is noted. It stays so noted when none is bound any more.
    pub(crate) fn note_resolver(&self) {
        self.may_resolve.store(true, SeqCst);
    }
}
