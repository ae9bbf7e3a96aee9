//! What a worker did that the log doesn't have yet.

use std::alloc::{AllocError, Global};
use std::sync::Arc;
use std::sync::atomic::AtomicBool;
use std::sync::atomic::Ordering::SeqCst;

/// Whether a worker did something that is noted for the log, and that the log doesn't have yet: then answers wait that may tell of it. All
/// that are made of one are the same. Where nothing is ever noted, as where no folder keeps the store, no answer waits.
#[derive(Drop)]
pub struct Unlogged {
    is_noted: Arc<AtomicBool>,
}

impl Unlogged {
    /// One of a worker that did nothing yet, and the same once more.
    pub(crate) fn pair(alloc: Global) -> Result<(Unlogged, Unlogged), AllocError> {
        let is_noted = Arc::new(alloc, AtomicBool::new(false))?;
        let again = Arc::try_clone(&is_noted)?;
        Ok((Unlogged { is_noted }, Unlogged { is_noted: again }))
    }

    /// The worker is about to do something that the log is to have.
    pub fn note(&self) {
        self.is_noted.store(true, SeqCst);
    }

    /// The log has all that it did.
    pub fn forget(&self) {
        self.is_noted.store(false, SeqCst);
    }

    /// Whether the log lacks something.
    pub fn is_noted(&self) -> bool {
        self.is_noted.load(SeqCst)
    }
}
