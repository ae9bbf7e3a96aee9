//! What a store runs on.

use std::alloc::Global;

/// What a store runs on: memory, and the system's threads.
#[derive(Drop)]
pub struct Host<'r, R> {
    /// Where memory comes from.
    pub alloc: Global,
    /// The system.
    pub rt: &'r R,
}
