//! The limits of a log.

/// So many milliseconds after a log was forced it is forced again, where that is set to be once a second.
pub(crate) const SYNC_INTERVAL_MS: u64 = 1_000;
