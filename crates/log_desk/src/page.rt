//! Pages: the logs of a folder, as snapshots turn them.

use thiserror::Error;

/// What a snapshot covers once it is whole.
#[derive(Clone, Copy, Debug, PartialEq, Eq)]
pub struct Page {
    /// The number of the newest log whose records are all in the snapshot.
    pub last: u64,
    /// The number of the snapshot, as the ledger counts them.
    pub snapshot: u64,
}

/// Why a log isn't written, begun or removed.
#[derive(Clone, Copy, Debug, PartialEq, Eq, Error)]
pub enum PageFault {
    /// Memory was refused for what was to be noted.
    #[error("E1")]
    Unnoted,
    /// What waits can't be written or forced.
    #[error("log-{0}: unwritten")]
    Unwritten(u64),
    /// The log can't be begun.
    #[error("log-{0}: can't be begun")]
    Unbegun(u64),
    /// The log can't be removed.
    #[error("log-{0}: can't be removed")]
    Unremoved(u64),
}
