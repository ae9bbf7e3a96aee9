//! The limits of a folder's files.

/// The most vnodes that a folder has files of.
pub(crate) const MAX_VNODES: usize = 16;

/// So many bytes of records are written at a time: a call of the system for many.
pub(crate) const WRITE_PIECE_BYTES: usize = 65_536;

/// So many seconds after a snapshot the next one begins where nothing is set: a crash loses about a minute of writes.
pub(crate) const SNAPSHOT_INTERVAL_S: u32 = 60;
