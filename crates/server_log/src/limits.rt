//! How much is noted of troubles, and how often they are told.

/// The most bytes of a bucket's name.
pub(crate) const BUCKET_BYTES: usize = 64;

/// How many kinds of troubles there are.
pub(crate) const KINDS: usize = 10;

/// So many milliseconds at least are between two troubles of one kind that are told.
pub(crate) const APART_MS: u64 = 1_000;
