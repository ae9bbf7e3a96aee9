//! The limits of what waits unsent at a worker.

/// With so many bytes of answers unsent, of all connections together, a worker is full: 64 MiB. It begins no request and reads nothing then.
pub(crate) const FULL_BYTES: usize = 67_108_864;

/// Where connections of a full worker are closed, at most so many bytes are left: half of what fills it.
pub(crate) const HALF_FULL_BYTES: usize = 33_554_432;
