//! Limits of frames and hellos.

/// The most bytes of a frame's body: 16 MiB.
pub const MAX_BODY_BYTES: usize = 1 << 24;

/// The bytes of a hello and its tag.
pub const HELLO_BYTES: usize = 107;

/// The bytes of a frame without its body: length, number and tag.
pub(crate) const FRAME_BYTES: usize = 4 + 8 + 32;

/// The bytes of a hello without its tag.
pub(crate) const UNTAGGED_BYTES: usize = 75;
