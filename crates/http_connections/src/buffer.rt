//! Room for what is read at once.

ghost use Rattle.std.specs.Prelude.{◌≡◌, ◌<◌, ℕ, length};

use http_connection::READ_PIECE_BYTES;
use std::alloc::{AllocError, Global};

/// Room for what is read at once. It is not empty.
#[derive(Drop)]
pub(crate) struct Buffer {
    pub(crate) bytes: Vec<u8>,
    ghost room: { 0 < length bytes.items },
}

impl Buffer {
    /// A buffer. The error is want of memory.
    pub(crate) fn new(alloc: Global) -> Result<Buffer, AllocError> {
        let bytes = vec![in alloc; 0; READ_PIECE_BYTES]?;
        Ok(Buffer { bytes })
    }
}
