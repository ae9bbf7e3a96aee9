//! A buffer that goes from connection to connection.

ghost use Rattle.std.specs.Prelude.{◌≡◌, []};

use crate::limits::KEPT_BUFFER_BYTES;
use std::alloc::Global;
use std::mem;

/// A buffer without bytes, which goes from connection to connection: one that has bytes to keep takes it, and hands it back once none are
/// left. So a connection that waits for its client has none, and the next one need not ask the system for any.
#[derive(Drop)]
pub(crate) struct Spare {
    alloc: Global,
    buffer: Vec<u8>,
    ghost empty: { buffer.items ≡ [] },
}

impl Spare {
    /// A buffer without room. It takes no memory.
    pub(crate) fn new(alloc: Global) -> Spare {
        Spare {
            alloc,
            buffer: Vec::new(alloc),
        }
    }

    /// Takes the buffer: it has no bytes, and perhaps no room.
    pub(crate) fn take(&mut self) -> Vec<u8>
        ensures { result.items ≡ [] }
    {
        mem::replace(&mut self.buffer, Vec::new(self.alloc))
    }

    /// Hands a buffer back, whose bytes are wanted no more. The one with more room is kept, if that isn't too much.
    pub(crate) fn put_back(&mut self, mut buffer: Vec<u8>) {
        let room = buffer.capacity();
        if self.buffer.capacity() < room && room <= KEPT_BUFFER_BYTES {
            buffer.clear();
            self.buffer = buffer;
        }
    }
}
