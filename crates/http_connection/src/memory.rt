//! A source and a sink in memory. Tests have them give and take a few bytes at a time, and fail at a chosen call.

ghost use Rattle.std.specs.Prelude.{◌≡◌, ◌<◌, ◌+◌, ◌⊎◌, ℕ, List, [], length, max, vec_len, Option, Some, None};
ghost use Rattle.std.specs.Vec.{vec_capacity};

use crate::device::{Failed, Sink, Source};
use std::alloc::Global;

/// Bytes in memory, which come at most `step` at a time. The read of the number `fail_at`, counted from 0, fails.
#[derive(Clone, Copy)]
pub struct MemorySource<'a> {
    /// The bytes that reads will give.
    pub bytes: &'a [u8],
    /// The most bytes that a read gives; 0 counts as 1.
    pub step: usize,
    /// Which read fails.
    pub fail_at: Option<u64>,
    /// How many reads there were. The count stays at its greatest.
    pub reads: u64,
    /// How many of them failed. The count stays at its greatest.
    pub failures: u64,
}

impl<'a> MemorySource<'a> {
    /// Bytes that come at once, where the reader has room. No read of them fails.
    pub fn new(bytes: &'a [u8]) -> Self
        ensures { result.bytes.now ≡ bytes.now }
    {
        MemorySource::in_pieces(bytes, usize::MAX, None)
    }

    /// Bytes that come in pieces, `step` at most in one, and of which one read may fail.
    pub fn in_pieces(bytes: &'a [u8], step: usize, fail_at: Option<u64>) -> Self
        ensures { result.bytes.now ≡ bytes.now }
    {
        MemorySource {
            bytes,
            step,
            fail_at,
            reads: 0,
            failures: 0,
        }
    }
}

impl Source for MemorySource<'_> {
    ghost remaining = { λ s. Some s.bytes.now };

    ghost failures = { λ s. s.failures };

    ghost reads_left = { λ s. length s.bytes.now };

    ghost fails = { λ old _. old.fail_at ≡ Some old.reads };

    fn read(&mut self, buf: &mut [u8]) -> Result<usize, Failed> {
        let number = self.reads;
        self.reads = self.reads.saturating_add(1);
        if self.fail_at == Some(number) {
            self.failures = self.failures.saturating_add(1);
            return Err(Failed);
        }
        let n = self.step.max(1).min(buf.len()).min(self.bytes.len());
        let (front, rest) = self.bytes.split_at(n);
        buf[..n].copy_from_slice(front);
        self.bytes = rest;
        Ok(n)
    }
}

/// A buffer in memory that takes at most `step` bytes at a time. The write of the number `fail_at`, counted from 0, fails, and one for
/// which there is no memory.
#[derive(Drop)]
pub struct MemorySink {
    /// The bytes that were written.
    pub bytes: Vec<u8>,
    /// The most bytes that a write takes; 0 counts as 1.
    pub step: usize,
    /// Which write fails.
    pub fail_at: Option<u64>,
    /// How many writes there were. The count stays at its greatest.
    pub writes: u64,
    /// How many of them failed. The count stays at its greatest.
    pub failures: u64,
}

impl MemorySink {
    /// An empty buffer that takes all that is written at once. No write fails but for want of memory.
    pub fn new(alloc: Global) -> Self
        ensures { result.bytes.items ≡ [] }
    {
        MemorySink::in_pieces(alloc, usize::MAX, None)
    }

    /// An empty buffer that takes `step` bytes of a write at most, and of which one write may fail.
    pub fn in_pieces(alloc: Global, step: usize, fail_at: Option<u64>) -> Self
        ensures { result.bytes.items ≡ [] }
    {
        MemorySink {
            bytes: Vec::new(alloc),
            step,
            fail_at,
            writes: 0,
            failures: 0,
        }
    }
}

impl Sink for MemorySink {
    ghost contents = { λ s. Some s.bytes.items };

    ghost failures = { λ s. s.failures };

    ghost fails = { λ old _. (old.fail_at ≡ Some old.writes) ⊎ (vec_capacity old.bytes < vec_len old.bytes + max old.step 1) };

    fn write(&mut self, bytes: &[u8]) -> Result<usize, Failed> {
        let number = self.writes;
        self.writes = self.writes.saturating_add(1);
        if self.fail_at == Some(number) {
            self.failures = self.failures.saturating_add(1);
            return Err(Failed);
        }
        let n = self.step.max(1).min(bytes.len());
        if self.bytes.extend_from_slice(&bytes[..n]).is_err() {
            self.failures = self.failures.saturating_add(1);
            return Err(Failed);
        }
        Ok(n)
    }
}
