//! The name of a bucket, kept without memory of its own.

ghost use Rattle.std.specs.Prelude.{◌≡◌, ◌≤◌, length, take};
ghost use Rattle.server_log.specs.Notes.{bucket_of};

use crate::limits::BUCKET_BYTES;

/// The name of a bucket, of at most 64 bytes, and zeros behind it.
#[derive(Clone, Copy, Drop)]
pub struct Bucket {
    /// The name, and the zeros.
    pub bytes: [u8; BUCKET_BYTES],
    /// How many bytes the name has.
    pub len: usize,
}

impl Bucket {
    /// The bucket of this name.
    pub fn new(name: &[u8]) -> Bucket
        requires { length name.now ≤ 64 }
        ensures { result ≡ bucket_of name.now }
    {
        let mut bytes = [0; BUCKET_BYTES];
        bytes[..name.len()].copy_from_slice(name);
        Bucket {
            bytes,
            len: name.len(),
        }
    }

    /// The name.
    pub fn name(&self) -> &[u8]
        ensures { result.now ≡ take self.now.len self.now.bytes }
    {
        &self.bytes[..self.len.min(BUCKET_BYTES)]
    }
}
