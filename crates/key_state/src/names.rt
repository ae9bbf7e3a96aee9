//! The names that the copies of a key share.

ghost use Rattle.std.specs.Prelude.{◌≡◌, ◌++◌, length, nat_eq, IfOk};
ghost use Rattle.std.specs.Cmp.Lexicographic.{pointwise, slice_cmp};
ghost use Rattle.std.specs.Ordering.{eq_of_both, nat_cmp, on, then_cmp};

use std::alloc::{AllocError, Global};
use std::cmp::Ordering;
use std::marker::Model;
use std::mem::size_of;

/// So many bytes of a key's names lie beside the count of their owners.
const SHORT_NAME_BYTES: usize = 29;

// A bucket's name and that of a key in it. Their bytes lie in one slice, the bucket's before those of the key. Contracts see the two.
#[derive(Drop)]
pub(crate) struct Names {
    kept: Kept,
}

// With the count of its owners it takes 40 bytes, which fill a block of glibc's `malloc` of 48.
const _: () = prove!(size_of::<Names>() == 32);

#[derive(Drop)]
enum Kept {
    // The first `len` bytes of an array, of which `split` are the bucket's.
    Short {
        split: u8,
        len: u8,
        bytes: [u8; SHORT_NAME_BYTES],
    },
    // Names of more bytes, of which `split` are the bucket's.
    Long {
        split: u32,
        bytes: Vec<u8>,
    },
}

impl Model for Names {
    ghost use Rattle.key_state.specs.Keys.{KeyParts};

    ghost Value = { KeyParts };

    ghost use Rattle.key_state.specs.Names.{names_of, AreWithin};

    ghost view = { λ n. names_of n.kept };

    ghost invariant = { λ n. AreWithin n.kept };
}

impl Names {
    // Both names, copied. It takes memory only where they have more than 29 bytes, and then once. Refused where there is no memory, and
    // for a bucket of 2^32 bytes or more.
    pub(crate) fn new(alloc: Global, bucket: &[u8], key: &[u8]) -> Result<Names, AllocError>
        ensures { IfOk result (λ made. made ≡ record { bucket = bucket.now; key = key.now }) }
    {
        let split = bucket.len();
        let len = split + key.len();
        if len <= SHORT_NAME_BYTES {
            let mut bytes = [0; SHORT_NAME_BYTES];
            bytes[..split].copy_from_slice(bucket);
            bytes[split..len].copy_from_slice(key);
            return Ok(Names {
                kept: Kept::Short {
                    split: split as u8,
                    len: len as u8,
                    bytes,
                },
            });
        }
        let Ok(split) = u32::try_from(split) else {
            return Err(AllocError);
        };
        let mut bytes = Vec::with_capacity(alloc, len)?;
        bytes.extend_from_slice(bucket)?;
        bytes.extend_from_slice(key)?;
        Ok(Names {
            kept: Kept::Long { split, bytes },
        })
    }

    // The bytes of both, the bucket's first.
    pub(crate) fn bytes(&self) -> &[u8]
        ensures { result.now ≡ self.now.bucket ++ self.now.key }
    {
        match &self.kept {
            Kept::Short { len, bytes, .. } => &bytes[..usize::from(*len)],
            Kept::Long { bytes, .. } => bytes.as_slice(),
        }
    }

    // How many of these are the bucket's.
    pub(crate) fn split(&self) -> usize
        ensures { result ≡ length self.now.bucket }
    {
        match &self.kept {
            Kept::Short { split, .. } => usize::from(*split),
            Kept::Long { split, .. } => *split as usize,
        }
    }

    // The bucket's bytes.
    pub(crate) fn bucket(&self) -> &[u8]
        ensures { result.now ≡ self.now.bucket }
    {
        &self.bytes()[..self.split()]
    }

    // The bytes of the key in its bucket.
    pub(crate) fn key(&self) -> &[u8]
        ensures { result.now ≡ self.now.key }
    {
        &self.bytes()[self.split()..]
    }

    // Whether both names are the same. Buckets of different lengths differ, and behind those of one length the names decide as one.
    pub(crate) fn is_same(&self, other: &Names) -> bool
        ensures { result ≡ eq_of_both (on (λ n. n.bucket) (pointwise nat_eq)) (on (λ n. n.key) (pointwise nat_eq)) self.now other.now }
    {
        self.split() == other.split() && self.bytes() == other.bytes()
    }

    // The order of bytes, the bucket's first.
    pub(crate) fn compare(&self, other: &Names) -> Ordering
        ensures { result ≡ then_cmp (on (λ n. n.bucket) (slice_cmp nat_cmp)) (on (λ n. n.key) (slice_cmp nat_cmp)) self.now other.now }
    {
        // Behind buckets of one length the names decide as one.
        if self.split() == other.split() {
            return self.bytes().cmp(other.bytes());
        }
        match self.bucket().cmp(other.bucket()) {
            Ordering::Equal => self.key().cmp(other.key()),
            decided => decided,
        }
    }
}
