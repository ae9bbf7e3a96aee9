//! What a write stores, and what it is stored under.

ghost use Rattle.std.specs.Prelude.{◌≡◌, ◌↔◌, IfOk, IsTrue};
ghost use Rattle.key_state.specs.Limits.{IsKey};

use crate::bytes::Bytes;
use crate::limits::{MAX_BUCKET_BYTES, MAX_KEY_BYTES};
use crate::names::Names;
use dvv::Dot;
use smallvec::SmallVec;
use std::alloc::{AllocError, Global};
use std::cmp::Ordering;
use std::hash::{Hash, Hasher};
use std::marker::Model;
use std::sync::Arc;

/// What a write stores: a value of 0 to 65,536 bytes with its media type of 1 to 127 bytes, or the mark of a delete.
#[derive(Drop)]
pub enum Content {
    Value { media: Bytes, bytes: Bytes },
    Tombstone,
}

impl Content {
    ghost use Rattle.key_state.specs.Sizes.{content_bytes};

    /// The same content, its bytes shared with this one.
    pub fn copy(&self) -> Result<Content, AllocError>
        ensures { IfOk result (λ copy. copy ≡ self.now) }
    {
        match self {
            Content::Value { media, bytes } => Ok(Content::Value {
                media: media.copy()?,
                bytes: bytes.copy()?,
            }),
            Content::Tombstone => Ok(Content::Tombstone),
        }
    }

    /// Whether another content is the same.
    pub fn is_same(&self, other: &Content) -> bool
        ensures { IsTrue result ↔ (self.now ≡ other.now) }
    {
        match (self, other) {
            (
                Content::Value { media, bytes },
                Content::Value {
                    media: other_media,
                    bytes: other_bytes,
                },
            ) => media == other_media && bytes == other_bytes,
            (Content::Tombstone, Content::Tombstone) => true,
            _ => false,
        }
    }

    /// How many bytes it has: those of its value and of its media type, 2^64 - 1 where they are more. A delete has none.
    pub fn bytes(&self) -> u64
        ensures { result ≡ content_bytes self.now }
    {
        match self {
            Content::Value { media, bytes } => {
                let media = media.as_slice().len() as u64;
                media.saturating_add(bytes.as_slice().len() as u64)
            }
            Content::Tombstone => 0,
        }
    }
}

/// A content under the dot of its write.
#[derive(Drop)]
pub struct Sibling {
    pub dot: Dot,
    pub content: Content,
}

// Siblings as they are kept: a single one lies beside the clock of its key.
pub(crate) type Siblings = SmallVec<Sibling, 1>;

// What a place without a sibling holds.
impl Default for Sibling {
    fn default() -> Self {
        Sibling {
            dot: Dot::default(),
            content: Content::Tombstone,
        }
    }
}

impl Sibling {
    /// The same sibling, its bytes shared with this one.
    pub fn copy(&self) -> Result<Sibling, AllocError>
        ensures { IfOk result (λ copy. copy ≡ self.now) }
    {
        Ok(Sibling {
            dot: self.dot,
            content: self.content.copy()?,
        })
    }

    /// Whether another sibling is the same.
    pub fn is_same(&self, other: &Sibling) -> bool
        ensures { IsTrue result ↔ (self.now ≡ other.now) }
    {
        self.dot == other.dot && self.content.is_same(&other.content)
    }
}

/// What a value is stored under: a bucket of 1 to 64 bytes and a key in it of 1 to 255 bytes, any bytes. In the order of
/// bytes, the bucket first.
///
/// Both lie in one shared slice, the bucket's bytes before those of the key in it. Contracts see the two.
#[derive(Drop)]
pub struct Key {
    names: Arc<Names>,
}

impl Model for Key {
    ghost use Rattle.std.specs.Arc.{arc_value};
    ghost use Rattle.key_state.specs.Keys.{KeyParts};

    ghost Value = { KeyParts };

    ghost view = { λ k. arc_value k.names };
}

impl Key {
    /// The key of this name in a bucket, both copied: it takes memory once, and where the names have more than 29 bytes once more for
    /// these. Refused where there is no memory, and for a bucket of 2^32 bytes or more.
    pub fn new(alloc: Global, bucket: &[u8], key: &[u8]) -> Result<Key, AllocError>
        ensures { IfOk result (λ made. made ≡ record { bucket = bucket.now; key = key.now }) }
    {
        let names = Names::new(alloc, bucket, key)?;
        Ok(Key {
            names: Arc::new(alloc, names)?,
        })
    }

    /// The bucket's bytes.
    pub fn bucket(&self) -> &[u8]
        ensures { result.now ≡ self.now.bucket }
    {
        self.names.bucket()
    }

    /// The bytes of the key in its bucket.
    pub fn key(&self) -> &[u8]
        ensures { result.now ≡ self.now.key }
    {
        self.names.key()
    }

    /// Whether both are within their limits.
    pub fn is_within_limits(&self) -> bool
        ensures { IsTrue result ↔ IsKey self.now }
    {
        let (bucket, key) = (self.bucket().len(), self.key().len());
        1 <= bucket && bucket <= MAX_BUCKET_BYTES && 1 <= key && key <= MAX_KEY_BYTES
    }

    /// The same key, its bytes shared with this one.
    pub fn copy(&self) -> Result<Key, AllocError>
        ensures { IfOk result (λ copy. copy ≡ self.now) }
    {
        Ok(Key {
            names: self.names.clone()?,
        })
    }
}

impl PartialEq for Key {
    ghost use Rattle.std.specs.Prelude.{nat_eq};
    ghost use Rattle.std.specs.Ordering.{on, eq_of_both};
    ghost use Rattle.std.specs.Cmp.Lexicographic.{pointwise};
    ghost use Rattle.std.specs.Cmp.Rules.{comparing};
    ghost use Rattle.std.proofs.Common.{rules};

    ghost eq = { eq_of_both (on (λ k. k.bucket) (pointwise nat_eq)) (on (λ k. k.key) (pointwise nat_eq)) };

    ghost laws = { Prim.search (comparing, rules) };

    fn eq(&self, other: &Self) -> bool {
        self.names.is_same(&other.names)
    }
}

impl Eq for Key {
    ghost use Rattle.std.specs.Cmp.Rules.{comparing};
    ghost use Rattle.std.proofs.Common.{rules};

    ghost laws = { Prim.search (comparing, rules) };
}

impl Hash for Key {
    ghost use Rattle.std.specs.Prelude.{length, ◌++◌, ◌∷◌, []};
    ghost use Rattle.std.specs.Hash as fed;
    ghost use Rattle.std.specs.Cmp.Rules.{hashing};
    ghost use Rattle.std.proofs.Common.{rules};

    ghost hash_input = { λ k. fed.usize (length k.bucket) ++ (k.bucket ++ k.key) ∷ [] };

    ghost respects_eq = { Prim.search (hashing, rules) };

    // The length of the bucket's bytes tells keys apart whose names are the same bytes in a row.
    fn hash<H: Hasher>(&self, state: &mut H) {
        state.write_usize(self.names.split());
        state.write(self.names.bytes());
    }
}

impl PartialOrd for Key {
    ghost use Rattle.std.proofs.Common.{rules};
    ghost use Rattle.std.specs.Cmp.{partial_order_from_own_ties};
    ghost use Rattle.std.specs.Cmp.Rules.{comparing};
    ghost use Rattle.std.specs.Cmp.Lexicographic.{slice_cmp};
    ghost use Rattle.std.specs.Ordering.{nat_cmp, on, then_cmp, as_partial_cmp};

    ghost partial_cmp = { as_partial_cmp (then_cmp (on (λ k. k.bucket) (slice_cmp nat_cmp)) (on (λ k. k.key) (slice_cmp nat_cmp))) };

    ghost laws = { partial_order_from_own_ties (Prim.search (comparing, rules)) (Prim.search (comparing, rules)) };

    fn partial_cmp(&self, other: &Self) -> Option<Ordering> {
        Some(self.cmp(other))
    }
}

impl Ord for Key {
    ghost use Rattle.std.proofs.Common.{rules};
    ghost use Rattle.std.specs.Cmp.Rules.{comparing};
    ghost use Rattle.std.specs.Cmp.Lexicographic.{slice_cmp};
    ghost use Rattle.std.specs.Ordering.{nat_cmp, on, then_cmp};

    ghost cmp = { then_cmp (on (λ k. k.bucket) (slice_cmp nat_cmp)) (on (λ k. k.key) (slice_cmp nat_cmp)) };

    ghost total = { Prim.search (comparing, rules) };

    ghost matches_partial_cmp = { Prim.search (comparing, rules) };

    ghost matches_eq = { Prim.search (comparing, rules) };

    fn cmp(&self, other: &Self) -> Ordering {
        self.names.compare(&other.names)
    }
}
