//! What the tests start from.

use audit_follower::Recent;
use cluster_stamps::Size;
use key_state::{Bytes, Content, Key};
use std::alloc::{AllocError, Global};

/// A key of bucket `b`.
pub(super) fn key_of(alloc: Global, key: &[u8]) -> Result<Key, AllocError> {
    Key::new(alloc, b"b", key)
}

/// A value of media type `text/plain`.
pub(super) fn value_of(alloc: Global, value: &[u8]) -> Result<Content, AllocError> {
    Ok(Content::Value {
        media: Bytes::from_slice(alloc, b"text/plain")?,
        bytes: Bytes::from_slice(alloc, value)?,
    })
}

/// Of the last 16 entries of each vnode answers are kept.
pub(super) const SIXTEEN: Recent = Recent {
    always: 16,
    entries: 16,
    bytes: 0,
};

/// Two vnodes, from 0 on, and one pass.
pub(super) const TWO_BY_ONE: Size = Size {
    first: 0,
    vnodes: 2,
    passes: 1,
};

/// Three vnodes, from 0 on, and one pass.
pub(super) const THREE_BY_ONE: Size = Size {
    first: 0,
    vnodes: 3,
    passes: 1,
};

/// Three vnodes, from 0 on, and two passes.
pub(super) const THREE_BY_TWO: Size = Size {
    first: 0,
    vnodes: 3,
    passes: 2,
};

/// Three vnodes, from 0 on, and four passes.
pub(super) const THREE_BY_FOUR: Size = Size {
    first: 0,
    vnodes: 3,
    passes: 4,
};

/// Three vnodes, from 0 on, and five passes.
pub(super) const THREE_BY_FIVE: Size = Size {
    first: 0,
    vnodes: 3,
    passes: 5,
};
