//! What the bytes of a line's words spell.

ghost use Rattle.std.specs.Prelude.{◌≡◌, IfOk};
ghost use Rattle.script_events.specs.Asking.{content_of, sim_key};

use key_state::{Bytes, Content, Key};
use std::alloc::{AllocError, Global};

/// A key in the bucket of scripts.
pub(crate) fn key_of(alloc: Global, key: &[u8]) -> Result<Key, AllocError>
    ensures { IfOk result (λ made. made ≡ sim_key key.now) }
{
    Key::new(alloc, b"sim", key)
}

/// A value as text, or a tombstone.
pub(crate) fn content_of(alloc: Global, value: Option<&[u8]>) -> Result<Content, AllocError>
    ensures { IfOk result (λ made. made ≡ content_of value.entry) }
{
    match value {
        Some(value) => Ok(Content::Value {
            media: Bytes::from_slice(alloc, b"text/plain")?,
            bytes: Bytes::from_slice(alloc, value)?,
        }),
        None => Ok(Content::Tombstone),
    }
}
