//! What a hook writes, as a content.

ghost use Rattle.std.specs.Prelude.{◌≡◌, IfOk};
ghost use Rattle.hook_abi.specs.Written.{octet_stream};

use key_state::{Bytes, Content};
use std::alloc::{AllocError, Global};

/// Bytes that a hook wrote, as a value of the media type `application/octet-stream` (RFC 2046). Refused for want of memory alone.
pub fn octet_stream(alloc: Global, bytes: &[u8]) -> Result<Content, AllocError>
    ensures { IfOk result (λ content. content ≡ octet_stream bytes.now) }
{
    Ok(Content::Value {
        media: Bytes::from_slice(alloc, b"application/octet-stream")?,
        bytes: Bytes::from_slice(alloc, bytes)?,
    })
}
