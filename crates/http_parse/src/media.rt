//! The media types that most values have.

ghost use Rattle.std.specs.Prelude.{◌≡◌, IfOk, IfSome};

use key_state::Bytes;
use std::alloc::{AllocError, Global};

/// The media types that most values have, made once: all values of one of them share its bytes.
#[derive(Drop)]
pub(crate) struct MediaTypes {
    octets: Bytes,
    json: Bytes,
    text: Bytes,
}

impl MediaTypes {
    /// `application/octet-stream`, `application/json` and `text/plain`.
    pub(crate) fn new(alloc: Global) -> Result<MediaTypes, AllocError> {
        Ok(MediaTypes {
            octets: Bytes::from_slice(alloc, b"application/octet-stream")?,
            json: Bytes::from_slice(alloc, b"application/json")?,
            text: Bytes::from_slice(alloc, b"text/plain")?,
        })
    }

    /// The bytes of a media type: shared where it is one of these, else copied.
    pub(crate) fn bytes_of(&self, alloc: Global, media: &[u8]) -> Result<Bytes, AllocError>
        ensures { IfOk result (λ bytes. bytes ≡ media.now) }
    {
        if let Some(shared) = self.known(media) {
            if let Ok(copy) = shared.copy() {
                return Ok(copy);
            }
        }
        Bytes::from_slice(alloc, media)
    }

    // The one that is this media type.
    fn known(&self, media: &[u8]) -> Option<&Bytes>
        ensures { IfSome result (λ shared. shared.now ≡ media.now) }
    {
        if self.octets.as_slice() == media {
            Some(&self.octets)
        } else if self.json.as_slice() == media {
            Some(&self.json)
        } else if self.text.as_slice() == media {
            Some(&self.text)
        } else {
            None
        }
    }
}
