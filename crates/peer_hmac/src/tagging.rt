//! Tags of messages.

ghost use Rattle.std.specs.Prelude.{◌≡◌, ◌≤◌, ◌++◌, length};
ghost use Rattle.peer_hmac.specs.Hmac.{hmac, hmac_short, padded};

use sha2::{Digest, Sha256};

/// So many bytes a block of SHA-256 has.
const BLOCK_BYTES: usize = 64;

/// So many bytes a tag has.
pub const TAG_BYTES: usize = 32;

/// What the key's bytes are turned by before the message is hashed.
const INNER_PAD: u8 = 0x36;

/// What they are turned by before that digest is hashed.
const OUTER_PAD: u8 = 0x5c;

/// The tag by a key of a message in two pieces, `head` and behind it `body` (RFC 2104, section 2). A key has any length.
pub fn tag(key: &[u8], head: &[u8], body: &[u8]) -> [u8; 32]
    ensures { result ≡ hmac key.now (head.now ++ body.now) }
{
    if key.len() <= BLOCK_BYTES {
        tag_by(key, head, body)
    } else {
        tag_by(&Sha256::digest(key), head, body)
    }
}

/// The tag by a key that a block holds.
fn tag_by(key: &[u8], head: &[u8], body: &[u8]) -> [u8; 32]
    requires { length key.now ≤ 64 }
    ensures { result ≡ hmac_short key.now (head.now ++ body.now) }
{
    let mut inner = Sha256::new();
    inner.update(&padded(key, INNER_PAD));
    inner.update(head);
    inner.update(body);
    let mut outer = Sha256::new();
    outer.update(&padded(key, OUTER_PAD));
    outer.update(&inner.finalize());
    outer.finalize()
}

/// A key, behind it zeros up to a block, each byte turned by a pad.
fn padded(key: &[u8], pad: u8) -> [u8; 64]
    requires { length key.now ≤ 64 }
    ensures { result ≡ padded pad key.now }
{
    let mut block = [pad; BLOCK_BYTES];
    for i in 0..key.len() {
        block[i] = key[i] ^ pad;
    }
    block
}
