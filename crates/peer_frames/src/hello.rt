//! How a connection begins: each side says who it is, with a tag by the secret, and both make the keys of their frames of what was said.

ghost use Rattle.std.specs.Prelude.{◌≡◌, ◌++◌, ◌≤◌, ◌<◌, ◌↔◌, ◌∷◌, [], IfOk, IsTrue, OnOk, length, slice_index_or, take, drop};
ghost use Rattle.peer_hmac.specs.Hmac.{hmac};
ghost use Rattle.peer_frames.specs.Hellos.{IsGreeted, hello_bytes, key_of, mark, side_byte, tagged_hello};

use crate::limits::{HELLO_BYTES, UNTAGGED_BYTES};
use peer_hmac::{constant_time_eq, tag};
use std::alloc::{AllocError, Global};
use thiserror::Error;

/// The first bytes of a hello.
const MARK: [u8; 4] = *b"DVPR";

/// The version of hellos and frames, which stands behind the mark.
const VERSION: u8 = 1;

/// A side of a connection.
#[derive(Clone, Copy, Debug, PartialEq, Eq)]
pub enum Side {
    /// Who asked for it.
    Dialer,
    /// Who took it.
    Listener,
}

impl Side {
    /// How it is spelled.
    fn byte(self) -> u8
        ensures { result ≡ side_byte self }
    {
        match self {
            Side::Dialer => 0,
            Side::Listener => 1,
        }
    }
}

/// What a server says of itself when a connection begins.
#[derive(Clone, Copy)]
pub struct Hello {
    /// The side that says it.
    pub side: Side,
    /// The server's number in the list of servers.
    pub server: u8,
    /// The number of its start.
    pub number: u32,
    /// The SHA-256 of its list of servers.
    pub list: [u8; 32],
    /// Random bytes, which no other hello of this server has.
    pub random: [u8; 32],
}

/// Why bytes are no hello of the other side, the first in this order.
#[derive(Clone, Copy, Debug, PartialEq, Eq, Drop, Error)]
pub enum HelloFault {
    /// They don't begin with `DVPR`.
    #[error("no hello of a server")]
    Mark,
    /// They are of another version.
    #[error("another version")]
    Version,
    /// The tag isn't by this secret.
    #[error("another secret")]
    Tag,
    /// It is none of the other side, but came back.
    #[error("a hello of this side")]
    Other,
}

/// What comes of the first bytes of a connection.
#[derive(Clone, Copy)]
pub enum Greeting {
    /// No hello yet, but more bytes may make one.
    NotYet,
    /// The hello, which is the first 107 bytes.
    Hello(Hello),
    /// No hello, whatever follows.
    Refused(HelloFault),
}

/// Appends a hello and its tag by the secret. Where memory runs out, some of its bytes may be appended.
pub fn push_hello(out: &mut Vec<u8>, secret: &[u8; 32], hello: &Hello) -> Result<(), AllocError>
    ensures { OnOk result (out.new.items ≡ out.old.items ++ tagged_hello secret.now hello.now) }
{
    let alloc = *out.allocator();
    let mut bytes = Vec::with_capacity(alloc, UNTAGGED_BYTES)?;
    push_untagged(&mut bytes, hello)?;
    push_tagged(out, secret, &bytes)
}

/// Appends bytes and their tag by the secret.
fn push_tagged(out: &mut Vec<u8>, secret: &[u8; 32], bytes: &[u8]) -> Result<(), AllocError>
    ensures { OnOk result (out.new.items ≡ out.old.items ++ (bytes.now ++ hmac secret.now bytes.now)) }
{
    out.extend_from_slice(bytes)?;
    out.extend_from_slice(&tag(secret, &[], bytes))
}

/// The key of the frames that a side sends, on the connection that these hellos began.
pub fn connection_key(
    alloc: Global,
    secret: &[u8; 32],
    side: Side,
    dialer: &Hello,
    listener: &Hello,
) -> Result<[u8; 32], AllocError>
    ensures { IfOk result (λ key. key ≡ key_of secret.now side dialer.now listener.now) }
{
    let mut both = Vec::with_capacity(alloc, 2 * UNTAGGED_BYTES)?;
    push_untagged(&mut both, dialer)?;
    push_untagged(&mut both, listener)?;
    Ok(tag(secret, &[side.byte()], &both))
}

/// Appends a hello without its tag.
fn push_untagged(out: &mut Vec<u8>, hello: &Hello) -> Result<(), AllocError>
    ensures { OnOk result (out.new.items ≡ out.old.items ++ hello_bytes hello.now) }
{
    out.extend_from_slice(&MARK)?;
    out.extend_from_slice(&[VERSION, hello.side.byte(), hello.server])?;
    out.extend_from_slice(&hello.number.to_be_bytes())?;
    out.extend_from_slice(&hello.list)?;
    out.extend_from_slice(&hello.random)
}

/// The hello of a side that begins these bytes, with a tag by the secret.
pub fn read_hello(secret: &[u8; 32], side: Side, bytes: &[u8]) -> Greeting
    ensures { IsGreeted secret.now side bytes.now result }
{
    let Some((mark, _)) = bytes.split_first_chunk::<4>() else {
        return Greeting::NotYet;
    };
    if bytes.len() == MARK.len() {
        return Greeting::NotYet;
    }
    if *mark != MARK {
        return Greeting::Refused(HelloFault::Mark);
    }
    if bytes[MARK.len()] != VERSION {
        return Greeting::Refused(HelloFault::Version);
    }
    if bytes.len() < HELLO_BYTES {
        return Greeting::NotYet;
    }
    if !is_tagged(secret, bytes) {
        return Greeting::Refused(HelloFault::Tag);
    }
    if bytes[MARK.len() + 1] != side.byte() {
        return Greeting::Refused(HelloFault::Other);
    }
    Greeting::Hello(hello_in(secret, side, bytes))
}

/// Whether the tag of a hello is by the secret.
fn is_tagged(secret: &[u8; 32], bytes: &[u8]) -> bool
    requires { 107 ≤ length bytes.now }
    ensures { IsTrue result ↔ (take 32 (drop 75 bytes.now) ≡ hmac secret.now (take 75 bytes.now)) }
{
    let (hello, rest) = bytes.split_at(UNTAGGED_BYTES);
    match rest.split_first_chunk::<32>() {
        Some((found, _)) => constant_time_eq(found, &tag(secret, &[], hello)),
        None => unreachable!(),
    }
}

/// The hello of a side that these bytes have, which are of this version and whose tag is right.
fn hello_in(secret: &[u8; 32], side: Side, bytes: &[u8]) -> Hello
    requires whole { 107 ≤ length bytes.now }
    requires marked { take 4 bytes.now ≡ mark }
    requires version { slice_index_or bytes.now 4 0 ≡ 1 }
    requires side { slice_index_or bytes.now 5 0 ≡ side_byte side }
    requires tagged { take 32 (drop 75 bytes.now) ≡ hmac secret.now (take 75 bytes.now) }
    ensures side { result.side ≡ side }
    ensures spelled { take 107 bytes.now ≡ tagged_hello secret.now result }
{
    let (_, rest) = bytes.split_at(7);
    let Some((number, rest)) = rest.split_first_chunk::<4>() else {
        unreachable!();
    };
    let Some((list, rest)) = rest.split_first_chunk::<32>() else {
        unreachable!();
    };
    let Some((random, _)) = rest.split_first_chunk::<32>() else {
        unreachable!();
    };
    Hello {
        side,
        server: bytes[6],
        number: u32::from_be_bytes(*number),
        list: *list,
        random: *random,
    }
}
