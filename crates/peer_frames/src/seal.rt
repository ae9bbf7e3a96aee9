//! Frames of one direction of a connection.

ghost use Rattle.std.specs.Prelude.{◌≡◌, ◌+◌, ◌-◌, ◌≤◌, ◌<◌, ◌^◌, ◌++◌, ◌↔◌, IsTrue, length, vec_capacity, vec_len};
ghost use Rattle.peer_frames.specs.Frames.{frame, longest_body, tag_of};
ghost use Rattle.peer_frames.specs.Fronts.{IsFront};
ghost use Rattle.peer_frames.specs.Sealing.{IsOpened, IsSealed};

use crate::limits::{FRAME_BYTES, MAX_BODY_BYTES};
use peer_hmac::{constant_time_eq, tag};
use std::marker::Model;
use thiserror::Error;

/// The frames that one side of a connection sends, as the side that sends them or the one that takes them has it: the sender's key and
/// the next frame's number, from 0 on.
#[derive(Drop)]
pub struct Seal {
    key: [u8; 32],
    next: u64,
}

impl Model for Seal {
    ghost use Rattle.peer_frames.specs.Sealing.{Sealing};

    ghost Value = { Sealing };

    ghost view = { λ s. record { key = s.key; next = s.next } };
}

/// Why a body isn't sent.
#[derive(Clone, Copy, Debug, PartialEq, Eq, Drop, Error)]
pub enum SealFault {
    /// The body has more than 16,777,216 bytes.
    #[error("a body past 16777216 bytes")]
    TooLong,
    /// All numbers but the last were used: a connection takes 18,446,744,073,709,551,615 frames.
    #[error("no number is left for a frame")]
    NoNumber,
    /// Memory ran out.
    #[error("out of memory")]
    NoMemory,
}

/// What comes of the bytes that a connection received and that no frame has taken yet.
#[derive(Clone, Copy)]
pub enum Opened<'a> {
    /// No frame yet, but more bytes may make one.
    NotYet,
    /// The next frame's body. Of the bytes, `len` are that frame's.
    Body { body: &'a [u8], len: usize },
    /// No frame of this sender with the next number, whatever follows: the connection is of no more use.
    Broken,
}

/// A frame as bytes that are lent. Whether it is one isn't tested.
#[derive(Clone, Copy)]
pub(crate) struct Parts<'a> {
    number: u64,
    body: &'a [u8],
    tag: &'a [u8; 32],
}

/// What stands at the front of bytes, as their length says it.
#[derive(Clone, Copy)]
pub(crate) enum Front<'a> {
    /// Not all of a frame.
    Cut,
    /// A length past its limit.
    TooLong,
    /// All of a frame.
    Whole(Parts<'a>),
}

impl Seal {
    /// The frames of a sender with this key, before the first.
    pub fn new(key: [u8; 32]) -> Seal
        ensures { result ≡ record { key = key; next = 0 } }
    {
        Seal { key, next: 0 }
    }

    /// Appends the next frame, which has this body. Where it is refused nothing is appended, and the number stays the next one.
    pub fn seal(&mut self, body: &[u8], out: &mut Vec<u8>) -> Result<(), SealFault>
        ensures { IsSealed self.old body.now out.old.items result self.new out.new.items }
    {
        if body.len() > MAX_BODY_BYTES {
            return Err(SealFault::TooLong);
        }
        let Some(next) = self.next.checked_add(1) else {
            return Err(SealFault::NoNumber);
        };
        match out.reserve(FRAME_BYTES + body.len()) {
            Ok(()) => {}
            Err(_) => return Err(SealFault::NoMemory),
        }
        append_frame(out, &self.key, self.next, body);
        self.next = next;
        Ok(())
    }

    /// The frame that begins these bytes, if it is the next one.
    pub fn open<'a>(&mut self, bytes: &'a [u8]) -> Opened<'a>
        ensures { IsOpened self.old bytes.now result self.new }
    {
        match front_of(bytes) {
            Front::Cut => Opened::NotYet,
            Front::TooLong => Opened::Broken,
            Front::Whole(parts) => {
                if !self.takes(&parts) {
                    return Opened::Broken;
                }
                self.next += 1;
                Opened::Body {
                    body: parts.body,
                    len: FRAME_BYTES + parts.body.len(),
                }
            }
        }
    }

    /// Whether a frame has the next number, and the tag of this key.
    fn takes(&self, parts: &Parts<'_>) -> bool
        ensures { IsTrue result ↔ ((parts.now.number ≡ self.now.next) × (self.now.next < 2 ^ 64 - 1) × (parts.now.tag.now ≡ tag_of self.now.key self.now.next parts.now.body.now)) }
    {
        parts.number == self.next
            && self.next < u64::MAX
            && constant_time_eq(parts.tag, &tag_by(&self.key, self.next, parts.body))
    }
}

/// The tag of a frame.
fn tag_by(key: &[u8; 32], number: u64, body: &[u8]) -> [u8; 32]
    ensures { result ≡ tag_of key.now number body.now }
{
    tag(key, &number.to_be_bytes(), body)
}

/// Appends a frame, for which there is room.
fn append_frame(out: &mut Vec<u8>, key: &[u8; 32], number: u64, body: &[u8])
    requires short { length body.now ≤ longest_body }
    requires room { vec_len out.old + 44 + length body.now ≤ vec_capacity out.old }
    ensures { out.new.items ≡ out.old.items ++ frame key.now number body.now }
{
    append(out, &(body.len() as u32).to_be_bytes());
    append(out, &number.to_be_bytes());
    append(out, body);
    append(out, &tag_by(key, number, body));
}

/// Appends bytes for which there is room.
fn append(out: &mut Vec<u8>, bytes: &[u8])
    requires { vec_len out.old + length bytes.now ≤ vec_capacity out.old }
    ensures items { out.new.items ≡ out.old.items ++ bytes.now }
    ensures len { vec_len out.new ≡ vec_len out.old + length bytes.now }
    ensures capacity { vec_capacity out.old ≤ vec_capacity out.new }
{
    match out.extend_from_slice(bytes) {
        Ok(()) => {}
        Err(_) => unreachable!(),
    }
}

/// What stands at the front of bytes.
fn front_of(bytes: &[u8]) -> Front<'_>
    ensures { IsFront bytes.now result }
{
    let Some((len, rest)) = bytes.split_first_chunk::<4>() else {
        return Front::Cut;
    };
    let len = u32::from_be_bytes(*len) as usize;
    if len > MAX_BODY_BYTES {
        return Front::TooLong;
    }
    let Some((number, rest)) = rest.split_first_chunk::<8>() else {
        return Front::Cut;
    };
    let number = u64::from_be_bytes(*number);
    if len > rest.len() {
        return Front::Cut;
    }
    let (body, rest) = rest.split_at(len);
    match rest.split_first_chunk::<32>() {
        Some((tag, _)) => Front::Whole(Parts { number, body, tag }),
        None => Front::Cut,
    }
}
