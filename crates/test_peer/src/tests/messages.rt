//! Messages as they are spelled, and some bytes that are none. The expected bytes are those of the format.

use dvv::{Clock, Dot};
use key_state::{Bytes, Content, Key, KeyState};
use peer_messages::{Unread, read_ask, read_told, write_ask, write_told};
use peer_remote::{Ask, Question, Told};
use record_codec::Unspelled;
use std::alloc::Global;
use std::test::Fail;

/// A put at the vnode 5 of the key `k` in the bucket `b`: one who had seen nine events of the vnode 256 writes `hi` as `t`.
const PUT: &[u8] =
    b"\x00\x05\x00\x01b\x00\x01k\x00\x01\x00\x00\x01\x00\x00\x00\x00\x00\x00\x00\x00\x09\x01\x00\x01t\x00\x00\x00\x02hi";

/// The state of the same key behind a first put there of a tombstone by the vnode 256, as the read at place 7 of its journal answered it.
const STATE: &[u8] =
    b"\x03\x00\x00\x01\x00\x00\x00\x00\x00\x00\x00\x00\x07\x00\x01\x00\x00\x01\x00\x00\x00\x00\x00\x00\x00\x00\x01\x00\x00\x00\x01\x00\x00\x01\x00\x00\x00\x00\x00\x00\x00\x00\x01\x00";

/// Its summary: the content is left out.
const SUMMARY: &[u8] =
    b"\x04\x00\x00\x01\x00\x00\x00\x00\x00\x00\x00\x00\x07\x00\x01\x00\x00\x01\x00\x00\x00\x00\x00\x00\x00\x00\x01\x00\x00\x00\x01\x00\x00\x01\x00\x00\x00\x00\x00\x00\x00\x00\x01\x02";

/// Bytes that are no answer: nothing, a kind too many, a byte too many, a fault too many, a state that is cut, and a summary with a content.
const NO_ANSWERS: [&[u8]; 6] = [
    b"",
    b"\x07",
    b"\x02\x00",
    b"\x06\x06",
    b"\x03\x00\x00\x01\x00",
    b"\x04\x00\x00\x01\x00\x00\x00\x00\x00\x00\x00\x00\x07\x00\x01\x00\x00\x01\x00\x00\x00\x00\x00\x00\x00\x00\x01\x00\x00\x00\x01\x00\x00\x01\x00\x00\x00\x00\x00\x00\x00\x00\x01\x00",
];

#[test]
fn questions_are_written_and_read(rt: HostRuntime) -> Result<(), Fail> {
    let alloc = rt.alloc();
    let key = Key::new(alloc, b"b", b"k")?;
    let content = Content::Value {
        media: Bytes::from_slice(alloc, b"t")?,
        bytes: Bytes::from_slice(alloc, b"hi")?,
    };
    let mut seen = Clock::new(alloc);
    if seen.push(Dot { vnode: 256, n: 9 }).is_err() {
        return Err(Fail::new(format_args!("no clock")));
    }
    let mut out = Vec::new(alloc);
    let ask = Ask::Put {
        vnode: 5,
        key: &key,
        seen: &seen,
        content: &content,
    };
    if write_ask(&mut out, &ask).is_err() || out.as_slice() != PUT {
        return Err(Fail::new(format_args!("a put is written otherwise")));
    }
    let Ok(question) = read_ask(alloc, PUT) else {
        return Err(Fail::new(format_args!("a put isn't read")));
    };
    if !is_put_in_b(&question) {
        return Err(Fail::new(format_args!("a put is read otherwise")));
    }
    Ok(())
}

/// Whether a question is a put at the vnode 5 of a key in the bucket `b`.
fn is_put_in_b(question: &Question) -> bool {
    match question {
        Question::Put { vnode, key, .. } => *vnode == 5 && key.bucket() == b"b".as_slice(),
        _ => false,
    }
}

#[test]
fn keys_have_limits(rt: HostRuntime) -> Result<(), Fail> {
    let none = Key::new(rt.alloc(), b"b", b"")?;
    let mut out = Vec::new(rt.alloc());
    let ask = Ask::Read {
        vnode: 5,
        key: &none,
    };
    match write_ask(&mut out, &ask) {
        Err(Unspelled::PastLimit) => Ok(()),
        _ => Err(Fail::new(format_args!("a key without a name is written"))),
    }
}

/// The state that is told.
fn told_state(alloc: Global) -> Result<KeyState, Fail> {
    let mut state = KeyState::new(alloc);
    match state.put(256, &Clock::new(alloc), Content::Tombstone) {
        Ok(_) => Ok(state),
        Err(_) => Err(Fail::new(format_args!("no put"))),
    }
}

/// Fails the test where an answer isn't written as these bytes, or isn't read of them.
fn expect_told(alloc: Global, told: &Told, bytes: &[u8]) -> Result<(), Fail> {
    let mut out = Vec::new(alloc);
    if write_told(&mut out, told).is_err() || out.as_slice() != bytes {
        return Err(Fail::new(format_args!("it is written otherwise")));
    }
    match read_told(alloc, bytes) {
        Ok(_) => Ok(()),
        Err(_) => Err(Fail::new(format_args!("it isn't read"))),
    }
}

#[test]
fn answers_are_written_and_read(rt: HostRuntime) -> Result<(), Fail> {
    let alloc = rt.alloc();
    let state = told_state(alloc)?;
    let summary = state.summary(alloc)?;
    let (from, at) = (256, 7);
    expect_told(alloc, &Told::Summary { from, at, summary }, SUMMARY)?;
    expect_told(alloc, &Told::State { from, at, state }, STATE)?;
    expect_told(alloc, &Told::Changed(true), b"\x02")?;
    expect_told(alloc, &Told::Missing, b"\x05")
}

#[test]
fn other_bytes_are_no_answer(rt: HostRuntime) -> Result<(), Fail> {
    for bytes in NO_ANSWERS.iter() {
        match read_told(rt.alloc(), bytes) {
            Err(Unread::Malformed) => {}
            _ => return Err(Fail::new(format_args!("it is read"))),
        }
    }
    Ok(())
}
