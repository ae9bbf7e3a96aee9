//! Keys, contents, clocks and vnodes that the tests start from.

ghost use Rattle.std.specs.Prelude.{◌≤◌};

use crate::parts::calling::put_unhooked;
use dvv::{Clock, ClockFault, Dot};
use key_state::{Bytes, Content, Key, KeyState};
use peers::Local;
use quorum::PutRequest;
use std::alloc::{AllocError, Global};
use std::test::Fail;

/// A key of bucket `b`.
pub(crate) fn key_of(alloc: Global, key: &[u8]) -> Result<Key, AllocError> {
    Key::new(alloc, b"b", key)
}

/// A value of media type `text/plain`.
pub(crate) fn content_of(alloc: Global, value: &[u8]) -> Result<Content, AllocError> {
    Ok(Content::Value {
        media: Bytes::from_slice(alloc, b"text/plain")?,
        bytes: Bytes::from_slice(alloc, value)?,
    })
}

/// The clock of so many events of one vnode.
pub(crate) fn clock_of(alloc: Global, vnode: u32, count: u64) -> Result<Clock, ClockFault> {
    let mut clock = Clock::new(alloc);
    for _ in 0..count {
        let n = clock.counter(vnode) + 1;
        clock.add(Dot { vnode, n })?;
    }
    Ok(clock)
}

/// Puts a value at one vnode, without a context and with no hook.
pub(crate) fn put_alone(
    alloc: Global,
    local: &mut Local,
    vnode: usize,
    key: &Key,
    value: &[u8],
) -> Result<(), Fail> {
    let request = PutRequest {
        coordinator: vnode,
        others: &[],
        key,
        seen: &Clock::new(alloc),
        content: &content_of(alloc, value)?,
        w: 1,
    };
    put_unhooked(alloc, local, request)?;
    Ok(())
}

/// So many vnodes of an incarnation. A key's place is by its digest.
pub(crate) fn vnodes_of(alloc: Global, n: u32, incarnation: u16) -> Result<Local, AllocError>
    requires { n ≤ 255 }
{
    Local::open(alloc, n, incarnation)
}

/// Three vnodes of incarnation 0, the first of which is each key's place. The calls of these numbers are lost.
pub(crate) fn three_losing(alloc: Global, lost: &[u64]) -> Result<Local, AllocError> {
    let mut local = Local::open_first(alloc, 3, 0, 0)?;
    local.lose(Vec::from_slice(alloc, lost)?);
    Ok(local)
}

/// How many entries the journals of the first three vnodes have.
pub(crate) fn lengths(local: &Local) -> [usize; 3] {
    [length(local, 0), length(local, 1), length(local, 2)]
}

/// How many entries the journal of a vnode has, if the vnode is there.
fn length(local: &Local, i: usize) -> usize {
    match local.vnodes().get(i) {
        Some(vnode) => vnode.journal().len(),
        None => 0,
    }
}

/// Whether the state's siblings have these dots, in this order.
pub(crate) fn shows(state: &KeyState, dots: &[(u32, u64)]) -> bool {
    let siblings = state.siblings();
    siblings.len() == dots.len()
        && siblings.iter().zip(dots).all(|(sibling, want)| sibling.dot.vnode == want.0
            && sibling.dot.n == want.1)
}

/// Whether the one sibling is this value.
pub(crate) fn is_value(state: &KeyState, want_media: &[u8], want: &[u8]) -> bool {
    match state.siblings() {
        [sibling] => match &sibling.content {
            Content::Value { media, bytes } => {
                media.as_slice() == want_media && bytes.as_slice() == want
            }
            Content::Tombstone => false,
        },
        _ => false,
    }
}
