//! Gets and puts over the vnodes of one thread, without hooks.

ghost use Rattle.std.specs.Prelude.{◌∷◌, ◌<◌, ◌^◌, length};
ghost use Rattle.ring.specs.Places.{AreDifferent};

use crate::parts::building::{
    clock_of, content_of, key_of, lengths, shows, three_losing, vnodes_of,
};
use crate::parts::calling::{get, put_unhooked};
use dvv::Dot;
use key_state::Key;
use peers::{Local, Peers};
use quorum::{PutRequest, QuorumFault};
use std::alloc::Global;
use std::test::Fail;
use test_support::expect;
use vnode::VnodeFault;

/// What a put answers.
type Put = Result<Dot, QuorumFault>;

const TOO_FEW: QuorumFault = QuorumFault::TooFew;

const AHEAD: QuorumFault = QuorumFault::Refused(VnodeFault::ContextAhead);

/// Why a get of so many answers of these vnodes is refused, if it is, and else whether it shows siblings of these dots.
fn finds(
    alloc: Global,
    local: &mut Local,
    key: &Key,
    vnodes: &[usize],
    r: usize,
    dots: &[(u32, u64)],
) -> Result<bool, QuorumFault>
    requires { AreDifferent vnodes.now }
{
    let (state, answers) = get(alloc, local, key, vnodes, r)?;
    Ok(shows(&state, dots) && answers.len() == vnodes.len())
}

/// A put at a vnode: the others that it goes to, the events of one vnode that it has seen, its value, and how many copies it wants.
#[derive(Clone, Copy)]
struct Seeing<'a> {
    coordinator: usize,
    others: &'a [usize],
    seen: (u32, u64),
    value: &'a [u8],
    w: usize,
}

/// What such a put answers.
fn put_seeing(alloc: Global, local: &mut Local, key: &Key, put: Seeing<'_>) -> Result<Put, Fail>
    requires few { length put.others.now < 2 ^ 32 }
    requires different { AreDifferent (put.coordinator ∷ put.others.now) }
{
    let request = PutRequest {
        coordinator: put.coordinator,
        others: put.others,
        key,
        seen: &clock_of(alloc, put.seen.0, put.seen.1)?,
        content: &content_of(alloc, put.value)?,
        w: put.w,
    };
    Ok(put_unhooked(alloc, local, request))
}

/// What a put of `c` at vnode 2 answers that has seen what all three vnodes hold, which is siblings of these dots.
fn put_over(alloc: Global, local: &mut Local, key: &Key, dots: &[(u32, u64)]) -> Result<Put, Fail> {
    let (state, answers) = get(alloc, local, key, &[0, 1, 2], 3)?;
    if answers.len() == 3 && shows(&state, dots) {
        let request = PutRequest {
            coordinator: 2,
            others: &[0, 1],
            key,
            seen: state.clock(),
            content: &content_of(alloc, b"c")?,
            w: 2,
        };
        return Ok(put_unhooked(alloc, local, request));
    }
    Err(Fail::new("other siblings"))
}

/// What three puts answer, the journals' lengths at a time between them, and whether gets find what they should.
type Outcome = ([Put; 3], [usize; 3], bool);

/// Two puts that have seen nothing, of `a` at vnode 1, to all three vnodes, and of `b` at vnode 0, and one over both.
fn put_two_and_one_over(alloc: Global, local: &mut Local, key: &Key) -> Result<Outcome, Fail> {
    let first = put_seeing(
        alloc,
        local,
        key,
        Seeing {
            coordinator: 1,
            others: &[2, 0],
            seen: (0, 0),
            value: b"a",
            w: 3,
        },
    )?;
    let lengths = lengths(local);
    let second = put_seeing(
        alloc,
        local,
        key,
        Seeing {
            coordinator: 0,
            others: &[1, 2],
            seen: (0, 0),
            value: b"b",
            w: 1,
        },
    )?;
    let third = put_over(alloc, local, key, &[(458_752, 1), (458_753, 1)])?;
    let last = finds(alloc, local, key, &[1], 1, &[(458_754, 1)])?;
    Ok((
        [first, second, third],
        lengths,
        last && local.failures() == 0,
    ))
}

/// A put at vnode 0 has seen what was put at vnode 1 alone, and both vnodes end with it. One whose context is ahead of what is
/// stored changes nothing.
fn put_after_another(alloc: Global, local: &mut Local, key: &Key) -> Result<Outcome, Fail> {
    let elsewhere = put_seeing(
        alloc,
        local,
        key,
        Seeing {
            coordinator: 1,
            others: &[],
            seen: (0, 0),
            value: b"a",
            w: 1,
        },
    )?;
    let after = put_seeing(
        alloc,
        local,
        key,
        Seeing {
            coordinator: 0,
            others: &[1],
            seen: (1, 1),
            value: b"b",
            w: 2,
        },
    )?;
    let lengths = lengths(local);
    let brought = finds(alloc, local, key, &[0], 1, &[(0, 1)])?;
    let ahead = put_seeing(
        alloc,
        local,
        key,
        Seeing {
            coordinator: 0,
            others: &[1],
            seen: (0, 1000),
            value: b"c",
            w: 1,
        },
    )?;
    let still = finds(alloc, local, key, &[0], 1, &[(0, 1)])?;
    Ok(([elsewhere, after, ahead], lengths, brought && still))
}

/// The three puts over three vnodes of incarnation 7, and those over two.
#[test]
fn puts_and_gets(rt: HostRuntime) -> Result<(), Fail> {
    let alloc = rt.alloc();
    let key = key_of(alloc, b"k")?;
    let three = put_two_and_one_over(alloc, &mut vnodes_of(alloc, 3, 7)?, &key)?;
    let stored = [458_753, 458_752, 458_754].map(|vnode| Ok(Dot { vnode, n: 1 }));
    expect(three == (stored, [1, 2, 1], true), &3)?;
    let two = put_after_another(alloc, &mut vnodes_of(alloc, 2, 0)?, &key)?;
    let brought = [
        Ok(Dot { vnode: 1, n: 1 }),
        Ok(Dot { vnode: 0, n: 1 }),
        Err(AHEAD),
    ];
    expect(two == (brought, [3, 3, 0], true), &2)
}

/// What a put of `a` at vnode 0 answers of which one copy is asked for, the journals' lengths after it, and how many calls failed.
fn put_once(alloc: Global, local: &mut Local, key: &Key) -> Result<(Put, [usize; 3], u64), Fail> {
    let back = put_seeing(
        alloc,
        local,
        key,
        Seeing {
            coordinator: 0,
            others: &[1, 2],
            seen: (0, 0),
            value: b"a",
            w: 1,
        },
    )?;
    Ok((back, lengths(local), local.failures()))
}

/// What a get at all three vnodes comes to, one at a vnode that isn't there too, and one at none.
fn get_three_times(alloc: Global, local: &mut Local, key: &Key) -> [Result<bool, QuorumFault>; 3] {
    [
        finds(alloc, local, key, &[0, 1, 2], 3, &[]),
        finds(alloc, local, key, &[0, 3], 2, &[]),
        finds(alloc, local, key, &[], 0, &[]),
    ]
}

/// The put is lost, and then a read. At last vnode 0 stored the put, and its own read is lost: no copy is tried.
#[test]
fn too_few(rt: HostRuntime) -> Result<(), Fail> {
    let alloc = rt.alloc();
    let key = key_of(alloc, b"k")?;
    let mut local = three_losing(alloc, &[0, 3])?;
    let put = put_once(alloc, &mut local, &key)?;
    let gets = get_three_times(alloc, &mut local, &key);
    let calls = (lengths(&local), local.failures());
    let unread = put_once(alloc, &mut three_losing(alloc, &[1])?, &key)?;
    expect(put == (Err(TOO_FEW), [0, 0, 0], 1), &0)?;
    expect(
        gets == [Err(TOO_FEW), Err(TOO_FEW), Ok(true)] && calls == ([2, 1, 0], 3),
        &3,
    )?;
    expect(unread == (Err(TOO_FEW), [1, 0, 0], 1), &1)
}
