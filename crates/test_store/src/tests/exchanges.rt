//! Exchanges: what is brought to the other side, and what is sent for it.

use crate::parts::building::{key_of, lengths, put_alone, vnodes_of};
use crate::tests::watched::Watched;
use peers::{Local, Peers};
use repair::exchange;
use std::alloc::Global;
use std::test::Fail;
use test_support::expect;

/// Key `o` is at vnode 0 and `t` at vnode 1, and of key `b` each has a value that has not seen the other.
const APART: &[(usize, u8)] = &[(0, b'o'), (1, b't'), (0, b'b'), (1, b'b')];

/// Puts a value of each key at its vnode.
fn put_apart(alloc: Global, local: &mut Local) -> Result<(), Fail> {
    for &(vnode, key) in APART {
        let key = key_of(alloc, &[key])?;
        put_alone(alloc, local, vnode, &key, b"a")?;
    }
    Ok(())
}

/// Whether both vnodes show a key of one byte alike.
fn is_alike(alloc: Global, local: &mut Local, key: u8) -> Result<bool, Fail> {
    let key = key_of(alloc, &[key])?;
    let mine = local.state_of(0, &key)?.state;
    let other = local.state_of(1, &key)?.state;
    let clocks = mine.clock().entries() == other.clock().entries();
    Ok(clocks && mine.siblings().len() == other.siblings().len())
}

/// Whether they show each key alike.
fn are_alike(alloc: Global, local: &mut Local) -> Result<[bool; 3], Fail> {
    let both = is_alike(alloc, local, b'b')?;
    let ours = is_alike(alloc, local, b'o')?;
    Ok([both, ours, is_alike(alloc, local, b't')?])
}

/// How many states an exchange of vnodes 0 and 1 takes, and how many go whole at once.
type Counts = (u64, u64);

/// What an exchange of vnodes 0 and 1 comes to.
fn bring_both<P: Peers>(alloc: Global, peers: &mut P) -> Counts {
    let came = exchange(alloc, peers, 0, 1);
    (came.taken, came.whole_at_once)
}

/// What an exchange of vnodes 0 and 1 comes to, and the journals' lengths after it.
fn exchange_once(alloc: Global, local: &mut Local) -> (Counts, [usize; 3]) {
    (bring_both(alloc, local), lengths(local))
}

/// What two exchanges come to, and whether the keys are then shown alike.
type Outcome = ([(Counts, [usize; 3]); 2], [bool; 3]);

/// What they come to over these vnodes.
fn exchange_twice(alloc: Global, local: &mut Local) -> Result<Outcome, Fail> {
    put_apart(alloc, local)?;
    let first = exchange_once(alloc, local);
    let second = exchange_once(alloc, local);
    Ok(([first, second], are_alike(alloc, local)?))
}

/// To vnode 1 go `b` and `o`; back come `b`, whose clock grew, and `t`; `o` is alike by then. Then each of the three keys is read on both
/// sides, there and back, and no more. There were two entries in each journal.
#[test]
fn brings_each_key_to_the_other_side(rt: HostRuntime) -> Result<(), Fail> {
    let mut local = vnodes_of(rt.alloc(), 2, 0)?;
    let outcome = exchange_twice(rt.alloc(), &mut local)?;
    expect(
        outcome == ([((4, 0), [9, 9, 0]), ((0, 0), [15, 15, 0])], [true; 3]),
        &4,
    )
}

/// What an exchange of vnodes 0 and 1 comes to, and what has been sent by its end: parts, contents in parts, and whole states.
type Sending = (Counts, [usize; 3]);

/// Puts so many values of a key at vnode 0, of which none had seen another, and exchanges.
fn put_and_send(alloc: Global, watched: &mut Watched, count: u32) -> Result<Sending, Fail> {
    let key = key_of(alloc, b"k")?;
    for _ in 0..count {
        put_alone(alloc, &mut watched.local, 0, &key, b"a")?;
    }
    Ok((bring_both(alloc, watched), watched.sent))
}

/// Of 64 siblings one is new: one content goes.
#[test]
fn one_content_of_many_is_sent(rt: HostRuntime) -> Result<(), Fail> {
    let mut watched = Watched::new(vnodes_of(rt.alloc(), 2, 0)?);
    let first = put_and_send(rt.alloc(), &mut watched, 63)?;
    let second = put_and_send(rt.alloc(), &mut watched, 1)?;
    expect(
        [first, second] == [((1, 0), [1, 63, 0]), ((1, 0), [2, 64, 0])],
        &64,
    )
}
