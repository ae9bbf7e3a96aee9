//! A million calls of four threads, handed over in pieces of 64 entries.

use crate::tests::building::{THREE_BY_FOUR, key_of};
use crate::tests::rounds::Rounders;
use crate::tests::running::served;
use audit_follower::{Follower, Recent, Start};
use journal::Entry;
use key_state::Key;
use std::alloc::Global;
use std::test::Fail;
use test_support::expect;
use vnode::Vnode;

/// How many rounds of three calls each worker makes.
const ROUNDS: usize = 83_334;

/// How many entries are handed over at once.
const PIECE: usize = 64;

/// How many of them a block has.
const PIECES: usize = 16;

/// How many entries each vnode has in full blocks then.
const FOLLOWED: usize = 326 * PIECES * PIECE;

/// A merge may name any of so many last entries of a vnode: a worker may be stopped for long.
const RECENT: Recent = Recent {
    always: 1 << 20,
    entries: 1 << 20,
    bytes: 0,
};

/// A stamp above all that are drawn.
const LATE: u64 = 1 << 62;

/// The vnode that is taken last.
const LAST: u32 = 2;

/// The number after the last stamp.
fn end_of(piece: &[Entry]) -> u64 {
    match piece.last() {
        Some(entry) => entry.stamp().saturating_add(1),
        None => 0,
    }
}

/// Takes a piece. Once the other vnodes were taken, all up to its last stamp is followed.
fn take_piece(
    follower: &mut Follower,
    vnode: u32,
    place: usize,
    piece: Vec<Entry>,
) -> Result<(), Fail> {
    let end = end_of(&piece);
    follower.take(vnode, place, piece)?;
    if vnode == LAST {
        follower.follow(end)?;
    }
    Ok(())
}

/// Takes a full block in pieces, of which the first stands at this place.
fn take_block(
    follower: &mut Follower,
    vnode: u32,
    first: usize,
    block: Vec<Entry>,
) -> Result<(), Fail> {
    let mut rest = block;
    for number in 0..PIECES {
        if rest.len() < PIECE {
            return Err(Fail::new("a block isn't full"));
        }
        let behind = rest.split_off(PIECE)?;
        take_piece(follower, vnode, first.saturating_add(number * PIECE), rest)?;
        rest = behind;
    }
    Ok(())
}

/// Takes the full blocks of a vnode.
fn take_vnode(alloc: Global, follower: &mut Follower, vnode: &mut Vnode) -> Result<(), Fail> {
    let id = vnode.id();
    let mut first: usize = 0;
    let (handout, _) = vnode.settle(&mut Vec::new(alloc));
    for block in handout.blocks {
        take_block(follower, id, first, block)?;
        first = first.saturating_add(PIECES * PIECE);
    }
    Ok(())
}

/// Reads a key until all that was done before stands in full blocks.
fn fill(vnode: &mut Vnode, key: &Key) -> Result<(), Fail> {
    let first = LATE + u64::from(vnode.id()) * 1_024;
    for n in 0..1_024 {
        let _ = vnode.read(first + n, key)?;
    }
    Ok(())
}

/// Takes the full blocks of each of some vnodes, and follows all of them.
fn follow_all(follower: &mut Follower, alloc: Global, vnodes: &mut [Vnode]) -> Result<(), Fail> {
    let key = key_of(alloc, b"k")?;
    for vnode in vnodes {
        fill(vnode, &key)?;
        take_vnode(alloc, follower, vnode)?;
    }
    follower.follow(u64::MAX)?;
    let followed = (0..follower.count()).all(|index| follower.followed(index) == FOLLOWED);
    expect(followed, &follower.count())
}

/// A million calls of four threads, handed over in pieces of 64 entries, are one run.
#[test]
fn a_million_calls(rt: HostRuntime) -> Result<(), Fail> {
    let alloc = rt.alloc();
    let mut vnodes = served(&rt, alloc, &THREE_BY_FOUR, &Rounders(ROUNDS))?;
    let mut follower = Follower::new(alloc, &[0, 1, 2], RECENT, Start::empty(alloc))?;
    follow_all(&mut follower, alloc, vnodes.as_mut_slice())
}
