//! A follower of vnodes that began with what was kept.

use crate::tests::building::{SIXTEEN, key_of, value_of};
use audit_follower::{AuditFault, EntryFault, Follower, Start};
use journal::{Entry, Merged};
use key_state::{Key, KeyState};
use std::alloc::{AllocError, Global};
use std::test::Fail;
use test_support::expect;
use vnode::{Seed, Vnode};

/// A vnode that is gone.
const GONE: u32 = 7;

/// The state of a key that the vnode that is gone knew.
fn kept_state(alloc: Global, key: &Key) -> Result<KeyState, Fail> {
    let mut gone = Vnode::new(alloc, GONE);
    let (seen, _) = gone.read(0, key)?;
    let _ = gone.put_lent(1, key, seen.clock(), &value_of(alloc, b"v")?)?;
    let (state, _) = gone.read(2, key)?;
    Ok(state)
}

/// A merge of a state.
pub(super) fn merge_of(
    alloc: Global,
    stamp: u64,
    key: &Key,
    from: u32,
    at: u64,
    state: &KeyState,
) -> Result<Entry, AllocError> {
    let merged = Merged {
        key: key.copy()?,
        from,
        at,
        state: state.copy(alloc)?,
    };
    Ok(Entry::merge(stamp, Box::new(alloc, merged)?))
}

/// Two vnodes that began with a key: each has merged it, with these stamps.
fn begun(
    alloc: Global,
    fronts: Vec<usize>,
    key: &Key,
    stamps: (u64, u64),
) -> Result<Follower, Fail> {
    let state = kept_state(alloc, key)?;
    let seed = Seed::fixed();
    let mut follower = Follower::new(alloc, &[0, 1], SIXTEEN, Start { seed, fronts })?;
    follower.take(
        0,
        0,
        vec![in alloc; merge_of(alloc, stamps.0, key, GONE, 2, &state)?]?,
    )?;
    follower.take(
        1,
        0,
        vec![in alloc; merge_of(alloc, stamps.1, key, GONE, 2, &state)?]?,
    )?;
    Ok(follower)
}

/// What a follower finds of an entry that is the next one of a vnode.
fn found(follower: &mut Follower, code: EntryFault, vnode: u32, place: usize) -> Result<(), Fail> {
    let end = follower.follow(u64::MAX);
    expect(end == Err(AuditFault::Found { code, vnode, place }), &end)
}

/// A run behind the fronts is one; a merge there that names the vnode that is gone has no source.
#[test]
fn a_run_from_fronts(rt: HostRuntime) -> Result<(), Fail> {
    let alloc = rt.alloc();
    let key = key_of(alloc, b"k")?;
    let state = kept_state(alloc, &key)?;
    let mut follower = begun(alloc, vec![in alloc; 1, 1]?, &key, (1, 2))?;
    follower.take(0, 1, vec![in alloc; Entry::read(3, key.copy()?)]?)?;
    follower.take(
        1,
        1,
        vec![in alloc; merge_of(alloc, 4, &key, 0, 1, &state)?]?,
    )?;
    follower.follow(u64::MAX)?;
    follower.take(
        1,
        2,
        vec![in alloc; merge_of(alloc, 5, &key, GONE, 2, &state)?]?,
    )?;
    found(&mut follower, EntryFault::NoSource, 1, 2)
}

/// Without fronts the first merge has no source.
#[test]
fn a_merge_of_what_is_gone(rt: HostRuntime) -> Result<(), Fail> {
    let alloc = rt.alloc();
    let key = key_of(alloc, b"k")?;
    let mut follower = begun(alloc, Vec::new(alloc), &key, (1, 2))?;
    found(&mut follower, EntryFault::NoSource, 0, 0)
}

/// Stamps of the fronts are compared.
#[test]
fn one_stamp_in_two_fronts(rt: HostRuntime) -> Result<(), Fail> {
    let alloc = rt.alloc();
    let key = key_of(alloc, b"k")?;
    let mut follower = begun(alloc, vec![in alloc; 1, 1]?, &key, (1, 1))?;
    found(&mut follower, EntryFault::Twice, 1, 0)
}

/// What is behind a front comes once all fronts are whole.
#[test]
fn a_step_before_a_front(rt: HostRuntime) -> Result<(), Fail> {
    let alloc = rt.alloc();
    let key = key_of(alloc, b"k")?;
    let mut follower = begun(alloc, vec![in alloc; 1, 1]?, &key, (1, 3))?;
    follower.take(0, 1, vec![in alloc; Entry::read(2, key.copy()?)]?)?;
    found(&mut follower, EntryFault::Late, 0, 1)
}
