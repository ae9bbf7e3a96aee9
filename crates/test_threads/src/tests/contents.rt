//! How many bytes of contents a follower holds.

use crate::tests::beginnings::merge_of;
use crate::tests::building::{key_of, value_of};
use audit_follower::{AuditFault, EntryFault, Follower, Recent, Start};
use journal::Entry;
use key_state::{Key, KeyState};
use std::alloc::Global;
use std::test::Fail;
use test_support::expect;
use vnode::Vnode;

/// A value that has 50 bytes with its media type.
const VALUE: &[u8] = b"0123456789012345678901234567890123456789";

/// States of 100 bytes that were replaced are kept.
const TWO_VALUES: Recent = Recent {
    always: 1,
    entries: 16,
    bytes: 100,
};

/// A read of a key at a vnode, and a put of the value in the place of what it answered, with these stamps. What the read answered, which
/// the put tells as what was there.
fn replaced(
    vnode: &mut Vnode,
    alloc: Global,
    stamps: (u64, u64),
    key: &Key,
) -> Result<KeyState, Fail> {
    let (read, put) = stamps;
    let (before, _) = vnode.read(read, key)?;
    let value = value_of(alloc, VALUE)?;
    let was = vnode.put_lent(put, key, before.clock(), &value)?.was;
    expect(was.is_same(&before), &was.bytes())?;
    Ok(before)
}

/// Copies of so many first entries of a vnode.
fn entries_of(alloc: Global, vnode: &Vnode, count: u64) -> Result<Vec<Entry>, Fail> {
    let mut entries = Vec::new(alloc);
    for place in 0..count {
        if let Some(entry) = vnode.journal().get(place) {
            entries.push(entry.copy(alloc)?)?;
        }
    }
    Ok(entries)
}

/// The entries of a vnode where the value was put four times, each time behind a read and in the place of what that answered; and what the
/// second and the third read answered.
fn puts_and_reads(alloc: Global, key: &Key) -> Result<(Vec<Entry>, KeyState, KeyState), Fail> {
    let mut vnode = Vnode::new(alloc, 0);
    let _ = replaced(&mut vnode, alloc, (1, 2), key)?;
    let first = replaced(&mut vnode, alloc, (3, 4), key)?;
    let second = replaced(&mut vnode, alloc, (5, 6), key)?;
    let _ = replaced(&mut vnode, alloc, (7, 8), key)?;
    Ok((entries_of(alloc, &vnode, 8)?, first, second))
}

/// How many bytes wait of two vnodes.
fn waiting(follower: &Follower) -> Option<(u128, u128)> {
    if follower.count() == 2 {
        Some((follower.waiting_bytes(0), follower.waiting_bytes(1)))
    } else {
        None
    }
}

/// Of three states of 50 bytes that were replaced the last two are kept: a merge may name the third read, which answered one of them, and
/// not the second. What waits is counted: four puts and both merges before, and none once the second merge is refused.
#[test]
fn two_values_are_kept(rt: HostRuntime) -> Result<(), Fail> {
    let alloc = rt.alloc();
    let key = key_of(alloc, b"k")?;
    let (entries, first, second) = puts_and_reads(alloc, &key)?;
    let mut follower = Follower::new(alloc, &[0, 1], TWO_VALUES, Start::empty(alloc))?;
    follower.take(0, 0, entries)?;
    let merges = vec![in alloc;
        merge_of(alloc, 9, &key, 0, 4, &second)?,
        merge_of(alloc, 10, &key, 0, 2, &first)?,
    ]?;
    follower.take(1, 0, merges)?;
    let before = waiting(&follower);
    expect(before == Some((200, 100)), &before)?;
    let end = follower.follow(u64::MAX);
    let given_up = AuditFault::Found {
        code: EntryFault::GivenUp,
        vnode: 1,
        place: 1,
    };
    expect(end == Err(given_up), &end)?;
    let left = waiting(&follower);
    expect(left == Some((0, 0)), &left)
}
