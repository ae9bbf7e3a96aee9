//! What vnodes show, by the writes that they know.

use crate::parts::building::key_of;
use crate::tests::operations::Stored;
use dvv::{Clock, Dot};
use journal::{Entry, Journal, Said};
use key_state::{Content, Key, KeyState, Sibling};
use peers::{Local, Peers};
use std::alloc::Global;
use std::test::Fail;
use vnode::Vnode;

/// Whether each of these puts has its copies, and no vnode shows of their keys what a write that it knows had seen.
pub(super) fn all_are_kept(
    alloc: Global,
    local: &mut Local,
    stored: &[Stored],
) -> Result<bool, Fail> {
    for put in stored {
        if !is_kept(alloc, local, put)? {
            return Ok(false);
        }
    }
    Ok(true)
}

/// Whether a put has its copies, and no vnode shows of its key what a write that it knows had seen.
fn is_kept(alloc: Global, local: &mut Local, put: &Stored) -> Result<bool, Fail> {
    let key = key_of(alloc, &[put.key])?;
    let first = kept_at(local, 0, &key, put)?;
    let second = kept_at(local, 1, &key, put)?;
    let third = kept_at(local, 2, &key, put)?;
    Ok(are_enough(&[first, second, third], put.copies))
}

/// What a vnode keeps of a put: whether it is shown or superseded there, and whether what is shown of its key is current.
type Kept = (bool, bool);

fn kept_at(local: &mut Local, vnode: usize, key: &Key, put: &Stored) -> Result<Kept, Fail> {
    let state = local.state_of(vnode, key)?.state;
    Ok(kept_in(&state, local.vnodes(), key, put))
}

/// What a state keeps of a put, by what the vnodes' journals say.
fn kept_in(state: &KeyState, vnodes: &[Vnode], key: &Key, put: &Stored) -> Kept {
    let siblings = state.siblings();
    let there = siblings.iter().any(|sibling| is_of(sibling, put));
    let known = state.clock();
    let superseded = was_seen(vnodes, key, known, put.dot);
    let current = !siblings
        .iter()
        .any(|sibling| was_seen(vnodes, key, known, sibling.dot));
    (there || superseded, current)
}

/// Whether there are so many copies, and all that is shown is current.
fn are_enough(kept: &[Kept], copies: usize) -> bool {
    kept.iter().filter(|kept| kept.0).count() >= copies && kept.iter().all(|kept| kept.1)
}

/// Whether a sibling is what was put.
fn is_of(sibling: &Sibling, put: &Stored) -> bool {
    match &sibling.content {
        Content::Value { bytes, .. } => sibling.dot == put.dot
            && bytes.as_slice() == [put.value].as_slice(),
        Content::Tombstone => false,
    }
}

/// Whether one of the writes of a key, among those that a clock counts, had seen a dot.
fn was_seen(vnodes: &[Vnode], key: &Key, known: &Clock, dot: Dot) -> bool {
    vnodes
        .iter()
        .any(|vnode| was_seen_at(vnode.journal(), key, known, dot))
}

/// The same, of those that were put at one vnode.
fn was_seen_at(journal: &Journal, key: &Key, known: &Clock, dot: Dot) -> bool {
    for place in 0..u64::MAX {
        match journal.get(place) {
            Some(entry) if had_seen(entry, key, known, dot) => return true,
            Some(_) => {}
            None => return false,
        }
    }
    false
}

/// Whether an entry is a put of a key that a clock counts and that had seen a dot.
fn had_seen(entry: &Entry, key: &Key, known: &Clock, dot: Dot) -> bool {
    match entry.said() {
        Said::Put {
            key: own,
            seen,
            dot: put,
            ..
        } => own == key && known.covers(put) && seen.covers(dot),
        _ => false,
    }
}
