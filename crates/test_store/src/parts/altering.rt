//! Journals of which one content is another, or one entry is missing.

use journal::{Entry, Journal, Said};
use key_state::{Bytes, Content, KeyState};
use std::alloc::{AllocError, Global};
use std::test::Fail;
use vnode::Vnode;

/// What is altered of an entry.
#[derive(Clone, Copy)]
pub(crate) enum Alteration {
    /// The value of the put is `x`.
    OtherContent,
    /// It is taken out.
    Missing,
}

/// The vnode and the place of an entry, and what is altered of it.
pub(crate) type Altered = (u32, u64, Alteration);

/// The vnodes once more, entry by entry, one of which is altered.
pub(crate) fn alter(alloc: Global, vnodes: &[Vnode], altered: Altered) -> Result<Vec<Vnode>, Fail> {
    let mut copies = Vec::with_capacity(alloc, vnodes.len())?;
    for vnode in vnodes {
        copies.push(alter_one(alloc, vnode.journal(), altered)?)?;
    }
    Ok(copies)
}

fn alter_one(alloc: Global, journal: &Journal, altered: Altered) -> Result<Vnode, Fail> {
    let mut copy = Vnode::new(alloc, journal.vnode());
    happen_again(alloc, &mut copy, journal, altered)?;
    Ok(copy)
}

fn happen_again(
    alloc: Global,
    copy: &mut Vnode,
    journal: &Journal,
    altered: Altered,
) -> Result<(), Fail> {
    for place in 0..u64::MAX {
        let Some(entry) = journal.get(place) else {
            break;
        };
        happen(
            alloc,
            copy,
            entry,
            alteration_at(journal.vnode(), place, altered),
        )?;
    }
    Ok(())
}

/// What is altered of the entry at a place.
fn alteration_at(vnode: u32, place: u64, altered: Altered) -> Option<Alteration> {
    if (vnode, place) == (altered.0, altered.1) {
        Some(altered.2)
    } else {
        None
    }
}

fn happen(
    alloc: Global,
    copy: &mut Vnode,
    entry: &Entry,
    alteration: Option<Alteration>,
) -> Result<(), Fail> {
    match alteration {
        Some(Alteration::OtherContent) => put_other(alloc, copy, entry),
        Some(Alteration::Missing) => Ok(()),
        None => {
            let _read = repeat(copy, entry)?;
            Ok(())
        }
    }
}

fn other_content(alloc: Global) -> Result<Content, AllocError> {
    Ok(Content::Value {
        media: Bytes::from_slice(alloc, b"text/plain")?,
        bytes: Bytes::from_slice(alloc, b"x")?,
    })
}

/// Puts `x` where something else was put.
fn put_other(alloc: Global, copy: &mut Vnode, entry: &Entry) -> Result<(), Fail> {
    let Said::Put {
        stamp,
        key,
        seen,
        ..
    } = entry.said()
    else {
        return Err(Fail::new("no put"));
    };
    let _put = copy.put_lent(stamp, key, seen, &other_content(alloc)?)?;
    Ok(())
}

/// Has an entry happen once more, at another vnode of the same identifier. Answers the state that it read, if it is a read.
pub(crate) fn repeat(copy: &mut Vnode, entry: &Entry) -> Result<Option<KeyState>, Fail> {
    match entry.said() {
        Said::Put {
            stamp,
            key,
            seen,
            content,
            ..
        } => {
            let _put = copy.put_lent(stamp, key, seen, content)?;
        }
        Said::Merge {
            stamp,
            key,
            from,
            at,
            state,
        } => {
            let _merged = copy.merge_lent(stamp, key, from, at, state)?;
        }
        Said::Read { stamp, key } => {
            let (state, _) = copy.read(stamp, key)?;
            return Ok(Some(state));
        }
        Said::Restart { stamp } => {
            let _place = copy.restart(stamp)?;
        }
    }
    Ok(None)
}
