//! Copies of what was read that come late.

use crate::parts::altering::{Alteration, Altered, alter, repeat};
use journal::{Entry, Journal, Said};
use key_state::KeyState;
use peers::{Local, Peers};
use std::alloc::Global;
use std::test::Fail;
use vnode::Vnode;

/// No vnode has so great an identifier.
const NOTHING: Altered = (u32::MAX, 0, Alteration::Missing);

/// Delivers to each vnode a copy of each state that was read so far, whether its answer came or was lost, and then a second one,
/// which is to change nothing.
pub(super) fn deliver_late(alloc: Global, local: &mut Local) -> Result<(), Fail> {
    for vnode in &alter(alloc, local.vnodes(), NOTHING)? {
        deliver_reads(alloc, local, vnode.journal())?;
    }
    Ok(())
}

/// Delivers what each read of a journal answered, by having its entries happen once more.
fn deliver_reads(alloc: Global, local: &mut Local, journal: &Journal) -> Result<(), Fail> {
    let mut again = Vnode::new(alloc, journal.vnode());
    for at in 0..u64::MAX {
        let Some(entry) = journal.get(at) else {
            break;
        };
        if let Some(state) = repeat(&mut again, entry)? {
            deliver(local, entry, journal.vnode(), at, &state)?;
        }
    }
    Ok(())
}

/// Delivers what a read of a vnode at a place answered.
fn deliver(
    local: &mut Local,
    read: &Entry,
    from: u32,
    at: u64,
    state: &KeyState,
) -> Result<(), Fail> {
    let Said::Read { key, .. } = read.said() else {
        return Err(Fail::new("no read"));
    };
    for vnode in 0..3 {
        let _first = local.merge_at(vnode, key, from, at, state)?;
        if local.merge_at(vnode, key, from, at, state)? {
            return Err(Fail::new("a second copy changed something"));
        }
    }
    Ok(())
}
