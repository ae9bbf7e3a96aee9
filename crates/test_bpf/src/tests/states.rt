//! The calls of a key's state by themselves. Puts and merges, event by event, stand in scripts of the examples.

use crate::tests::clocks::{Entries, clock_of, shows};
use dvv::{Clock, ClockFault, Dot};
use key_state::{Content, KeyState, Shared};
use std::alloc::{AllocError, Global};
use std::test::Fail;
use test_support::expect;

/// A state without siblings that knows two events of vnode 3.
fn of_parts(alloc: Global) -> Result<KeyState, ClockFault> {
    let mut clock = Clock::new(alloc);
    clock.push(Dot { vnode: 3, n: 2 })?;
    Ok(KeyState::from_parts(clock, Vec::new(alloc))?)
}

/// Whether a copy of a state is the same, and what it shares, too, and that isn't nothing.
fn is_copied(alloc: Global, state: &KeyState) -> Result<bool, AllocError> {
    let copy = state.copy(alloc)?;
    let is_same = copy.is_same(state);
    let shared = copy.into_shared();
    let is_shared = shared.is_same(state) && shared.copy()?.is_same(state);
    Ok(is_same && is_shared && !Shared::nothing().is_same(state))
}

/// Whether a delete at vnode 3 that has seen nothing is told the third event, and is it.
fn is_deleted(state: &mut KeyState, nothing: &Clock) -> bool {
    let third = Some(Dot { vnode: 3, n: 3 });
    state.check_put(3, nothing).ok() == third
        && state.put(3, nothing, Content::Tombstone).ok() == third
}

#[test]
fn states(rt: HostRuntime) -> Result<(), Fail> {
    let mut state = of_parts(rt.alloc())?;
    let copied = is_copied(rt.alloc(), &state)?;
    assert!(rt; copied && is_deleted(&mut state, &Clock::new(rt.alloc())));
    assert!(rt; Shared::nothing().is_same(&KeyState::new(rt.alloc())));
    Ok(())
}

/// A put whose writer had seen so many events of each vnode, the vnode at which it is made, and the entries of the clock afterwards.
struct Put {
    seen: Entries,
    vnode: u32,
    clock: Entries,
}

/// The first of 65,536 identifiers for each incarnation.
const SECOND: u32 = 65_536;

const PUTS: &[Put] = &[
    Put {
        seen: &[],
        vnode: 7,
        clock: &[(7, 1)],
    },
    Put {
        seen: &[(1, 2)],
        vnode: 1,
        clock: &[(1, 3)],
    },
    // One more entry: of another index, before and after the put's, and of another incarnation.
    Put {
        seen: &[(0, 1)],
        vnode: 3,
        clock: &[(0, 1), (3, 1)],
    },
    Put {
        seen: &[(3, 9)],
        vnode: 0,
        clock: &[(0, 1), (3, 9)],
    },
    Put {
        seen: &[(2, 5)],
        vnode: SECOND,
        clock: &[(2, 5), (SECOND, 1)],
    },
    Put {
        seen: &[(SECOND, 5)],
        vnode: 2,
        clock: &[(2, 1), (SECOND, 5)],
    },
    // Two more.
    Put {
        seen: &[(0, 1), (1, 2)],
        vnode: 2,
        clock: &[(0, 1), (1, 2), (2, 1)],
    },
    Put {
        seen: &[(0, 1), (2, 2)],
        vnode: 1,
        clock: &[(0, 1), (1, 1), (2, 2)],
    },
    Put {
        seen: &[(1, 1), (2, 2)],
        vnode: 0,
        clock: &[(0, 1), (1, 1), (2, 2)],
    },
    Put {
        seen: &[(1, 4), (SECOND + 1, 1), (2 * SECOND + 1, 3)],
        vnode: 2 * SECOND + 1,
        clock: &[(1, 4), (SECOND + 1, 1), (2 * SECOND + 1, 4)],
    },
    // Three more.
    Put {
        seen: &[(0, 1), (1, 2), (2, 3)],
        vnode: 3,
        clock: &[(0, 1), (1, 2), (2, 3), (3, 1)],
    },
    // More events than 16 bits count, an index above 3, and incarnations far apart.
    Put {
        seen: &[(0, 65_535)],
        vnode: 1,
        clock: &[(0, 65_535), (1, 1)],
    },
    Put {
        seen: &[(0, 65_536)],
        vnode: 1,
        clock: &[(0, 65_536), (1, 1)],
    },
    Put {
        seen: &[(4, 1)],
        vnode: 5,
        clock: &[(4, 1), (5, 1)],
    },
    Put {
        seen: &[(3, 1)],
        vnode: 63 * SECOND,
        clock: &[(3, 1), (63 * SECOND, 1)],
    },
    Put {
        seen: &[(3, 1)],
        vnode: 64 * SECOND,
        clock: &[(3, 1), (64 * SECOND, 1)],
    },
    Put {
        seen: &[(0, 1), (65_535 * SECOND + 254, 2)],
        vnode: 65_535 * SECOND,
        clock: &[(0, 1), (65_535 * SECOND, 1), (65_535 * SECOND + 254, 2)],
    },
];

/// The state of one sibling after a put, as it is kept.
fn written(alloc: Global, put: &Put) -> Result<KeyState, Fail> {
    let seen = clock_of(alloc, put.seen)?;
    let mut state = KeyState::from_parts(seen.copy(alloc)?, Vec::new(alloc))?;
    state.put(put.vnode, &seen, Content::Tombstone)?;
    Ok(KeyState::of(alloc, &state.stored()?)?)
}

/// Whether a state is of this put alone.
fn is_of(state: &KeyState, put: &Put) -> bool {
    match state.siblings() {
        [only] => only.dot.vnode == put.vnode && shows(state.clock(), put.clock),
        _ => false,
    }
}

#[test]
fn one_sibling_is_kept_with_its_clock(rt: HostRuntime) -> Result<(), Fail> {
    for put in PUTS {
        let state = written(rt.alloc(), put)?;
        let copied = is_copied(rt.alloc(), &state)?;
        expect(copied && is_of(&state, put), &put.vnode)?;
    }
    Ok(())
}
