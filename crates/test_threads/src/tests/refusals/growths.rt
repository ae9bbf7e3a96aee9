//! A put of a further key, for which what finds a vnode's keys, and what keeps them, may grow.

use crate::tests::refusals::refusing::{End, Trial, begin, end_of, in_turn, was_met};
use dvv::Clock;
use key_state::{Content, Key};
use std::alloc::{AllocError, Global};
use std::env::Env;
use std::sync::Wait;
use std::test::Fail;
use vnode::{Vnode, VnodeFault};

/// How many keys a vnode holds at most before the put: its index grows several times until then.
const MOST: u8 = 64;

/// Or so many, which fill a block of keys: the put closes it.
const BLOCK: u8 = 128;

/// The key of a number.
fn key_of(alloc: Global, number: u8) -> Result<Key, AllocError> {
    Key::new(alloc, b"b", &[number])
}

/// How many of the keys up to a number a vnode finds.
fn count_found(alloc: Global, vnode: &mut Vnode, last: u8) -> Result<u8, Fail> {
    let mut found: u8 = 0;
    for number in 0..=last {
        let (state, _) = vnode.read(0, &key_of(alloc, number)?)?;
        if state.siblings().len() == 1 {
            found = found.saturating_add(1);
        }
    }
    Ok(found)
}

/// `Vnode::put_lent`, where so many keys are held.
#[derive(Clone, Copy)]
struct Further {
    held: u8,
}

impl Trial for Further {
    fn goes<R: Env + Wait>(&self, rt: &R, alloc: Global) -> Result<(bool, End), Fail> {
        let seen = Clock::new(alloc);
        let mut vnode = Vnode::new(alloc, 0);
        for number in 0..self.held {
            let key = key_of(alloc, number)?;
            let _put = vnode.put_lent(0, &key, &seen, &Content::Tombstone)?;
        }
        let key = key_of(alloc, self.held)?;
        begin(rt);
        let put = vnode.put_lent(0, &key, &seen, &Content::Tombstone);
        let met = was_met(rt);
        let found = count_found(alloc, &mut vnode, self.held)?;
        let end = match put {
            Ok(_) => end_of(found == self.held.saturating_add(1), false),
            Err(fault) => end_of(false, fault == VnodeFault::NoMemory && found == self.held),
        };
        Ok((met, end))
    }
}

#[test]
fn growth_is_refused(rt: HostRuntime) -> Result<(), Fail> {
    for held in 0..MOST {
        in_turn(&rt, rt.alloc(), &Further { held })?;
    }
    in_turn(&rt, rt.alloc(), &Further { held: BLOCK })?;
    Ok(())
}
