//! Workers on threads who put, and whose journals are one run.

use crate::tests::building::{THREE_BY_FOUR, key_of, value_of};
use crate::tests::running::{Answered, Staff, are_one_run, served};
use crate::tests::working::Worker;
use dvv::Clock;
use key_state::{Content, Key};
use peers::Peers;
use std::alloc::{AllocError, Global};
use std::test::Fail;

/// How often each worker puts.
const PUTS: usize = 10;

/// Puts ten times, at one vnode after the other.
#[derive(Drop)]
struct Puts {
    key: Key,
    seen: Clock,
    content: Content,
    answered: usize,
}

impl Puts {
    /// One that puts under a key.
    fn new(alloc: Global, key: &[u8]) -> Result<Puts, AllocError> {
        Ok(Puts {
            key: key_of(alloc, key)?,
            seen: Clock::new(alloc),
            content: value_of(alloc, b"a")?,
            answered: 0,
        })
    }
}

impl Worker for Puts {
    fn run<P: Peers>(&mut self, peers: &mut P) {
        for round in 0..PUTS {
            if peers
                .put_at(round % 3, &self.key, &self.seen, &self.content)
                .is_ok()
            {
                self.answered = self.answered.saturating_add(1);
            }
        }
    }
}

impl Answered for Puts {
    fn is_answered(&self) -> bool {
        self.answered == PUTS
    }
}

/// Workers of two keys.
struct Putters;

impl Staff for Putters {
    type Work = Puts;

    fn work(&self, alloc: Global, number: usize) -> Result<Puts, AllocError> {
        Puts::new(alloc, if number % 2 == 0 { b"k" } else { b"l" })
    }
}

/// Each of the forty puts is answered, and stands once in the journals, which are one run.
#[test]
fn forty_calls(rt: HostRuntime) -> Result<(), Fail> {
    let vnodes = served(&rt, rt.alloc(), &THREE_BY_FOUR, &Putters)?;
    are_one_run(rt.alloc(), &vnodes, &[(16, 16), (12, 12), (12, 12)])
}
