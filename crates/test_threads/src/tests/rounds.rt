//! Workers that read, put and merge.

use crate::tests::building::{key_of, value_of};
use crate::tests::running::{Answered, Staff};
use crate::tests::working::Worker;
use key_state::{Content, Key};
use peers::Peers;
use std::alloc::{AllocError, Global};

/// Reads a key at a vnode, puts there what takes the place of what it read, and merges what it read at the next vnode, so many times.
#[derive(Drop)]
pub(super) struct Rounds {
    key: Key,
    content: Content,
    count: usize,
    answered: usize,
}

impl Rounds {
    /// One round, from this vnode on. Whether all was answered.
    fn round<P: Peers>(&self, peers: &mut P, i: usize) -> bool {
        let Ok(answer) = peers.state_of(i % 3, &self.key) else {
            return false;
        };
        let put = peers.put_at(i % 3, &self.key, answer.state.clock(), &self.content);
        let merged = peers.merge_at(
            (i % 3 + 1) % 3,
            &self.key,
            answer.from,
            answer.at,
            &answer.state,
        );
        put.is_ok() && merged.is_ok()
    }
}

impl Worker for Rounds {
    fn run<P: Peers>(&mut self, peers: &mut P) {
        for i in 0..self.count {
            if self.round(peers, i) {
                self.answered = self.answered.saturating_add(1);
            }
        }
    }
}

impl Answered for Rounds {
    fn is_answered(&self) -> bool {
        self.answered == self.count
    }
}

/// Workers of two keys, who go so many rounds each.
pub(super) struct Rounders(pub(super) usize);

impl Staff for Rounders {
    type Work = Rounds;

    fn work(&self, alloc: Global, number: usize) -> Result<Rounds, AllocError> {
        Ok(Rounds {
            key: key_of(alloc, if number % 2 == 0 { b"k" } else { b"l" })?,
            content: value_of(alloc, b"a")?,
            count: self.0,
            answered: 0,
        })
    }
}
