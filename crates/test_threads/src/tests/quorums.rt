//! Two workers who get and put one key by quorums, at the same time.

use crate::tests::building::{THREE_BY_TWO, key_of};
use crate::tests::running::{Answered, Staff, are_one_run, served};
use crate::tests::working::Worker;
use bpf_helpers::Table;
use dvv::{Clock, Dot};
use hook_registry::Registry;
use key_state::{Content, Key};
use peers::Peers;
use quorum::{Hooking, PutRequest, QuorumFault};
use std::alloc::{AllocError, Global};
use std::test::Fail;

/// How often each worker gets and puts.
const ROUNDS: u64 = 20;

/// How many vnodes are to answer.
const QUORUM: usize = 2;

/// At which vnode a worker puts.
#[derive(Clone, Copy)]
enum Coordinator {
    First,
    Second,
}

/// Puts at a coordinator, and copies to the other two vnodes.
fn put<P: Peers>(
    peers: &mut P,
    hooking: &mut Hooking<Registry>,
    coordinator: Coordinator,
    key: &Key,
    seen: &Clock,
) -> Result<Dot, QuorumFault> {
    let gone = Content::Tombstone;
    let first = PutRequest {
        coordinator: 0,
        others: &[1, 2],
        key,
        seen,
        content: &gone,
        w: QUORUM,
    };
    match coordinator {
        Coordinator::First => quorum::put(peers, hooking, first),
        Coordinator::Second => {
            let second = PutRequest {
                coordinator: 1,
                others: &[0, 2],
                ..first
            };
            quorum::put(peers, hooking, second)
        }
    }
}

/// Gets a key, brings what was read to each vnode that lacks it, so that a coordinator knows what was seen, and puts over all of it.
/// Whether both were answered.
fn get_and_put<P: Peers>(
    alloc: Global,
    peers: &mut P,
    hooking: &mut Hooking<Registry>,
    coordinator: Coordinator,
    key: &Key,
) -> bool {
    match quorum::get(alloc, peers, key, &[0, 1, 2], QUORUM) {
        Ok((state, answers)) => {
            repair::repair(peers, key, &answers);
            put(peers, hooking, coordinator, key, state.clock()).is_ok()
        }
        Err(_) => false,
    }
}

/// Gets and puts one key.
#[derive(Drop)]
struct Writer {
    alloc: Global,
    coordinator: Coordinator,
    key: Key,
    answered: u64,
}

impl Worker for Writer {
    fn run<P: Peers>(&mut self, peers: &mut P) {
        let mut hooking = Hooking::new(
            self.alloc,
            Registry::new(self.alloc),
            Table::new(self.alloc),
        );
        for _ in 0..ROUNDS {
            if get_and_put(self.alloc, peers, &mut hooking, self.coordinator, &self.key) {
                self.answered = self.answered.saturating_add(1);
            }
        }
    }
}

impl Answered for Writer {
    fn is_answered(&self) -> bool {
        self.answered == ROUNDS
    }
}

/// Writers of one key.
struct Writers;

impl Staff for Writers {
    type Work = Writer;

    fn work(&self, alloc: Global, number: usize) -> Result<Writer, AllocError> {
        let key = key_of(alloc, b"k")?;
        let coordinator = if number == 0 {
            Coordinator::First
        } else {
            Coordinator::Second
        };
        Ok(Writer {
            alloc,
            coordinator,
            key,
            answered: 0,
        })
    }
}

/// Each get and each put by a quorum is answered and reaches all three vnodes, and an audit finds the journals to be one run.
#[test]
fn two_quorums_at_once(rt: HostRuntime) -> Result<(), Fail> {
    let vnodes = served(&rt, rt.alloc(), &THREE_BY_TWO, &Writers)?;
    are_one_run(rt.alloc(), &vnodes, &[(80, 200); 3])
}
