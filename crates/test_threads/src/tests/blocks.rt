//! Blocks that are one run.

ghost use Rattle.std.specs.Prelude.{◌<◌, ◌^◌};

use crate::tests::building::{SIXTEEN, key_of, value_of};
use audit_follower::{Follower, Start};
use journal::{BLOCK, Handout};
use key_state::{Content, Key};
use std::alloc::Global;
use std::test::Fail;
use test_support::expect;
use vnode::Vnode;

/// Takes all blocks that a vnode handed out.
pub(super) fn take_all(follower: &mut Follower, vnode: u32, handout: Handout) -> Result<(), Fail> {
    let mut first = handout.first;
    for block in handout.blocks {
        let count = block.len();
        follower.take(vnode, first, block)?;
        first = first.wrapping_add(count);
    }
    Ok(())
}

/// A vnode reads a key, puts a content that had seen what it read, and reads again; another merges that. Four stamps from the
/// first on.
fn bring(
    sender: &mut Vnode,
    receiver: &mut Vnode,
    first: u64,
    key: &Key,
    content: &Content,
) -> Result<(), Fail>
    requires { first < 2 ^ 63 }
{
    let (seen, _) = sender.read(first, key)?;
    let _ = sender.put_lent(first + 1, key, seen.clock(), content)?;
    let (state, place) = sender.read(first + 2, key)?;
    let _ = receiver.merge_lent(first + 3, key, sender.id(), place, &state)?;
    Ok(())
}

/// Two vnodes, and their follower.
#[derive(Drop)]
struct Pair {
    a: Vnode,
    b: Vnode,
    follower: Follower,
}

impl Pair {
    /// Brings a content to the second vnode and back.
    fn round(&mut self, round: u64, key: &Key, content: &Content) -> Result<(), Fail>
        requires { round < 2 ^ 32 }
    {
        bring(&mut self.a, &mut self.b, 8 * round, key, content)?;
        bring(&mut self.b, &mut self.a, 8 * round + 4, key, content)
    }

    /// Takes what the vnodes hand out, and follows it up to a bound. No fault is found.
    fn follow(&mut self, alloc: Global, below: u64) -> Result<(), Fail> {
        take_all(&mut self.follower, 0, self.a.settle(&mut Vec::new(alloc)).0)?;
        take_all(&mut self.follower, 1, self.b.settle(&mut Vec::new(alloc)).0)?;
        Ok(self.follower.follow(below)?)
    }

    /// As many rounds, of which all but the last 300 are followed every 300, and all that was handed out at the end.
    fn rounds(&mut self, alloc: Global, key: &Key, content: &Content) -> Result<(), Fail> {
        for round in 0..ROUNDS {
            self.round(round, key, content)?;
            if round % 300 == 299 {
                self.follow(alloc, 8 * (round - 299))?;
            }
        }
        self.follow(alloc, 8 * 1024)
    }

    /// Whether so many entries of each vnode were taken.
    fn has_taken(&self, count: usize) -> bool {
        (0..self.follower.count()).all(|index| {
            self.follower
                .followed(index)
                .saturating_add(self.follower.waiting(index))
                == count
        })
    }
}

/// How many rounds there are.
const ROUNDS: u64 = 1_050;

/// How many entries of each vnode stand in full blocks at the end.
const HANDED_OUT: usize = 4_096;

/// Vnodes that settle as they go, and a follower that goes along: each journal has 4,200 entries, of which 4,096 are handed out.
#[test]
fn blocks_are_followed(rt: HostRuntime) -> Result<(), Fail> {
    let alloc = rt.alloc();
    let key = key_of(alloc, b"k")?;
    let content = value_of(alloc, b"a")?;
    let mut pair = Pair {
        a: Vnode::new(alloc, 0),
        b: Vnode::new(alloc, 1),
        follower: Follower::new(alloc, &[0, 1], SIXTEEN, Start::empty(alloc))?,
    };
    pair.rounds(alloc, &key, &content)?;
    expect(pair.has_taken(HANDED_OUT), &HANDED_OUT)
}

/// Starts a vnode again until a block of its journal is full and another one begun.
fn fill(vnode: &mut Vnode) -> Result<(), Fail> {
    for _ in 0..=BLOCK {
        vnode.restart(0)?;
    }
    Ok(())
}

/// A vnode takes over an empty block with memory, and no other one before that one is full.
#[test]
fn empty_blocks_are_taken_over(rt: HostRuntime) -> Result<(), Fail> {
    let alloc = rt.alloc();
    let mut vnode = Vnode::new(alloc, 0);
    let mut next = Vec::with_capacity(alloc, BLOCK)?;
    let _none = vnode.settle(&mut next);
    expect(next.capacity() == 0, &"the first")?;
    next.reserve_exact(BLOCK)?;
    let _none = vnode.settle(&mut next);
    expect(next.capacity() == BLOCK, &"the second, too early")?;
    fill(&mut vnode)?;
    let (handout, _) = vnode.settle(&mut next);
    expect(handout.blocks.len() == 1, &handout.first)?;
    expect(next.capacity() == 0, &"the second")
}
