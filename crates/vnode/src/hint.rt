//! What is remembered of a key that is looked up several times.

ghost use Rattle.std.specs.Prelude.{◌<◌, IfSome};

use crate::spot::Spot;
use std::marker::Model;

/// The hash of a key, as who looks it up at several vnodes of one seed remembers it, and the place at which one of them has it: vnodes that
/// hear of the same keys in the same order have each at the same place. A look-up begins by what is remembered. Contracts don't see it: by
/// the hash or the place of another key, or by another seed, the same is found, later.
#[derive(Drop)]
pub struct Hint {
    hash: Option<u64>,
    /// The place in its shard.
    place: Option<usize>,
}

impl Model for Hint {
    ghost Value = { Unit {0} };

    ghost view = { λ _. tt };
}

impl Hint {
    /// Nothing is remembered.
    pub fn none() -> Hint {
        Hint {
            hash: None,
            place: None,
        }
    }

    /// This is the hash.
    pub(crate) fn of(hash: u64) -> Hint {
        Hint {
            hash: Some(hash),
            place: None,
        }
    }

    /// The same.
    pub fn copy(&self) -> Hint {
        Hint {
            hash: self.hash,
            place: self.place,
        }
    }

    /// One of so many vnodes, the same for all keys of a shard: who keeps something of each key at one of them alone has it there for whole
    /// shards, and nothing of those keys at the others. None where no hash is remembered.
    pub fn one_of(&self, vnodes: usize) -> Option<usize>
        ensures { IfSome result (λ vnode. vnode < vnodes) }
    {
        Spot::of(self.hash?).shard.checked_rem(vnodes)
    }

    /// The hash, if one is remembered.
    pub(crate) fn hash(&self) -> Option<u64> {
        self.hash
    }

    /// The place in its shard, if one is remembered.
    pub(crate) fn place(&self) -> Option<usize> {
        self.place
    }

    /// One vnode has the key at that place of its shard.
    pub(crate) fn note(&mut self, place: usize) {
        self.place = Some(place);
    }
}
