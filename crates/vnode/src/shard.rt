//! The states of some of a vnode's keys.

ghost use Rattle.std.specs.Prelude.{◌≡◌, ◌<◌, ◌++◌, ◌∷◌, [], IfSome, IfNone, None, Some, IsTrue, OnOk, OnErr, length, slice_get, slice_set};
ghost use Rattle.key_state.specs.declared.content.Key.{Key};
ghost use Rattle.key_state.specs.State.{State};
ghost use Rattle.ring.specs.Places.{ring_place};
ghost use Rattle.vnode.specs.Shards.{IsEntry, IsUnique, LacksHashed, found_in, known_keys};

use crate::key_blocks::{KeyBlock, KeyBlocks};
use crate::names::Names;
use crate::ring_places::RingPlaces;
use crate::state_blocks::StateBlocks;
use key_state::{Key, Stored};
use std::alloc::{AllocError, Global};
use std::marker::Model;
use vnode_index::{Fingerprint, Index};

/// The states of some of the keys, each found by its key's hash: the item at a place of the index is the key, and the state, at that
/// place. Contracts see it as its entries, in the order in which they came, and their hashes.
#[derive(Drop)]
pub(crate) struct Shard {
    index: Index,
    keys: KeyBlocks,
    states: StateBlocks,
    ring_places: RingPlaces,
    /// With how many slots the index begins.
    slots: usize,
}

impl Model for Shard {
    ghost use Rattle.std.specs.List.{zip};
    ghost use Rattle.vnode.specs.RingPlaces.{AreOf};
    ghost use Rattle.vnode.specs.Shards.{AreEntries, Shard};

    ghost Value = { Shard };

    ghost view = { λ s. record { hashes = s.index.hashes; entries = zip s.keys.keys s.states.states } };

    ghost invariant = { λ s. AreEntries s.index.hashes s.keys.keys s.states.states × AreOf s.ring_places s.keys.keys };
}

impl Shard {
    /// A shard without entries, whose index will begin with so many slots. It takes no memory.
    pub(crate) fn new(alloc: Global, slots: usize) -> Shard
        ensures { result ≡ record { hashes = []; entries = [] } }
    {
        Shard {
            index: Index::new(alloc),
            keys: KeyBlocks::new(alloc),
            states: StateBlocks::new(alloc),
            ring_places: RingPlaces::new(alloc),
            slots,
        }
    }

    /// How many entries it has.
    pub(crate) fn len(&self) -> usize
        ensures { result ≡ length self.now.entries }
    {
        self.index.len()
    }

    /// The place of the entry of a key, which has this hash. Where it likely lies is looked at first.
    pub(crate) fn find(&self, likely: Option<usize>, hash: Fingerprint, key: &Key) -> Option<usize>
        ensures found { IfSome result (λ i. (v : State) × IsEntry self.now i key.now v) }
        ensures absent { IfNone result (LacksHashed self.now hash key.now) }
    {
        if let Some(i) = likely {
            if self.is_at(i, key) {
                return likely;
            }
        }
        self.search(hash, key)
    }

    // Whether the entry of a key lies at a place.
    fn is_at(&self, i: usize, key: &Key) -> bool
        ensures { IsTrue result → (v : State) × IsEntry self.now i key.now v }
    {
        i < self.index.len() && self.keys.is_at(i, key)
    }

    // The place of the entry of a key, by the index.
    fn search(&self, hash: Fingerprint, key: &Key) -> Option<usize>
        ensures found { IfSome result (λ i. (v : State) × IsEntry self.now i key.now v) }
        ensures absent { IfNone result (LacksHashed self.now hash key.now) }
    {
        let keys = &self.keys;
        self.index.find(hash, |i| keys.is_at(i, key))
    }

    /// The entry at a place.
    pub(crate) fn entry(&self, i: usize) -> (&Key, &Stored)
        requires { i < length self.now.entries }
        ensures { slice_get self.now.entries i ≡ Some (result.0.now, result.1.now) }
    {
        (self.keys.get(i), self.states.get(i))
    }

    /// Writes another state at a place.
    pub(crate) fn set(&mut self, i: usize, state: Stored)
        requires { i < length self.old.entries }
        ensures entries { (k : Key) (v : State) → slice_get self.old.entries i ≡ Some (k, v) → self.new.entries ≡ slice_set self.old.entries i (k, state) }
        ensures hashes { self.new.hashes ≡ self.old.hashes }
        ensures unique { IsUnique self.new }
    {
        self.states.set(i, state);
    }

    /// Adds the entry of a key that has none, by the key's hash. Where memory is refused nothing changes.
    pub(crate) fn push(
        &mut self,
        hash: Fingerprint,
        key: Key,
        state: Stored,
    ) -> Result<(), AllocError>
        requires { found_in (Some self.old) key ≡ None }
        ensures entries { OnOk result (self.new.entries ≡ self.old.entries ++ (key, state) ∷ []) }
        ensures hashes { OnOk result (self.new.hashes ≡ self.old.hashes ++ hash ∷ []) }
        ensures unique { IsUnique self.new }
        ensures err { OnErr result (self.new ≡ self.old) }
    {
        self.index.reserve(self.slots)?;
        self.keys.reserve()?;
        self.states.reserve()?;
        self.index.push(hash);
        self.keys.append(key);
        self.states.append(state);
        Ok(())
    }

    /// The place on a ring of three vnodes of the key of an entry, where it was told.
    pub(crate) fn ring_place(&self, i: usize) -> Option<u32>
        ensures { IfSome result (λ told. (k : Key) (v : State) → slice_get self.now.entries i ≡ Some (k, v) → told ≡ ring_place k.bucket k.key) }
    {
        self.ring_places.get(i)
    }

    /// Keeps that place, if there is memory.
    pub(crate) fn learn_ring_place(&mut self, i: usize, told: u32)
        requires within { i < length self.old.entries }
        requires place { (k : Key) (v : State) → slice_get self.old.entries i ≡ Some (k, v) → told ≡ ring_place k.bucket k.key }
        ensures { self.new ≡ self.old }
    {
        let count = self.len();
        self.ring_places.learn(i, count, told);
    }

    /// Adds the keys to a list of the vnode's.
    pub(crate) fn list_keys(&self, names: &mut Names) -> Result<(), AllocError>
        ensures { OnOk result (names.new.keys ≡ names.old.keys ++ known_keys self.now.entries) }
    {
        self.keys.list(names)
    }

    /// The number of the first full block of its keys that wasn't compared with another vnode's.
    pub(crate) fn uncompared(&self) -> Option<usize> {
        self.keys.uncompared()
    }

    /// A full block of its keys by its number, shared.
    pub(crate) fn key_block(&self, number: usize) -> Option<KeyBlock> {
        self.keys.block(number)
    }

    /// Takes the memory of another vnode's block of keys in place of that of its own one of a number, where both are the same.
    pub(crate) fn share_keys(&mut self, number: usize, block: KeyBlock)
        ensures { self.new ≡ self.old }
    {
        self.keys.share(number, block);
    }
}
