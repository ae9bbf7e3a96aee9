//! The keys of a shard.

ghost use Rattle.std.specs.Prelude.{◌≡◌, ◌<◌, ◌≤◌, ◌++◌, ◌∷◌, [], OnOk, OnErr, Some, length, slice_get, slice_index_or, vec_capacity};
ghost use Rattle.vnode.specs.Blocks.{AreBlocks};
ghost use Rattle.vnode.specs.Names.{all_of, keys_in};
ghost use Rattle.vnode.specs.Shards.{key_eq};

use crate::names::{KeyRun, Names, push_copies};
use key_state::Key;
use std::alloc::{AllocError, Global};
use std::marker::Model;
use std::mem;
use std::sync::Arc;

/// How many keys a block holds, or states: few, since a list of a vnode's keys copies those of each shard's last block.
pub(crate) const BLOCK_KEYS: usize = 128;

/// A full block of a vnode's keys, which the vnode shares.
#[derive(Drop)]
pub struct KeyBlock {
    keys: Arc<[Key; BLOCK_KEYS]>,
}

impl KeyBlock {
    /// How many hold the memory of its keys: this, the vnode, and whoever else shares it.
    pub fn owners(&self) -> usize {
        Arc::strong_count(&self.keys)
    }

    /// Whether another block has the same keys in the same order.
    pub fn is_same(&self, other: &KeyBlock) -> bool {
        self.keys.as_slice() == other.keys.as_slice()
    }
}

/// Keys, in the order in which they came. They lie in blocks, and a list of the keys shares those that are full.
#[derive(Drop)]
pub(crate) struct KeyBlocks {
    alloc: Global,
    /// Full blocks.
    full: Vec<Arc<[Key; BLOCK_KEYS]>>,
    /// The block that keys are added to.
    last: Vec<Key>,
    /// How many of the full blocks were compared with another vnode's.
    compared: usize,
}

impl Model for KeyBlocks {
    ghost use Rattle.vnode.specs.Blocks.{AreBlocks, items_of, room_in};
    ghost use Rattle.vnode.specs.Names.{Named, keys_in};

    ghost Value = { Named };

    ghost view = { λ b. record { keys = items_of keys_in b.full.items b.last.items; room = room_in b.last } };

    ghost invariant = { λ b. AreBlocks keys_in b.full.items b.last.items };
}

impl KeyBlocks {
    /// No keys. It takes no memory.
    pub(crate) fn new(alloc: Global) -> KeyBlocks
        ensures { result.keys ≡ [] }
    {
        KeyBlocks {
            alloc,
            full: Vec::new(alloc),
            last: Vec::new(alloc),
            compared: 0,
        }
    }

    /// The key at a place.
    pub(crate) fn get(&self, i: usize) -> &Key
        requires { i < length self.now.keys }
        ensures { slice_get self.now.keys i ≡ Some result.now }
    {
        match self.full.get(i / BLOCK_KEYS) {
            Some(block) => &block[i % BLOCK_KEYS],
            None => &self.last[i % BLOCK_KEYS],
        }
    }

    /// Whether the key at a place is this one.
    pub(crate) fn is_at(&self, i: usize, key: &Key) -> bool
        requires { i < length self.now.keys }
        ensures { result ≡ key_eq (slice_index_or self.now.keys i key.now) key.now }
    {
        self.get(i) == key
    }

    /// Makes room for one more.
    pub(crate) fn reserve(&mut self) -> Result<(), AllocError>
        ensures room { OnOk result (0 < self.new.room) }
        ensures same { self.new.keys ≡ self.old.keys }
    {
        if self.last.len() == BLOCK_KEYS {
            close_block(self.alloc, &mut self.full, &mut self.last)?;
        }
        self.last.try_reserve(1)?;
        Ok(())
    }

    /// Adds a key for which there is room.
    pub(crate) fn append(&mut self, key: Key)
        requires room { 0 < self.old.room }
        ensures { self.new.keys ≡ self.old.keys ++ key ∷ [] }
    {
        let _ = self.last.push(key);
    }

    /// Adds the keys to a list: full blocks are shared.
    pub(crate) fn list(&self, names: &mut Names) -> Result<(), AllocError>
        ensures { OnOk result (names.new.keys ≡ names.old.keys ++ self.now.keys) }
    {
        for block in &self.full {
            names.add(KeyRun::Full(block.clone()?))?;
        }
        if self.last.is_empty() {
            return Ok(());
        }
        let mut last = Vec::with_capacity(self.alloc, self.last.len())?;
        push_copies(&self.last, &mut last)?;
        names.add(KeyRun::Rest(last))
    }

    /// The number of the first full block that wasn't compared with another vnode's.
    pub(crate) fn uncompared(&self) -> Option<usize> {
        (self.compared < self.full.len()).then_some(self.compared)
    }

    /// A full block by its number, shared. None where there is none, or its owners can't be counted further.
    pub(crate) fn block(&self, number: usize) -> Option<KeyBlock> {
        let keys = self.full.get(number)?.clone().ok()?;
        Some(KeyBlock { keys })
    }

    /// Takes the memory of another vnode's block in place of that of its own one of a number, where both have the same
    /// keys in the same order.
    pub(crate) fn share(&mut self, number: usize, other: KeyBlock)
        ensures { self.new ≡ self.old }
    {
        if let Some(block) = self.full.get_mut(number) {
            self.compared = number + 1;
            if block.as_slice() == other.keys.as_slice() {
                *block = other.keys;
            }
        }
    }
}

// Puts the last block, which is full, behind the others, and an empty one in its place.
fn close_block(
    alloc: Global,
    full: &mut Vec<Arc<[Key; BLOCK_KEYS]>>,
    last: &mut Vec<Key>,
) -> Result<(), AllocError>
    requires full { length last.old.items ≡ 128 }
    ensures keys { OnOk result (all_of full.new.items ≡ all_of full.old.items ++ last.old.items) }
    ensures empty { OnOk result (last.new.items ≡ []) }
    ensures blocks { AreBlocks keys_in full.old.items last.old.items → AreBlocks keys_in full.new.items last.new.items }
    ensures err { OnErr result ((full.new.items ≡ full.old.items) × (last.new.items ≡ last.old.items)) }
{
    full.try_reserve(1)?;
    let empty = Vec::with_capacity(alloc, BLOCK_KEYS)?;
    let Ok(keys) = <[Key; BLOCK_KEYS]>::try_from(mem::replace(last, empty)) else {
        unreachable!();
    };
    match Arc::new(alloc, keys) {
        Ok(block) => {
            let _ = full.push(block);
            Ok(())
        }
        Err(failed) => {
            refill(last, failed.value);
            Err(AllocError)
        }
    }
}

// Takes keys, for which there is room.
fn refill(last: &mut Vec<Key>, keys: [Key; BLOCK_KEYS])
    requires { (last.old.items ≡ []) × (128 ≤ vec_capacity last.old) }
    ensures { last.new.items ≡ keys }
{
    for key in keys {
        last.push_reserved(key);
    }
}
