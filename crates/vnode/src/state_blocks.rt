//! The states of a shard.

ghost use Rattle.std.specs.Prelude.{◌≡◌, ◌<◌, ◌++◌, ◌∷◌, [], OnOk, Some, length, slice_get, slice_set};

use crate::key_blocks::BLOCK_KEYS;
use key_state::Stored;
use std::alloc::{AllocError, Global};
use std::marker::Model;
use std::mem;

/// States, in the order in which their keys came. They lie in blocks that stay where they are while more come.
#[derive(Drop)]
pub(crate) struct StateBlocks {
    alloc: Global,
    /// Full blocks.
    full: Vec<Vec<Stored>>,
    /// The block that states are added to.
    last: Vec<Stored>,
}

impl Model for StateBlocks {
    ghost use Rattle.vnode.specs.Blocks.{AreBlocks, items_of, room_in};
    ghost use Rattle.vnode.specs.Stated.{Stated, states_in};

    ghost Value = { Stated };

    ghost view = { λ b. record { states = items_of states_in b.full.items b.last.items; room = room_in b.last } };

    ghost invariant = { λ b. AreBlocks states_in b.full.items b.last.items };
}

impl StateBlocks {
    /// No states. It takes no memory.
    pub(crate) fn new(alloc: Global) -> StateBlocks
        ensures { result.states ≡ [] }
    {
        StateBlocks {
            alloc,
            full: Vec::new(alloc),
            last: Vec::new(alloc),
        }
    }

    /// The state at a place.
    pub(crate) fn get(&self, i: usize) -> &Stored
        requires { i < length self.now.states }
        ensures { slice_get self.now.states i ≡ Some result.now }
    {
        match self.full.get(i / BLOCK_KEYS) {
            Some(block) => &block[i % BLOCK_KEYS],
            None => &self.last[i % BLOCK_KEYS],
        }
    }

    /// Writes another state at a place.
    pub(crate) fn set(&mut self, i: usize, state: Stored)
        requires { i < length self.old.states }
        ensures { self.new.states ≡ slice_set self.old.states i state }
    {
        match self.full.get_mut(i / BLOCK_KEYS) {
            Some(block) => block[i % BLOCK_KEYS] = state,
            None => self.last[i % BLOCK_KEYS] = state,
        }
    }

    /// Makes room for one more.
    pub(crate) fn reserve(&mut self) -> Result<(), AllocError>
        ensures room { OnOk result (0 < self.new.room) }
        ensures same { self.new.states ≡ self.old.states }
    {
        if self.last.len() == BLOCK_KEYS {
            self.full.try_reserve(1)?;
            let empty = Vec::with_capacity(self.alloc, BLOCK_KEYS)?;
            let _ = self.full.push(mem::replace(&mut self.last, empty));
        }
        self.last.try_reserve(1)?;
        Ok(())
    }

    /// Adds a state for which there is room.
    pub(crate) fn append(&mut self, state: Stored)
        requires room { 0 < self.old.room }
        ensures { self.new.states ≡ self.old.states ++ state ∷ [] }
    {
        let _ = self.last.push(state);
    }
}
