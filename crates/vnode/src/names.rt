//! The keys of a vnode, as it lists them.

ghost use Rattle.std.specs.Prelude.{◌≡◌, ◌-◌, ◌^◌, ◌++◌, [], OnOk, IfOk, length, min};
ghost use Rattle.vnode.specs.Names.{run_keys};

use crate::key_blocks::BLOCK_KEYS;
use key_state::Key;
use std::alloc::{AllocError, Global};
use std::marker::Model;
use std::sync::Arc;

/// Some of the keys of a vnode, as a list of them has them.
#[derive(Drop)]
pub(crate) enum KeyRun {
    /// A full block, which the vnode keeps, too.
    Full(Arc<[Key; BLOCK_KEYS]>),
    /// Copies of those behind the full blocks.
    Rest(Vec<Key>),
}

impl KeyRun {
    fn keys(&self) -> &[Key]
        ensures { result.now ≡ run_keys self.now }
    {
        match self {
            KeyRun::Full(block) => block.as_slice(),
            KeyRun::Rest(keys) => keys.as_slice(),
        }
    }
}

/// The keys of a vnode, in any order. They lie in blocks, most of which the vnode keeps, too: so it takes next to no time to list them,
/// however many there are, since few of their names are fetched from far memory.
#[derive(Drop)]
pub struct Names {
    alloc: Global,
    runs: Vec<KeyRun>,
}

impl Model for Names {
    ghost use Rattle.vnode.specs.Names.{Listed, all_keys};

    ghost Value = { Listed };

    ghost view = { λ n. record { keys = all_keys n.runs.items } };
}

impl Names {
    /// No keys.
    pub(crate) fn new(alloc: Global) -> Names
        ensures { result.keys ≡ [] }
    {
        Names {
            alloc,
            runs: Vec::new(alloc),
        }
    }

    /// Adds some.
    pub(crate) fn add(&mut self, run: KeyRun) -> Result<(), AllocError>
        ensures { OnOk result (self.new.keys ≡ self.old.keys ++ run_keys run) }
    {
        self.runs.push(run)?;
        Ok(())
    }

    // How many keys there are, as far as a number reaches.
    fn len(&self) -> usize
        ensures { result ≡ min (length self.now.keys) (2 ^ 64 - 1) }
    {
        let mut count: usize = 0;
        for run in &self.runs {
            count = count.saturating_add(run.keys().len());
        }
        count
    }

    /// Copies of the keys, in the order in which the vnode lists them: shard by shard, by which of 32 its seed puts a key into.
    pub fn copies(&self) -> Result<Vec<Key>, AllocError>
        ensures { IfOk result (λ copies. copies.items ≡ self.now.keys) }
    {
        let mut keys = Vec::with_capacity(self.alloc, self.len())?;
        for run in &self.runs {
            push_copies(run.keys(), &mut keys)?;
        }
        Ok(keys)
    }
}

/// Adds copies of keys.
pub(crate) fn push_copies(some: &[Key], keys: &mut Vec<Key>) -> Result<(), AllocError>
    ensures { OnOk result (keys.new.items ≡ keys.old.items ++ some.now) }
{
    for key in some {
        keys.push(key.copy()?)?;
    }
    Ok(())
}
