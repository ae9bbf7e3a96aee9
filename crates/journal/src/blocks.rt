//! Entries in blocks.

ghost use Rattle.std.specs.Prelude.{◌≡◌, ◌≤◌, ◌<◌, ◌++◌, ◌∷◌, [], OnOk, OnErr, List, All, length, slice_get, take, ◌+◌};
ghost use Rattle.std.specs.Option.{option_copied};
ghost use Rattle.journal.specs.Blocks.{all_of, IsFullBlock};

use crate::entry::Entry;
use std::alloc::{AllocError, Global};
use std::marker::Model;
use std::mem;

/// How many entries a block holds. A block that is full is never copied again.
pub const BLOCK: usize = 1024;

/// Entries, oldest first. They lie in blocks, so that a growth copies one block at most, and full blocks can be handed out.
#[derive(Drop)]
pub(crate) struct Blocks {
    alloc: Global,
    /// Full blocks.
    closed: Vec<Vec<Entry>>,
    /// The block that entries are added to.
    last: Vec<Entry>,
    /// An empty block, which comes behind the last one. It may have no memory yet.
    next: Vec<Entry>,
}

impl Model for Blocks {
    ghost use Rattle.std.specs.Prelude.{◌≡◌, ◌≤◌, [], length, vec_len, vec_capacity};
    ghost use Rattle.journal.specs.Logs.{max_entries};
    ghost use Rattle.journal.specs.Blocks.{in_blocks, room_in, AreBlocks, Held};

    ghost Value = { Held };

    ghost view = { λ b. record { entries = in_blocks b.closed.items b.last.items; room = room_in (vec_capacity b.last) (vec_len b.last) } };

    ghost invariant = { λ b. AreBlocks b.closed.items b.last.items × (b.next.items ≡ []) × (length (in_blocks b.closed.items b.last.items) ≤ max_entries) };
}

impl Blocks {
    ghost use Rattle.journal.specs.Logs.{max_entries};

    /// No entry.
    pub(crate) fn new(alloc: Global) -> Self
        ensures { result.entries ≡ [] }
    {
        Blocks {
            alloc,
            closed: Vec::new(alloc),
            last: Vec::new(alloc),
            next: Vec::new(alloc),
        }
    }

    /// How many there are.
    pub(crate) fn len(&self) -> usize
        ensures len { result ≡ length self.now.entries }
        ensures limit { result ≤ max_entries }
    {
        self.closed.len() * BLOCK + self.last.len()
    }

    /// The entry at an index.
    pub(crate) fn get(&self, index: usize) -> Option<&Entry>
        ensures { option_copied result ≡ slice_get self.now.entries index }
    {
        match self.closed.get(index / BLOCK) {
            Some(block) => entry_at(block, index % BLOCK),
            None => entry_at(&self.last, index - self.closed.len() * BLOCK),
        }
    }

    /// Makes room for one more.
    pub(crate) fn reserve(&mut self) -> Result<(), AllocError>
        ensures room { OnOk result (0 < self.new.room) }
        ensures grown { OnErr result (self.old.room ≡ 0) }
        ensures same { self.new.entries ≡ self.old.entries }
    {
        if self.last.len() == BLOCK {
            close_block(self.alloc, &mut self.closed, &mut self.last, &mut self.next)?;
        }
        self.last.try_reserve(1)?;
        Ok(())
    }

    /// Adds an entry for which there is room.
    pub(crate) fn append(&mut self, entry: Entry)
        requires room { 0 < self.old.room }
        requires below { length self.old.entries < max_entries }
        ensures { self.new.entries ≡ self.old.entries ++ entry ∷ [] }
    {
        let _ = self.last.push(entry);
    }

    /// Adds these entries in their order, or none of them.
    pub(crate) fn extend(&mut self, entries: Vec<Entry>) -> Result<(), AllocError>
        requires below { length self.old.entries + length entries.items ≤ max_entries }
        ensures entries { OnOk result (self.new.entries ≡ self.old.entries ++ entries.items) }
        ensures err { OnErr result (self.new.entries ≡ self.old.entries) }
    {
        let count = self.len();
        let added = self.add_each(entries);
        if added.is_err() {
            self.truncate(count);
        }
        added
    }

    // Adds entries as far as there is memory.
    fn add_each(&mut self, entries: Vec<Entry>) -> Result<(), AllocError>
        requires below { length self.old.entries + length entries.items ≤ max_entries }
        ensures entries { OnOk result (self.new.entries ≡ self.old.entries ++ entries.items) }
        ensures front { take (length self.old.entries) self.new.entries ≡ self.old.entries }
    {
        for entry in entries {
            self.reserve()?;
            self.append(entry);
        }
        Ok(())
    }

    // Keeps the first so many entries.
    fn truncate(&mut self, count: usize)
        ensures { self.new.entries ≡ take count self.old.entries }
    {
        let full = count / BLOCK;
        if full >= self.closed.len() {
            self.last.truncate(count - self.closed.len() * BLOCK);
            return;
        }
        mem::swap(&mut self.closed[full], &mut self.last);
        self.closed.truncate(full);
        self.last.truncate(count % BLOCK);
    }

    /// Takes the full blocks out, and takes over an empty one with memory, where it has none.
    pub(crate) fn take_closed(&mut self, next: &mut Vec<Entry>) -> Vec<Vec<Entry>>
        requires { next.old.items ≡ [] }
        ensures next { next.new.items ≡ [] }
        ensures entries { all_of result.items ++ self.new.entries ≡ self.old.entries }
        ensures full { All IsFullBlock result.items }
        ensures rest { length self.new.entries ≤ 1024 }
    {
        if self.next.capacity() == 0 {
            mem::swap(&mut self.next, next);
        }
        mem::replace(&mut self.closed, Vec::new(self.alloc))
    }
}

// The entry at an index of a block.
fn entry_at(block: &[Entry], index: usize) -> Option<&Entry>
    ensures { option_copied result ≡ slice_get block.now index }
{
    block.get(index)
}

// Puts the last block behind the closed ones, and the next one, which is empty, in its place.
fn close_block(
    alloc: Global,
    closed: &mut Vec<Vec<Entry>>,
    last: &mut Vec<Entry>,
    next: &mut Vec<Entry>,
) -> Result<(), AllocError>
    requires { next.old.items ≡ [] }
    ensures closed { OnOk result (closed.new.items ≡ closed.old.items ++ last.old ∷ []) }
    ensures empty { OnOk result (last.new.items ≡ []) }
    ensures next { next.new.items ≡ [] }
    ensures err { OnErr result ((closed.new.items ≡ closed.old.items) × (last.new ≡ last.old)) }
{
    closed.try_reserve(1)?;
    next.reserve_exact(BLOCK)?;
    let empty = mem::replace(next, Vec::new(alloc));
    let full = mem::replace(last, empty);
    let _ = closed.push(full);
    Ok(())
}
