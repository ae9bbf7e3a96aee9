//! A list of entries that only grows.

ghost use Rattle.std.specs.Prelude.{◌≡◌, ◌+◌, ◌≤◌, ◌<◌, ◌↔◌, OnOk, OnErr, IfOk, [], length, Err, IsTrue, None, false, slice_get, drop, ◌++◌};
ghost use Rattle.std.specs.Option.{option_copied};
ghost use Rattle.journal.specs.Blocks.{all_of, AreHandedOut};

use crate::blocks::Blocks;
use crate::entry::Entry;
use crate::front::{Front, Handout, hand_out};
use std::alloc::{AllocError, Global};
use std::marker::Model;
use thiserror::Error;

/// The most entries of a journal: at a million a second it takes 146,000 years to fill.
const MAX_LENGTH: usize = 1 << 62;

/// Why an entry is not added, the first in this order.
#[derive(Clone, Copy, Debug, PartialEq, Eq, Error)]
pub enum JournalFault {
    /// There are 2^62 entries.
    #[error("J1")]
    Full,
    /// A growth was refused.
    #[error("E1")]
    NoMemory,
}

impl From<AllocError> for JournalFault {
    ghost use Rattle.std.specs.Prelude.{◌≡◌};
    ghost use Rattle.journal.specs.declared.journal.JournalFault.TheVariants.{NoMemory};

    ghost from_gives = { λ _ fault. fault ≡ NoMemory };

    fn from(_error: AllocError) -> Self {
        JournalFault::NoMemory
    }
}

/// The entries of one vnode, oldest first. Their places count from 0. Those before the first that is here were handed out: they
/// stand in the journal as before, and take no memory there.
#[derive(Drop)]
pub struct Journal {
    vnode: u32,
    front: Front,
    first: usize,
    here: Blocks,
}

impl Model for Journal {
    ghost use Rattle.std.specs.Prelude.{◌≡◌, ◌+◌, ◌≤◌, ◌++◌, length};
    ghost use Rattle.journal.specs.Logs.{RoomyLog, max_entries};
    ghost use Rattle.journal.specs.Fronts.{front_of};

    ghost Value = { RoomyLog };

    ghost view = { λ j. record { log = record { vnode = j.vnode; entries = front_of j.front ++ j.here.entries }; first = j.first; room = j.here.room } };

    ghost invariant = { λ j. (j.first ≡ length (front_of j.front)) × (j.first + length j.here.entries ≤ max_entries) };
}

impl Journal {
    ghost use Rattle.journal.specs.Logs.{max_entries, with_entry, with_entries};
    ghost use Rattle.journal.specs.Limits.{TakesEntry, IsFull};

    /// No entry.
    pub fn new(alloc: Global, vnode: u32) -> Self
        ensures log { result.log ≡ record { vnode = vnode; entries = [] } }
        ensures first { result.first ≡ 0 }
    {
        Journal {
            vnode,
            front: None,
            first: 0,
            here: Blocks::new(alloc),
        }
    }

    /// Whose journal it is.
    pub fn vnode(&self) -> u32
        ensures { result ≡ self.now.log.vnode }
    {
        self.vnode
    }

    /// How many entries there are, those that were handed out too.
    pub fn len(&self) -> usize
        ensures len { result ≡ length self.now.log.entries }
        ensures limit { result ≤ max_entries }
    {
        self.first + self.here.len()
    }

    /// The place of the first entry that is here: so many were handed out.
    pub fn first(&self) -> usize
        ensures first { result ≡ self.now.first }
        ensures within { result ≤ length self.now.log.entries }
    {
        self.first
    }

    /// Whether there is no entry.
    pub fn is_empty(&self) -> bool
        ensures { IsTrue result ↔ (self.now.log.entries ≡ []) }
    {
        self.len() == 0
    }

    /// Whether no entry can be added.
    pub fn is_full(&self) -> bool
        ensures full { IsTrue result ↔ IsFull self.now.log.entries }
        ensures room { result ≡ false → TakesEntry self.now.log.entries }
    {
        self.len() == MAX_LENGTH
    }

    /// Whether so many entries more can be added.
    pub fn has_places(&self, count: usize) -> bool
        ensures { IsTrue result ↔ (length self.now.log.entries + count ≤ max_entries) }
    {
        count <= MAX_LENGTH - self.len()
    }

    /// The entry at a place. None where it was handed out, or there is none yet.
    pub fn get(&self, place: u64) -> Option<&Entry>
        ensures here { self.now.first ≤ place → option_copied result ≡ slice_get self.now.log.entries place }
        ensures gone { place < self.now.first → result ≡ None }
    {
        let place = place as usize;
        if place < self.first {
            return None;
        }
        self.here.get(place - self.first)
    }

    /// Hands out the full blocks that are here. The journal has their entries as before; what is left here is at most one block. An empty
    /// block with memory is taken over where there is none, so that the next time that one is full no memory is asked for.
    pub fn settle(&mut self, next: &mut Vec<Entry>) -> Handout
        requires empty { next.old.items ≡ [] }
        ensures empty { next.new.items ≡ [] }
        ensures same { self.new.log ≡ self.old.log }
        ensures first { result.first ≡ self.old.first }
        ensures next { self.new.first ≡ self.old.first + length (all_of result.blocks.items) }
        ensures rest { length self.old.log.entries ≤ self.new.first + 1024 }
        ensures entries { drop self.old.first self.old.log.entries ≡ all_of result.blocks.items ++ drop self.new.first self.old.log.entries }
        ensures out { AreHandedOut self.old.log.entries result.first result.blocks.items }
    {
        let first = self.first;
        let count = self.here.len();
        let blocks = self.here.take_closed(next);
        self.first += count - self.here.len();
        let (front, blocks) = hand_out(self.front.take(), blocks);
        self.front = front;
        Handout { first, blocks }
    }

    /// Makes room for one more entry.
    pub fn reserve(&mut self) -> Result<(), JournalFault>
        ensures room { OnOk result (0 < self.new.room) }
        ensures below { OnOk result (TakesEntry self.new.log.entries) }
        ensures full { result ≡ Err JournalFault.Full ↔ IsFull self.old.log.entries }
        ensures memory { result ≡ Err JournalFault.NoMemory → TakesEntry self.old.log.entries }
        ensures grown { result ≡ Err JournalFault.NoMemory → self.old.room ≡ 0 }
        ensures same { self.new.log ≡ self.old.log }
        ensures first { self.new.first ≡ self.old.first }
    {
        if self.is_full() {
            return Err(JournalFault::Full);
        }
        Ok(self.here.reserve()?)
    }

    /// Adds an entry for which there is room, and answers its place.
    pub fn append(&mut self, entry: Entry) -> u64
        requires room { 0 < self.old.room }
        requires below { TakesEntry self.old.log.entries }
        ensures place { result ≡ length self.old.log.entries }
        ensures entry { self.new.log ≡ with_entry self.old.log entry }
        ensures first { self.new.first ≡ self.old.first }
    {
        let place = self.len() as u64;
        self.here.append(entry);
        place
    }

    /// Adds an entry, and answers its place. A refusal leaves the journal as it was and drops the entry: who would keep it calls
    /// [`reserve`](Journal::reserve) first, and then [`append`](Journal::append).
    pub fn push(&mut self, entry: Entry) -> Result<u64, JournalFault>
        ensures place { IfOk result (λ place. place ≡ length self.old.log.entries) }
        ensures entry { OnOk result (self.new.log ≡ with_entry self.old.log entry) }
        ensures full { result ≡ Err JournalFault.Full ↔ IsFull self.old.log.entries }
        ensures memory { result ≡ Err JournalFault.NoMemory → TakesEntry self.old.log.entries }
        ensures grown { result ≡ Err JournalFault.NoMemory → self.old.room ≡ 0 }
        ensures err { OnErr result (self.new.log ≡ self.old.log) }
        ensures first { self.new.first ≡ self.old.first }
    {
        self.reserve()?;
        Ok(self.append(entry))
    }

    /// Adds entries in their order, or none of them where one is refused.
    pub fn extend(&mut self, entries: Vec<Entry>) -> Result<(), JournalFault>
        ensures entries { OnOk result (self.new.log ≡ with_entries self.old.log entries.items) }
        ensures full { result ≡ Err JournalFault.Full ↔ (max_entries < length self.old.log.entries + length entries.items) }
        ensures err { OnErr result (self.new.log ≡ self.old.log) }
        ensures first { self.new.first ≡ self.old.first }
    {
        if !self.has_places(entries.len()) {
            return Err(JournalFault::Full);
        }
        Ok(self.here.extend(entries)?)
    }
}
