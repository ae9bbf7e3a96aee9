//! What is kept of entries, by their places in a vnode's journal: it tells what reads answered.

ghost use Rattle.std.specs.Prelude.{◌≡◌, ◌++◌, ◌∷◌, [], ◌+◌, ◌-◌, ◌^◌, ◌<◌, ◌≤◌, OnOk, MatchBool, drop, length, min};
ghost use Rattle.std.specs.Option.{option_copied};
ghost use Rattle.journal.specs.Logs.{max_entries};
ghost use Rattle.audit_replay.specs.Kept.{IsFound, IsLeft, IsMore, first_was, kept_bytes, was_before};

use key_state::{Key, Shared};
use std::alloc::{AllocError, Global};
use std::collections::VecDeque;
use std::marker::Model;

/// What is kept of an entry that has happened again. What a read answered is the state before the first entry behind it that changes its
/// key, or, where none does, the one that is there now: so of a read its key is enough.
#[derive(Drop)]
pub(crate) enum Kept {
    /// A read's key.
    Read(Key),
    /// The key of a put or of a merge, and the state that was there before.
    Was(Key, Shared),
    /// It was a restart, or one of a front.
    Other,
    /// No longer anything.
    GivenUp,
}

impl Kept {
    // The bytes of the contents that are kept.
    fn bytes(&self) -> u64
        ensures { result ≡ kept_bytes self.now }
    {
        match self {
            Kept::Was(_, state) => state.bytes(),
            Kept::Read(_) | Kept::Other | Kept::GivenUp => 0,
        }
    }

    // The state that was at a key before, where the entry changed it.
    fn was_at(&self, key: &Key) -> Option<&Shared>
        ensures { option_copied result ≡ was_before self.now key.now }
    {
        match self {
            Kept::Was(own, state) => { if own == key { Some(state) } else { None } }
            Kept::Read(_) | Kept::Other | Kept::GivenUp => None,
        }
    }
}

/// Of how many of the last entries that have happened at a vnode it is kept what tells what they answered: of the longest end of them that
/// has at most so many entries, and replaced states of at most so many bytes, or of the last ones that are always kept, where these are
/// more.
#[derive(Clone, Copy, Debug, PartialEq, Eq, Drop)]
pub struct Recent {
    /// Of so many all is kept, whatever they hold.
    pub always: usize,
    /// The most entries.
    pub entries: usize,
    /// The most bytes: of the values in the states that puts and merges replaced, and of their media types, each as often as it is in one.
    pub bytes: u64,
}

/// What is kept at a place.
pub(crate) enum Found<'a> {
    /// No read.
    Nothing,
    /// No longer anything.
    GivenUp,
    /// A read's key.
    Read(&'a Key),
}

// Whether so many entries, of which so many bytes are kept, are more than is kept.
fn is_over(recent: Recent, entries: usize, bytes: u128) -> bool
    ensures { MatchBool result (IsMore recent entries bytes) (IsMore recent entries bytes → ⊥) }
{
    entries > recent.always && (entries > recent.entries || bytes > u128::from(recent.bytes))
}

/// What is kept of a vnode's entries, by their places. It was given up of those before the first that is here.
#[derive(Drop)]
pub(crate) struct Answers {
    first: usize,
    here: VecDeque<Kept>,
    /// How many bytes are here.
    bytes: u128,
}

impl Model for Answers {
    ghost use Rattle.std.specs.Prelude.{List, ◌≡◌, ◌++◌, replicate, sum_by};
    ghost use Rattle.audit_replay.specs.Kept.{kept_bytes};
    ghost use Rattle.audit_replay.specs.declared.kept.Kept.{Kept};
    ghost use Rattle.audit_replay.specs.declared.kept.Kept.TheVariants.{GivenUp};

    ghost Value = { List Kept };

    ghost view = { λ a. replicate a.first GivenUp ++ a.here.items };

    ghost invariant = { λ a. a.bytes ≡ sum_by kept_bytes a.here.items };
}

// The index of the entry behind a place, where that of the first place has index 0. No place is behind the greatest.
fn index_behind(place: u64, first: usize) -> usize
    ensures { result ≡ min (place + 1 - first) (2 ^ 64 - 1) }
{
    let place = place as usize;
    if place < first {
        return 0;
    }
    (place - first).saturating_add(1)
}

impl Answers {
    /// No entry.
    pub(crate) fn new(alloc: Global) -> Self
        ensures { result ≡ [] }
    {
        Answers {
            first: 0,
            here: VecDeque::new(alloc),
            bytes: 0,
        }
    }

    /// One entry more. What is no longer recent is given up.
    pub(crate) fn keep(&mut self, kept: Kept, recent: Recent) -> Result<(), AllocError>
        requires few { length self.old < max_entries }
        ensures { OnOk result (IsLeft recent (self.old ++ kept ∷ []) self.new) }
    {
        let bytes = u128::from(kept.bytes());
        self.here.push_back(kept)?;
        self.bytes += bytes;
        self.give_up(recent);
        Ok(())
    }

    // What is no longer recent is given up.
    fn give_up(&mut self, recent: Recent)
        requires few { length self.old ≤ max_entries }
        ensures { IsLeft recent self.old self.new }
    {
        while is_over(recent, self.here.len(), self.bytes) {
            let Some(first) = self.here.pop_front() else {
                unreachable!();
            };
            self.bytes -= u128::from(first.bytes());
            self.first += 1;
        }
    }

    /// What is kept at a place.
    pub(crate) fn at(&self, place: u64) -> Found<'_>
        ensures { IsFound self.now place result }
    {
        let place = place as usize;
        if place < self.first {
            return Found::GivenUp;
        }
        match self.here.get(place - self.first) {
            Some(Kept::Read(key)) => Found::Read(key),
            Some(Kept::GivenUp) => Found::GivenUp,
            Some(Kept::Was(..) | Kept::Other) | None => Found::Nothing,
        }
    }

    /// The state that was at a key before the first entry behind a place that changes it, of those that are here.
    pub(crate) fn first_was(&self, place: u64, key: &Key) -> Option<&Shared>
        ensures { option_copied result ≡ first_was (drop (place + 1) self.now) key.now }
    {
        for index in index_behind(place, self.first)..self.here.len() {
            if let Some(state) = self.here[index].was_at(key) {
                return Some(state);
            }
        }
        None
    }
}
