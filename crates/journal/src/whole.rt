//! Journals of which nothing was handed out.

ghost use Rattle.std.specs.Prelude.{◌≡◌, ◌<◌, ◌≤◌, length, slice_get, MatchOption};
ghost use Rattle.std.specs.Option.{option_copied};
ghost use Rattle.journal.specs.Logs.{max_entries};

use crate::entry::Entry;
use crate::journal::Journal;
use std::marker::Model;

/// A journal whose entries are all here.
#[derive(Drop)]
pub struct Whole<'a> {
    journal: &'a Journal,
}

impl<'a> Model for Whole<'a> {
    ghost use Rattle.std.specs.Prelude.{◌≡◌};
    ghost use Rattle.journal.specs.Logs.{Log};

    ghost Value = { Log };

    ghost view = { λ w. w.journal.now.log };

    ghost invariant = { λ w. w.journal.now.first ≡ 0 };
}

impl Journal {
    /// The journal, where nothing of it was handed out.
    pub fn whole(&self) -> Option<Whole<'_>>
        ensures { MatchOption result (0 < self.now.first) (λ whole. (self.now.first ≡ 0) × (whole ≡ self.now.log)) }
    {
        if self.first() == 0 {
            Some(Whole { journal: self })
        } else {
            None
        }
    }
}

impl<'a> Whole<'a> {
    /// Whose journal it is.
    pub fn vnode(&self) -> u32
        ensures { result ≡ self.now.vnode }
    {
        self.journal.vnode()
    }

    /// How many entries there are.
    pub fn len(&self) -> usize
        ensures len { result ≡ length self.now.entries }
        ensures limit { result ≤ max_entries }
    {
        self.journal.len()
    }

    /// The entry at a place.
    pub fn get(&self, place: u64) -> Option<&Entry>
        ensures { option_copied result ≡ slice_get self.now.entries place }
    {
        self.journal.get(place)
    }
}
