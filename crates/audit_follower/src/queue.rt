//! Entries that were taken and wait for their turn.

ghost use Rattle.std.specs.Prelude.{◌≡◌, ◌<◌, ◌^◌, ◌++◌, [], OnOk, OnErr, IfErr, drop, length, slice_get, sum_by};
ghost use Rattle.std.specs.Option.{option_copied};
ghost use Rattle.audit_replay.specs.Sizes.{entry_bytes};

use audit_replay::bytes_of_entry;
use journal::Entry;
use std::alloc::Global;
use std::collections::VecDeque;
use std::marker::Model;

/// Entries of one vnode that wait, the next one first.
#[derive(Drop)]
pub(crate) struct Queue {
    entries: VecDeque<Entry>,
    /// How many bytes their contents have.
    bytes: u128,
}

impl Model for Queue {
    ghost use Rattle.std.specs.Prelude.{List, ◌≡◌, sum_by};
    ghost use Rattle.journal.specs.Entry.{Entry};
    ghost use Rattle.audit_replay.specs.Sizes.{entry_bytes};

    ghost Value = { List Entry };

    ghost view = { λ q. q.entries.items };

    ghost invariant = { λ q. q.bytes ≡ sum_by entry_bytes q.entries.items };
}

// How many bytes the contents of some entries have.
fn bytes_of(entries: &[Entry]) -> u128
    ensures { result ≡ sum_by entry_bytes entries.now }
{
    let mut bytes: u128 = 0;
    for entry in entries {
        bytes += u128::from(bytes_of_entry(entry));
    }
    bytes
}

impl Queue {
    /// None waits.
    pub(crate) fn new(alloc: Global) -> Self
        ensures { result ≡ [] }
    {
        Queue {
            entries: VecDeque::new(alloc),
            bytes: 0,
        }
    }

    /// How many wait.
    pub(crate) fn len(&self) -> usize
        ensures len { result ≡ length self.now }
        ensures limit { result < 2 ^ 63 }
    {
        self.entries.len()
    }

    /// How many bytes the contents have of those that wait.
    pub(crate) fn bytes(&self) -> u128
        ensures { result ≡ sum_by entry_bytes self.now }
    {
        self.bytes
    }

    /// The next one.
    pub(crate) fn first(&self) -> Option<&Entry>
        ensures { option_copied result ≡ slice_get self.now 0 }
    {
        self.entries.front()
    }

    /// These wait, too, behind the others. They are handed back where a growth is refused.
    pub(crate) fn add(&mut self, entries: Vec<Entry>) -> Result<(), Vec<Entry>>
        ensures ok { OnOk result (self.new ≡ self.old ++ entries.items) }
        ensures back { IfErr result (λ back. back.items ≡ entries.items) }
        ensures err { OnErr result (self.new ≡ self.old) }
    {
        let bytes = bytes_of(&entries);
        let mut more = VecDeque::from_vec(entries);
        if self.entries.append(&mut more).is_err() {
            return Err(more.into_vec());
        }
        self.bytes += bytes;
        Ok(())
    }

    /// Takes the next one out: it doesn't wait any longer.
    pub(crate) fn take_first(&mut self) -> Option<Entry>
        ensures first { result ≡ slice_get self.old 0 }
        ensures rest { self.new ≡ drop 1 self.old }
    {
        let first = self.entries.pop_front()?;
        self.bytes -= u128::from(bytes_of_entry(&first));
        Some(first)
    }
}
