//! The Sigs of a table, without its closures.

ghost use Rattle.std.specs.Prelude.{◌≡◌, List, [], ◌++◌, ◌∷◌, OnOk, OnErr, IfOk, IsTrue, ◌↔◌, Some};
ghost use Rattle.bpf_helpers.specs.declared.sig.Entry.{Entry};
ghost use Rattle.bpf_helpers.specs.Entries.{sig_of};

use crate::sig::{Entry, Sig};
use std::alloc::{AllocError, Global};
use std::marker::Model;

/// The numbers and Sigs of helpers, in the order in which they were added.
#[derive(Drop)]
pub struct Sigs {
    entries: Vec<Entry>,
}

impl Model for Sigs {
    ghost Value = { List Entry };

    ghost view = { λ s. s.entries.items };
}

impl Sigs {
    /// No helper at all.
    pub fn new(alloc: Global) -> Sigs
        ensures { result ≡ [] }
    {
        Sigs {
            entries: Vec::new(alloc),
        }
    }

    /// The Sig of a number, if there is one.
    pub fn sig(&self, number: u32) -> Option<Sig>
        ensures { result ≡ sig_of self.now number }
    {
        find_sig(self.entries.as_slice(), number)
    }

    /// Whether the number has this very Sig.
    pub fn lists(&self, entry: Entry) -> bool
        ensures { IsTrue result ↔ (sig_of self.now entry.number ≡ Some entry.sig) }
    {
        match self.sig(entry.number) {
            Some(sig) => sig == entry.sig,
            None => false,
        }
    }

    /// The numbers and their Sigs.
    pub fn entries(&self) -> &[Entry]
        ensures { result.now ≡ self.now }
    {
        self.entries.as_slice()
    }

    /// Adds a Sig at the end. Refused, the Sigs stay as they were.
    pub(crate) fn push(&mut self, entry: Entry) -> Result<(), AllocError>
        ensures ok { OnOk result (self.new ≡ self.old ++ entry ∷ []) }
        ensures err { OnErr result (self.new ≡ self.old) }
    {
        self.entries.push(entry)?;
        Ok(())
    }

    /// The same Sigs once more.
    pub fn copy(&self, alloc: Global) -> Result<Sigs, AllocError>
        ensures { IfOk result (λ copied. copied ≡ self.now) }
    {
        let entries = self.entries.as_slice().to_vec(alloc)?;
        Ok(Sigs { entries })
    }
}

fn find_sig(entries: &[Entry], number: u32) -> Option<Sig>
    ensures { result ≡ sig_of entries.now number }
{
    for entry in entries {
        if entry.number == number {
            return Some(entry.sig);
        }
    }
    None
}
