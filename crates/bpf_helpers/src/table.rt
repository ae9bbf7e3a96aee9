//! The table of helpers.

ghost use Rattle.std.specs.List.{Any, Contains};
ghost use Rattle.std.specs.Prelude.{◌≡◌, ◌↔◌, ℕ, List, [], ◌∷◌, ◌++◌, map, length, get_or, count_by, is_some, OnOk, OnErr, IfOk, IfErr, IfSome, IfNone, Some, None, Option, IsTrue};
ghost use Rattle.bpf_helpers.specs.declared.sig.Sig.{Sig};
ghost use Rattle.bpf_helpers.specs.declared.sig.Entry.{Entry};
ghost use Rattle.bpf_helpers.specs.Answers.{Given, Fits, HelperAnswers};
ghost use Rattle.bpf_helpers.specs.Parts.{given};
ghost use Rattle.bpf_helpers.specs.Closures.{MayAnswer};
ghost use Rattle.bpf_helpers.specs.Entries.{sig_of, place_of, AgreesWith, IsAdmitted, Refuses};

use crate::helper::{Body, Call, Closures, Helper};
use crate::sig::{Entry, Sig, is_helper_number};
use crate::sigs::Sigs;
use crate::written::is_as_written;
use std::alloc::{AllocError, Global};
use thiserror::Error;

/// Why a helper is not added. It shows its number.
#[derive(Clone, Copy, Debug, PartialEq, Eq, Error)]
pub enum HelperFault {
    /// The number is taken.
    #[error("H1")]
    Taken,
    /// The number is neither one of 16 to 19 nor one of 64 to 127.
    #[error("H2")]
    Number,
    /// The Sig of a number from 16 to 19 is not the written one.
    #[error("H3")]
    Signature,
    /// A growth was refused.
    #[error("E1")]
    NoMemory,
}

/// One more than the greatest number of a helper.
const NUMBERS: usize = 128;

/// The helpers that a program may call.
#[derive(Drop)]
pub struct Table {
    /// Their numbers and Sigs, in the order in which they were added.
    pub listed: Sigs,
    helpers: Vec<Helper>,
    // By number, where its helper stands.
    places: [Option<u8>; NUMBERS],
    // No number stands twice.
    pub ghost whole: { AgreesWith listed listed },
    ghost paired: { map {B = Entry} (λ h. record { number = h.number; sig = h.sig }) helpers.items ≡ listed },
    ghost indexed: { (number : ℕ) → get_or places number None ≡ place_of listed number },
    // As many numbers have a place as there are helpers, so a place is below 128.
    ghost counted: { length listed ≡ count_by is_some places },
}

impl Closures for Table {
    ghost tells = { λ table number g answer. Any (λ helper. (helper.number ≡ number) × MayAnswer (Body.post helper.body) g answer) table.helpers.items };
}

impl Table {
    /// A table with no helper.
    pub fn new(alloc: Global) -> Table
        ensures { result.listed ≡ [] }
    {
        Table {
            listed: Sigs::new(alloc),
            helpers: Vec::new(alloc),
            places: [None; NUMBERS],
        }
    }

    /// Adds a helper, or hands it back and says why: `Taken`, `Number`, `Signature` or `NoMemory`, the first of these
    /// that stands. The table then stays as it was.
    pub fn add(&mut self, helper: Helper) -> Result<(), (Helper, HelperFault)>
        ensures ok { let entry : Entry = record { number = helper.number; sig = helper.sig } in OnOk result (IsAdmitted self.old.listed entry × (self.new.listed ≡ self.old.listed ++ entry ∷ [])) }
        ensures added { OnOk result (self.new.helpers.items ≡ self.old.helpers.items ++ helper ∷ []) }
        ensures err { OnErr result ((self.new.listed ≡ self.old.listed) × (self.new.helpers.items ≡ self.old.helpers.items)) }
        ensures why { IfErr result (λ e. Refuses self.old.listed (record { number = helper.number; sig = helper.sig }) e.1) }
        ensures handed_back { IfErr result (λ e. e.0 ≡ helper) }
    {
        let entry = Entry {
            number: helper.number,
            sig: helper.sig,
        };
        if let Err(fault) = self.listed.admits(entry) {
            return Err((helper, fault));
        }
        if self.helpers.reserve(1).is_err() || self.listed.push(entry).is_err() {
            return Err((helper, HelperFault::NoMemory));
        }
        self.places[entry.number as usize] = Some(self.helpers.len() as u8);
        self.helpers.push_reserved(helper);
        Ok(())
    }

    /// The Sig of a number, if there is one.
    pub fn sig(&self, number: u32) -> Option<Sig>
        ensures { result ≡ sig_of self.now.listed number }
    {
        Some(self.helper(number)?.sig)
    }

    /// The numbers and Sigs of the helpers.
    pub fn sigs(&self, alloc: Global) -> Result<Sigs, AllocError>
        ensures { IfOk result (λ sigs. sigs ≡ self.now.listed) }
    {
        self.listed.copy(alloc)
    }

    /// Whether each number of the Sigs stands in the table with that same Sig.
    pub fn agrees(&self, sigs: &Sigs) -> bool
        ensures agrees { IsTrue result ↔ AgreesWith self.now.listed sigs.now }
        ensures same { IsTrue result → (number : ℕ) (sig : Sig) → sig_of sigs.now number ≡ Some sig → sig_of self.now.listed number ≡ Some sig }
    {
        for entry in sigs.entries() {
            if !self.listed.lists(*entry) {
                return false;
            }
        }
        true
    }

    /// The helper of a number, if there is one.
    pub fn helper(&self, number: u32) -> Option<&Helper>
        ensures some { IfSome result (λ helper. (helper.now.number ≡ number) × (sig_of self.now.listed number ≡ Some helper.now.sig)) }
        ensures none { IfNone result (sig_of self.now.listed number ≡ None) }
        ensures held { IfSome result (λ helper. Contains self.now.helpers.items helper.now) }
        ensures tells { IfSome result (λ helper. (g : Given) (answer : ℕ) → ⟦<Helper as Closures>⟧.tells helper.now number g answer → ⟦<Table as Closures>⟧.tells self.now number g answer) }
    {
        let place = self.place(number)?;
        Some(&self.helpers[place])
    }

    /// Where the helper of a number stands, if there is one.
    fn place(&self, number: u32) -> Option<usize>
        ensures { result ≡ place_of self.now.listed number }
    {
        match self.places.get(number as usize) {
            Some(Some(place)) => Some(usize::from(*place)),
            _ => None,
        }
    }

    /// The answer of a helper to a call that fits its Sig.
    pub fn call(&self, number: u32, call: &Call) -> u64
        requires { (sig : Sig) × (sig_of self.now.listed number ≡ Some sig) × Fits sig.args (given call.now) }
        ensures answers { (sig : Sig) → sig_of self.now.listed number ≡ Some sig → HelperAnswers number sig.lo sig.hi (given call.now) result }
        ensures called { Any (λ helper. (helper.number ≡ number) × Body.post helper.body call.now.numbers call.now.first call.now.second result) self.now.helpers.items }
    {
        match self.helper(number) {
            Some(helper) => helper.call(call),
            None => unreachable!(),
        }
    }
}

impl Sigs {
    /// Whether a helper with this number and Sig may be added.
    fn admits(&self, entry: Entry) -> Result<(), HelperFault>
        ensures ok { OnOk result (IsAdmitted self.now entry) }
        ensures why { IfErr result (Refuses self.now entry) }
    {
        if self.sig(entry.number).is_some() {
            return Err(HelperFault::Taken);
        }
        if !is_helper_number(entry.number) {
            return Err(HelperFault::Number);
        }
        if is_as_written(entry) {
            Ok(())
        } else {
            Err(HelperFault::Signature)
        }
    }
}
