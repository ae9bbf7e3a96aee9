//! A history of calls that only proofs read. It takes no memory, and its methods do nothing at run time.

ghost use Rattle.std.specs.Prelude.{◌≡◌, ℕ, List, [], ◌∷◌};
ghost use Rattle.std.specs.Borrow.{ftrue};
ghost use Rattle.std.specs.Coded.{coded_list};
ghost use Rattle.log_system.specs.Calls.{call_of, coded_call, part_of, Call, Found, Shortened, Synced, Wrote};

use std::marker::{Model, PhantomData};

/// A file was found.
const FOUND: u64 = 0;

/// Bytes were written behind its end.
const WROTE: u64 = 1;

/// It was cut.
const SHORTENED: u64 = 2;

/// It was forced.
const SYNCED: u64 = 3;

/// The calls on a file, the newest first.
#[derive(Drop)]
pub(crate) struct History {
    of: PhantomData<u8>,
    pub ghost calls: { List Call } by { coded_list coded_call },
}

impl Model for History {
    ghost also_owns = { λ _. ftrue };
}

impl History {
    /// The history of a file in which these bytes were found.
    pub(crate) fn found(bytes: &[u8]) -> History
        ensures { result.calls ≡ Found bytes.now ∷ [] }
    {
        let mut history = History::new();
        history.note(&[FOUND, 0, 1], bytes);
        history
    }

    /// Bytes were written behind its end: all of them, or it failed.
    pub(crate) fn wrote(&mut self, bytes: &[u8], is_done: bool)
        ensures { (part : ℕ) × (self.new.calls ≡ Wrote bytes.now (part_of is_done part) ∷ self.old.calls) }
    {
        self.note(&[WROTE, 0, u64::from(is_done)], bytes);
    }

    /// It was cut to a length, or that failed.
    pub(crate) fn shortened(&mut self, len: usize, is_done: bool)
        ensures { (part : ℕ) × (self.new.calls ≡ Shortened len (part_of is_done part) ∷ self.old.calls) }
    {
        self.note(&[SHORTENED, len as u64, u64::from(is_done)], &[]);
    }

    /// It was forced, or that failed.
    pub(crate) fn synced(&mut self, is_done: bool)
        ensures { self.new.calls ≡ Synced is_done ∷ self.old.calls }
    {
        self.note(&[SYNCED, 0, u64::from(is_done)], &[]);
    }

    // No call.
    fn new() -> History
        ensures { result.calls ≡ [] }
    {
        History { of: PhantomData }
    }

    // Notes a call: by numbers, which one it was, a length, and 1 where it succeeded; and its bytes. Of one that failed a part was done,
    // and which is not said.
    fn note(&mut self, _numbers: &[u64], _bytes: &[u8])
        ensures { (part : ℕ) × (self.new.calls ≡ call_of _numbers.now _bytes.now part ∷ self.old.calls) }
    {}
}
