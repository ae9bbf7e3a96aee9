//! What a worker notes for the log, and how that is kept.

ghost use Rattle.std.specs.Prelude.{◌≡◌, ◌<◌, ◌≤◌, ◌++◌, ℕ, List, IfSome, None, Some, false, true};
ghost use Rattle.dvvstore.specs.Scribing.{HasGrown, IsAllKept, IsMoreKept, IsShown};

use crate::crew::aside::{Aside, Reader};
use crate::limits::MAX_NAME_BYTES;
use cluster::Room;
use kept_hooks::{Notes, Requests, Writes};
use key_state::{Key, KeyState};
use log_desk::Ledger;
use log_writer::Sheet;
use peers::Answer;
use record_codec::record_bytes;
use ring::Placement;
use server_sockets::Unlogged;
use std::alloc::{AllocError, Global};
use std::mem;
use std::sync::atomic::AtomicBool;
use std::sync::atomic::Ordering::SeqCst;
use std::sync::{Mutex, Wait};

/// What a worker notes of its turns: the keys to which something may be written, and whether hooks may be changed.
#[derive(Drop)]
pub(crate) struct TurnNotes<'a, R> {
    alloc: Global,
    rt: &'a R,
    /// Whether a log is kept: else there is nothing to note for it.
    is_kept: bool,
    /// Where is noted, for snapshots, that something was written.
    writes: &'a Writes,
    /// Whether the log lacks something, for the worker's sockets.
    unlogged: &'a Unlogged,
    keys: Mutex<Vec<Key>>,
    /// Whether a key couldn't be noted.
    is_short: AtomicBool,
    /// Whether hooks may be changed.
    has_hooks: AtomicBool,
}

impl<'a, R: Wait> TurnNotes<'a, R> {
    /// Notes of a worker that did nothing yet.
    pub(crate) fn new(
        alloc: Global,
        rt: &'a R,
        is_kept: bool,
        writes: &'a Writes,
        unlogged: &'a Unlogged,
    ) -> TurnNotes<'a, R> {
        TurnNotes {
            alloc,
            rt,
            is_kept,
            writes,
            unlogged,
            keys: Mutex::new(Vec::new(alloc)),
            is_short: AtomicBool::new(false),
            has_hooks: AtomicBool::new(false),
        }
    }

    /// Takes the keys that were noted, each once.
    fn take_keys(&self) -> Vec<Key> {
        let empty = Vec::new(self.alloc);
        let mut keys = mem::replace(&mut *self.keys.lock(self.rt), empty);
        keys.sort_unstable();
        keys.dedup();
        keys
    }

    /// Notes a key.
    fn add(&self, key: &Key) {
        self.unlogged.note();
        let is_noted = match key.copy() {
            Ok(key) => self.keys.lock(self.rt).push(key).is_ok(),
            Err(_) => false,
        };
        if !is_noted {
            self.is_short.store(true, SeqCst);
        }
    }
}

impl<R: Wait> Notes for TurnNotes<'_, R> {
    ghost write_noted = { Unit {0} };

    ghost read_noted = { Unit {0} };

    ghost resolver_noted = { Unit {0} };

    ghost hooks_noted = { Unit {0} };

    ghost key_noted = { λ _. Unit {0} };

    ghost asked_noted = { λ _. Unit {0} };

    fn note_hooks(&self) {
        if self.is_kept {
            self.unlogged.note();
            self.has_hooks.store(true, SeqCst);
        }
    }

    fn note_key(&self, key: &Key) {
        if self.is_kept {
            self.add(key);
        }
    }

    fn note_asked(&self, key: &Key) {
        if self.is_kept && self.writes.may_resolve() {
            self.add(key);
        }
    }

    fn note(&self) {
        self.writes.note();
    }

    fn note_read(&self) {
        Notes::note_read(self.writes);
    }

    fn note_resolver(&self) {
        Notes::note_resolver(self.writes);
    }
}

/// What came of keeping what a worker noted.
#[derive(Clone, Copy, Debug, PartialEq, Eq)]
pub(crate) enum Logged {
    /// Nothing was noted.
    Nothing,
    /// All of it is kept now.
    All,
    /// Not all of it is, and it is to be tried again.
    NotYet,
}

/// Where what workers noted is kept.
#[derive(Clone, Copy)]
pub(crate) struct Desk<'a, L> {
    /// Where sheets are put down.
    pub(crate) ledger: &'a L,
    /// The requests that make hooks what they are.
    pub(crate) requests: &'a Mutex<Requests>,
    /// Who has this alone writes the file of these requests.
    pub(crate) filing: &'a Mutex<Filing>,
}

/// The right to write the file of the requests that make hooks what they are: so none is written over by an older one.
#[derive(Drop)]
pub struct Filing;

/// Who reads what a worker noted, and has it be kept. It calls the vnodes by a pass of its own, and does nothing but read.
#[derive(Drop)]
pub(crate) struct Scribe<'a, B: Room, R: Wait, L: Ledger> {
    alloc: Global,
    rt: &'a R,
    pub(crate) desk: Desk<'a, L>,
    notes: &'a TurnNotes<'a, R>,
    /// Where keys stand.
    placement: Placement,
    /// What reads them.
    reader: Reader<'a, B, R>,
    /// What isn't put down yet, and how many records that is.
    pub(crate) sheet: Sheet,
    pub(crate) records: u64,
    /// What was put down last, until it is kept.
    pub(crate) receipt: Option<L::Receipt>,
    /// How many snapshots had begun when a key couldn't be noted or read, until one is whole that began later.
    lost: Option<u64>,
    /// Whether changed hooks aren't kept yet.
    has_hooks: bool,
}

impl<'a, B: Room, R: Wait, L: Ledger> Scribe<'a, B, R, L> {
    /// The scribe of a worker, by these notes.
    pub(crate) fn new(
        alloc: Global,
        notes: &'a TurnNotes<'a, R>,
        desk: Desk<'a, L>,
        placement: Placement,
        reader: Reader<'a, B, R>,
    ) -> Scribe<'a, B, R, L> {
        Scribe {
            alloc,
            rt: notes.rt,
            desk,
            notes,
            placement,
            reader,
            sheet: Sheet {
                bytes: Vec::new(alloc),
            },
            records: 0,
            receipt: None,
            lost: None,
            has_hooks: false,
        }
    }

    /// Keeps what was noted, at a time in milliseconds. Where all of it is told to be kept, it was put down, with what turns before couldn't
    /// put down, and the ledger has shown that it is kept; nothing is left that was lost, nor hooks that aren't kept.
    pub(crate) fn keep(&mut self, now: u64) -> Logged
        ensures kept { result ≡ Logged.All → IsMoreKept L.put L.shows self.old.desk.ledger.now self.old.sheet self.old.records self.old.receipt }
        ensures all { result ≡ Logged.All → (self.new.records ≡ 0) × (self.new.receipt ≡ None) × (self.new.lost ≡ None) × (self.new.has_hooks ≡ false) }
    {
        if !self.notes.unlogged.is_noted() {
            return Logged::Nothing;
        }
        self.read_noted();
        if self.is_all_kept(now) {
            self.notes.unlogged.forget();
            Logged::All
        } else {
            Logged::NotYet
        }
    }

    /// Has what is spelled and what was put down be kept, and whatever else was noted. Whether all of it is.
    fn is_all_kept(&mut self, now: u64) -> bool
        ensures kept { result ≡ true → IsAllKept L.put L.shows self.old.desk.ledger.now self.old.sheet self.old.records self.old.receipt }
        ensures all { result ≡ true → (self.new.records ≡ 0) × (self.new.receipt ≡ None) × (self.new.lost ≡ None) × (self.new.has_hooks ≡ false) }
    {
        self.is_put_down() && self.is_covered() && self.are_hooks_kept() && self.is_sheet_kept(now)
    }

    /// Reads what was noted, and spells it.
    fn read_noted(&mut self)
        ensures grown { HasGrown self.old.sheet self.old.records self.new.sheet self.new.records }
        ensures same { (self.new.receipt ≡ self.old.receipt) × (self.new.desk ≡ self.old.desk) }
    {
        self.has_hooks = self.notes.has_hooks.swap(false, SeqCst) || self.has_hooks;
        if self.notes.is_short.swap(false, SeqCst) {
            self.lose();
        }
        for key in &self.notes.take_keys() {
            self.read(key);
        }
    }

    /// Reads a key at each vnode of its list, and spells each state that is another than the one before.
    fn read(&mut self, key: &Key)
        ensures grown { HasGrown self.old.sheet self.old.records self.new.sheet self.new.records }
        ensures same { (self.new.receipt ≡ self.old.receipt) × (self.new.desk ≡ self.old.desk) }
    {
        if key.bucket().len() > MAX_NAME_BYTES {
            return;
        }
        let place = self.placement.place_of(key.bucket(), key.key());
        let list = self.placement.preferred(place);
        let mut last = KeyState::new(self.alloc);
        for vnode in list.as_slice() {
            match self.reader.state_of(*vnode, key) {
                Ok(answer) => last = self.spell(key, answer, &last),
                Err(_) => self.lose(),
            }
        }
    }

    /// Spells what a vnode answered, where that is another state than one before. Answers the state.
    fn spell(&mut self, key: &Key, answer: Answer, last: &KeyState) -> KeyState
        ensures grown { HasGrown self.old.sheet self.old.records self.new.sheet self.new.records }
        ensures same { (self.new.receipt ≡ self.old.receipt) × (self.new.desk ≡ self.old.desk) }
    {
        let Answer { from, at, state } = answer;
        if !state.is_same(last) && !self.is_spelled(key, from, at, &state) {
            self.lose();
        }
        state
    }

    /// Spells the record of a state behind the others. Whether memory sufficed for it.
    fn is_spelled(&mut self, key: &Key, from: u32, at: u64, state: &KeyState) -> bool
        ensures grown { HasGrown self.old.sheet self.old.records self.new.sheet self.new.records }
        ensures same { (self.new.receipt ≡ self.old.receipt) × (self.new.desk ≡ self.old.desk) }
    {
        let Ok(bytes) = record_bytes(self.alloc, key, from, at, state) else {
            return false;
        };
        if self.sheet.bytes.extend_from_slice(&bytes).is_err() {
            return false;
        }
        self.records = self.records.saturating_add(1);
        true
    }

    /// Something can't be noted or read: what is answered waits until a snapshot is whole that begins from now on.
    fn lose(&mut self)
        ensures grown { (self.new.sheet ≡ self.old.sheet) × (self.new.records ≡ self.old.records) }
        ensures same { (self.new.receipt ≡ self.old.receipt) × (self.new.desk ≡ self.old.desk) }
    {
        self.lost = Some(self.desk.ledger.begun());
        self.desk.ledger.want_snapshot();
    }

    /// Puts down what is spelled. Whether nothing is left of it.
    fn is_put_down(&mut self) -> bool
        ensures none { self.old.records ≡ 0 → self.new.receipt ≡ self.old.receipt }
        ensures put { result ≡ true → 0 < self.old.records → (receipt : L.Receipt) × L.put self.old.desk.ledger.now self.old.sheet receipt × (self.new.receipt ≡ Some receipt) }
        ensures all { result ≡ true → self.new.records ≡ 0 }
        ensures same { self.new.desk ≡ self.old.desk }
    {
        if self.records == 0 {
            return true;
        }
        match self
            .desk
            .ledger
            .put_down(self.rt, &self.sheet, self.records)
        {
            Some(receipt) => {
                self.receipt = Some(receipt);
                self.sheet.bytes.clear();
                self.records = 0;
                true
            }
            None => false,
        }
    }

    /// Whether what was lost is in a snapshot, if anything was.
    fn is_covered(&mut self) -> bool
        ensures covered { result ≡ true → self.new.lost ≡ None }
        ensures same { (self.new.records ≡ self.old.records) × (self.new.receipt ≡ self.old.receipt) × (self.new.desk ≡ self.old.desk) }
    {
        if let Some(begun) = self.lost {
            if self.desk.ledger.whole() <= begun {
                return false;
            }
            self.lost = None;
        }
        true
    }

    /// Has changed hooks be kept, if there are some. Whether they are.
    fn are_hooks_kept(&mut self) -> bool
        ensures kept { result ≡ true → self.new.has_hooks ≡ false }
        ensures same { (self.new.records ≡ self.old.records) × (self.new.receipt ≡ self.old.receipt) × (self.new.lost ≡ self.old.lost) × (self.new.desk ≡ self.old.desk) }
    {
        if !self.has_hooks {
            return true;
        }
        let _filing = self.desk.filing.lock(self.rt);
        let requests = self.desk.requests.lock(self.rt).bytes();
        let is_kept = match requests {
            Ok(Some(requests)) => self.desk.ledger.keep_hooks(self.rt, &requests),
            // One of them is lacking, for want of memory when it was made: no file has it any more.
            Ok(None) => true,
            Err(AllocError) => false,
        };
        self.has_hooks = !is_kept;
        is_kept
    }

    /// Has what was put down be kept. Whether it is.
    fn is_sheet_kept(&mut self, now: u64) -> bool
        ensures shown { result ≡ true → IfSome self.old.receipt (IsShown L.put L.shows self.old.desk.ledger.now) }
        ensures none { result ≡ true → self.new.receipt ≡ None }
        ensures same { (self.new.records ≡ self.old.records) × (self.new.lost ≡ self.old.lost) × (self.new.has_hooks ≡ self.old.has_hooks) }
    {
        let is_kept = match &self.receipt {
            Some(receipt) => self.desk.ledger.keep(self.rt, receipt, now).is_some(),
            None => true,
        };
        if is_kept {
            self.receipt = None;
        }
        is_kept
    }

    /// The pass, as its calls have left it.
    pub(crate) fn into_aside(self) -> Aside<B> {
        let Scribe { reader, .. } = self;
        reader.into_aside()
    }
}
