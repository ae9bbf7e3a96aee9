//! What was followed of some vnodes.

ghost use Rattle.std.specs.Prelude.{◌≡◌, ◌≢◌, ◌↔◌, ◌<◌, ℕ, IfOk, IfErr, IsTrue, OnOk, OnErr, MatchBool, MatchOption, Err, None, Some, length};
ghost use Rattle.journal.specs.Stamps.{stamp_of};
ghost use Rattle.world.specs.Represents.{AreDistinct, empty_logs, log_at, with_entry_at};
ghost use Rattle.audit_replay.specs.Wrong.{IsNewest, IsStampFault, IsMergeFault, IsSourceFault, IsPlaceFault, IsFoundWrong, IsAfterAll, IsFounded, IsHeld, IsToldOf};
ghost use Rattle.audit_replay.specs.Reran.{MayHaveOneMore};
ghost use Rattle.audit_replay.specs.Beginnings.{AreWhole, IsBehind, IsInFront};
ghost use Rattle.audit_replay.specs.Followed.{HasFollowed, HasSource, IsAbove, IsAnswerOf, IsExpected, IsSourceKept};

use crate::again::{Refusal, happen};
use crate::kept::{Answers, Found, Kept, Recent};
use audit_faults::{AuditFault, EntryFault};
use journal::{Entry, Said};
use key_state::{Key, KeyState};
use std::alloc::{AllocError, Global};
use vnode::{Seed, Vnode};

/// The vnode with an identifier.
pub(crate) fn index_of(vnodes: &[Vnode], id: u32) -> Option<usize>
    ensures { let logs = vnodes.now in MatchOption result ((index : ℕ) → index < length logs → (log_at logs index).vnode ≢ id) (λ index. (index < length logs) × ((log_at logs index).vnode ≡ id)) }
{
    for index in 0..vnodes.len() {
        if vnodes[index].id() == id {
            return Some(index);
        }
    }
    None
}

// Whether a state is what a read of a key answered, which is kept at a place of a vnode: it is the one before the first change of the key
// behind the read, or, where there is none, the one that is there now.
fn is_answer(vnode: &Vnode, kept: &Answers, at: u64, key: &Key, state: &KeyState) -> bool
    ensures { IsTrue result ↔ IsAnswerOf vnode.now kept.now at key.now state.now }
{
    match kept.first_was(at, key) {
        Some(was) => was.is_same(state),
        None => vnode.holds(key, state),
    }
}

// Whether a merge's state is what the read that it names answered.
fn check_merge(
    vnodes: &[Vnode],
    answers: &[Answers],
    key: &Key,
    from: u32,
    at: u64,
    state: &KeyState,
) -> Result<(), EntryFault>
    requires size { length answers.now ≡ length vnodes.now }
    ensures ok { OnOk result (IsSourceKept vnodes.now answers.now key.now from at state.now) }
    ensures err { IfErr result (λ code. IsMergeFault vnodes.now answers.now key.now from at state.now code) }
{
    let Some(index) = index_of(vnodes, from) else {
        return Err(EntryFault::NoSource);
    };
    match answers[index].at(at) {
        Found::Nothing => Err(EntryFault::NoSource),
        Found::GivenUp => Err(EntryFault::GivenUp),
        Found::Read(own) => {
            if own != key {
                return Err(EntryFault::NoSource);
            }
            if !is_answer(&vnodes[index], &answers[index], at, key, state) {
                return Err(EntryFault::OtherState);
            }
            Ok(())
        }
    }
}

// What is kept of an entry that has happened next at a vnode: of one of its front nothing, since no merge may name it.
fn kept_behind(is_in_front: bool, kept: Kept) -> Kept
    ensures { MatchBool is_in_front (result ≡ Kept.Other) (result ≡ kept) }
{
    if is_in_front { Kept::Other } else { kept }
}

/// What was followed of some vnodes, and what is kept of it.
#[derive(Drop)]
pub(crate) struct Followed {
    /// How many of the first entries of each vnode are no steps: they were there before.
    pub(crate) fronts: Vec<usize>,
    pub(crate) vnodes: Vec<Vnode>,
    pub(crate) answers: Vec<Answers>,
    /// The highest stamp, and whose it was.
    pub(crate) last: Option<u64>,
    pub(crate) last_index: usize,
    /// Of which of the last entries of each vnode it is kept what tells what they answered.
    pub(crate) recent: Recent,
    /// The fault that was found, after which nothing is followed.
    pub(crate) fault: Option<AuditFault>,
}

/// Nothing was followed of vnodes with these identifiers, of whose journals these are the fronts.
pub(crate) fn open(
    alloc: Global,
    seed: Seed,
    ids: &[u32],
    fronts: Vec<usize>,
    recent: Recent,
) -> Result<Followed, AllocError>
    requires distinct { AreDistinct ids.now }
    ensures run { IfOk result (λ followed. HasFollowed followed.fronts.items followed.vnodes.items followed.last followed.recent followed.answers.items) }
    ensures newest { IfOk result (λ followed. IsNewest followed.vnodes.items followed.last followed.last_index) }
    ensures recent { IfOk result (λ followed. followed.recent ≡ recent) }
    ensures vnodes { IfOk result (λ followed. followed.vnodes.items ≡ empty_logs ids.now) }
    ensures fronts { IfOk result (λ followed. followed.fronts.items ≡ fronts.items) }
    ensures fault { IfOk result (λ followed. followed.fault ≡ None) }
{
    let mut vnodes = Vec::new(alloc);
    let mut answers = Vec::new(alloc);
    for index in 0..ids.len() {
        vnodes.push(Vnode::seeded(alloc, ids[index], seed))?;
        answers.push(Answers::new(alloc))?;
    }
    Ok(Followed {
        fronts,
        vnodes,
        answers,
        last: None,
        last_index: 0,
        recent,
        fault: None,
    })
}

impl Followed {
    // Whether an entry's stamp is above the last one.
    fn check_stamp(&self, index: usize, stamp: u64) -> Result<(), EntryFault>
        ensures ok { OnOk result (IsAbove self.now.last stamp) }
        ensures err { IfErr result (λ code. IsStampFault self.now.last self.now.last_index index stamp code) }
    {
        match self.last {
            Some(last) => {
                if last < stamp {
                    Ok(())
                } else if self.last_index == index {
                    Err(EntryFault::Falls)
                } else if last == stamp {
                    Err(EntryFault::Twice)
                } else {
                    Err(EntryFault::Late)
                }
            }
            None => Ok(()),
        }
    }

    // Whether an entry is no merge, or has its source.
    fn check_source(&self, entry: &Entry) -> Result<(), EntryFault>
        requires size { length self.now.answers.items ≡ length self.now.vnodes.items }
        ensures ok { OnOk result (HasSource self.now.vnodes.items self.now.answers.items entry.now) }
        ensures err { IfErr result (λ code. IsSourceFault self.now.vnodes.items self.now.answers.items entry.now code) }
    {
        match entry.said() {
            Said::Merge {
                key,
                from,
                at,
                state,
                ..
            } => check_merge(&self.vnodes, &self.answers, key, from, at, state),
            _ => Ok(()),
        }
    }

    // Whether the next entry of a vnode is one of its front.
    fn is_in_front(&self, index: usize) -> bool
        requires inside { index < length self.now.vnodes.items }
        ensures { MatchBool result (IsInFront self.now.fronts.items self.now.vnodes.items index) (IsBehind self.now.fronts.items index (length (log_at self.now.vnodes.items index).entries)) }
    {
        match self.fronts.get(index) {
            Some(front) => self.vnodes[index].journal().len() < *front,
            None => false,
        }
    }

    // The first vnode whose front isn't whole.
    fn lacking(&self) -> Option<usize>
        ensures { MatchOption result (AreWhole self.now.fronts.items self.now.vnodes.items) (λ other. (other < length self.now.vnodes.items) × IsInFront self.now.fronts.items self.now.vnodes.items other) }
    {
        for index in 0..self.vnodes.len() {
            if self.is_in_front(index) {
                return Some(index);
            }
        }
        None
    }

    // Whether an entry is of its vnode's front, or comes once the fronts are whole and has its source.
    fn check_place(&self, index: usize, entry: &Entry) -> Result<(), EntryFault>
        requires size { length self.now.answers.items ≡ length self.now.vnodes.items }
        requires inside { index < length self.now.vnodes.items }
        ensures ok { OnOk result (IsExpected self.now.fronts.items self.now.vnodes.items self.now.answers.items index entry.now) }
        ensures err { IfErr result (λ code. IsPlaceFault self.now.fronts.items self.now.vnodes.items self.now.answers.items index entry.now code) }
    {
        if self.is_in_front(index) {
            return Ok(());
        }
        match self.lacking() {
            Some(_) => Err(EntryFault::Late),
            None => self.check_source(entry),
        }
    }

    /// Whether an entry may be the next one of all, but that it may not follow those at its vnode.
    pub(crate) fn check(&self, index: usize, entry: &Entry) -> Result<(), EntryFault>
        requires size { length self.now.answers.items ≡ length self.now.vnodes.items }
        requires inside { index < length self.now.vnodes.items }
        ensures above { OnOk result (IsAbove self.now.last (stamp_of entry.now)) }
        ensures place { OnOk result (IsExpected self.now.fronts.items self.now.vnodes.items self.now.answers.items index entry.now) }
        ensures err { IfErr result (λ code. IsFoundWrong self.now.fronts.items self.now.vnodes.items self.now.answers.items self.now.last self.now.last_index index entry.now code) }
    {
        match self.check_stamp(index, entry.stamp()) {
            Ok(()) => self.check_place(index, entry),
            Err(code) => Err(code),
        }
    }

    // What is wrong with the next entry of a vnode.
    fn fault_at(&self, index: usize, code: EntryFault) -> AuditFault
        requires inside { index < length self.now.vnodes.items }
        ensures { result ≡ AuditFault.Found code (log_at self.now.vnodes.items index).vnode (length (log_at self.now.vnodes.items index).entries) }
    {
        AuditFault::Found {
            code,
            vnode: self.vnodes[index].id(),
            place: self.vnodes[index].journal().len(),
        }
    }

    /// Stops at what is wrong with the next entry of a vnode.
    pub(crate) fn stop(&mut self, index: usize, code: EntryFault) -> Result<(), AuditFault>
        requires inside { index < length self.old.vnodes.items }
        ensures err { result ≡ Err (AuditFault.Found code (log_at self.old.vnodes.items index).vnode (length (log_at self.old.vnodes.items index).entries)) }
        ensures fault { IfErr result (λ fault. self.new ≡ record self.old { fault = Some fault }) }
    {
        let fault = self.fault_at(index, code);
        self.fault = Some(fault);
        Err(fault)
    }

    // An entry of a vnode happens again.
    fn step(&mut self, alloc: Global, index: usize, entry: Entry) -> Result<(), AuditFault>
        requires run { HasFollowed self.old.fronts.items self.old.vnodes.items self.old.last self.old.recent self.old.answers.items }
        requires inside { index < length self.old.vnodes.items }
        requires above { IsAbove self.old.last (stamp_of entry) }
        requires place { IsExpected self.old.fronts.items self.old.vnodes.items self.old.answers.items index entry }
        ensures run { OnOk result (HasFollowed self.new.fronts.items self.new.vnodes.items self.new.last self.new.recent self.new.answers.items) }
        ensures next { OnOk result (self.new.vnodes.items ≡ with_entry_at self.old.vnodes.items index entry) }
        ensures newest { OnOk result (IsNewest self.new.vnodes.items self.new.last self.new.last_index) }
        ensures size { length self.new.vnodes.items ≡ length self.old.vnodes.items }
        ensures recent { self.new.recent ≡ self.old.recent }
        ensures fronts { self.new.fronts ≡ self.old.fronts }
        ensures fault { self.new.fault ≡ self.old.fault }
        ensures told { IfErr result (λ fault. IsToldOf self.old.fronts.items self.old.vnodes.items self.old.recent index entry fault) }
        ensures stays { OnErr result (MayHaveOneMore index self.old.vnodes.items self.new.vnodes.items) }
    {
        let illegal = self.fault_at(index, EntryFault::Illegal);
        let is_in_front = self.is_in_front(index);
        let stamp = entry.stamp();
        let kept = match happen(alloc, &mut self.vnodes[index], entry) {
            Ok((_, kept)) => kept_behind(is_in_front, kept),
            Err(Refusal::Illegal) => return Err(illegal),
            Err(Refusal::NoMemory) => return Err(AuditFault::NoMemory),
        };
        self.answers[index].keep(kept, self.recent)?;
        self.last = Some(stamp);
        self.last_index = index;
        Ok(())
    }

    /// An entry of a vnode happens again, or nothing is followed any more.
    pub(crate) fn go_on(
        &mut self,
        alloc: Global,
        index: usize,
        entry: Entry,
    ) -> Result<(), AuditFault>
        requires run { HasFollowed self.old.fronts.items self.old.vnodes.items self.old.last self.old.recent self.old.answers.items }
        requires inside { index < length self.old.vnodes.items }
        requires above { IsAbove self.old.last (stamp_of entry) }
        requires place { IsExpected self.old.fronts.items self.old.vnodes.items self.old.answers.items index entry }
        ensures run { OnOk result (HasFollowed self.new.fronts.items self.new.vnodes.items self.new.last self.new.recent self.new.answers.items) }
        ensures next { OnOk result (self.new.vnodes.items ≡ with_entry_at self.old.vnodes.items index entry) }
        ensures newest { OnOk result (IsNewest self.new.vnodes.items self.new.last self.new.last_index) }
        ensures right { OnOk result (IsAfterAll self.old.vnodes.items entry × IsFounded self.old.fronts.items self.old.vnodes.items index entry) }
        ensures held { OnOk result (IsHeld self.old.fronts.items self.old.vnodes.items self.old.recent index entry) }
        ensures size { length self.new.vnodes.items ≡ length self.old.vnodes.items }
        ensures recent { self.new.recent ≡ self.old.recent }
        ensures fronts { self.new.fronts ≡ self.old.fronts }
        ensures going { OnOk result (self.new.fault ≡ self.old.fault) }
        ensures fault { IfErr result (λ fault. self.new.fault ≡ Some fault) }
        ensures told { IfErr result (λ fault. IsToldOf self.old.fronts.items self.old.vnodes.items self.old.recent index entry fault) }
        ensures stays { OnErr result (MayHaveOneMore index self.old.vnodes.items self.new.vnodes.items) }
    {
        let gone = self.step(alloc, index, entry);
        if let Err(fault) = gone {
            self.fault = Some(fault);
        }
        gone
    }

    /// The same of an entry that is lent, and copied.
    pub(crate) fn go_on_lent(
        &mut self,
        alloc: Global,
        index: usize,
        entry: &Entry,
    ) -> Result<(), AuditFault>
        requires run { HasFollowed self.old.fronts.items self.old.vnodes.items self.old.last self.old.recent self.old.answers.items }
        requires inside { index < length self.old.vnodes.items }
        requires above { IsAbove self.old.last (stamp_of entry.now) }
        requires place { IsExpected self.old.fronts.items self.old.vnodes.items self.old.answers.items index entry.now }
        ensures run { OnOk result (HasFollowed self.new.fronts.items self.new.vnodes.items self.new.last self.new.recent self.new.answers.items) }
        ensures next { OnOk result (self.new.vnodes.items ≡ with_entry_at self.old.vnodes.items index entry.now) }
        ensures newest { OnOk result (IsNewest self.new.vnodes.items self.new.last self.new.last_index) }
        ensures right { OnOk result (IsAfterAll self.old.vnodes.items entry.now × IsFounded self.old.fronts.items self.old.vnodes.items index entry.now) }
        ensures held { OnOk result (IsHeld self.old.fronts.items self.old.vnodes.items self.old.recent index entry.now) }
        ensures size { length self.new.vnodes.items ≡ length self.old.vnodes.items }
        ensures recent { self.new.recent ≡ self.old.recent }
        ensures fronts { self.new.fronts ≡ self.old.fronts }
        ensures going { OnOk result (self.new.fault ≡ self.old.fault) }
        ensures fault { IfErr result (λ fault. self.new.fault ≡ Some fault) }
        ensures told { IfErr result (λ fault. IsToldOf self.old.fronts.items self.old.vnodes.items self.old.recent index entry.now fault) }
        ensures stays { OnErr result (MayHaveOneMore index self.old.vnodes.items self.new.vnodes.items) }
    {
        match entry.copy(alloc) {
            Ok(copy) => self.go_on(alloc, index, copy),
            Err(_) => {
                self.fault = Some(AuditFault::NoMemory);
                Err(AuditFault::NoMemory)
            }
        }
    }
}
