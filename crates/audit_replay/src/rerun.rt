//! Entries of several vnodes happen again, one after another.

ghost use Rattle.std.specs.Prelude.{◌≡◌, ◌≢◌, ◌<◌, ◌≤◌, ℕ, IfOk, IfErr, OnOk, OnErr, MatchOption, None, Some, length};
ghost use Rattle.journal.specs.Logs.{max_entries};
ghost use Rattle.world.specs.Represents.{AreDistinct, empty_logs, log_at, with_entry_at};
ghost use Rattle.audit_replay.specs.Reran.{MayHaveOneMore};
ghost use Rattle.audit_replay.specs.Runs.{IsRunFrom};
ghost use Rattle.audit_replay.specs.Wrong.{IsAfterAll, IsFounded, IsHeld, IsToldOf};

use crate::followed::{Followed, index_of, open};
use crate::kept::Recent;
use crate::start::Start;
use audit_faults::AuditFault;
use journal::Entry;
use std::alloc::{AllocError, Global};
use std::marker::Model;
use vnode::{BlockSpot, KeyBlock};

/// Entries of several vnodes that happen again, one after another, at vnodes of its own that settle. As long as it has found no
/// fault, all that has happened is one run of the world. So many of the first entries of each vnode, its front, may be no part of it: they
/// were there before, so their sources aren't asked for, and no merge may name them. They come first.
#[derive(Drop)]
pub struct Rerun {
    alloc: Global,
    followed: Followed,
}

impl Model for Rerun {
    ghost use Rattle.std.specs.Prelude.{◌≡◌, None};
    ghost use Rattle.audit_replay.specs.Followed.{HasFollowed};
    ghost use Rattle.audit_replay.specs.Wrong.{IsNewest};
    ghost use Rattle.audit_replay.specs.Reran.{Reran};

    ghost Value = { Reran };

    ghost view = { λ r. record { fronts = r.followed.fronts.items; logs = r.followed.vnodes.items; fault = r.followed.fault; recent = r.followed.recent } };

    ghost invariant = { λ r. r.followed.fault ≡ None → HasFollowed r.followed.fronts.items r.followed.vnodes.items r.followed.last r.followed.recent r.followed.answers.items × IsNewest r.followed.vnodes.items r.followed.last r.followed.last_index };
}

impl Rerun {
    /// Nothing has happened at vnodes with these identifiers. Of each vnode it is kept what the recent entries answered: a merge may
    /// name any of these.
    pub fn new(
        alloc: Global,
        ids: &[u32],
        recent: Recent,
        start: Start,
    ) -> Result<Rerun, AllocError>
        requires distinct { AreDistinct ids.now }
        ensures logs { IfOk result (λ rerun. rerun.logs ≡ empty_logs ids.now) }
        ensures run { IfOk result (λ rerun. IsRunFrom rerun.fronts rerun.logs) }
        ensures fault { IfOk result (λ rerun. rerun.fault ≡ None) }
        ensures recent { IfOk result (λ rerun. rerun.recent ≡ recent) }
        ensures fronts { IfOk result (λ rerun. rerun.fronts ≡ start.fronts.items) }
    {
        let Start { seed, fronts } = start;
        Ok(Rerun {
            alloc,
            followed: open(alloc, seed, ids, fronts, recent)?,
        })
    }

    /// How many of the first entries of each vnode were there before the run, by index, as far as there is a number.
    pub fn fronts(&self) -> &[usize]
        ensures { result.now ≡ self.now.fronts }
    {
        &self.followed.fronts
    }

    /// How many vnodes there are.
    pub fn count(&self) -> usize
        ensures { result ≡ length self.now.logs }
    {
        self.followed.vnodes.len()
    }

    /// The identifier of the vnode with this index.
    pub fn id(&self, index: usize) -> u32
        requires inside { index < length self.now.logs }
        ensures { result ≡ (log_at self.now.logs index).vnode }
    {
        self.followed.vnodes[index].id()
    }

    /// The index of the vnode with an identifier.
    pub fn index_of(&self, id: u32) -> Option<usize>
        ensures { let logs = self.now.logs in MatchOption result ((index : ℕ) → index < length logs → (log_at logs index).vnode ≢ id) (λ index. (index < length logs) × ((log_at logs index).vnode ≡ id)) }
    {
        index_of(&self.followed.vnodes, id)
    }

    /// How many entries of the vnode with this index have happened.
    pub fn happened(&self, index: usize) -> usize
        requires inside { index < length self.now.logs }
        ensures len { result ≡ length (log_at self.now.logs index).entries }
        ensures limit { result ≤ max_entries }
    {
        self.followed.vnodes[index].journal().len()
    }

    /// Where the first full block of keys of the vnode with this index lies that it hasn't compared with another vnode's.
    pub fn uncompared(&self, index: usize) -> Option<BlockSpot>
        requires inside { index < length self.now.logs }
    {
        self.followed.vnodes[index].uncompared()
    }

    /// Has the vnode with this index take the memory of another vnode's block of keys in place of its own, where both are the same.
    pub fn share_keys(&mut self, index: usize, at: BlockSpot, block: KeyBlock)
        requires inside { index < length self.old.logs }
        ensures same { self.new ≡ self.old }
    {
        self.followed.vnodes[index].share_keys(at, block);
    }

    /// The fault that was found, if any. Where there is none, what has happened is one run of the world.
    pub fn fault(&self) -> Option<AuditFault>
        ensures fault { result ≡ self.now.fault }
        ensures run { result ≡ None → IsRunFrom self.now.fronts self.now.logs }
    {
        self.followed.fault
    }

    /// The next entry of the vnode with this index is taken over and happens again, where no fault was found: a put with its dot, a merge
    /// as the delivery of what the earlier read that it names answered, or as what it says where it is one of its vnode's front.
    ///
    /// A fault is that of this entry, and the last: from then on nothing happens. Of several faults its stamp's is told first, then that of
    /// its place behind the fronts, then its source's. A merge that names an answer that is no longer kept is told as such, and only then,
    /// though it may be right. After a fault what has happened before stays, and one entry more may be counted of this vnode.
    pub fn go_on(&mut self, index: usize, entry: Entry) -> Result<(), AuditFault>
        requires going { self.old.fault ≡ None }
        requires inside { index < length self.old.logs }
        ensures run { OnOk result (IsRunFrom self.old.fronts self.new.logs) }
        ensures next { OnOk result (self.new.logs ≡ with_entry_at self.old.logs index entry) }
        ensures right { OnOk result (IsAfterAll self.old.logs entry × IsFounded self.old.fronts self.old.logs index entry) }
        ensures held { OnOk result (IsHeld self.old.fronts self.old.logs self.old.recent index entry) }
        ensures going { OnOk result (self.new.fault ≡ None) }
        ensures fault { IfErr result (λ fault. self.new.fault ≡ Some fault) }
        ensures told { IfErr result (λ fault. IsToldOf self.old.fronts self.old.logs self.old.recent index entry fault) }
        ensures stays { OnErr result (MayHaveOneMore index self.old.logs self.new.logs) }
        ensures size { length self.new.logs ≡ length self.old.logs }
        ensures recent { self.new.recent ≡ self.old.recent }
        ensures fronts { self.new.fronts ≡ self.old.fronts }
    {
        match self.followed.check(index, &entry) {
            Ok(()) => self.followed.go_on(self.alloc, index, entry),
            Err(code) => self.followed.stop(index, code),
        }
    }

    /// The same of an entry that is lent: it is copied. A copy that is refused is want of memory, as any growth is.
    pub fn go_on_lent(&mut self, index: usize, entry: &Entry) -> Result<(), AuditFault>
        requires going { self.old.fault ≡ None }
        requires inside { index < length self.old.logs }
        ensures run { OnOk result (IsRunFrom self.old.fronts self.new.logs) }
        ensures next { OnOk result (self.new.logs ≡ with_entry_at self.old.logs index entry.now) }
        ensures right { OnOk result (IsAfterAll self.old.logs entry.now × IsFounded self.old.fronts self.old.logs index entry.now) }
        ensures held { OnOk result (IsHeld self.old.fronts self.old.logs self.old.recent index entry.now) }
        ensures going { OnOk result (self.new.fault ≡ None) }
        ensures fault { IfErr result (λ fault. self.new.fault ≡ Some fault) }
        ensures told { IfErr result (λ fault. IsToldOf self.old.fronts self.old.logs self.old.recent index entry.now fault) }
        ensures stays { OnErr result (MayHaveOneMore index self.old.logs self.new.logs) }
        ensures size { length self.new.logs ≡ length self.old.logs }
        ensures recent { self.new.recent ≡ self.old.recent }
        ensures fronts { self.new.fronts ≡ self.old.fronts }
    {
        match self.followed.check(index, entry) {
            Ok(()) => self.followed.go_on_lent(self.alloc, index, entry),
            Err(code) => self.followed.stop(index, code),
        }
    }
}
