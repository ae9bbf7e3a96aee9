//! Entries that wait happen again, in the order of their stamps.

ghost use Rattle.std.specs.Prelude.{◌≡◌, ◌≤◌, ◌<◌, ◌+◌, ◌⊎◌, OnOk, OnErr, IfErr, MatchOption, None, Some, drop, length, slice_set};
ghost use Rattle.journal.specs.Entry.{Entry as Entered};
ghost use Rattle.journal.specs.Stamps.{stamp_of};
ghost use Rattle.world.specs.Represents.{log_at, with_entry_at};
ghost use Rattle.audit_replay.specs.Reran.{GoOnFrom};
ghost use Rattle.audit_replay.specs.Runs.{IsRunFrom};
ghost use Rattle.audit_replay.specs.Wrong.{IsToldOf};
ghost use Rattle.audit_follower.specs.Stops.{IsStop};
ghost use Rattle.audit_follower.specs.Waiting.{AreTakenAlike, IsNext, NoneBelow, waiting_at};

use crate::queue::Queue;
use audit_faults::AuditFault;
use audit_replay::Rerun;

/// The next entry of a vnode.
#[derive(Clone, Copy, Drop)]
struct Head {
    index: usize,
    vnode: u32,
    stamp: u64,
}

impl Head {
    // Whether it comes before another: by stamp, and then by vnode.
    fn is_before(self, other: Head) -> bool {
        self.stamp < other.stamp || (self.stamp == other.stamp && self.vnode <= other.vnode)
    }
}

// The first of two.
fn first_of(a: Option<Head>, b: Option<Head>) -> Option<Head>
    ensures one { (result ≡ a) ⊎ (result ≡ b) }
    ensures none { result ≡ None → (a ≡ None) × (b ≡ None) }
{
    match (a, b) {
        (Some(own), Some(other)) => { if own.is_before(other) { a } else { b } }
        (Some(_), None) => a,
        (None, _) => b,
    }
}

/// What was followed of some vnodes, and what waits of each.
#[derive(Drop)]
pub(crate) struct Run {
    pub(crate) rerun: Rerun,
    pub(crate) waiting: Vec<Queue>,
}

impl Run {
    /// How many entries of a vnode were taken: those that were followed, and those that wait.
    pub(crate) fn taken(&self, index: usize) -> usize
        requires size { length self.now.waiting.items ≡ length self.now.rerun.logs }
        requires inside { index < length self.now.rerun.logs }
        ensures { result ≡ length (log_at self.now.rerun.logs index).entries + length (waiting_at self.now.waiting.items index) }
    {
        self.rerun.happened(index) + self.waiting[index].len()
    }

    // The next entry of a vnode, where its stamp is below a bound.
    fn head_of(&self, index: usize, below: u64) -> Option<Head>
        requires size { length self.now.waiting.items ≡ length self.now.rerun.logs }
        requires inside { index < length self.now.waiting.items }
        ensures { MatchOption result ((e : Entered) → IsNext self.now.waiting.items index e → below ≤ stamp_of e) (λ head. (head.index ≡ index) × ((e : Entered) × IsNext self.now.waiting.items index e × (stamp_of e < below))) }
    {
        let Some(entry) = self.waiting[index].first() else {
            return None;
        };
        let stamp = entry.stamp();
        if stamp < below {
            Some(Head {
                index,
                vnode: self.rerun.id(index),
                stamp,
            })
        } else {
            None
        }
    }

    // The vnode whose entry is next, of those with stamps below a bound.
    fn next_below(&self, below: u64) -> Option<usize>
        requires size { length self.now.waiting.items ≡ length self.now.rerun.logs }
        ensures { MatchOption result (NoneBelow self.now.waiting.items below) (λ index. (index < length self.now.rerun.logs) × ((e : Entered) × IsNext self.now.waiting.items index e × (stamp_of e < below))) }
    {
        let mut next = None;
        for index in 0..self.waiting.len() {
            next = first_of(next, self.head_of(index, below));
        }
        match next {
            Some(head) => Some(head.index),
            None => None,
        }
    }

    // The next entry of a vnode waits no longer, and happens again. Where it is refused nothing is followed any more.
    fn step(&mut self, index: usize) -> Result<(), AuditFault>
        requires size { length self.old.waiting.items ≡ length self.old.rerun.logs }
        requires going { self.old.rerun.fault ≡ None }
        requires inside { index < length self.old.rerun.logs }
        requires waits { (e : Entered) × IsNext self.old.waiting.items index e }
        ensures run { OnOk result (IsRunFrom self.old.rerun.fronts self.new.rerun.logs) }
        ensures next { OnOk result ((e : Entered) × IsNext self.old.waiting.items index e × (self.new.rerun.logs ≡ with_entry_at self.old.rerun.logs index e) × (self.new.waiting.items ≡ slice_set self.old.waiting.items index (drop 1 (waiting_at self.old.waiting.items index)))) }
        ensures going { OnOk result (self.new.rerun.fault ≡ None) }
        ensures fault { IfErr result (λ fault. self.new.rerun.fault ≡ Some fault) }
        ensures size { length self.new.waiting.items ≡ length self.new.rerun.logs }
        ensures recent { self.new.rerun.recent ≡ self.old.rerun.recent }
        ensures fronts { self.new.rerun.fronts ≡ self.old.rerun.fronts }
        ensures stays { OnErr result (GoOnFrom self.old.rerun.logs self.new.rerun.logs) }
        ensures told { IfErr result (λ fault. (e : Entered) × IsNext self.old.waiting.items index e × IsToldOf self.old.rerun.fronts self.old.rerun.logs self.old.rerun.recent index e fault) }
    {
        let Some(entry) = self.waiting[index].take_first() else {
            unreachable!()
        };
        self.rerun.go_on(index, entry)
    }

    /// All that waits with stamps below a bound happens again, in the order of stamps.
    pub(crate) fn follow(&mut self, below: u64) -> Result<(), AuditFault>
        requires size { length self.old.waiting.items ≡ length self.old.rerun.logs }
        requires going { self.old.rerun.fault ≡ None }
        requires run { IsRunFrom self.old.rerun.fronts self.old.rerun.logs }
        ensures run { OnOk result (IsRunFrom self.old.rerun.fronts self.new.rerun.logs) }
        ensures alike { OnOk result (AreTakenAlike self.old.rerun.logs self.old.waiting.items self.new.rerun.logs self.new.waiting.items) }
        ensures below { OnOk result (NoneBelow self.new.waiting.items below) }
        ensures going { OnOk result (self.new.rerun.fault ≡ None) }
        ensures fault { IfErr result (λ fault. self.new.rerun.fault ≡ Some fault) }
        ensures size { length self.new.waiting.items ≡ length self.new.rerun.logs }
        ensures recent { self.new.rerun.recent ≡ self.old.rerun.recent }
        ensures fronts { self.new.rerun.fronts ≡ self.old.rerun.fronts }
        ensures stays { OnErr result (GoOnFrom self.old.rerun.logs self.new.rerun.logs) }
        ensures stop { IfErr result (λ fault. IsStop self.old.rerun.fronts self.old.rerun.logs self.old.waiting.items below self.old.rerun.recent fault) }
    {
        while let Some(index) = self.next_below(below) {
            self.step(index)?;
        }
        Ok(())
    }
}
