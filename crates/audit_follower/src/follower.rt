//! A follower.

ghost use Rattle.std.specs.Prelude.{◌≡◌, ◌≢◌, ◌<◌, ◌+◌, ◌++◌, ℕ, [], IfOk, IfErr, IfSome, OnOk, OnErr, Err, None, Some, length, replicate, slice_set, sum_by};
ghost use Rattle.world.specs.Represents.{AreDistinct, empty_logs, log_at};
ghost use Rattle.audit_faults.specs.declared.fault.AuditFault.{AuditFault as Faulted};
ghost use Rattle.audit_replay.specs.Reran.{GoOnFrom};
ghost use Rattle.audit_replay.specs.Runs.{IsRunFrom};
ghost use Rattle.audit_replay.specs.Sizes.{entry_bytes};
ghost use Rattle.audit_follower.specs.Stops.{HasStopped, IsStop};
ghost use Rattle.audit_follower.specs.Waiting.{AreTakenAlike, NoneBelow, taken_at, waiting_at};

use crate::queue::Queue;
use crate::run::Run;
use audit_faults::{AuditFault, TakeFault, WatchFault};
use audit_replay::{Recent, Rerun, Start};
use journal::Entry;
use std::alloc::{AllocError, Global};
use std::fmt;
use std::marker::Model;
use vnode::{BlockSpot, KeyBlock};

/// Entries that a follower didn't take, as they were.
#[derive(Drop)]
pub struct Untaken {
    /// Why not.
    pub why: TakeFault,
    /// The entries.
    pub entries: Vec<Entry>,
}

impl From<Untaken> for TakeFault {
    ghost use Rattle.std.specs.Prelude.{◌≡◌};

    ghost from_gives = { λ untaken fault. fault ≡ untaken.why };

    fn from(untaken: Untaken) -> Self {
        untaken.why
    }
}

impl From<Untaken> for WatchFault {
    ghost use Rattle.audit_faults.specs.Unsaid.{IsNoYes};

    ghost from_gives = { λ untaken fault. IsNoYes fault };

    fn from(untaken: Untaken) -> Self {
        WatchFault::from(untaken.why)
    }
}

impl fmt::Debug for Untaken {
    fn fmt<W: fmt::Write>(&self, f: &mut fmt::Formatter<W>) -> fmt::Result {
        write!(f, "{}", self.why)
    }
}

/// An auditor that goes along with vnodes: their journals are handed over in blocks, and happen again in the order of stamps, at
/// vnodes of its own that settle. What it has followed of all vnodes is one run of the world, as long as it has found no fault. So many of
/// the first entries of each vnode, its front, may have been there before: these are taken and happen again as the others do, but are no
/// part of the run.
#[derive(Drop)]
pub struct Follower {
    run: Run,
}

impl Model for Follower {
    ghost use Rattle.std.specs.Prelude.{◌≡◌, Some, length};
    ghost use Rattle.audit_faults.specs.declared.fault.AuditFault.{AuditFault as Faulted};
    ghost use Rattle.audit_follower.specs.Stops.{HasStopped};
    ghost use Rattle.audit_follower.specs.Waiting.{Taken};

    ghost Value = { Taken };

    ghost view = { λ f. record { fronts = f.run.rerun.fronts; followed = f.run.rerun.logs; waiting = f.run.waiting.items; fault = f.run.rerun.fault; recent = f.run.rerun.recent } };

    ghost invariant = { λ f. (length f.run.waiting.items ≡ length f.run.rerun.logs) × ((fault : Faulted) → f.run.rerun.fault ≡ Some fault → HasStopped f.run.rerun.fronts f.run.rerun.recent fault) };
}

// Nothing waits of so many vnodes.
fn queues(alloc: Global, count: usize) -> Result<Vec<Queue>, AllocError>
    ensures { IfOk result (λ queues. queues.items ≡ replicate count []) }
{
    let mut queues = Vec::new(alloc);
    for index in 0..count {
        queues.push(Queue::new(alloc))?;
    }
    Ok(queues)
}

impl Follower {
    /// A follower of vnodes with these identifiers, of which nothing was taken. Of each vnode it keeps what the recent entries answered
    /// that it has followed: a merge may name any of these.
    ///
    /// The fronts, as a store that begins with what it kept makes them, are taken with the other entries, and come first: their stamps are
    /// compared, and none of their sources is asked for. A merge behind them that names one of their entries has no source.
    pub fn new(
        alloc: Global,
        ids: &[u32],
        recent: Recent,
        start: Start,
    ) -> Result<Follower, AllocError>
        requires distinct { AreDistinct ids.now }
        ensures followed { IfOk result (λ follower. follower.followed ≡ empty_logs ids.now) }
        ensures waiting { IfOk result (λ follower. follower.waiting ≡ replicate (length ids.now) []) }
        ensures fault { IfOk result (λ follower. follower.fault ≡ None) }
        ensures recent { IfOk result (λ follower. follower.recent ≡ recent) }
        ensures fronts { IfOk result (λ follower. follower.fronts ≡ start.fronts.items) }
    {
        let waiting = queues(alloc, ids.len())?;
        Ok(Follower {
            run: Run {
                rerun: Rerun::new(alloc, ids, recent, start)?,
                waiting,
            },
        })
    }

    /// Takes the next entries of a vnode, of which the first stands at this place of its journal. They wait for their turn.
    ///
    /// `Unknown` where no vnode with this identifier is followed, and `Gap` where they don't begin where the last ones that were taken
    /// of this vnode ended. Entries that aren't taken are handed back, so that they may be tried again where a growth was refused.
    pub fn take(&mut self, vnode: u32, first: usize, entries: Vec<Entry>) -> Result<(), Untaken>
        ensures taken { OnOk result ((index : ℕ) × (index < length self.old.followed) × ((log_at self.old.followed index).vnode ≡ vnode) × (first ≡ taken_at self.old index) × (self.new.waiting ≡ slice_set self.old.waiting index (waiting_at self.old.waiting index ++ entries.items))) }
        ensures followed { self.new.followed ≡ self.old.followed }
        ensures fault { self.new.fault ≡ self.old.fault }
        ensures recent { self.new.recent ≡ self.old.recent }
        ensures fronts { self.new.fronts ≡ self.old.fronts }
        ensures unknown { IfErr result (λ left. left.why ≡ TakeFault.Unknown → (index : ℕ) → index < length self.old.followed → (log_at self.old.followed index).vnode ≢ vnode) }
        ensures gap { IfErr result (λ left. left.why ≡ TakeFault.Gap → (index : ℕ) × (index < length self.old.followed) × ((log_at self.old.followed index).vnode ≡ vnode) × (first ≢ taken_at self.old index)) }
        ensures back { IfErr result (λ left. left.entries.items ≡ entries.items) }
        ensures err { OnErr result (self.new.waiting ≡ self.old.waiting) }
    {
        let Some(index) = self.run.rerun.index_of(vnode) else {
            let why = TakeFault::Unknown;
            return Err(Untaken { why, entries });
        };
        self.take_at(index, first, entries)
    }

    /// How many of the first entries of each vnode were there before the run, by index, as far as there is a number.
    pub fn fronts(&self) -> &[usize]
        ensures { result.now ≡ self.now.fronts }
    {
        self.run.rerun.fronts()
    }

    /// How many vnodes are followed.
    pub fn count(&self) -> usize
        ensures count { result ≡ length self.now.followed }
        ensures waiting { result ≡ length self.now.waiting }
    {
        self.run.rerun.count()
    }

    /// The identifier of the vnode with this index.
    pub fn id(&self, index: usize) -> u32
        requires inside { index < length self.now.followed }
        ensures { result ≡ (log_at self.now.followed index).vnode }
    {
        self.run.rerun.id(index)
    }

    /// How many entries of the vnode with this index were followed.
    pub fn followed(&self, index: usize) -> usize
        requires inside { index < length self.now.followed }
        ensures { result ≡ length (log_at self.now.followed index).entries }
    {
        self.run.rerun.happened(index)
    }

    /// How many entries of the vnode with this index were taken: those that were followed, and those that wait.
    pub fn taken(&self, index: usize) -> usize
        requires inside { index < length self.now.followed }
        ensures { result ≡ taken_at self.now index }
    {
        self.run.taken(index)
    }

    /// How many entries of the vnode with this index wait for their turn.
    pub fn waiting(&self, index: usize) -> usize
        requires inside { index < length self.now.followed }
        ensures { result ≡ length (waiting_at self.now.waiting index) }
    {
        self.run.waiting[index].len()
    }

    /// How many bytes the contents have of the entries of the vnode with this index that wait for their turn: those of what puts write
    /// and of the states that are merged, each as often as it stands there.
    pub fn waiting_bytes(&self, index: usize) -> u128
        requires inside { index < length self.now.followed }
        ensures { result ≡ sum_by entry_bytes (waiting_at self.now.waiting index) }
    {
        self.run.waiting[index].bytes()
    }

    /// Where the first full block of keys of its own vnode with this index lies that wasn't compared with another vnode's.
    pub fn uncompared(&self, index: usize) -> Option<BlockSpot>
        requires inside { index < length self.now.followed }
    {
        self.run.rerun.uncompared(index)
    }

    /// Has its own vnode with this index take the memory of another vnode's block of keys in place of its own, where both are the same. The
    /// vnode that it follows has the same keys in the same order, where both were made by one seed.
    pub fn share_keys(&mut self, index: usize, at: BlockSpot, block: KeyBlock)
        requires inside { index < length self.old.followed }
        ensures same { self.new ≡ self.old }
    {
        self.run.rerun.share_keys(index, at, block);
    }

    /// Takes the next entries of the vnode with this index, as [`Follower::take`] does.
    pub fn take_at(
        &mut self,
        index: usize,
        first: usize,
        entries: Vec<Entry>,
    ) -> Result<(), Untaken>
        requires inside { index < length self.old.followed }
        ensures taken { OnOk result ((first ≡ taken_at self.old index) × (self.new ≡ record self.old { waiting = slice_set self.old.waiting index (waiting_at self.old.waiting index ++ entries.items) })) }
        ensures gap { IfErr result (λ left. left.why ≡ TakeFault.Gap → first ≢ taken_at self.old index) }
        ensures known { IfErr result (λ left. left.why ≢ TakeFault.Unknown) }
        ensures back { IfErr result (λ left. left.entries.items ≡ entries.items) }
        ensures err { OnErr result (self.new ≡ self.old) }
    {
        if first != self.run.taken(index) {
            let why = TakeFault::Gap;
            return Err(Untaken { why, entries });
        }
        match self.take_next(index, entries) {
            Ok(()) => Ok(()),
            Err(entries) => {
                let why = TakeFault::NoMemory;
                Err(Untaken { why, entries })
            }
        }
    }

    /// Takes more entries of the vnode with this index, which stand behind those that were taken of it. Where a growth is refused they are
    /// handed back.
    pub fn take_next(&mut self, index: usize, entries: Vec<Entry>) -> Result<(), Vec<Entry>>
        requires inside { index < length self.old.followed }
        ensures taken { OnOk result (self.new ≡ record self.old { waiting = slice_set self.old.waiting index (waiting_at self.old.waiting index ++ entries.items) }) }
        ensures back { IfErr result (λ back. back.items ≡ entries.items) }
        ensures err { OnErr result (self.new ≡ self.old) }
    {
        self.run.waiting[index].add(entries)
    }

    /// Follows all that was taken with stamps below a bound, in the order of stamps: each put accepted with its dot, each merge the
    /// delivery of what the earlier read that it names answered, or as what it says where it is one of a front. So from each beginning of
    /// the world that has led to the fronts, all is one run; where there is no front, from nothing on.
    ///
    /// The first fault is told, at the vnode and the place of its entry, which waits no longer. It is the last: from then on nothing is
    /// followed, and it is told again. What was followed before stays, and of the fault's vnode one entry more may be counted. A merge that
    /// names an answer that is no longer kept is told as such, though it may be right. A bound is to be one below which no stamp is drawn
    /// any more: an entry that comes later is told as late, and so is one that is behind its front before all fronts are whole.
    pub fn follow(&mut self, below: u64) -> Result<(), AuditFault>
        ensures yes { OnOk result (IsRunFrom self.old.fronts self.new.followed) }
        ensures alike { OnOk result (AreTakenAlike self.old.followed self.old.waiting self.new.followed self.new.waiting) }
        ensures below { OnOk result (NoneBelow self.new.waiting below) }
        ensures none { OnOk result (self.new.fault ≡ None) }
        ensures fault { IfErr result (λ fault. self.new.fault ≡ Some fault) }
        ensures stop { self.old.fault ≡ None → IfErr result (λ fault. IsStop self.old.fronts self.old.followed self.old.waiting below self.old.recent fault) }
        ensures stays { OnErr result (GoOnFrom self.old.followed self.new.followed) }
        ensures again { (fault : Faulted) → self.old.fault ≡ Some fault → (result ≡ Err fault) × (self.new ≡ self.old) }
        ensures recent { self.new.recent ≡ self.old.recent }
        ensures fronts { self.new.fronts ≡ self.old.fronts }
    {
        if let Some(fault) = self.run.rerun.fault() {
            return Err(fault);
        }
        self.run.follow(below)
    }

    /// The fault that was found, if any. Where there is none, what was followed is one run of the world.
    pub fn fault(&self) -> Option<AuditFault>
        ensures fault { result ≡ self.now.fault }
        ensures run { result ≡ None → IsRunFrom self.now.fronts self.now.followed }
        ensures stopped { IfSome result (λ fault. HasStopped self.now.fronts self.now.recent fault) }
    {
        self.run.rerun.fault()
    }
}
