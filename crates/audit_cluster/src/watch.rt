//! A follower beside a cluster that serves.

ghost use Rattle.std.specs.Prelude.{◌≡◌, ◌≢◌, ◌+◌, ◌<◌, ◌≤◌, ◌^◌, ◌↔◌, ℕ, [], None, All, IfOk, IfSome, IsTrue, MatchBool, OnErr, length, vec_len};
ghost use Rattle.cluster_vnode.specs.Calls.{pass_view};
ghost use Rattle.journal.specs.Blocks.{all_of};
ghost use Rattle.audit_follower.specs.Waiting.{bytes_waiting, count_waiting, taken_at, waiting_at};
ghost use Rattle.world.specs.Represents.{log_at};
ghost use Rattle.audit_cluster.specs.Following.{AreRestarts, IsHandedAmiss, IsNotNext, IsToldMore, Rouses, WaitsLittle, with_more};

use crate::limits::{MOST_BEHIND_BYTES, MOST_BEHIND_ENTRIES, RECENT, SHARED_AT_ONCE_BLOCKS};
use audit_faults::{TakeFault, WatchFault};
use audit_follower::{Follower, Start};
use cluster::{Cluster, Pass, Room};
use cluster_stamps::Request;
use journal::{BLOCK, Entry, Handout};
use std::alloc::{AllocError, Global};
use std::collections::VecDeque;
use std::marker::{Brand, Model};
use std::sync::Wait;
use thiserror::Error;

/// Says from which identifier on the vnodes of a cluster are numbered. Each call of a program that opens a cluster picks it.
pub trait Spot {
    ghost first: { ℕ };
}

impl Spot for Brand {
    ghost first = { 0 };
}

/// What is told at once while a cluster serves.
#[derive(Clone, Copy, Debug, PartialEq, Eq, Drop, Error)]
pub enum Notice {
    /// The journals aren't found to be one run. Nothing is followed any more.
    #[error("followed {0}")]
    Stopped(WatchFault),
}

/// Is told what can't wait.
pub trait Alarm {
    /// Tells it.
    fn raise(&self, notice: Notice);
}

/// A follower beside a cluster that serves: it has the vnodes hand out their full blocks, which its pass is told, and follows them.
///
/// An entry is followed once all that comes before it was handed out, so a vnode at which nothing happens would hold the others up: where
/// much waits, it is started again until it hands out, too.
///
/// Where memory is refused for what was handed out, it is kept, and taken before anything else is handed out.
#[derive(Drop)]
pub struct Watch<B: Room + Spot> {
    pub(crate) pass: Pass<B>,
    /// The identifier from which on the vnodes are numbered, and how many are followed.
    pub(crate) first: u32,
    pub(crate) vnodes: usize,
    pub(crate) follower: Follower,
    /// The number after the last stamp that each vnode handed out: what is still to come from it has no lower one.
    ends: Vec<u64>,
    /// An empty block for the next entries of a vnode that has none.
    next: Vec<Entry>,
    /// The number below which all was followed.
    reached: u64,
    /// What was handed out and not taken yet.
    pub(crate) left: Option<Left>,
    /// Why a block can't be taken.
    pub(crate) lost: Option<TakeFault>,
    /// Whether it was told that nothing is followed any more.
    told: bool,
}

impl<B: Room + Spot> Model for Watch<B> {
    ghost use Rattle.std.specs.Prelude.{◌≡◌, All, None};
    ghost use Rattle.audit_cluster.specs.Following.{IsOfWatch, Watched, Watches, answers_kept, with_left};

    ghost Value = { Watched };

    ghost view = { λ w. record { told = w.pass.told; taken = w.follower; lost = w.lost } };

    ghost invariant = { λ w. (w.first ≡ B.first) × (w.follower.recent ≡ answers_kept) × All IsOfWatch w.pass.told × (w.lost ≡ None → Watches B.first w.vnodes w.pass.told (with_left w.follower w.left)) };
}

/// Blocks that a vnode handed out, and that weren't taken yet: memory was refused.
#[derive(Drop)]
pub(crate) struct Left {
    /// The index of the vnode.
    pub(crate) index: usize,
    /// The blocks, in turn.
    pub(crate) blocks: VecDeque<Vec<Entry>>,
    /// The number after the last stamp in them.
    end: u64,
}

// The number after the stamp of the last entry that was handed out.
fn end_of(handout: &Handout) -> u64 {
    match handout.blocks.last() {
        Some(block) => match block.last() {
            Some(entry) => entry.stamp().saturating_add(1),
            None => 0,
        },
        None => 0,
    }
}

// Takes blocks of the vnode with an index, in turn, behind what was taken of it. Whether all were taken: those for which memory was
// refused stay.
fn take_blocks(follower: &mut Follower, index: usize, blocks: &mut VecDeque<Vec<Entry>>) -> bool
    ensures same { with_more follower.new index (all_of blocks.new.items) ≡ with_more follower.old index (all_of blocks.old.items) }
    ensures all { IsTrue result → (index < length follower.new.waiting) × (all_of blocks.new.items ≡ []) }
{
    if index >= follower.count() {
        return false;
    }
    while let Some(block) = blocks.pop_front() {
        if let Err(block) = follower.take_next(index, block) {
            blocks.push_front_reserved(block);
            return false;
        }
    }
    true
}

// What the vnode with an index handed out, to be taken: it begins where the last that was taken of it ended.
fn left_of(follower: &Follower, index: usize, handout: Handout) -> Result<Left, TakeFault>
    ensures left { IfOk result (λ left. (left.index ≡ index) × (left.blocks.items ≡ handout.blocks.items) × (index < length follower.now.followed) × (index < length follower.now.waiting) × (handout.first ≡ taken_at follower.now index)) }
    ensures err { OnErr result (IsNotNext follower.now index handout.first) }
{
    if index >= follower.count() {
        return Err(TakeFault::Unknown);
    }
    if handout.first != follower.taken(index) {
        return Err(TakeFault::Gap);
    }
    let end = end_of(&handout);
    let blocks = VecDeque::from_vec(handout.blocks);
    Ok(Left { index, blocks, end })
}

// Starts the vnode with an index again, under its lock, until it has more than a block of entries behind so many: so a block of them is
// full. At most so often that it has them, whatever it had.
fn fill_block<B: Room + Spot, R: Wait>(
    rt: &R,
    cluster: &Cluster<B>,
    pass: &mut Pass<B>,
    index: usize,
    entries: usize,
)
    requires inside { index < cluster.now.vnodes }
    ensures { AreRestarts (cluster.now.first + index) 1025 pass.old.told pass.new.told }
{
    for _ in 0..BLOCK + 1 {
        match cluster.call(rt, pass, index, &Request::Restart) {
            Ok((_, receipt)) => {
                if receipt.place as usize >= entries.saturating_add(BLOCK) {
                    break;
                }
            }
            Err(_) => break,
        }
    }
}

// Has the follower's vnode with an index take the memory of full blocks of keys from the one that it follows, at most four of
// them, after that one took it from the first vnode: so vnodes that heard of the same keys in the same order hold these once.
fn share_keys_of<B: Room, R: Wait>(
    rt: &R,
    cluster: &Cluster<B>,
    follower: &mut Follower,
    index: usize,
)
    requires cluster { index < cluster.now.vnodes }
    requires follower { index < length follower.old.followed }
    ensures { follower.new ≡ follower.old }
{
    for _ in 0..SHARED_AT_ONCE_BLOCKS {
        let Some(at) = follower.uncompared(index) else {
            break;
        };
        cluster.share_keys(rt, index, at);
        let Some(block) = cluster.key_block(rt, index, at) else {
            break;
        };
        follower.share_keys(index, at, block);
    }
}

impl<B: Room + Spot> Watch<B> {
    /// A follower of so many vnodes, numbered from the first identifier on, of which nothing was handed out. The last of the passes, which
    /// were told nothing, is told what they hand out.
    ///
    /// The entries of the fronts are there before anything else happens, as a store that begins with what it kept makes them. What comes
    /// behind them is followed as a run from there on. `AllocError` where a growth was refused: the pass is lost then.
    pub fn new(
        alloc: Global,
        passes: &mut Vec<Pass<B>>,
        first: u32,
        vnodes: usize,
        start: Start,
    ) -> Result<Watch<B>, AllocError>
        requires first { first ≡ B.first }
        requires few { first + vnodes ≤ 2 ^ 32 }
        requires some { 0 < vec_len passes.old }
        requires fresh { All (λ p. p ≡ pass_view 0 []) passes.old.items }
        ensures passes { vec_len passes.new + 1 ≡ vec_len passes.old }
        ensures told { IfOk result (λ watch. watch.told ≡ []) }
        ensures vnodes { IfOk result (λ watch. length watch.taken.followed ≡ vnodes) }
        ensures fronts { IfOk result (λ watch. watch.taken.fronts ≡ start.fronts.items) }
    {
        let Some(pass) = passes.pop() else {
            unreachable!();
        };
        let mut ids = Vec::new(alloc);
        let mut ends = Vec::new(alloc);
        for index in 0..vnodes {
            ids.push(first + index as u32)?;
            ends.push(0)?;
        }
        Ok(Watch {
            pass,
            first,
            vnodes,
            follower: Follower::new(alloc, &ids, RECENT, start)?,
            ends,
            next: Vec::new(alloc),
            reached: 0,
            left: None,
            lost: None,
            told: false,
        })
    }

    // Why nothing is followed any more.
    fn stopped(&self) -> Option<WatchFault> {
        if let Some(fault) = self.follower.fault() {
            return Some(WatchFault::Found(fault));
        }
        match self.lost {
            Some(why) => Some(WatchFault::from(why)),
            None => None,
        }
    }

    // Takes what was handed out and not taken yet, as far as there is memory. Where nothing is followed any more it is let go.
    pub(crate) fn take_left(&mut self)
        ensures told { self.new.told ≡ self.old.told }
        ensures lost { self.new.lost ≡ self.old.lost }
    {
        if self.lost.is_some() || self.follower.fault().is_some() {
            self.left = None;
            return;
        }
        let Some(mut left) = self.left.take() else {
            return;
        };
        if !take_blocks(&mut self.follower, left.index, &mut left.blocks) {
            self.left = Some(left);
            return;
        }
        if let Some(end) = self.ends.get_mut(left.index) {
            *end = left.end;
        }
    }

    /// Has the vnode with an index hand out its full blocks, under its lock, and takes them. What was handed out before is taken first:
    /// while there is no memory for it, nothing more is handed out. Where nothing is followed any more they are let go, and from a block on
    /// that doesn't begin where the last one of its vnode ended nothing is followed any more.
    pub fn hear<R: Wait>(&mut self, rt: &R, cluster: &Cluster<B>, index: usize)
        requires first { cluster.now.first ≡ B.first }
        requires inside { index < cluster.now.vnodes }
        ensures told { IsToldMore self.old.told self.new.told }
        ensures loses { self.old.lost ≡ None → self.new.lost ≢ None → IsHandedAmiss (B.first + index) index self.new.taken self.old.told self.new.told }
    {
        self.take_left();
        if self.left.is_some() {
            return;
        }
        // It is empty as it is. Where there is no memory the vnode asks for it itself, once it needs it.
        self.next.clear();
        let _ = self.next.reserve_exact(BLOCK);
        let Some(handout) = cluster.hand_out(rt, &mut self.pass, index, &mut self.next) else {
            return;
        };
        if self.lost.is_some() || self.follower.fault().is_some() {
            return;
        }
        match left_of(&self.follower, index, handout) {
            Ok(left) => {
                self.left = Some(left);
                self.take_left();
            }
            Err(why) => self.lost = Some(why),
        }
    }

    // The number below which all stamps were handed out.
    fn below(&self) -> u64 {
        let mut below = u64::MAX;
        for end in &self.ends {
            below = below.min(*end);
        }
        below
    }

    /// Follows what was taken, as far as all that comes before it was handed out, too, but no more than so many stamps further than
    /// before. Whether there is more to follow. That nothing is followed any more is told, once.
    pub fn follow_some<A: Alarm>(&mut self, stamps: u64, alarm: &A) -> bool
        ensures told { self.new.told ≡ self.old.told }
    {
        if self.told {
            return false;
        }
        let below = self.below();
        let bound = below.min(self.reached.saturating_add(stamps));
        if self.lost.is_none() {
            // What it answers is its fault, which it keeps.
            let _ = self.follower.follow(bound);
        }
        if let Some(fault) = self.stopped() {
            self.told = true;
            alarm.raise(Notice::Stopped(fault));
            return false;
        }
        self.reached = bound;
        bound < below
    }

    // Whether so much waits that vnodes at which nothing happens are not to hold it up.
    fn is_held_up(&self) -> bool
        ensures { IsTrue result → WaitsLittle self.now.taken → ⊥ }
    {
        !(self.can_go_on(MOST_BEHIND_ENTRIES) && self.holds_less(MOST_BEHIND_BYTES))
    }

    /// Where 8,192 entries wait to be followed, or 32 MiB of contents, has each vnode of a cluster of which none waits fill its block: it
    /// is started again, at most 1,025 times, each an event of its journal. What it hands out then lets the others be followed.
    ///
    /// Where nothing is followed any more, or memory was refused for what was handed out, it does nothing.
    pub fn rouse<R: Wait>(&mut self, rt: &R, cluster: &Cluster<B>)
        requires first { cluster.now.first ≡ B.first }
        ensures told { Rouses B.first self.old.taken self.old.told self.new.told }
        ensures little { WaitsLittle self.old.taken → self.new.told ≡ self.old.told }
        ensures taken { self.new.taken ≡ self.old.taken }
    {
        if self.stopped().is_some() || self.left.is_some() || !self.is_held_up() {
            return;
        }
        for index in 0..cluster.count().min(self.follower.count()) {
            if self.follower.waiting(index) == 0 {
                let entries = self.follower.followed(index);
                fill_block(rt, cluster, &mut self.pass, index, entries);
            }
        }
    }

    // Has each of the follower's vnodes take the memory of full blocks of keys from the one that it follows, at most four of them.
    fn share_keys<R: Wait>(&mut self, rt: &R, cluster: &Cluster<B>)
        ensures { self.new ≡ self.old }
    {
        for index in 0..cluster.count().min(self.follower.count()) {
            share_keys_of(rt, cluster, &mut self.follower, index);
        }
    }

    /// Has each vnode of a cluster hand out its full blocks: [`Watch::hear`] of each.
    pub fn hear_each<R: Wait>(&mut self, rt: &R, cluster: &Cluster<B>)
        requires first { cluster.now.first ≡ B.first }
        ensures told { IsToldMore self.old.told self.new.told }
    {
        for index in 0..cluster.count() {
            self.hear(rt, cluster, index);
        }
    }

    /// Has each vnode of a cluster hand out its full blocks: [`Watch::hear_each`], and then [`Watch::rouse`]. Of the
    /// keys that were followed full blocks are then held once, by the vnode and the follower's.
    pub fn hear_all<R: Wait>(&mut self, rt: &R, cluster: &Cluster<B>)
        requires first { cluster.now.first ≡ B.first }
        ensures told { IsToldMore self.old.told self.new.told }
    {
        self.hear_each(rt, cluster);
        self.rouse(rt, cluster);
        self.share_keys(rt, cluster);
    }

    /// How many entries of the vnode with an index were followed. None where no such vnode is.
    pub fn followed(&self, index: usize) -> Option<usize>
        ensures some { IfSome result (λ count. (index < length self.now.taken.followed) × (count ≡ length (log_at self.now.taken.followed index).entries)) }
        ensures none { result ≡ None ↔ (length self.now.taken.followed ≤ index) }
    {
        if index < self.follower.count() {
            Some(self.follower.followed(index))
        } else {
            None
        }
    }

    /// Whether fewer than so many entries wait to be followed, of all vnodes together.
    pub fn can_go_on(&self, many: usize) -> bool
        ensures { MatchBool result (count_waiting self.now.taken.waiting < many) (many ≤ count_waiting self.now.taken.waiting) }
    {
        let mut left = many;
        for index in 0..self.follower.count() {
            let waiting = self.follower.waiting(index);
            if waiting > left {
                return false;
            }
            left -= waiting;
        }
        left > 0
    }

    /// Whether the contents of the entries that wait to be followed, of all vnodes together, have fewer than so many bytes: those of what
    /// puts write and of the states that are merged, each as often as it stands there.
    pub fn holds_less(&self, bytes: u64) -> bool
        ensures { MatchBool result (bytes_waiting self.now.taken.waiting < bytes) (bytes ≤ bytes_waiting self.now.taken.waiting) }
    {
        let mut left = u128::from(bytes);
        for index in 0..self.follower.count() {
            let waiting = self.follower.waiting_bytes(index);
            if waiting > left {
                return false;
            }
            left -= waiting;
        }
        left > 0
    }

    /// Has each vnode of a cluster hand out its full blocks, and follows all of them: [`Watch::hear_all`] and [`Watch::follow_some`].
    pub fn turn<R: Wait, A: Alarm>(&mut self, rt: &R, cluster: &Cluster<B>, alarm: &A)
        requires first { cluster.now.first ≡ B.first }
        ensures told { IsToldMore self.old.told self.new.told }
    {
        self.hear_all(rt, cluster);
        self.follow_some(u64::MAX, alarm);
    }
}
