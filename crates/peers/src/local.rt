//! The vnodes of one thread, some of whose calls may be lost.

ghost use Rattle.std.specs.Prelude.{◌≡◌, ◌<◌, ◌≤◌, ◌^◌, ◌==◌, [], length, slice_get, IfOk, MatchOption, Some, None, if◌then◌else◌, is_err};
ghost use Rattle.std.specs.List.{list_any};
ghost use Rattle.peers.specs.Calls.{PutAt, MergeAt, StateOf, SummaryAt, MergePartAt, is_merged};
ghost use Rattle.peers.specs.Locals.{Does, KeysIn, MergesPartIn, fresh, counted};

use crate::{Answer, PartAnswer, PeerFault, Peers, SummaryAnswer};
use dvv::{Clock, Dot, VNODES_PER_INCARNATION};
use key_state::{Content, Key, KeyState, Part};
use ring::{MAX_COPIES, Placement};
use std::alloc::{AllocError, Global};
use std::marker::Model;
use vnode::{PartFault, Vnode, VnodeFault};

/// Vnodes that one thread owns, the numbers of the calls that are lost and not made, and of those that are made and whose answers
/// are lost.
#[derive(Drop)]
pub struct Local {
    alloc: Global,
    vnodes: Vec<Vnode>,
    first: Option<u32>,
    lost: Vec<u64>,
    unheard: Vec<u64>,
    calls: u64,
    stamp: u64,
    failures: u64,
}

impl Model for Local {
    ghost use Rattle.std.specs.Prelude.{length};
    ghost use Rattle.ring.specs.Places.{IsPlaced};
    ghost use Rattle.peers.specs.Locals.{LocalView};

    ghost Value = { LocalView };

    ghost view = { λ l. record { logs = l.vnodes.items; first = l.first; lost = l.lost.items; unheard = l.unheard.items; calls = l.calls; stamp = l.stamp; failures = l.failures } };

    ghost invariant = { λ l. IsPlaced l.first (length l.vnodes.items) };
}

impl Local {
    /// So many vnodes of an incarnation, with nothing written. A key's place is by its digest.
    pub fn open(alloc: Global, n: u32, incarnation: u16) -> Result<Local, AllocError>
        requires { n ≤ 255 }
        ensures { IfOk result (λ local. local ≡ record { logs = fresh incarnation n; first = None; lost = []; unheard = []; calls = 0; stamp = 0; failures = 0 }) }
    {
        Ok(Local {
            alloc,
            vnodes: fresh_vnodes(alloc, n, incarnation)?,
            first: None,
            lost: Vec::new(alloc),
            unheard: Vec::new(alloc),
            calls: 0,
            stamp: 0,
            failures: 0,
        })
    }

    /// The same, with one place for every key.
    pub fn open_first(
        alloc: Global,
        n: u32,
        incarnation: u16,
        first: u32,
    ) -> Result<Local, AllocError>
        requires few { n ≤ 255 }
        requires first { first < n }
        ensures { IfOk result (λ local. local ≡ record { logs = fresh incarnation n; first = Some first; lost = []; unheard = []; calls = 0; stamp = 0; failures = 0 }) }
    {
        Ok(Local {
            alloc,
            vnodes: fresh_vnodes(alloc, n, incarnation)?,
            first: Some(first),
            lost: Vec::new(alloc),
            unheard: Vec::new(alloc),
            calls: 0,
            stamp: 0,
            failures: 0,
        })
    }

    /// From now on the calls of these numbers, counted from 0, are lost: they are not made. Of the others, those that
    /// [`lose_answers`](Local::lose_answers) named are still made and come back as lost, by their numbers from now on.
    pub fn lose(&mut self, lost: Vec<u64>)
        ensures { self.new ≡ record self.old { lost = lost.items; calls = 0 } }
    {
        self.lost = lost;
        self.calls = 0;
    }

    /// From now on the answers of the calls of these numbers, counted from 0, are lost: they are made, and come back as lost. Those
    /// that [`lose`](Local::lose) named are still not made, by their numbers from now on.
    pub fn lose_answers(&mut self, unheard: Vec<u64>)
        ensures { self.new ≡ record self.old { unheard = unheard.items; calls = 0 } }
    {
        self.unheard = unheard;
        self.calls = 0;
    }

    /// The vnodes.
    pub fn vnodes(&self) -> &[Vnode]
        ensures { result.now ≡ self.now.logs }
    {
        &self.vnodes
    }

    /// Where keys stand among the vnodes, with as many copies of each as can be had.
    pub fn placement(&self) -> Placement
        requires some { 0 < length self.now.logs }
        requires few { length self.now.logs < 2 ^ 32 }
        ensures { result ≡ record { vnodes = length self.now.logs; copies = 3; first = self.now.first } }
    {
        let vnodes = self.vnodes.len() as u32;
        match self.first {
            Some(first) => Placement::at_one(vnodes, first, MAX_COPIES),
            None => Placement::by_digest(vnodes, MAX_COPIES),
        }
    }

    // Whether the next call is to be lost.
    fn loses(&self) -> bool
        ensures { result ≡ list_any (λ n. n == self.now.calls) self.now.lost }
    {
        let now = self.calls;
        self.lost.iter().any(|n| *n == now)
    }

    // Whether the answer of the next call is to be lost.
    fn loses_answer(&self) -> bool
        ensures { result ≡ list_any (λ n. n == self.now.calls) self.now.unheard }
    {
        let now = self.calls;
        self.unheard.iter().any(|n| *n == now)
    }

    // What comes back of a call that came to this, or was not made and is lost: this, or that it is lost. Counts the call, and the
    // entry that it added.
    fn hand_back<T: Drop>(
        &mut self,
        added: bool,
        back: Result<T, PeerFault>,
    ) -> Result<T, PeerFault>
        ensures heard { result ≡ (if list_any (λ n. n == self.old.calls) self.old.unheard then Err PeerFault.Lost else back) }
        ensures counted { self.new ≡ record self.old { calls = counted self.old.calls; stamp = if added then counted self.old.stamp else self.old.stamp; failures = if is_err result then counted self.old.failures else self.old.failures } }
    {
        let heard = if self.loses_answer() {
            Err(PeerFault::Lost)
        } else {
            back
        };
        self.count(added, heard.is_err());
        heard
    }

    // Counts a call that was made, or was lost.
    fn count(&mut self, added: bool, failed: bool)
        ensures { self.new ≡ record self.old { calls = counted self.old.calls; stamp = if added then counted self.old.stamp else self.old.stamp; failures = if failed then counted self.old.failures else self.old.failures } }
    {
        self.calls = self.calls.saturating_add(1);
        if added {
            self.stamp = self.stamp.saturating_add(1);
        }
        if failed {
            self.failures = self.failures.saturating_add(1);
        }
    }
}

// So many vnodes of an incarnation, with nothing written.
fn fresh_vnodes(alloc: Global, n: u32, incarnation: u16) -> Result<Vec<Vnode>, AllocError>
    requires { n ≤ 255 }
    ensures { IfOk result (λ vnodes. vnodes.items ≡ fresh incarnation n) }
{
    let mut vnodes = Vec::with_capacity(alloc, n as usize)?;
    let first = u32::from(incarnation) * VNODES_PER_INCARNATION;
    for index in 0..n {
        vnodes.push(Vnode::new(alloc, first + index))?;
    }
    Ok(vnodes)
}

// Puts at a vnode that is there.
fn put_at(
    vnodes: &mut Vec<Vnode>,
    stamp: u64,
    i: usize,
    key: &Key,
    seen: &Clock,
    content: &Content,
) -> Result<Dot, PeerFault>
    ensures does { Does stamp vnodes.old.items (PutAt i key.now seen.now content.now result) vnodes.new.items }
    ensures all { length vnodes.new.items ≡ length vnodes.old.items }
{
    match vnodes.get_mut(i) {
        None => Err(PeerFault::Lost),
        Some(vnode) => match vnode.put_lent(stamp, key, seen, content) {
            Ok(put) => Ok(put.dot),
            Err(fault) => Err(PeerFault::Refused(fault)),
        },
    }
}

// Merges at a vnode that is there.
fn merge_at(
    vnodes: &mut Vec<Vnode>,
    stamp: u64,
    i: usize,
    key: &Key,
    from: u32,
    at: u64,
    state: &KeyState,
) -> Result<bool, PeerFault>
    ensures does { Does stamp vnodes.old.items (MergeAt i key.now from at state.now result) vnodes.new.items }
    ensures all { length vnodes.new.items ≡ length vnodes.old.items }
{
    match vnodes.get_mut(i) {
        None => Err(PeerFault::Lost),
        Some(vnode) => match vnode.merge_lent(stamp, key, from, at, state) {
            Ok(merge) => Ok(merge.changed),
            Err(fault) => Err(PeerFault::Refused(fault)),
        },
    }
}

// Reads at a vnode that is there.
fn read_at(vnodes: &mut Vec<Vnode>, stamp: u64, i: usize, key: &Key) -> Result<Answer, PeerFault>
    ensures does { Does stamp vnodes.old.items (StateOf i key.now result) vnodes.new.items }
    ensures all { length vnodes.new.items ≡ length vnodes.old.items }
{
    match vnodes.get_mut(i) {
        None => Err(PeerFault::Lost),
        Some(vnode) => {
            let from = vnode.journal().vnode();
            match vnode.read(stamp, key) {
                Ok((state, at)) => Ok(Answer { from, at, state }),
                Err(fault) => Err(PeerFault::Refused(fault)),
            }
        }
    }
}

// Reads a summary at a vnode that is there.
fn summary_at(
    vnodes: &mut Vec<Vnode>,
    stamp: u64,
    i: usize,
    key: &Key,
) -> Result<SummaryAnswer, PeerFault>
    ensures does { Does stamp vnodes.old.items (SummaryAt i key.now result) vnodes.new.items }
    ensures all { length vnodes.new.items ≡ length vnodes.old.items }
{
    match vnodes.get_mut(i) {
        None => Err(PeerFault::Lost),
        Some(vnode) => {
            let from = vnode.journal().vnode();
            match vnode.summary(stamp, key) {
                Ok((summary, at)) => Ok(SummaryAnswer { from, at, summary }),
                Err(fault) => Err(PeerFault::Refused(fault)),
            }
        }
    }
}

// Merges a part at a vnode.
fn merge_part_in(
    vnode: &mut Vnode,
    stamp: u64,
    key: &Key,
    from: u32,
    at: u64,
    part: &Part,
) -> Result<PartAnswer, PeerFault>
    ensures { MergesPartIn stamp key.now from at part.now vnode.old result vnode.new }
{
    journal::laws::replays_are_one();
    match vnode.merge_part_lent(stamp, key, from, at, part) {
        Ok(merge) => Ok(PartAnswer::Merged(merge.changed)),
        Err(PartFault::Missing) => Ok(PartAnswer::Missing),
        Err(PartFault::Refused(fault)) => Err(PeerFault::Refused(fault)),
    }
}

// Merges a part at a vnode that is there.
fn merge_part_at(
    vnodes: &mut Vec<Vnode>,
    stamp: u64,
    i: usize,
    key: &Key,
    from: u32,
    at: u64,
    part: &Part,
) -> Result<PartAnswer, PeerFault>
    ensures does { Does stamp vnodes.old.items (MergePartAt i key.now from at part.now result) vnodes.new.items }
    ensures all { length vnodes.new.items ≡ length vnodes.old.items }
{
    match vnodes.get_mut(i) {
        None => Err(PeerFault::Lost),
        Some(vnode) => merge_part_in(vnode, stamp, key, from, at, part),
    }
}

// Whether a part was merged, and so added an entry.
fn is_merged(back: &Result<PartAnswer, PeerFault>) -> bool
    ensures { result ≡ is_merged back.now }
{
    matches!(back, Ok(PartAnswer::Merged(_)))
}

// Names the keys of a vnode that is there.
fn keys_at(vnodes: &[Vnode], i: usize) -> Result<Vec<Key>, PeerFault>
    ensures { MatchOption (slice_get vnodes.now i) (result ≡ Err PeerFault.Lost) (λ log. KeysIn log result) }
{
    match vnodes.get(i) {
        None => Err(PeerFault::Lost),
        Some(vnode) => match vnode.keys() {
            Ok(keys) => Ok(keys),
            Err(_) => Err(PeerFault::Refused(VnodeFault::NoMemory)),
        },
    }
}

impl Peers for Local {
    ghost use Rattle.std.specs.Prelude.{refl};
    ghost use Rattle.peers.specs.Locals.{LocalStep};

    ghost happens = { LocalStep };

    ghost failures = { λ l. l.failures };

    ghost origin = { λ l. 0 };

    ghost counted = { λ old new call h. h.count };

    ghost stays = { λ old new call h. refl };

    fn put_at(
        &mut self,
        i: usize,
        key: &Key,
        seen: &Clock,
        content: &Content,
    ) -> Result<Dot, PeerFault> {
        let back = if self.loses() {
            Err(PeerFault::Lost)
        } else {
            put_at(&mut self.vnodes, self.stamp, i, key, seen, content)
        };
        self.hand_back(back.is_ok(), back)
    }

    fn merge_at(
        &mut self,
        i: usize,
        key: &Key,
        from: u32,
        at: u64,
        state: &KeyState,
    ) -> Result<bool, PeerFault> {
        let back = if self.loses() {
            Err(PeerFault::Lost)
        } else {
            merge_at(&mut self.vnodes, self.stamp, i, key, from, at, state)
        };
        self.hand_back(back.is_ok(), back)
    }

    fn state_of(&mut self, i: usize, key: &Key) -> Result<Answer, PeerFault> {
        let back = if self.loses() {
            Err(PeerFault::Lost)
        } else {
            read_at(&mut self.vnodes, self.stamp, i, key)
        };
        self.hand_back(back.is_ok(), back)
    }

    fn summary_at(&mut self, i: usize, key: &Key) -> Result<SummaryAnswer, PeerFault> {
        let back = if self.loses() {
            Err(PeerFault::Lost)
        } else {
            summary_at(&mut self.vnodes, self.stamp, i, key)
        };
        self.hand_back(back.is_ok(), back)
    }

    fn merge_part_at(
        &mut self,
        i: usize,
        key: &Key,
        from: u32,
        at: u64,
        part: &Part,
    ) -> Result<PartAnswer, PeerFault> {
        let back = if self.loses() {
            Err(PeerFault::Lost)
        } else {
            merge_part_at(&mut self.vnodes, self.stamp, i, key, from, at, part)
        };
        self.hand_back(is_merged(&back), back)
    }

    fn keys_of(&mut self, i: usize) -> Result<Vec<Key>, PeerFault> {
        let back = if self.loses() {
            Err(PeerFault::Lost)
        } else {
            keys_at(&self.vnodes, i)
        };
        self.hand_back(false, back)
    }

    fn expect(&mut self, _key: &Key) {}

    // These vnodes are told no places.
    fn ring_place(&mut self, _key: &Key) -> Option<u32> {
        None
    }

    fn learn_ring_place(&self, _key: &Key, _told: u32) {}

    fn failures(&self) -> u64 {
        self.failures
    }
}
