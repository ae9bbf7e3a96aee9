//! Whether the stamps rise in each journal, and no two journals have one.

ghost use Rattle.std.specs.Prelude.{◌≡◌, ◌≢◌, ◌⊎◌, ◌<◌, ◌≤◌, ◌^◌, length, slice_get, map, IfSome, IfErr, OnOk, MatchBool, MatchOption, None, Some};
ghost use Rattle.world.specs.Represents.{log_at, AreDistinct};
ghost use Rattle.journal.specs.Stamps.{stamp_of};
ghost use Rattle.audit_replay.specs.Interleaved.{ids_of};
ghost use Rattle.audit_replay.specs.Turns.{EntryIn, count_at};
ghost use Rattle.audit_replay.specs.Faulty.{NoneFalls, NoneTwice, IsFault, IsFaultAt};
ghost use Rattle.audit_replay.specs.Sorting.{NoneFallsIn, IsFallOf, IsFallNotAfter, NoneFallsBelow, IsFirstFallBelow};
ghost use Rattle.journal.specs.Entry.{Entry as Entered};
ghost use Rattle.audit_faults.specs.declared.fault.EntryFault.TheVariants.{Falls, Twice};
ghost use Rattle.audit_faults.specs.Codes.{IsOneOf};

use crate::turns::{entry_at, heads_of, join, len_at, next_of, vnode_at};
use audit_faults::{AuditFault, EntryFault};
use journal::Whole;
use std::alloc::Global;

/// A place whose stamp isn't above the one before it.
#[derive(Clone, Copy, Drop)]
pub(crate) struct Fall {
    pub(crate) vnode: u32,
    pub(crate) place: usize,
}

impl Fall {
    // Whether it comes before another: by vnode, and then by place.
    fn is_before(self, other: Fall) -> bool
        ensures { MatchBool result (IsFallNotAfter self other) (IsFallNotAfter other self) }
    {
        self.vnode < other.vnode || (self.vnode == other.vnode && self.place <= other.place)
    }
}

// The stamp at a place of the journal with this index.
fn stamp_at(journals: &[Whole<'_>], index: usize, place: usize) -> u64
    requires inside { index < length journals.now }
    requires there { place < length (log_at journals.now index).entries }
    ensures { (e : Entered) × EntryIn journals.now index place e × (result ≡ stamp_of e) }
{
    match entry_at(journals, index, place) {
        Some(entry) => entry.stamp(),
        None => unreachable!(),
    }
}

// The first place of a journal whose stamp isn't above the one before it.
fn fall_of(journals: &[Whole<'_>], index: usize) -> Option<Fall>
    requires inside { index < length journals.now }
    ensures { let logs = journals.now in MatchOption result (NoneFallsIn logs index (length (log_at logs index).entries)) (λ fall. IsFallOf logs index fall) }
{
    for place in 1..len_at(journals, index) {
        if stamp_at(journals, index, place) <= stamp_at(journals, index, place - 1) {
            return Some(Fall {
                vnode: vnode_at(journals, index),
                place,
            });
        }
    }
    None
}

// The first of two.
fn first_of(a: Option<Fall>, b: Option<Fall>) -> Option<Fall>
    ensures one { (result ≡ a) ⊎ (result ≡ b) }
    ensures first { MatchOption result ((a ≡ None) × (b ≡ None)) (λ fall. IfSome a (λ other. IsFallNotAfter fall other) × IfSome b (λ other. IsFallNotAfter fall other)) }
{
    match (a, b) {
        (Some(own), Some(other)) => { if own.is_before(other) { a } else { b } }
        (Some(_), None) => a,
        (None, _) => b,
    }
}

// The first place of all, by vnode and then by place.
fn first_fall(journals: &[Whole<'_>]) -> Option<Fall>
    ensures { let logs = journals.now in MatchOption result (NoneFallsBelow logs (length journals.now)) (λ fall. IsFirstFallBelow logs (length journals.now) fall) }
{
    let mut first = None;
    for index in 0..journals.len() {
        first = first_of(first, fall_of(journals, index));
    }
    first
}

/// Tests that the stamps rise in each journal.
pub fn check_rising(journals: &[Whole<'_>]) -> Result<(), AuditFault>
    ensures ok { OnOk result (NoneFalls journals.now) }
    ensures err { IfErr result (IsFault journals.now) }
    ensures codes { IfErr result (IsOneOf (λ code. code ≡ Falls)) }
{
    match first_fall(journals) {
        Some(fall) => Err(AuditFault::Found {
            code: EntryFault::Falls,
            vnode: fall.vnode,
            place: fall.place,
        }),
        None => Ok(()),
    }
}

// Whether a stamp is the last one.
fn is_last(last: Option<u64>, stamp: u64) -> bool
    ensures { MatchBool result (last ≡ Some stamp) (last ≢ Some stamp) }
{
    match last {
        Some(last) => last == stamp,
        None => false,
    }
}

/// Tests that no stamp stands in two journals. The stamps rise in each.
pub fn check_single(alloc: Global, journals: &[Whole<'_>]) -> Result<(), AuditFault>
    requires distinct { AreDistinct (ids_of journals.now) }
    requires rising { NoneFalls journals.now }
    ensures ok { OnOk result (NoneTwice journals.now) }
    ensures err { IfErr result (IsFault journals.now) }
    ensures codes { IfErr result (IsOneOf (λ code. code ≡ Twice)) }
{
    let mut counts = vec![in alloc; 0; journals.len()]?;
    let mut heads = heads_of(alloc, journals, &counts)?;
    let mut last = None;
    while let Some((head, place)) = next_of(journals, &counts, &mut heads) {
        if is_last(last, head.stamp) {
            return Err(AuditFault::Found {
                code: EntryFault::Twice,
                vnode: head.vnode,
                place,
            });
        }
        last = Some(head.stamp);
        counts[head.index] = place + 1;
        join(journals, &counts, head.index, &mut heads)?;
    }
    Ok(())
}
