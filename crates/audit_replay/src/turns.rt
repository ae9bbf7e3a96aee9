//! Whose entry is next: the lowest stamp of those that are to come.

ghost use Rattle.std.specs.Prelude.{◌≡◌, ◌<◌, ◌≤◌, length, slice_get, IfOk, IfSome, MatchOption, OnOk, Some};
ghost use Rattle.std.specs.Option.{option_copied};
ghost use Rattle.journal.specs.Entry.{Entry as Entered};
ghost use Rattle.journal.specs.Logs.{max_entries};
ghost use Rattle.world.specs.Represents.{log_at};
ghost use Rattle.audit_replay.specs.Turns.{AreHeads, IsHead, IsHeadOf, IsNextBelow, Joins, Leaves, NoneBelow, count_at};

use crate::heads::{Head, Heads};
use journal::{Entry, Whole};
use std::alloc::{AllocError, Global};

// Whose journal the one with this index is.
pub(crate) fn vnode_at(journals: &[Whole<'_>], index: usize) -> u32
    requires { index < length journals.now }
    ensures { result ≡ (log_at journals.now index).vnode }
{
    journals[index].vnode()
}

// The entry at a place of the journal with this index.
pub(crate) fn entry_at<'a, 'b>(
    journals: &'a [Whole<'b>],
    index: usize,
    place: usize,
) -> Option<&'a Entry>
    requires { index < length journals.now }
    ensures { option_copied result ≡ slice_get (log_at journals.now index).entries place }
{
    let journal = &journals[index];
    if place < journal.len() {
        journal.get(place as u64)
    } else {
        None
    }
}

// The first entry of a journal that is to come, where there is one.
fn head_of(journals: &[Whole<'_>], counts: &[usize], index: usize) -> Option<Head>
    requires inside { index < length journals.now }
    requires size { length counts.now ≡ length journals.now }
    ensures { MatchOption result ((e : Entered) → IsHead journals.now counts.now index e → ⊥) (λ head. IsHeadOf journals.now counts.now index head) }
{
    match entry_at(journals, index, counts[index]) {
        Some(entry) => Some(Head {
            index,
            vnode: vnode_at(journals, index),
            stamp: entry.stamp(),
        }),
        None => None,
    }
}

// The head of a journal comes to others, where it has one.
pub(crate) fn join(
    journals: &[Whole<'_>],
    counts: &[usize],
    index: usize,
    heads: &mut Heads,
) -> Result<(), AllocError>
    requires inside { index < length journals.now }
    requires size { length counts.now ≡ length journals.now }
    ensures { OnOk result (Joins journals.now counts.now index heads.old heads.new) }
{
    match head_of(journals, counts, index) {
        Some(head) => heads.push(head),
        None => Ok(()),
    }
}

// The heads of all journals.
pub(crate) fn heads_of(
    alloc: Global,
    journals: &[Whole<'_>],
    counts: &[usize],
) -> Result<Heads, AllocError>
    requires size { length counts.now ≡ length journals.now }
    ensures { IfOk result (λ heads. AreHeads journals.now counts.now heads) }
{
    let mut heads = Heads::new(alloc);
    for index in 0..journals.len() {
        join(journals, counts, index, &mut heads)?;
    }
    Ok(heads)
}

// How many entries the journal with this index has.
pub(crate) fn len_at(journals: &[Whole<'_>], index: usize) -> usize
    requires inside { index < length journals.now }
    ensures len { result ≡ length (log_at journals.now index).entries }
    ensures limit { result ≤ max_entries }
{
    journals[index].len()
}

// The place of the next entry of all.
fn place_at(journals: &[Whole<'_>], counts: &[usize], head: Head) -> usize
    requires size { length counts.now ≡ length journals.now }
    requires next { IsNextBelow journals.now counts.now (length journals.now) head }
    ensures place { result ≡ count_at counts.now head.index }
    ensures limit { result < max_entries }
{
    // What every journal keeps of its length is told with it.
    let _len = len_at(journals, head.index);
    counts[head.index]
}

// The next entry of all: its journal's head, which leaves the others, and its place there.
pub(crate) fn next_of(
    journals: &[Whole<'_>],
    counts: &[usize],
    heads: &mut Heads,
) -> Option<(Head, usize)>
    requires size { length counts.now ≡ length journals.now }
    requires heads { AreHeads journals.now counts.now heads.old }
    ensures limit { IfSome result (λ next. next.1 < max_entries) }
    ensures next { MatchOption result (NoneBelow journals.now counts.now (length journals.now)) (λ next. IsNextBelow journals.now counts.now (length journals.now) next.0 × (next.1 ≡ count_at counts.now next.0.index) × Leaves heads.old next.0 heads.new) }
{
    match heads.pop() {
        Some(head) => Some((head, place_at(journals, counts, head))),
        None => None,
    }
}
