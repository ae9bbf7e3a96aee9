//! Two clocks walked side by side, vnode by vnode.

ghost use Rattle.std.specs.Prelude.{◌≡◌, ◌+◌, ◌≤◌, ◌⊎◌, ◌↔◌, [], IsTrue, IfOk, IfNone, IfSome, max};
ghost use Rattle.dvv.specs.Clock.{counter, Within, IsUnion, vnodes_together, IsClock, AreRising, IsNextVnode, after_vnode, most_entries};

use crate::Dot;
use crate::clock::Entries;
use std::alloc::{AllocError, Global};

// How many vnodes have an entry on either side.
pub(crate) fn vnodes_together(own: &[Dot], other: &[Dot]) -> usize
    requires own { IsClock own.now }
    requires other { IsClock other.now }
    ensures { result ≡ vnodes_together own.now other.now }
{
    let (mut own_left, mut other_left) = (own, other);
    let mut count = 0;
    while let Some((_, own_rest, other_rest)) = next_vnode(own_left, other_left) {
        count += 1;
        own_left = own_rest;
        other_left = other_rest;
    }
    count
}

// The entries of so many vnodes, each with the greater counter.
pub(crate) fn union_of(
    alloc: Global,
    own: &[Dot],
    other: &[Dot],
    vnodes: usize,
) -> Result<Entries, AllocError>
    requires own { IsClock own.now }
    requires other { IsClock other.now }
    requires room { vnodes ≤ most_entries }
    requires vnodes { vnodes ≡ vnodes_together own.now other.now }
    ensures clock { IfOk result (λ union. IsClock union.items) }
    ensures union { IfOk result (λ union. IsUnion own.now other.now union.items) }
{
    let mut union = Entries::with_capacity(alloc, vnodes)?;
    let (mut own_left, mut other_left) = (own, other);
    while let Some((counts, own_rest, other_rest)) = next_vnode(own_left, other_left) {
        union.push_reserved(counts.greater());
        own_left = own_rest;
        other_left = other_rest;
    }
    Ok(union)
}

// Whether no vnode counts more events here than there. It ends with the first side's entries.
pub(crate) fn is_within(small: &[Dot], large: &[Dot]) -> bool
    requires small { IsClock small.now }
    requires large { IsClock large.now }
    ensures { IsTrue result ↔ Within small.now large.now }
{
    let (mut small_left, mut large_left) = (small, large);
    while let Some((counts, small_rest, large_rest)) = next_vnode_of(small_left, large_left) {
        if counts.own > counts.other {
            return false;
        }
        small_left = small_rest;
        large_left = large_rest;
    }
    true
}

// How many events of a vnode two clocks count, 0 where one has no entry for it.
#[derive(Clone, Copy)]
struct Counts {
    vnode: u32,
    own: u64,
    other: u64,
}

impl Counts {
    // The vnode's last event on either side.
    fn greater(self) -> Dot
        ensures { result ≡ record { vnode = self.vnode; n = max self.own self.other } }
    {
        Dot {
            vnode: self.vnode,
            n: self.own.max(self.other),
        }
    }
}

// The counts of the lowest vnode, and the entries after it on both sides.
fn next_vnode<'a>(own: &'a [Dot], other: &'a [Dot]) -> Option<(Counts, &'a [Dot], &'a [Dot])>
    requires own { AreRising 0 own.now }
    requires other { AreRising 0 other.now }
    ensures none { IfNone result ((own.now ≡ []) × (other.now ≡ [])) }
    ensures next { IfSome result (λ next. IsNextVnode own.now other.now next.0.vnode next.0.own next.0.other next.1.now next.2.now) }
{
    let vnode = lowest_vnode(own, other)?;
    let (own, own_rest) = split_vnode(own, vnode);
    let (other, other_rest) = split_vnode(other, vnode);
    Some((Counts { vnode, own, other }, own_rest, other_rest))
}

// The same while the first side has entries left.
fn next_vnode_of<'a>(first: &'a [Dot], other: &'a [Dot]) -> Option<(Counts, &'a [Dot], &'a [Dot])>
    requires own { AreRising 0 first.now }
    requires other { AreRising 0 other.now }
    ensures none { IfNone result (first.now ≡ []) }
    ensures next { IfSome result (λ next. IsNextVnode first.now other.now next.0.vnode next.0.own next.0.other next.1.now next.2.now) }
{
    if first.is_empty() {
        return None;
    }
    next_vnode(first, other)
}

// The lowest vnode that has an entry on either side.
fn lowest_vnode(own: &[Dot], other: &[Dot]) -> Option<u32>
    requires own { AreRising 0 own.now }
    requires other { AreRising 0 other.now }
    ensures none { IfNone result ((own.now ≡ []) × (other.now ≡ [])) }
    ensures own { IfSome result (λ vnode. AreRising vnode own.now) }
    ensures other { IfSome result (λ vnode. AreRising vnode other.now) }
    ensures some { IfSome result (λ vnode. (1 ≤ counter own.now vnode) ⊎ (1 ≤ counter other.now vnode)) }
{
    match (own.first(), other.first()) {
        (Some(own), Some(other)) => Some(own.vnode.min(other.vnode)),
        (Some(only), None) | (None, Some(only)) => Some(only.vnode),
        (None, None) => None,
    }
}

// How many events of the vnode are counted where none is lower, and the entries after it.
fn split_vnode(entries: &[Dot], vnode: u32) -> (u64, &[Dot])
    requires { AreRising vnode entries.now }
    ensures count { result.0 ≡ counter entries.now vnode }
    ensures rest { result.1.now ≡ after_vnode vnode entries.now }
{
    let [first, rest @ ..] = entries else {
        return (0, entries);
    };
    if first.vnode == vnode {
        (first.n, rest)
    } else {
        (0, entries)
    }
}
