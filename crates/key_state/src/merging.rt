//! The siblings of two sides, gone over together.

ghost use Rattle.std.specs.Prelude.{◌≡◌, ◌++◌, ◌∷◌, [], ◌⊎◌, ◌<◌, length, drop, IfOk};
ghost use Rattle.std.specs.List.{list_any};
ghost use Rattle.dvv.specs.Clock.{covers};
ghost use Rattle.key_state.specs.State.{kept, AreInOrder};

use crate::content::{Sibling, Siblings};
use dvv::Clock;
use std::alloc::{AllocError, Global};

// Whose next sibling has the lowest dot.
pub(crate) enum Side {
    Own,
    Other,
    Both,
}

ghost use Rattle.key_state.specs.Merging.{IsNext, MergesSiblings, drops_some};

// The siblings that a merge leaves, in one pass over both sides.
pub(crate) fn merge_siblings(
    alloc: Global,
    own: &[Sibling],
    own_clock: &Clock,
    others: &[Sibling],
    other_clock: &Clock,
) -> Result<Siblings, AllocError>
    requires order { AreInOrder own.now }
    requires others_order { AreInOrder others.now }
    ensures { IfOk result (λ siblings. MergesSiblings own.now own_clock.now others.now other_clock.now siblings.items) }
{
    let mut merged = Siblings::with_capacity(alloc, own.len().max(others.len()))?;
    let mut i = 0;
    let mut j = 0;
    while i < own.len() || j < others.len() {
        match next_side(own, i, others, j) {
            Side::Own => {
                push_uncovered(&mut merged, &own[i], other_clock)?;
                i += 1;
            }
            Side::Other => {
                push_uncovered(&mut merged, &others[j], own_clock)?;
                j += 1;
            }
            Side::Both => {
                merged.push(own[i].copy()?)?;
                i += 1;
                j += 1;
            }
        }
    }
    // A state is kept with its key, and most of a merge may have been dropped.
    merged.shrink_to_fit();
    Ok(merged)
}

// Whether one of the siblings is covered by the other side's clock and not held there, in one pass over both sides.
pub(crate) fn drops_some(others: &[Sibling], other_clock: &Clock, own: &[Sibling]) -> bool
    requires order { AreInOrder own.now }
    requires others_order { AreInOrder others.now }
    ensures { result ≡ drops_some others.now other_clock.now own.now }
{
    let mut i = 0;
    let mut j = 0;
    while i < own.len() {
        match next_side(own, i, others, j) {
            Side::Own if other_clock.covers(own[i].dot) => return true,
            Side::Own => i += 1,
            Side::Other => j += 1,
            Side::Both => {
                i += 1;
                j += 1;
            }
        }
    }
    false
}

// Whether a clock covers one of the siblings.
pub(crate) fn covers_some(clock: &Clock, siblings: &[Sibling]) -> bool
    ensures { result ≡ list_any (λ s. covers clock.now s.dot) siblings.now }
{
    siblings.iter().any(|sibling| clock.covers(sibling.dot))
}

// Adds a copy of a sibling that a clock doesn't cover.
fn push_uncovered(
    siblings: &mut Siblings,
    sibling: &Sibling,
    clock: &Clock,
) -> Result<(), AllocError>
    ensures { IfOk result (λ _. siblings.new.items ≡ siblings.old.items ++ kept clock.now (sibling.now ∷ [])) }
{
    if !clock.covers(sibling.dot) {
        siblings.push(sibling.copy()?)?;
    }
    Ok(())
}

// Whose sibling is the next, from these places on.
fn next_side(own: &[Sibling], i: usize, others: &[Sibling], j: usize) -> Side
    requires left { (i < length own.now) ⊎ (j < length others.now) }
    requires order { AreInOrder own.now }
    requires others_order { AreInOrder others.now }
    ensures { IsNext (drop i own.now) (drop j others.now) result }
{
    if j >= others.len() {
        return Side::Own;
    }
    if i >= own.len() {
        return Side::Other;
    }
    let (dot, other) = (own[i].dot, others[j].dot);
    if dot.is_before(other) {
        return Side::Own;
    }
    if other.is_before(dot) {
        return Side::Other;
    }
    Side::Both
}
