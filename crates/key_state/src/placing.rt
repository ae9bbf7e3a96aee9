//! One sibling put into its place among others.

ghost use Rattle.std.specs.Prelude.{◌≡◌, ◌<◌, ◌≤◌, None, IfOk, length};
ghost use Rattle.smallvec.specs.SmallVec.{HasRoomFor};
ghost use Rattle.key_state.specs.State.{kept, content_at, AreInOrder};
ghost use Rattle.key_state.specs.Placing.{IsSiblingGap, InsertsSibling, ReplacesSeen};

use crate::content::{Sibling, Siblings};
use dvv::{Clock, Dot};
use std::alloc::{AllocError, Global};

// The siblings that a context doesn't cover, and a new one at its place among them.
pub(crate) fn replacing_seen(
    alloc: Global,
    siblings: &[Sibling],
    seen: &Clock,
    sibling: Sibling,
) -> Result<Siblings, AllocError>
    requires order { AreInOrder siblings.now }
    requires absent { content_at siblings.now sibling.dot ≡ None }
    ensures { IfOk result (λ new. ReplacesSeen siblings.now new.items seen.now sibling) }
{
    let mut new = copies_of_kept(alloc, siblings, seen)?;
    insert_sibling(&mut new, sibling);
    Ok(new)
}

// Copies of the siblings that a context doesn't cover, and room for one more: states are kept with each key, and take no more.
fn copies_of_kept(alloc: Global, siblings: &[Sibling], seen: &Clock) -> Result<Siblings, AllocError>
    ensures kept { IfOk result (λ copies. copies.items ≡ kept seen.now siblings.now) }
    ensures room { IfOk result (λ copies. HasRoomFor copies 1) }
{
    // No more of them than there are siblings.
    let _all = siblings.len();
    let mut copies = Siblings::with_capacity(alloc, count_kept(siblings, seen) + 1)?;
    for sibling in siblings {
        if !seen.covers(sibling.dot) {
            copies.push(sibling.copy()?)?;
        }
    }
    Ok(copies)
}

// How many siblings a context doesn't cover.
pub(crate) fn count_kept(siblings: &[Sibling], seen: &Clock) -> usize
    ensures { result ≡ length (kept seen.now siblings.now) }
{
    siblings
        .iter()
        .filter(|sibling| !seen.covers(sibling.dot))
        .count()
}

// Puts a sibling at its place. There is room for it, and none of its dot yet.
fn insert_sibling(siblings: &mut Siblings, sibling: Sibling)
    requires room { HasRoomFor siblings.old 1 }
    requires order { AreInOrder siblings.old.items }
    requires absent { content_at siblings.old.items sibling.dot ≡ None }
    ensures { InsertsSibling siblings.old.items siblings.new.items sibling }
{
    let at = place_of(siblings, sibling.dot);
    match siblings.insert(at, sibling) {
        Ok(()) => {}
        Err(_) => unreachable!(),
    }
}

// How many of the siblings come before a dot that none of them has.
fn place_of(siblings: &[Sibling], dot: Dot) -> usize
    requires order { AreInOrder siblings.now }
    requires absent { content_at siblings.now dot ≡ None }
    ensures { IsSiblingGap siblings.now result dot }
{
    for (i, sibling) in siblings.iter().enumerate() {
        if dot.is_before(sibling.dot) {
            return i;
        }
    }
    siblings.len()
}
