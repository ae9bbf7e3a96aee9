//! The few entries of a clock that lie beside a sibling, in a state itself.

ghost use Rattle.std.specs.Prelude.{◌≡◌, ◌∷◌, [], IfSome};
ghost use Rattle.smallvec.specs.SmallVec.{HasRoomFor};
ghost use Rattle.key_state.specs.Few.{beside, few_clock, first_beside, second_beside, short_of};

use dvv::{Clock, Dot, Entries, VNODES_PER_NUMBER};
use std::alloc::Global;
use std::mem::size_of;

/// So many indexes are told apart here: a store has three vnodes.
const INDEXES: u8 = 4;

// The entries of a clock beside one of them, as they come: at most two, each of up to 65,535 events, of which none is no entry. Each one's
// vnode is told by its index, up to 3, and by how much lower the number of its start is, up to 63. So this serves the clocks of one start,
// and those of starts that are less than 64 numbers, some minutes, apart.
#[derive(Clone, Copy)]
pub(crate) struct Others {
    first_n: u16,
    second_n: u16,
    first_vnode: u8,
    second_vnode: u8,
}

// They lie beside the tag of what is held.
const _: () = prove!(size_of::<Others>() == 6);

impl Others {
    // The first of them, beside that dot.
    fn first(self, dot: Dot) -> Dot
        ensures { result ≡ first_beside dot self }
    {
        beside(dot, self.first_vnode, self.first_n)
    }

    // The second of them, beside that dot.
    fn second(self, dot: Dot) -> Dot
        ensures { result ≡ second_beside dot self }
    {
        beside(dot, self.second_vnode, self.second_n)
    }
}

// The last of n events beside a dot.
fn beside(dot: Dot, vnode: u8, n: u16) -> Dot
    ensures { result ≡ beside dot vnode n }
{
    let older = u32::from(vnode / INDEXES);
    let number = (dot.vnode / VNODES_PER_NUMBER).saturating_sub(older);
    Dot {
        vnode: number * VNODES_PER_NUMBER + u32::from(vnode % INDEXES),
        n: u64::from(n),
    }
}

// Which vnode an entry is of, beside a dot, where that is told in a byte.
fn vnode_beside(dot: Dot, entry: Dot) -> Option<u8> {
    let number = entry.vnode / VNODES_PER_NUMBER;
    let index = u8::try_from(entry.vnode % VNODES_PER_NUMBER).ok()?;
    if index >= INDEXES {
        return None;
    }
    let older = u8::try_from((dot.vnode / VNODES_PER_NUMBER).checked_sub(number)?).ok()?;
    older.checked_mul(INDEXES)?.checked_add(index)
}

// A byte for the vnode of an entry beside a dot, and its number, if there is one: none of no events where there is none.
fn told_beside(dot: Dot, entry: Option<&Dot>) -> Option<(u8, u16)> {
    match entry {
        None => Some((0, 0)),
        Some(entry) => Some((vnode_beside(dot, *entry)?, u16::try_from(entry.n).ok()?)),
    }
}

// The entries beside a dot, where they are few and young, and the dot is one of them.
pub(crate) fn others_of(alloc: Global, dot: Dot, entries: &[Dot]) -> Option<Others>
    ensures { IfSome result (λ others. few_clock dot others ≡ entries.now) }
{
    let others = others_than(dot, entries)?;
    if entries_of(alloc, dot, others).as_slice() == entries {
        Some(others)
    } else {
        None
    }
}

// Those of one, two or three entries that aren't a dot.
fn others_than(dot: Dot, entries: &[Dot]) -> Option<Others> {
    let (first, second) = match entries {
        [_] => (None, None),
        [first, second] if *first == dot => (Some(second), None),
        [first, _] => (Some(first), None),
        [first, second, third] if *first == dot => (Some(second), Some(third)),
        [first, second, third] if *second == dot => (Some(first), Some(third)),
        [first, second, _] => (Some(first), Some(second)),
        _ => return None,
    };
    let (first_vnode, first_n) = told_beside(dot, first)?;
    let (second_vnode, second_n) = told_beside(dot, second)?;
    Some(Others {
        first_n,
        second_n,
        first_vnode,
        second_vnode,
    })
}

// The entries of a clock that has these beside a dot.
pub(crate) fn entries_of(alloc: Global, dot: Dot, others: Others) -> Entries
    ensures { result.items ≡ few_clock dot others }
{
    let (first, second) = (others.first(dot), others.second(dot));
    if second.n > 0 {
        if second.vnode < dot.vnode {
            three(alloc, first, second, dot)
        } else if first.vnode < dot.vnode {
            three(alloc, first, dot, second)
        } else {
            three(alloc, dot, first, second)
        }
    } else if first.n > 0 {
        if first.vnode < dot.vnode {
            two(alloc, first, dot)
        } else {
            two(alloc, dot, first)
        }
    } else {
        one(alloc, dot)
    }
}

fn one(alloc: Global, dot: Dot) -> Entries
    ensures items { result.items ≡ dot ∷ [] }
    ensures room { HasRoomFor result 2 }
{
    let mut entries = Entries::new(alloc);
    entries.push_reserved(dot);
    entries
}

fn two(alloc: Global, first: Dot, second: Dot) -> Entries
    ensures items { result.items ≡ first ∷ second ∷ [] }
    ensures room { HasRoomFor result 1 }
{
    let mut entries = one(alloc, first);
    entries.push_reserved(second);
    entries
}

fn three(alloc: Global, first: Dot, second: Dot, third: Dot) -> Entries
    ensures { result.items ≡ first ∷ second ∷ third ∷ [] }
{
    let mut entries = two(alloc, first, second);
    entries.push_reserved(third);
    entries
}

// The clock, where it has up to three entries, and else that of no event. It takes no memory.
pub(crate) fn short_of(alloc: Global, clock: &Clock) -> Clock
    ensures { result ≡ short_of clock.now }
{
    match clock.entries() {
        [first] => Clock::of(one(alloc, *first)),
        [first, second] => Clock::of(two(alloc, *first, *second)),
        [first, second, third] => Clock::of(three(alloc, *first, *second, *third)),
        _ => Clock::new(alloc),
    }
}
