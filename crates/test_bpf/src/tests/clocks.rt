//! Clocks as tables of vnodes and counters.

ghost use Rattle.std.specs.Prelude.{◌≡◌, []};

use dvv::{Clock, ClockFault, Dot};
use std::alloc::Global;
use std::test::Fail;

/// The entries of a clock: vnodes, and how many events of each.
pub(crate) type Entries = &'static [(u32, u64)];

/// Adds the next event of a vnode.
fn add_next(clock: &mut Clock, vnode: u32) -> Result<(), ClockFault> {
    let n = clock.counter(vnode) + 1;
    clock.add(Dot { vnode, n })
}

/// Adds so many events of each vnode.
fn add_all(clock: &mut Clock, counts: &[(u32, u64)]) -> Result<(), ClockFault> {
    for &(vnode, count) in counts {
        for _ in 0..count {
            add_next(clock, vnode)?;
        }
    }
    Ok(())
}

/// The clock that counts so many events of each vnode.
pub(crate) fn clock_of(alloc: Global, counts: &[(u32, u64)]) -> Result<Clock, ClockFault> {
    let mut clock = Clock::new(alloc);
    add_all(&mut clock, counts)?;
    Ok(clock)
}

/// Whether the clock has these entries, in this order.
pub(crate) fn shows(clock: &Clock, want: &[(u32, u64)]) -> bool {
    let entries = clock.entries();
    entries.len() == want.len()
        && entries
            .iter()
            .zip(want)
            .all(|(entry, pair)| entry.vnode == pair.0 && entry.n == pair.1)
}

/// Whether a clock that gets further events shows what it has to, as its copy does.
fn grows(alloc: Global) -> Result<bool, ClockFault> {
    let mut clock = clock_of(alloc, &[(4, 2), (9, 1), (0, 3)])?;
    let before = shows(&clock, &[(0, 3), (4, 2), (9, 1)]);
    add_all(&mut clock, &[(4, 1), (7, 1), (0, 1), (10, 1)])?;
    let copy = clock.copy(alloc)?;
    Ok(before && shows(&copy, &[(0, 4), (4, 3), (7, 1), (9, 1), (10, 1)]))
}

#[test]
fn adds_the_next_event(rt: HostRuntime) -> Result<(), Fail> {
    assert!(rt; grows(rt.alloc())?);
    Ok(())
}

const NONE: Entries = &[];

const ONE: Entries = &[(1, 1)];

const TWO: Entries = &[(0, 1), (2, 2)];

const THREE: Entries = &[(0, 1), (1, 1), (2, 2)];

const LATER: Entries = &[(0, 2), (1, 1)];

const ALL: Entries = &[(0, 2), (1, 1), (2, 2)];

/// Two clocks, their union, whether the first lies within the second, and the second within the first.
type Join = (Entries, Entries, Entries, bool, bool);

const JOINS: [Join; 8] = [
    (NONE, NONE, NONE, true, true),
    (NONE, ONE, ONE, true, false),
    (ONE, TWO, THREE, false, false),
    (TWO, THREE, THREE, true, false),
    (THREE, ONE, THREE, false, true),
    (LATER, TWO, ALL, false, false),
    (LATER, ALL, ALL, true, false),
    (ALL, ALL, ALL, true, true),
];

/// Whether the union of two clocks is this.
fn is_union(alloc: Global, own: &Clock, other: &Clock, union: Entries) -> Result<bool, ClockFault> {
    Ok(shows(&own.join(alloc, other)?, union))
}

/// Whether two clocks are as their row says. Their union is the same either way.
fn are_joined(alloc: Global, own: &Clock, other: &Clock, row: &Join) -> Result<bool, ClockFault> {
    let (_, _, union, within, holds) = *row;
    let forth = is_union(alloc, own, other, union)?;
    let back = is_union(alloc, other, own, union)?;
    Ok(forth && back && own.le(other) == within && other.le(own) == holds)
}

/// Whether the clocks of a row are as it says.
fn is_so(alloc: Global, row: &Join) -> Result<bool, ClockFault> {
    let own = clock_of(alloc, row.0)?;
    let other = clock_of(alloc, row.1)?;
    are_joined(alloc, &own, &other, row)
}

#[test]
fn joins_and_compares(rt: HostRuntime) -> Result<(), Fail> {
    for row in &JOINS {
        assert!(rt; is_so(rt.alloc(), row)?);
    }
    Ok(())
}

const LIMIT: u64 = 4_611_686_018_427_387_904;

/// An event one past the greatest counter.
const PAST: Dot = Dot {
    vnode: 3,
    n: LIMIT + 1,
};

/// Whether a clock takes the greatest counter, and none past it before it or after it.
fn ends_at_the_limit(clock: &mut Clock) -> Result<bool, ClockFault>
    requires { clock.old ≡ [] }
{
    let past = Err(ClockFault::CounterPastLimit);
    let refused = clock.push(PAST) == past;
    clock.push(Dot { vnode: 3, n: LIMIT })?;
    if clock.counter(3) != LIMIT || clock.has_room(PAST) || clock.add(PAST) != past {
        return Ok(false);
    }
    Ok(refused && shows(clock, &[(3, LIMIT)]))
}

#[test]
fn refuses_past_the_greatest_counter(rt: HostRuntime) -> Result<(), Fail> {
    let mut clock = Clock::new(rt.alloc());
    assert!(rt; ends_at_the_limit(&mut clock)?);
    Ok(())
}

/// A clock of as many entries as one may have, one event of each vnode from 10 on.
fn full(alloc: Global) -> Result<Clock, ClockFault> {
    let mut clock = Clock::new(alloc);
    for vnode in 10..1034 {
        add_next(&mut clock, vnode)?;
    }
    Ok(clock)
}

/// Whether a full clock is told to have a union with the clock of these entries, and whether it has one, as long as it is itself.
fn union_with(alloc: Global, full: &Clock, entries: Entries) -> Result<(bool, bool), ClockFault> {
    let other = clock_of(alloc, entries)?;
    let told = full.can_join(&other);
    match full.join(alloc, &other) {
        Ok(union) => Ok((told, union.entries().len() == 1024)),
        Err(ClockFault::TooManyEntries) => Ok((told, false)),
        Err(fault) => Err(fault),
    }
}

/// Whether a full clock takes the next event of a vnode that it counts, and none of another.
fn counts_on(full: &mut Clock) -> bool {
    let refused = add_next(full, 5) == Err(ClockFault::TooManyEntries);
    refused && add_next(full, 20).is_ok() && full.counter(20) == 2 && full.entries().len() == 1024
}

#[test]
fn full_clock_joins_what_it_counts_alone(rt: HostRuntime) -> Result<(), Fail> {
    let mut full = full(rt.alloc())?;
    let own = union_with(rt.alloc(), &full, &[(10, 1), (1033, 1)])?;
    let other = union_with(rt.alloc(), &full, &[(0, 1)])?;
    assert!(rt; own == (true, true) && other == (false, false) && counts_on(&mut full));
    Ok(())
}
