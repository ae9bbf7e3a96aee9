//! Version vectors.

ghost use Rattle.std.specs.Prelude.{◌≡◌, ◌≢◌, ◌+◌, ◌<◌, ◌≤◌, ◌↔◌, [], ◌∷◌, length, All, Contains, IsTrue, IsOk, OnOk, OnErr, IfOk, IfErr};
ghost use Rattle.dvv.specs.declared.Dot.{Dot};
ghost use Rattle.dvv.specs.Clock.{counter, Covers, IsUnion, vnodes_together, AddsEvent, AddsVnode, IsClock, IsPlaceOf, IsGapFor, greatest_counter, most_entries};

use crate::fault::ClockFault;
use crate::walk::{is_within, union_of, vnodes_together};
use crate::{Dot, MAX_COUNTER, MAX_ENTRIES};
use smallvec::SmallVec;
use std::alloc::{AllocError, Global};
use std::marker::Model;

/// The entries of a clock: the greatest event of each vnode, vnodes rising. Up to three lie in the clock itself: a key is mostly written at one
/// vnode, and where the server starts again, or another vnode takes its writes, at two or three.
pub type Entries = SmallVec<Dot, 3>;

/// A version vector: a set of events that has, with each event of a vnode, all earlier ones of that vnode. It is
/// kept, and seen in contracts, as the greatest event of each vnode, vnodes rising.
pub struct Clock {
    entries: Entries,
}

// Written by hand, so that who lets a clock go doesn't see where its entries lie.
impl Drop for Clock {
    fn drop(self) {
        let Clock { entries: _entries } = self;
    }
}

impl Model for Clock {
    ghost use Rattle.std.specs.Prelude.{List};
    ghost use Rattle.dvv.specs.declared.Dot.{Dot};
    ghost use Rattle.dvv.specs.Clock.{IsClock};

    ghost Value = { List Dot };

    ghost view = { λ c. c.entries.items };

    ghost invariant = { λ c. IsClock c.entries.items };
}

impl Clock {
    ghost use Rattle.dvv.specs.Clock.{Within, IsGreatest, HasRoom};

    /// The clock of no event. It takes no memory until it has more than one entry.
    pub fn new(alloc: Global) -> Self
        ensures empty { result ≡ [] }
    {
        Clock {
            entries: Entries::new(alloc),
        }
    }

    /// The clock of these entries: the greatest event of each vnode, vnodes rising. It keeps the vector's memory where there are several.
    pub fn from_entries(entries: Vec<Dot>) -> Self
        requires { IsClock entries.items }
        ensures { result ≡ entries.items }
    {
        let mut entries = Entries::from_vec(entries);
        entries.shrink_to_fit();
        Clock { entries }
    }

    /// The same of entries as a clock keeps them. It takes no memory.
    pub fn of(entries: Entries) -> Self
        requires { IsClock entries.items }
        ensures { result ≡ entries.items }
    {
        Clock { entries }
    }

    /// The greatest event of each vnode, vnodes rising.
    pub fn entries(&self) -> &[Dot]
        ensures all { result.now ≡ self.now }
        ensures clock { IsClock self.now }
        ensures greatest { (dot : Dot) → Contains result.now dot ↔ IsGreatest self.now dot }
    {
        self.entries.as_slice()
    }

    /// How many events of the vnode are in the set: 0 to [`MAX_COUNTER`].
    pub fn counter(&self, vnode: u32) -> u64
        ensures count { result ≡ counter self.now vnode }
        ensures limit { result ≤ greatest_counter }
    {
        counter(&self.entries, vnode)
    }

    /// Whether the event is in the set.
    pub fn covers(&self, dot: Dot) -> bool
        ensures { IsTrue result ↔ Covers self.now dot }
    {
        1 <= dot.n && dot.n <= self.counter(dot.vnode)
    }

    /// Whether each event here is there too.
    pub fn le(&self, other: &Clock) -> bool
        ensures { IsTrue result ↔ Within self.now other.now }
    {
        is_within(&self.entries, &other.entries)
    }

    /// The same clock, in memory of its own. A single entry takes none.
    pub fn copy(&self, alloc: Global) -> Result<Clock, AllocError>
        ensures same { IfOk result (λ copy. copy ≡ self.now) }
    {
        Ok(Clock {
            entries: Entries::from_slice(alloc, &self.entries)?,
        })
    }

    /// The union of both, in one pass. `TooManyEntries` (told first) exactly where the vnodes of both are more than
    /// [`MAX_ENTRIES`]; counters of both are within their limit, so the greater ones are too.
    pub fn join(&self, alloc: Global, other: &Clock) -> Result<Clock, ClockFault>
        ensures clock { IfOk result (λ union. IsClock union) }
        ensures union { IfOk result (λ union. IsUnion self.now other.now union) }
        ensures full { result ≡ Err ClockFault.TooManyEntries ↔ (most_entries < vnodes_together self.now other.now) }
        ensures counters { result ≢ Err ClockFault.CounterPastLimit }
    {
        match join_entries(alloc, &self.entries, &other.entries) {
            Ok(entries) => Ok(Clock { entries }),
            Err(fault) => Err(fault),
        }
    }

    /// Whether [`join`](Clock::join) keeps within [`MAX_ENTRIES`]. It takes no memory.
    pub fn can_join(&self, other: &Clock) -> bool
        ensures { IsTrue result ↔ (vnodes_together self.now other.now ≤ most_entries) }
    {
        fits_together(&self.entries, &other.entries)
    }

    /// Adds the events of a further vnode, above all there, up to this one. `CounterPastLimit` exactly where n is past
    /// [`MAX_COUNTER`], else `TooManyEntries` exactly where [`MAX_ENTRIES`] are there. A refused call changes nothing.
    pub fn push(&mut self, last: Dot) -> Result<(), ClockFault>
        requires above { All (λ entry. entry.vnode < last.vnode) self.old }
        requires first { 1 ≤ last.n }
        ensures clock { IsClock self.new }
        ensures adds { OnOk result (AddsVnode self.old self.new last) }
        ensures counter { result ≡ Err ClockFault.CounterPastLimit ↔ (greatest_counter < last.n) }
        ensures full { result ≡ Err ClockFault.TooManyEntries ↔ ((last.n ≤ greatest_counter) × (length self.old ≡ most_entries)) }
        ensures err { OnErr result (self.new ≡ self.old) }
    {
        push_entry(&mut self.entries, last)
    }

    /// Whether the next event of a vnode would be within the limits.
    pub fn has_room(&self, next: Dot) -> bool
        requires { next.n ≡ counter self.now next.vnode + 1 }
        ensures { IsTrue result ↔ HasRoom self.now next }
    {
        next.n <= MAX_COUNTER && (next.n > 1 || self.entries.len() < MAX_ENTRIES)
    }

    /// Adds the next event of its vnode. `CounterPastLimit` exactly where n is past [`MAX_COUNTER`], `TooManyEntries`
    /// exactly where it is the first of its vnode and [`MAX_ENTRIES`] are there. An event of a vnode that is there
    /// takes no memory. A refused call changes nothing.
    pub fn add(&mut self, next: Dot) -> Result<(), ClockFault>
        requires { next.n ≡ counter self.old next.vnode + 1 }
        ensures clock { IsClock self.new }
        ensures adds { OnOk result (AddsEvent self.old self.new next) }
        ensures counter { result ≡ Err ClockFault.CounterPastLimit ↔ (greatest_counter < next.n) }
        ensures full { result ≡ Err ClockFault.TooManyEntries ↔ ((next.n ≡ 1) × (length self.old ≡ most_entries)) }
        ensures later { (1 < next.n) × (next.n ≤ greatest_counter) → IsOk result }
        ensures err { OnErr result (self.new ≡ self.old) }
    {
        add_event(&mut self.entries, next)
    }
}

// Adds an entry above all there.
fn push_entry(entries: &mut Entries, last: Dot) -> Result<(), ClockFault>
    requires clock { IsClock entries.old.items }
    requires above { All (λ entry. entry.vnode < last.vnode) entries.old.items }
    requires first { 1 ≤ last.n }
    ensures clock { IsClock entries.new.items }
    ensures adds { OnOk result (AddsVnode entries.old.items entries.new.items last) }
    ensures counter { result ≡ Err ClockFault.CounterPastLimit ↔ (greatest_counter < last.n) }
    ensures full { result ≡ Err ClockFault.TooManyEntries ↔ ((last.n ≤ greatest_counter) × (length entries.old.items ≡ most_entries)) }
    ensures err { OnErr result (entries.new.items ≡ entries.old.items) }
{
    if last.n > MAX_COUNTER {
        return Err(ClockFault::CounterPastLimit);
    }
    if entries.len() == MAX_ENTRIES {
        return Err(ClockFault::TooManyEntries);
    }
    entries.push(last)?;
    Ok(())
}

// Adds an event that comes next of its vnode.
fn add_event(entries: &mut Entries, next: Dot) -> Result<(), ClockFault>
    requires clock { IsClock entries.old.items }
    requires follows { next.n ≡ counter entries.old.items next.vnode + 1 }
    ensures clock { IsClock entries.new.items }
    ensures adds { OnOk result (AddsEvent entries.old.items entries.new.items next) }
    ensures counter { result ≡ Err ClockFault.CounterPastLimit ↔ (greatest_counter < next.n) }
    ensures full { result ≡ Err ClockFault.TooManyEntries ↔ ((next.n ≡ 1) × (length entries.old.items ≡ most_entries)) }
    ensures later { (1 < next.n) × (next.n ≤ greatest_counter) → IsOk result }
    ensures err { OnErr result (entries.new.items ≡ entries.old.items) }
{
    if next.n > MAX_COUNTER {
        return Err(ClockFault::CounterPastLimit);
    }
    match place(entries, next.vnode) {
        Ok(at) => {
            entries[at] = next;
            Ok(())
        }
        Err(_) if entries.len() == MAX_ENTRIES => Err(ClockFault::TooManyEntries),
        Err(at) => {
            // Clocks are kept with each key: one takes no more memory than it has entries.
            entries.reserve_exact(1)?;
            entries.insert(at, next)?;
            Ok(())
        }
    }
}

// The entries of both, where there are few enough.
fn join_entries(alloc: Global, own: &[Dot], other: &[Dot]) -> Result<Entries, ClockFault>
    requires own { IsClock own.now }
    requires other { IsClock other.now }
    ensures clock { IfOk result (λ union. IsClock union.items) }
    ensures union { IfOk result (λ union. IsUnion own.now other.now union.items) }
    ensures full { result ≡ Err ClockFault.TooManyEntries ↔ (most_entries < vnodes_together own.now other.now) }
    ensures counters { result ≢ Err ClockFault.CounterPastLimit }
{
    let vnodes = vnodes_together(own, other);
    if vnodes > MAX_ENTRIES {
        return Err(ClockFault::TooManyEntries);
    }
    Ok(union_of(alloc, own, other, vnodes)?)
}

// Whether the entries of both are few enough. Only where those of one after the other are too many is it counted how
// many are of both.
fn fits_together(own: &[Dot], other: &[Dot]) -> bool
    requires own { IsClock own.now }
    requires other { IsClock other.now }
    ensures { IsTrue result ↔ (vnodes_together own.now other.now ≤ most_entries) }
{
    own.len() + other.len() <= MAX_ENTRIES || vnodes_together(own, other) <= MAX_ENTRIES
}

// How many events of the vnode the entries count.
fn counter(entries: &[Dot], vnode: u32) -> u64
    requires { IsClock entries.now }
    ensures { result ≡ counter entries.now vnode }
{
    match place(entries, vnode) {
        Ok(at) => entries[at].n,
        Err(_) => 0,
    }
}

// Where the entry of a vnode is, or where it would go.
fn place(entries: &[Dot], vnode: u32) -> Result<usize, usize>
    requires { IsClock entries.now }
    ensures found { IfOk result (λ at. IsPlaceOf entries.now at vnode) }
    ensures gap { IfErr result (λ at. IsGapFor entries.now at vnode) }
{
    entries.binary_search_by_key(&vnode, |entry| entry.vnode)
}
