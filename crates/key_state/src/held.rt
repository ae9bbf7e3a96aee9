//! What is held at a key, and shared by the copies of its state.

ghost use Rattle.std.specs.Prelude.{◌≡◌, ◌<◌, ◌≤◌, ◌↔◌, length, IsTrue, OnOk, IfOk, IfErr};
ghost use Rattle.std.specs.Arc.{arc_value};
ghost use Rattle.dvv.specs.Clock.{Within, HasRoom, vnodes_together, most_entries};
ghost use Rattle.key_state.specs.Few.{short_of};
ghost use Rattle.key_state.specs.Held.{few_state};
ghost use Rattle.key_state.specs.Limits.{most_siblings};
ghost use Rattle.key_state.specs.Parts.{lacks_some};
ghost use Rattle.key_state.specs.Sizes.{state_bytes};
ghost use Rattle.key_state.specs.State.{empty, next, kept, AreInOrder, AreCovered, IsState};

use crate::content::{Sibling, Siblings};
use crate::exchange::lacks;
use crate::fault::PutRefusal;
use crate::few::{Others, entries_of, others_of, short_of};
use crate::full::Full;
use crate::limits::MAX_SIBLINGS;
use crate::part::Part;
use crate::placing::count_kept;
use crate::state::KeyState;
use dvv::{Clock, Dot};
use std::alloc::{AllocError, Global};
use std::marker::Model;
use std::mem::size_of;
use std::slice;
use std::sync::Arc;

/// The siblings and the clock of a key. They never change while copies of a state share them.
#[derive(Drop)]
pub struct Held {
    alloc: Global,
    body: Body,
}

// With the count of its owners it takes 56 bytes, which fill a block of glibc's `malloc` of 64.
const _: () = prove!(size_of::<Held>() == 48);

// Nearly every key has one sibling, whose dot is one of up to three entries of its clock: these lie in the state itself.
#[derive(Drop)]
pub(crate) enum Body {
    // Nothing written.
    Nothing,
    // A sibling whose dot is one of the few entries of the clock, and the others.
    Few { others: Others, sibling: Sibling },
    // Any other siblings, and their clock.
    Full(Box<Full>),
}

impl Model for Held {
    ghost use Rattle.key_state.specs.Held.{state_of};
    ghost use Rattle.key_state.specs.State.{State, IsState};

    ghost Value = { State };

    ghost view = { λ h. state_of h.body };

    ghost invariant = { λ h. IsState (state_of h.body) };
}

impl Held {
    /// Nothing written. It takes no memory.
    pub fn nothing(alloc: Global) -> Self
        ensures { result ≡ empty }
    {
        Held {
            alloc,
            body: Body::Nothing,
        }
    }

    // These siblings, and a clock that counts each of them. One with few entries takes no memory.
    pub(crate) fn new(siblings: Siblings, clock: Clock) -> Result<Self, AllocError>
        requires order { AreInOrder siblings.items }
        requires covered { AreCovered clock siblings.items }
        ensures { IfOk result (λ held. held ≡ record { siblings = siblings.items; clock = clock }) }
    {
        let alloc = *siblings.allocator();
        let body = match few_of(siblings, &clock) {
            Ok((others, sibling)) => Body::Few { others, sibling },
            Err(siblings) => Body::Full(Box::new(alloc, Full::new(siblings, clock))?),
        };
        Ok(Held { alloc, body })
    }

    // The same in memory that was taken for it with its clock.
    pub(crate) fn new_in(mut full: Box<Full>, siblings: Siblings) -> Self
        requires order { AreInOrder siblings.items }
        requires covered { AreCovered full.value.clock siblings.items }
        ensures { result ≡ record { siblings = siblings.items; clock = full.value.clock } }
    {
        let alloc = *siblings.allocator();
        let body = match few_of(siblings, full.clock()) {
            Ok((others, sibling)) => Body::Few { others, sibling },
            Err(siblings) => {
                full.set_siblings(siblings);
                Body::Full(full)
            }
        };
        Held { alloc, body }
    }

    /// The siblings, rising by dot.
    pub fn siblings(&self) -> &[Sibling]
        ensures all { result.now ≡ self.now.siblings }
        ensures state { IsState self.now }
    {
        match &self.body {
            Body::Nothing => &[],
            Body::Few { sibling, .. } => slice::from_ref(sibling),
            Body::Full(full) => full.siblings(),
        }
    }

    // The clock where it has up to three entries, for `clock` to lend. It takes no memory.
    pub(crate) fn short_clock(&self) -> Clock
        ensures { result ≡ short_of self.now.clock }
    {
        match &self.body {
            Body::Nothing => Clock::new(self.alloc),
            Body::Few { others, sibling } => {
                Clock::of(entries_of(self.alloc, sibling.dot, *others))
            }
            Body::Full(full) => short_of(self.alloc, full.clock()),
        }
    }

    // The clock: it counts each event that any known write had seen, and the known writes themselves. Where no clock is kept,
    // the short one is lent.
    #[tactic(auto, using(crate::proofs::Fewer::few_is_short))]
    pub(crate) fn clock<'a>(&'a self, lent: &'a Clock) -> &'a Clock
        requires { lent.now ≡ short_of self.now.clock }
        ensures { result.now ≡ self.now.clock }
    {
        match &self.body {
            Body::Nothing | Body::Few { .. } => lent,
            Body::Full(full) => full.clock(),
        }
    }

    /// The bytes of its contents, 2^64 - 1 where they are more. Those of several siblings are kept with them: only a lone one's content is
    /// fetched for it.
    pub fn bytes(&self) -> u64
        ensures { result ≡ state_bytes self.now }
    {
        match &self.body {
            Body::Nothing => 0,
            Body::Few { sibling, .. } => sibling.content.bytes(),
            Body::Full(full) => full.bytes(),
        }
    }

    /// The dot that a put at a vnode would get, or what it would be refused for, want of memory aside.
    pub fn check_put(&self, vnode: u32, seen: &Clock) -> Result<Dot, PutRefusal>
        ensures dot { IfOk result (λ dot. dot ≡ next self.now vnode) }
        ensures seen { OnOk result (Within seen.now self.now.clock) }
        ensures limits { OnOk result ((length (kept seen.now self.now.siblings) < most_siblings) × HasRoom self.now.clock (next self.now vnode)) }

        ensures ahead { result ≡ Err PutRefusal.ContextAhead ↔ (Within seen.now self.now.clock → ⊥) }
        ensures many { result ≡ Err PutRefusal.TooManySiblings ↔ (Within seen.now self.now.clock × (most_siblings ≤ length (kept seen.now self.now.siblings))) }
        ensures full { result ≡ Err PutRefusal.ClockFull ↔ (Within seen.now self.now.clock × (length (kept seen.now self.now.siblings) < most_siblings) × (HasRoom self.now.clock (next self.now vnode) → ⊥)) }
    {
        let short = self.short_clock();
        let clock = self.clock(&short);
        if !seen.le(clock) {
            return Err(PutRefusal::ContextAhead);
        }
        if count_kept(self.siblings(), seen) >= MAX_SIBLINGS {
            return Err(PutRefusal::TooManySiblings);
        }
        let dot = Dot {
            vnode,
            n: clock.counter(vnode) + 1,
        };
        if !clock.has_room(dot) {
            return Err(PutRefusal::ClockFull);
        }
        Ok(dot)
    }

    /// Whether a union with another clock keeps the clock within its 1,024 entries.
    pub fn can_join(&self, other: &Clock) -> bool
        ensures { IsTrue result ↔ (vnodes_together self.now.clock other.now ≤ most_entries) }
    {
        let short = self.short_clock();
        self.clock(&short).can_join(other)
    }

    /// Whether a merge of another state keeps the clock within its 1,024 entries.
    pub fn can_merge(&self, other: &KeyState) -> bool
        ensures { IsTrue result ↔ (vnodes_together self.now.clock other.now.clock ≤ most_entries) }
    {
        self.can_join(other.clock())
    }

    /// Whether a state is the same: each sibling with its content, and the clock.
    pub fn is_same(&self, state: &KeyState) -> bool
        ensures { IsTrue result ↔ (self.now ≡ state.now) }
    {
        let short = self.short_clock();
        state.has(self.siblings(), self.clock(&short).entries())
    }

    /// Whether some content that was left out of a part isn't held. Takes no memory.
    pub fn lacks(&self, part: &Part) -> bool
        ensures { result ≡ lacks_some self.now part.now }
    {
        lacks(self.siblings(), part)
    }
}

// The sibling that there is alone, and what its clock has beside its dot, where these are few: else the siblings as they were.
fn few_of(mut siblings: Siblings, clock: &Clock) -> Result<(Others, Sibling), Siblings>
    requires order { AreInOrder siblings.items }
    requires covered { AreCovered clock.now siblings.items }
    ensures few { IfOk result (λ few. record { siblings = siblings.items; clock = clock.now } ≡ few_state few.0 few.1) }
    ensures state { IfOk result (λ few. IsState (few_state few.0 few.1)) }
    ensures other { IfErr result (λ same. same.items ≡ siblings.items) }
{
    if siblings.len() != 1 {
        return Err(siblings);
    }
    let alloc = *siblings.allocator();
    let Some(others) = others_of(alloc, siblings[0].dot, clock.entries()) else {
        return Err(siblings);
    };
    match siblings.pop() {
        Some(sibling) => Ok((others, sibling)),
        None => Err(siblings),
    }
}

/// The state of a key as it is kept with many others: it takes no more than a pointer, and shares what it holds with its copies.
#[derive(Drop)]
pub struct Stored {
    held: Arc<Held>,
}

impl Model for Stored {
    ghost use Rattle.std.specs.Arc.{arc_value};
    ghost use Rattle.key_state.specs.State.{State};

    ghost Value = { State };

    ghost view = { λ s. arc_value s.held };
}

impl Stored {
    // Of what is shared.
    pub(crate) fn new(held: Arc<Held>) -> Self
        ensures { result ≡ arc_value held }
    {
        Stored { held }
    }

    // Another owner of what is shared.
    pub(crate) fn share(&self) -> Result<Arc<Held>, AllocError>
        ensures { IfOk result (λ held. arc_value held ≡ self.now) }
    {
        self.held.clone()
    }

    /// What it holds.
    pub fn held(&self) -> &Held
        ensures { result.now ≡ self.now }
    {
        &self.held
    }
}
