//! The state of a key: siblings and one clock.

ghost use Rattle.std.specs.Prelude.{◌≡◌, ◌≢◌, ◌<◌, ◌≤◌, ◌↔◌, false, length, map, IsTrue, OnOk, OnErr, IfOk};

use crate::content::{Content, Sibling, Siblings};
use crate::fault::{MergeFault, PutFault, PutRefusal};
use crate::full::Full;
use crate::held::{Held, Stored};
use crate::merging::{covers_some, drops_some, merge_siblings};
use crate::placing::replacing_seen;
use crate::shared::Shared;
use dvv::{Clock, ClockFault, Dot};
use std::alloc::{AllocError, Global};
use std::marker::Model;
use std::sync::Arc;

/// The siblings and the clock of a key: what is kept of all its known writes (dotted version vectors, Preguiça et al.
/// 2010; Riak KV documentation, siblings and causal contexts). Copies share them until one of them is changed.
#[derive(Drop)]
pub struct KeyState {
    alloc: Global,
    shared: Shared,
    // The clock where it has up to three entries: where what is held keeps these otherwise, this one is lent.
    short: Clock,
}

impl Model for KeyState {
    ghost use Rattle.std.specs.Prelude.{◌≡◌};
    ghost use Rattle.key_state.specs.Few.{short_of};
    ghost use Rattle.key_state.specs.State.{State, IsState};

    ghost Value = { State };

    ghost view = { λ s. s.shared };

    ghost invariant = { λ s. IsState s.shared × (s.short ≡ short_of s.shared.clock) };
}

impl KeyState {
    ghost use Rattle.dvv.specs.Clock.{Within, HasRoom, vnodes_together, most_entries};
    ghost use Rattle.key_state.specs.Limits.{most_siblings};
    ghost use Rattle.key_state.specs.Parts.{summary_of};
    ghost use Rattle.key_state.specs.Sizes.{state_bytes};
    ghost use Rattle.key_state.specs.State.{empty, next, kept, is_changed_by, Puts, Merges, AreInOrder, AreCovered, IsState, HaveSameDots};

    /// Nothing written. It takes no memory.
    pub fn new(alloc: Global) -> Self
        ensures { result ≡ empty }
    {
        KeyState {
            alloc,
            shared: Shared::nothing(),
            short: Clock::new(alloc),
        }
    }

    /// The state of these parts: siblings that rise by dot, each counted by the clock.
    pub fn from_parts(clock: Clock, siblings: Vec<Sibling>) -> Result<Self, AllocError>
        requires order { AreInOrder siblings.items }
        requires covered { AreCovered clock siblings.items }
        ensures { IfOk result (λ state. state ≡ record { siblings = siblings.items; clock = clock }) }
    {
        let mut siblings = Siblings::from_vec(siblings);
        siblings.shrink_to_fit();
        KeyState::holding(clock, siblings)
    }

    // The same of siblings as they are kept.
    fn holding(clock: Clock, siblings: Siblings) -> Result<Self, AllocError>
        requires order { AreInOrder siblings.items }
        requires covered { AreCovered clock siblings.items }
        ensures { IfOk result (λ state. state ≡ record { siblings = siblings.items; clock = clock }) }
    {
        let alloc = *siblings.allocator();
        let held = Held::new(siblings, clock)?;
        Ok(KeyState::sharing(alloc, Arc::new(alloc, held)?))
    }

    // The state of what is shared.
    fn sharing(alloc: Global, held: Arc<Held>) -> Self
        ensures { result ≡ arc_value held }
    {
        // What every state keeps is told with its siblings.
        let _siblings = held.siblings();
        let short = held.short_clock();
        KeyState {
            alloc,
            shared: Shared::holding(held),
            short,
        }
    }

    /// The state that is stored, what it holds shared. Refused where its owners can't be counted further.
    pub fn of(alloc: Global, stored: &Stored) -> Result<Self, AllocError>
        ensures { IfOk result (λ state. state ≡ stored.now) }
    {
        Ok(KeyState::sharing(alloc, stored.share()?))
    }

    /// The state to be stored, what it holds shared.
    pub fn stored(&self) -> Result<Stored, AllocError>
        ensures { IfOk result (λ stored. stored ≡ self.now) }
    {
        self.shared.stored(self.alloc)
    }

    /// The siblings, rising by dot.
    pub fn siblings(&self) -> &[Sibling]
        ensures all { result.now ≡ self.now.siblings }
        ensures state { IsState self.now }
    {
        self.shared.siblings()
    }

    /// The clock: it counts each event that any known write had seen, and the known writes themselves.
    pub fn clock(&self) -> &Clock
        ensures { result.now ≡ self.now.clock }
    {
        self.shared.clock(&self.short)
    }

    /// The bytes of its contents, 2^64 - 1 where they are more. Those of several siblings are kept with them: only a lone one's content is
    /// fetched for it.
    pub fn bytes(&self) -> u64
        ensures { result ≡ state_bytes self.now }
    {
        self.shared.bytes()
    }

    /// The same state, its siblings and clock shared with this one. Refused where their owners can't be counted further.
    pub fn copy(&self, alloc: Global) -> Result<KeyState, AllocError>
        ensures same { IfOk result (λ copy. copy ≡ self.now) }
        ensures state { IsState self.now }
    {
        // What every state keeps is told with its siblings.
        let _siblings = self.siblings();
        Ok(KeyState {
            alloc,
            shared: self.shared.copy()?,
            short: self.short.copy(alloc)?,
        })
    }

    /// What it holds, for who needs the state no longer.
    pub fn into_shared(self) -> Shared
        ensures { result ≡ self }
    {
        self.shared
    }

    /// Takes the memory of another state in place of its own, where both are the same.
    pub fn share(&mut self, other: &KeyState)
        ensures { self.new ≡ self.old }
    {
        self.share_with(&other.shared);
    }

    /// Takes the memory of a shared state in place of its own, where both are the same.
    pub fn share_with(&mut self, shared: &Shared)
        ensures { self.new ≡ self.old }
    {
        if !shared.is_same(self) {
            return;
        }
        if let Ok(same) = shared.copy() {
            self.shared = same;
        }
    }

    /// Whether another state is the same: each sibling with its content, and the clock.
    pub fn is_same(&self, other: &KeyState) -> bool
        ensures { IsTrue result ↔ (self.now ≡ other.now) }
    {
        other.has(self.siblings(), self.clock().entries())
    }

    /// Whether another state has the same dots and the same clock. A merge of either would change nothing in the other then.
    #[tactic(auto, using(crate::proofs::Compared::same_dots))]
    pub fn has_dots_of(&self, other: &KeyState) -> bool
        ensures { IsTrue result ↔ (summary_of self.now ≡ summary_of other.now) }
    {
        self.clock().entries() == other.clock().entries()
            && have_same_dots(self.siblings(), other.siblings())
    }

    // Whether these are its siblings and the entries of its clock.
    #[tactic(auto, using(crate::proofs::Compared::same_dots))]
    pub(crate) fn has(&self, siblings: &[Sibling], entries: &[Dot]) -> bool
        ensures { IsTrue result ↔ (record { siblings = siblings.now; clock = entries.now } ≡ self.now) }
    {
        entries == self.clock().entries() && are_same(siblings, self.siblings())
    }

    /// The dot that a put at a vnode would get, or what it would be refused for, want of memory aside.
    pub fn check_put(&self, vnode: u32, seen: &Clock) -> Result<Dot, PutRefusal>
        ensures dot { IfOk result (λ dot. dot ≡ next self.now vnode) }
        ensures seen { OnOk result (Within seen.now self.now.clock) }
        ensures limits { OnOk result ((length (kept seen.now self.now.siblings) < most_siblings) × HasRoom self.now.clock (next self.now vnode)) }

        ensures ahead { result ≡ Err PutRefusal.ContextAhead ↔ (Within seen.now self.now.clock → ⊥) }
        ensures many { result ≡ Err PutRefusal.TooManySiblings ↔ (Within seen.now self.now.clock × (most_siblings ≤ length (kept seen.now self.now.siblings))) }
        ensures full { result ≡ Err PutRefusal.ClockFull ↔ (Within seen.now self.now.clock × (length (kept seen.now self.now.siblings) < most_siblings) × (HasRoom self.now.clock (next self.now vnode) → ⊥)) }
    {
        match &self.shared.held {
            None => Held::nothing(self.alloc).check_put(vnode, seen),
            Some(held) => held.check_put(vnode, seen),
        }
    }

    /// Puts a content whose writer had seen the events of a clock. It replaces the siblings that these events count, and
    /// stands beside the others. Refused with no memory taken where `check_put` refuses.
    pub fn put(&mut self, vnode: u32, seen: &Clock, content: Content) -> Result<Dot, PutFault>
        ensures ok { IfOk result (λ dot. (dot ≡ next self.old vnode) × Puts self.old self.new dot seen.now content) }
        ensures state { OnOk result (IsState self.new) }
        ensures seen { OnOk result (Within seen.now self.old.clock) }
        ensures limits { OnOk result ((length (kept seen.now self.old.siblings) < most_siblings) × HasRoom self.old.clock (next self.old vnode)) }

        ensures ahead { result ≡ Err PutFault.ContextAhead ↔ (Within seen.now self.old.clock → ⊥) }
        ensures many { result ≡ Err PutFault.TooManySiblings ↔ (Within seen.now self.old.clock × (most_siblings ≤ length (kept seen.now self.old.siblings))) }
        ensures full { result ≡ Err PutFault.ClockFull ↔ (Within seen.now self.old.clock × (length (kept seen.now self.old.siblings) < most_siblings) × (HasRoom self.old.clock (next self.old vnode) → ⊥)) }
        ensures err { OnErr result (self.new ≡ self.old) }
    {
        let dot = match self.check_put(vnode, seen) {
            Ok(dot) => dot,
            Err(refusal) => return Err(PutFault::from(refusal)),
        };
        let Ok(()) = self.put_at(dot, seen, content) else {
            return Err(PutFault::NoMemory);
        };
        Ok(dot)
    }

    /// Puts a content under the dot that `check_put` has answered, for callers that have more to test or to make room for
    /// before the put.
    pub fn put_at(&mut self, dot: Dot, seen: &Clock, content: Content) -> Result<(), AllocError>
        requires next { dot ≡ next self.old dot.vnode }
        requires limits { HasRoom self.old.clock dot }
        ensures ok { OnOk result (Puts self.old self.new dot seen.now content) }
        ensures state { OnOk result (IsState self.new) }
        ensures err { OnErr result (self.new ≡ self.old) }
    {
        let mut clock = self.clock().copy(self.alloc)?;
        let Ok(()) = clock.add(dot) else {
            return Err(AllocError);
        };
        let siblings = replacing_seen(self.alloc, self.siblings(), seen, Sibling { dot, content })?;
        *self = KeyState::holding(clock, siblings)?;
        Ok(())
    }

    /// Whether a merge of another state would change anything here: that one knows an event that this one doesn't, or has
    /// dropped a sibling that this one holds.
    pub fn is_changed_by(&self, other: &KeyState) -> bool
        ensures { result ≡ is_changed_by self.now other.now }
    {
        !self.knows_all_of(other) || self.holds_what_is_dropped_by(other)
    }

    /// Whether a merge of another state keeps the clock within its 1,024 entries.
    pub fn can_merge(&self, other: &KeyState) -> bool
        ensures { IsTrue result ↔ (vnodes_together self.now.clock other.now.clock ≤ most_entries) }
    {
        self.clock().can_join(other.clock())
    }

    /// Merges another state of the key into this one, and tells whether siblings or clock changed. A sibling stays that both
    /// hold, or that one holds and the other's clock doesn't count; where both hold a dot, the own content stays. A state that has
    /// seen all that is known here, and holds nothing of that, is shared from then on.
    pub fn merge(&mut self, other: &KeyState) -> Result<bool, MergeFault>
        ensures ok { OnOk result (Merges self.old other.now self.new) }
        ensures state { OnOk result (IsState self.new) }
        ensures told { IfOk result (λ changed. changed ≡ is_changed_by self.old other.now) }
        ensures changed { IfOk result (λ changed. IsTrue changed ↔ (self.new ≢ self.old)) }
        ensures dots { IfOk result (λ changed. IsTrue changed ↔ (HaveSameDots self.old self.new → ⊥)) }
        // One that changes nothing takes no memory and is never refused.
        ensures idle { is_changed_by self.old other.now ≡ false → result ≡ Ok false }

        ensures full { result ≡ Err MergeFault.ClockFull ↔ (most_entries < vnodes_together self.old.clock other.now.clock) }
        ensures err { OnErr result (self.new ≡ self.old) }
    {
        // What every state keeps is told with its siblings.
        let (_own, _others) = (self.siblings(), other.siblings());
        if !self.is_changed_by(other) {
            return Ok(false);
        }
        *self = self.merged_with(other)?;
        Ok(true)
    }

    // The merge of another state into this one: that state, shared, where this one gives way to it.
    fn merged_with(&self, other: &KeyState) -> Result<KeyState, MergeFault>
        ensures merges { IfOk result (λ merged. Merges self.now other.now merged) }
        ensures state { IfOk result (λ merged. IsState merged) }
        ensures full { result ≡ Err MergeFault.ClockFull ↔ (most_entries < vnodes_together self.now.clock other.now.clock) }
    {
        if self.gives_way_to(other) {
            return Ok(other.copy(self.alloc)?);
        }
        let (siblings, clock) = (self.siblings(), self.clock());
        let (others, other_clock) = (other.siblings(), other.clock());
        let union = match join_clocks(self.alloc, clock, other_clock) {
            Ok(union) => union,
            Err(fault) => return Err(fault),
        };
        let Ok(merged) = merge_siblings(self.alloc, siblings, clock, others, other_clock) else {
            return Err(MergeFault::NoMemory);
        };
        Ok(KeyState::holding(union, merged)?)
    }

    // Where its memory is from.
    pub(crate) fn allocator(&self) -> Global {
        self.alloc
    }

    // The state of these siblings, in memory that was taken for it with its clock. Refused where a copy shares that memory.
    pub(crate) fn in_held(
        mut held: Arc<Held>,
        full: Box<Full>,
        siblings: Vec<Sibling>,
    ) -> Result<Self, AllocError>
        requires order { AreInOrder siblings.items }
        requires covered { AreCovered full.value.clock siblings.items }
        ensures { IfOk result (λ state. state ≡ record { siblings = siblings.items; clock = full.value.clock }) }
    {
        let alloc = *siblings.allocator();
        match Arc::get_mut(&mut held) {
            Some(own) => *own = Held::new_in(full, Siblings::from_vec(siblings)),
            None => return Err(AllocError),
        }
        Ok(KeyState::sharing(alloc, held))
    }

    // Whether a merge of another state leaves that one: its clock counts all that is known here, and none of its siblings is known.
    fn gives_way_to(&self, other: &KeyState) -> bool
        ensures merges { IsTrue result → Merges self.now other.now other.now }
        ensures state { IsTrue result → IsState other.now }
        ensures fits { IsTrue result → vnodes_together self.now.clock other.now.clock ≤ most_entries }
    {
        // What every state keeps is told with its siblings.
        let _own = self.siblings();
        let (clock, other_clock) = (self.clock(), other.clock());
        let others = other.siblings();
        if !self.can_merge(other) {
            return false;
        }
        clock.le(other_clock) && !covers_some(clock, others)
    }

    // Whether each event that another state knows is known here.
    fn knows_all_of(&self, other: &KeyState) -> bool
        ensures { result ≡ is_within other.now.clock self.now.clock }
    {
        // What every state keeps is told with its siblings.
        let _siblings = other.siblings();
        other.clock().le(self.clock())
    }

    // Whether another state has dropped a sibling that is held here.
    fn holds_what_is_dropped_by(&self, other: &KeyState) -> bool
        ensures { result ≡ drops_some other.now.siblings other.now.clock self.now.siblings }
    {
        drops_some(other.siblings(), other.clock(), self.siblings())
    }
}

ghost use Rattle.dvv.specs.Clock.{IsClock, IsUnion, vnodes_together, most_entries};
ghost use Rattle.key_state.specs.State.{is_within};
ghost use Rattle.key_state.specs.Merging.{drops_some};
ghost use Rattle.key_state.specs.declared.content.Sibling.{Sibling as OneSibling};
ghost use Rattle.std.specs.Arc.{arc_value};

// Whether two lists of siblings have the same dots.
fn have_same_dots(siblings: &[Sibling], others: &[Sibling]) -> bool
    ensures { IsTrue result ↔ (map (λ (s : OneSibling). s.dot) siblings.now ≡ map (λ (s : OneSibling). s.dot) others.now) }
{
    siblings.len() == others.len()
        && siblings
            .iter()
            .zip(others)
            .all(|(sibling, other)| sibling.dot == other.dot)
}

// Whether two lists of siblings are the same.
fn are_same(siblings: &[Sibling], others: &[Sibling]) -> bool
    ensures { IsTrue result ↔ (siblings.now ≡ others.now) }
{
    siblings.len() == others.len()
        && siblings
            .iter()
            .zip(others)
            .all(|(sibling, other)| sibling.is_same(other))
}

// The union of two clocks, for a merge.
fn join_clocks(alloc: Global, own: &Clock, other: &Clock) -> Result<Clock, MergeFault>
    ensures clock { IfOk result (λ union. IsClock union) }
    ensures union { IfOk result (λ union. IsUnion own.now other.now union) }
    ensures full { result ≡ Err MergeFault.ClockFull ↔ (most_entries < vnodes_together own.now other.now) }
{
    match own.join(alloc, other) {
        Ok(clock) => Ok(clock),
        Err(ClockFault::TooManyEntries) => Err(MergeFault::ClockFull),
        Err(ClockFault::CounterPastLimit) => Err(MergeFault::NoMemory),
        Err(ClockFault::NoMemory) => Err(MergeFault::NoMemory),
    }
}
