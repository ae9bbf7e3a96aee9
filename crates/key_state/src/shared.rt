//! The state of a key, as those keep it who only compare it.

ghost use Rattle.std.specs.Prelude.{◌≡◌, ◌↔◌, IsTrue, IfOk};
ghost use Rattle.std.specs.Arc.{arc_value};
ghost use Rattle.key_state.specs.Few.{short_of};
ghost use Rattle.key_state.specs.Sizes.{state_bytes};
ghost use Rattle.key_state.specs.State.{empty, IsState};

use crate::content::Sibling;
use crate::held::{Held, Stored};
use crate::state::KeyState;
use dvv::Clock;
use std::alloc::{AllocError, Global};
use std::marker::Model;
use std::sync::Arc;

/// The state of a key, or nothing written. It takes little more than a pointer, and shares what it holds with the state that it is of.
#[derive(Drop)]
pub struct Shared {
    // None where nothing is written.
    pub(crate) held: Option<Arc<Held>>,
}

impl Model for Shared {
    ghost use Rattle.std.specs.Arc.{arc_value};
    ghost use Rattle.std.specs.Option.{option_map_or};
    ghost use Rattle.key_state.specs.State.{State, empty};

    ghost Value = { State };

    ghost view = { λ s. option_map_or arc_value s.held empty };
}

impl Shared {
    /// Nothing written. It takes no memory.
    pub fn nothing() -> Self
        ensures { result ≡ empty }
    {
        Shared { held: None }
    }

    // What is held.
    pub(crate) fn holding(held: Arc<Held>) -> Self
        ensures { result ≡ arc_value held }
    {
        Shared { held: Some(held) }
    }

    /// The state that is stored. Refused where its owners can't be counted further.
    pub fn of(stored: &Stored) -> Result<Self, AllocError>
        ensures { IfOk result (λ shared. shared ≡ stored.now) }
    {
        Ok(Shared::holding(stored.share()?))
    }

    /// The same state, shared with this one. Refused where its owners can't be counted further.
    pub fn copy(&self) -> Result<Self, AllocError>
        ensures { IfOk result (λ copy. copy ≡ self.now) }
    {
        match &self.held {
            None => Ok(Shared::nothing()),
            Some(held) => Ok(Shared::holding(held.clone()?)),
        }
    }

    // The state to be stored, what it holds shared.
    pub(crate) fn stored(&self, alloc: Global) -> Result<Stored, AllocError>
        ensures { IfOk result (λ stored. stored ≡ self.now) }
    {
        let held = match &self.held {
            None => Arc::new(alloc, Held::nothing(alloc))?,
            Some(held) => held.clone()?,
        };
        Ok(Stored::new(held))
    }

    // The siblings, rising by dot.
    pub(crate) fn siblings(&self) -> &[Sibling]
        ensures all { result.now ≡ self.now.siblings }
        ensures state { IsState self.now }
    {
        match &self.held {
            None => &[],
            Some(held) => held.siblings(),
        }
    }

    // The clock: where none is kept, the short one is lent.
    pub(crate) fn clock<'a>(&'a self, lent: &'a Clock) -> &'a Clock
        requires { lent.now ≡ short_of self.now.clock }
        ensures { result.now ≡ self.now.clock }
    {
        match &self.held {
            None => lent,
            Some(held) => held.clock(lent),
        }
    }

    /// The bytes of its contents, 2^64 - 1 where they are more.
    pub fn bytes(&self) -> u64
        ensures { result ≡ state_bytes self.now }
    {
        match &self.held {
            None => 0,
            Some(held) => held.bytes(),
        }
    }

    /// Whether a state is the same: each sibling with its content, and the clock.
    pub fn is_same(&self, state: &KeyState) -> bool
        ensures { IsTrue result ↔ (self.now ≡ state.now) }
    {
        match &self.held {
            None => state.has(&[], &[]),
            Some(held) => held.is_same(state),
        }
    }
}
