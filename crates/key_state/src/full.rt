//! Siblings and a clock, kept together.

ghost use Rattle.std.specs.Prelude.{◌≡◌, min, sum_by};
ghost use Rattle.key_state.specs.Sizes.{content_bytes, most_bytes, state_bytes};
ghost use Rattle.key_state.specs.State.{AreInOrder, AreCovered, IsState};

use crate::content::{Sibling, Siblings};
use dvv::Clock;
use std::marker::Model;

// The siblings and the clock of a key.
#[derive(Drop)]
pub(crate) struct Full {
    siblings: Siblings,
    clock: Clock,
    // How many the contents have: counted while these are at hand, so that none is fetched for it later.
    bytes: u64,
}

impl Model for Full {
    ghost use Rattle.std.specs.Prelude.{◌≡◌};
    ghost use Rattle.key_state.specs.Sizes.{state_bytes};
    ghost use Rattle.key_state.specs.State.{State, IsState};

    ghost Value = { State };

    ghost view = { λ f. record { siblings = f.siblings.items; clock = f.clock } };

    ghost invariant = { λ f. IsState (record { siblings = f.siblings.items; clock = f.clock }) × (f.bytes ≡ state_bytes (record { siblings = f.siblings.items; clock = f.clock })) };
}

impl Full {
    // These siblings, and a clock that counts each of them.
    pub(crate) fn new(siblings: Siblings, clock: Clock) -> Self
        requires order { AreInOrder siblings.items }
        requires covered { AreCovered clock siblings.items }
        ensures full { result ≡ record { siblings = siblings.items; clock = clock } }
        ensures state { IsState result }
    {
        // What every clock keeps is told with its entries.
        let _entries = clock.entries();
        let bytes = bytes_of(siblings.as_slice());
        Full {
            siblings,
            clock,
            bytes,
        }
    }

    // Takes siblings in place of its own, each counted by the clock.
    pub(crate) fn set_siblings(&mut self, siblings: Siblings)
        requires order { AreInOrder siblings.items }
        requires covered { AreCovered self.old.clock siblings.items }
        ensures set { self.new ≡ record { siblings = siblings.items; clock = self.old.clock } }
        ensures state { IsState self.new }
    {
        self.bytes = bytes_of(siblings.as_slice());
        self.siblings = siblings;
    }

    // The siblings, rising by dot.
    pub(crate) fn siblings(&self) -> &[Sibling]
        ensures all { result.now ≡ self.now.siblings }
        ensures state { IsState self.now }
    {
        self.siblings.as_slice()
    }

    // The clock.
    pub(crate) fn clock(&self) -> &Clock
        ensures { result.now ≡ self.now.clock }
    {
        &self.clock
    }

    // The bytes of its contents, 2^64 - 1 where they are more. They are kept with it: it touches no content.
    pub(crate) fn bytes(&self) -> u64
        ensures { result ≡ state_bytes self.now }
    {
        self.bytes
    }
}

// How many bytes the contents of siblings have, 2^64 - 1 where they are more.
fn bytes_of(siblings: &[Sibling]) -> u64
    ensures { result ≡ min (sum_by (λ s. content_bytes s.content) siblings.now) most_bytes }
{
    let mut bytes: u64 = 0;
    for sibling in siblings {
        bytes = bytes.saturating_add(sibling.content.bytes());
    }
    bytes
}
