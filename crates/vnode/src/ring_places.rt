//! Where the keys of a shard stand on a ring of three vnodes.

ghost use Rattle.std.specs.Prelude.{◌≡◌, ◌<◌, ◌≤◌, ◌⊎◌, ℕ, [], IfSome, OnOk, Some, length, max, slice_get};
ghost use Rattle.vnode.specs.RingPlaces.{number};

use crate::key_blocks::BLOCK_KEYS;
use std::alloc::{AllocError, Global};
use std::marker::Model;
use std::mem::size_of;

/// The place of a key on a ring of three vnodes, where it was told. A vnode keeps one for each of its keys.
#[derive(Clone, Copy)]
enum RingPlace {
    Untold,
    First,
    Second,
    Third,
}

const _: () = prove!(size_of::<RingPlace>() == 1);

impl RingPlace {
    fn of(place: u32) -> RingPlace
        requires { place < 3 }
        ensures { number result ≡ Some place }
    {
        match place {
            0 => RingPlace::First,
            1 => RingPlace::Second,
            _ => RingPlace::Third,
        }
    }

    fn number(self) -> Option<u32>
        ensures { result ≡ number self }
    {
        match self {
            RingPlace::Untold => None,
            RingPlace::First => Some(0),
            RingPlace::Second => Some(1),
            RingPlace::Third => Some(2),
        }
    }
}

/// The places of keys on a ring of three vnodes, in the order of the keys, where they were told. To make one anew is a digest.
#[derive(Drop)]
pub(crate) struct RingPlaces {
    told: Vec<RingPlace>,
}

impl Model for RingPlaces {
    ghost use Rattle.std.specs.Prelude.{ℕ, List, Option, map};
    ghost use Rattle.vnode.specs.RingPlaces.{number};

    ghost Value = { List (Option ℕ) };

    ghost view = { λ p. map number p.told.items };
}

impl RingPlaces {
    /// None was told. It takes no memory.
    pub(crate) fn new(alloc: Global) -> RingPlaces
        ensures { result ≡ [] }
    {
        RingPlaces {
            told: Vec::new(alloc),
        }
    }

    /// The place of the key at an index, where it was told.
    pub(crate) fn get(&self, i: usize) -> Option<u32>
        ensures { IfSome result (λ place. slice_get self.now i ≡ Some (Some place)) }
    {
        self.told.get(i)?.number()
    }

    /// Keeps the place of the key at an index, of so many keys, if there is memory.
    pub(crate) fn learn(&mut self, i: usize, keys: usize, place: u32)
        requires within { i < keys }
        requires place { place < 3 }
        ensures told { (j p : ℕ) → slice_get self.new j ≡ Some (Some p) → (slice_get self.old j ≡ Some (Some p)) ⊎ ((j ≡ i) × (p ≡ place)) }
        ensures count { length self.new ≤ max (length self.old) keys }
    {
        if self.told.len() <= i && self.reach(keys).is_err() {
            return;
        }
        self.told[i] = RingPlace::of(place);
    }

    // Has a place for each of so many keys, which are more than before. It grows by an eighth, and by a block at least: so little lies
    // idle, and what was given up for it is soon taken for something else.
    fn reach(&mut self, keys: usize) -> Result<(), AllocError>
        requires { length self.old < keys }
        ensures told { (j p : ℕ) → slice_get self.new j ≡ Some (Some p) → slice_get self.old j ≡ Some (Some p) }
        ensures count { length self.new ≤ keys }
        ensures reached { OnOk result (length self.new ≡ keys) }
    {
        let more = keys - self.told.len();
        if self.told.capacity() < keys {
            let growth = more.max(BLOCK_KEYS).max(self.told.len() / 8);
            self.told.reserve_exact(growth)?;
        }
        self.told.resize(keys, RingPlace::Untold)
    }
}
