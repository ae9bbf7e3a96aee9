//! Where keys stand among the vnodes of a store.

ghost use Rattle.std.specs.Prelude.{◌≡◌, ◌↔◌, ◌<◌, ◌≤◌, ◌^◌, ℕ, List, length, IsTrue, None, Some};
ghost use Rattle.ring.specs.Places.{copies_in, place_in, ring_place};

use crate::place;
use std::marker::Model;

/// Where keys stand among so many vnodes, one at least, and how many copies of each are wanted, 1 to 3: each key at the place that
/// its digest gives, or all at one place.
#[derive(Drop)]
pub struct Placement {
    vnodes: u32,
    copies: u32,
    first: Option<u32>,
}

impl Model for Placement {
    ghost use Rattle.std.specs.Prelude.{◌<◌, ◌≤◌};
    ghost use Rattle.ring.specs.Places.{PlacementView, IsPlaced};

    ghost Value = { PlacementView };

    ghost view = { λ p. record { vnodes = p.vnodes; copies = p.copies; first = p.first } };

    ghost invariant = { λ p. (0 < p.vnodes) × (0 < p.copies) × (p.copies ≤ 3) × IsPlaced p.first p.vnodes };
}

impl Placement {
    /// Each key at the place that its digest gives.
    pub fn by_digest(vnodes: u32, copies: u32) -> Placement
        requires some { 0 < vnodes }
        requires one { 0 < copies }
        requires few { copies ≤ 3 }
        ensures { result ≡ record { vnodes = vnodes; copies = copies; first = None } }
    {
        Placement {
            vnodes,
            copies,
            first: None,
        }
    }

    /// Every key at one place.
    pub fn at_one(vnodes: u32, first: u32, copies: u32) -> Placement
        requires first { first < vnodes }
        requires one { 0 < copies }
        requires few { copies ≤ 3 }
        ensures { result ≡ record { vnodes = vnodes; copies = copies; first = Some first } }
    {
        Placement {
            vnodes,
            copies,
            first: Some(first),
        }
    }

    /// How many vnodes there are.
    pub fn vnodes(&self) -> u32
        ensures number { result ≡ self.now.vnodes }
        ensures some { 0 < result }
    {
        self.vnodes
    }

    /// How many copies of each key there are, which is how many vnodes a preference list has: as many as are wanted, or all where
    /// there are fewer.
    pub fn copies(&self) -> u32
        ensures copies { result ≡ copies_in self.now }
        ensures some { 0 < result }
        ensures few { result ≤ 3 }
    {
        self.copies.min(self.vnodes)
    }

    /// Whether there are three vnodes, and each key at the place among them that its digest gives.
    pub fn is_ring_of_three(&self) -> bool
        ensures ring { IsTrue result ↔ ((self.now.vnodes ≡ 3) × (self.now.first ≡ None)) }
        ensures places { IsTrue result → (bucket key : List ℕ) → place_in self.now bucket key ≡ ring_place bucket key }
    {
        self.vnodes == 3 && self.first.is_none()
    }

    /// The place of a key: the vnode at which its preference list begins. It takes no memory.
    pub fn place_of(&self, bucket: &[u8], key: &[u8]) -> u32
        requires { length bucket.now < 2 ^ 32 }
        ensures place { result ≡ place_in self.now bucket.now key.now }
        ensures within { result < self.now.vnodes }
    {
        match self.first {
            Some(first) => first,
            None => place(bucket, key, self.vnodes),
        }
    }
}
