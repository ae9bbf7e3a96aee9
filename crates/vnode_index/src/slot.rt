//! What one slot holds: bits of an item's hash, and where the item is.

ghost use Rattle.std.specs.Prelude.{◌≡◌, ◌*◌, ◌/◌, ◌^◌, ◌<◌, ◌≤◌};
ghost use Rattle.vnode_index.specs.Slots.{folded, home};

use std::marker::Model;
use std::mem::size_of;

/// 23 bits of a hash, as many as a slot has room for: the highest of its two halves XORed. So hashes that agree in
/// some bits of one half, as those of a shard's keys may, are still spread by the other half.
#[derive(Clone, Copy, PartialEq, Eq)]
pub struct Fingerprint {
    bits: u32,
}

impl Model for Fingerprint {
    ghost use Rattle.std.specs.Prelude.{ℕ, ◌<◌, ◌^◌};

    ghost Value = { ℕ };

    ghost view = { λ hash. hash.bits };

    ghost invariant = { λ hash. hash.bits < 2 ^ 23 };

    ghost inverse = { λ n. record { bits = n } };
}

impl Fingerprint {
    /// The fingerprint of a hash.
    pub fn of(hash: u64) -> Fingerprint
        ensures { result ≡ folded hash }
    {
        let both = (hash >> 32) as u32 ^ (hash % (1 << 32)) as u32;
        Fingerprint { bits: both >> 9 }
    }

    // Where a search for it begins among so many slots: the larger it is, the further on.
    pub(crate) fn home(self, count: usize) -> usize
        requires { count ≤ 2 ^ 25 }
        ensures value { result ≡ home count self }
        ensures within { 0 < count → result < count }
    {
        (self.bits as usize * count) >> 23
    }
}

// 23 bits of an item's hash, and 25 bits for its place + 1; at 0 the slot is free. Contracts see the two numbers.
#[derive(Clone, Copy)]
pub(crate) struct Slot {
    // The low 16 bits of the item.
    item_low: u16,
    // The low 7 bits of the hash, and below them the high 9 of the item.
    shared: u16,
    // The high 16 bits of the hash.
    hash_high: u16,
}

const _: () = prove!(size_of::<Slot>() == 6);

impl Model for Slot {
    ghost use Rattle.std.specs.Prelude.{◌+◌, ◌*◌, ◌/◌, ◌%◌, ◌<◌, ◌^◌};
    ghost use Rattle.vnode_index.specs.Slots.{Slot};

    ghost Value = { Slot };

    ghost view = { λ s. record { hash = s.hash_high * 2 ^ 7 + s.shared / 2 ^ 9; item = s.shared % 2 ^ 9 * 2 ^ 16 + s.item_low } };

    ghost invariant = { λ s. (s.item_low < 2 ^ 16) × (s.shared < 2 ^ 16) };

    ghost inverse = { λ s. record { item_low = s.item % 2 ^ 16; shared = s.hash % 2 ^ 7 * 2 ^ 9 + s.item / 2 ^ 16; hash_high = s.hash / 2 ^ 7 } };
}

impl Slot {
    pub(crate) const FREE: Slot = Slot {
        item_low: 0,
        shared: 0,
        hash_high: 0,
    };

    pub(crate) fn new(hash: Fingerprint, item: usize) -> Slot
        requires { item < 2 ^ 25 }
        ensures { result ≡ record { hash = hash; item = item } }
    {
        Slot {
            item_low: (item % (1 << 16)) as u16,
            shared: ((hash.bits % (1 << 7)) << 9) as u16 + (item >> 16) as u16,
            hash_high: (hash.bits >> 7) as u16,
        }
    }

    pub(crate) fn hash(self) -> Fingerprint
        ensures { result ≡ self.hash }
    {
        Fingerprint {
            bits: (u32::from(self.hash_high) << 7) + u32::from(self.shared >> 9),
        }
    }

    pub(crate) fn item(self) -> usize
        ensures { result ≡ self.item }
    {
        (usize::from(self.shared % (1 << 9)) << 16) + usize::from(self.item_low)
    }
}
