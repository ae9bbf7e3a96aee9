//! How slots are searched: a probe begins where the hash says, and goes from slot to slot, after the last to the
//! first, as far as one that is free.

ghost use Rattle.std.specs.Prelude.{◌≡◌, ℕ, ◌+◌, ◌%◌, ◌<◌, ◌⊎◌, true, false, length, replicate, IfSome, IfNone};
ghost use Rattle.vnode_index.specs.Slots.{IsSlotCount, free, slot_at, item_at, slot_of, taken, probed, Reaches, AreProbed, Puts, Rehashes};

use crate::slot::{Fingerprint, Slot};

// Where a probe that began at `home` stands after so many steps.
fn probed(home: usize, step: usize, count: usize) -> usize
    requires count { IsSlotCount count }
    requires home { home < count }
    requires step { step < count }
    ensures value { result ≡ (home + step) % count }
    ensures within { result < count }
{
    let at = home + step;
    if at < count { at } else { at - count }
}

/// The place of the first item on the way of a probe that has the hash and of which `is` says so.
#[tactic(auto, using(crate::proofs::Probing::from_home))]
pub(crate) fn find_place<F: Fn(usize) -> bool>(
    slots: &[Slot],
    hash: Fingerprint,
    is: F,
) -> Option<usize>
    requires count { (length slots.now ≡ 0) ⊎ IsSlotCount (length slots.now) }
    requires callable { (p i : ℕ) → slot_at slots.now p ≡ slot_of hash i → F.pre is i }
    ensures found { IfSome result (λ i. (p : ℕ) × (slot_at slots.now p ≡ slot_of hash i) × F.post is i true) }
    ensures absent { IfNone result ((p i : ℕ) → slot_at slots.now p ≡ slot_of hash i → Reaches slots.now hash p → F.post is i false) }
{
    let home = hash.home(slots.len());
    for step in 0..slots.len() {
        let slot = slots[probed(home, step, slots.len())];
        if slot.item() == 0 {
            return None;
        }
        let place = slot.item() - 1;
        if slot.hash() == hash && is(place) {
            return Some(place);
        }
    }
    None
}

// Where a probe for a hash comes to the first free slot.
#[tactic(auto, using(crate::proofs::Probing::from_home))]
fn first_free(slots: &[Slot], hash: Fingerprint) -> usize
    requires count { IsSlotCount (length slots.now) }
    requires free { taken slots.now < length slots.now }
    ensures within { result < length slots.now }
    ensures free { item_at slots.now result ≡ 0 }
    ensures reached { Reaches slots.now hash result }
{
    let home = hash.home(slots.len());
    for step in 0..slots.len() {
        let at = probed(home, step, slots.len());
        if slots[at].item() == 0 {
            return at;
        }
    }
    unreachable!()
}

/// Puts a slot where a probe for its hash comes to the first free one.
pub(crate) fn put(slots: &mut [Slot], slot: Slot)
    requires count { IsSlotCount (length slots.old) }
    requires free { taken slots.old < length slots.old }
    ensures { Puts slots.old slot slots.new }
{
    let at = first_free(slots, slot.hash());
    slots[at] = slot;
}

/// Puts all taken slots into more slots, each of them free. The larger a hash, the further on a probe for it begins
/// among any number of slots, so both lists are gone through from front to back.
pub(crate) fn put_all(from: &[Slot], to: &mut [Slot])
    requires count { IsSlotCount (length to.old) }
    requires larger { length from.now < length to.old }
    requires free { to.old ≡ replicate (length to.old) free }
    requires probed { AreProbed from.now }
    ensures all { Rehashes from.now to.new (length from.now) }
    ensures taken { taken to.new ≡ taken from.now }
{
    for slot in from {
        if slot.item() != 0 {
            put(to, *slot);
        }
    }
}
