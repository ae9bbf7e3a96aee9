//! The index.

ghost use Rattle.std.specs.Prelude.{◌≡◌, ℕ, ◌+◌, ◌/◌, ◌<◌, ◌≤◌, ◌^◌, max, true, false, [], ◌∷◌, ◌++◌, length, IfSome, IfNone, OnOk, OnErr, IsErr, IsOk, IsTrue, ◌↔◌, slice_index};
ghost use Rattle.vnode_index.specs.Slots.{HasRoom};

use crate::probe::{find_place, put, put_all};
use crate::slot::{Fingerprint, Slot};
use std::alloc::{AllocError, Global};
use std::marker::Model;

// Where there are any.
const FEWEST_SLOTS: usize = 8;

// So many take 29,360,128 items: an eighth of them stays free.
const MOST_SLOTS: usize = 1 << 25;

/// From hashes to the places of items in a list that somebody else keeps. Items are only added. Contracts see it as
/// the items' hashes, in the order of their places, and the number of its slots, of 6 bytes each: at most 2^25, of
/// which an eighth, rounded down, stays free. A search begins where the hash says, so hashes are to be spread evenly.
/// Only 23 bits of a hash count: each other item whose 23 bits agree may cost a search one more question to `is`.
#[derive(Drop)]
pub struct Index {
    slots: Vec<Slot>,
    len: usize,
}

impl Model for Index {
    ghost use Rattle.std.specs.Prelude.{length};
    ghost use Rattle.vnode_index.specs.Slots.{Indexed, IsValid, hashes_of};

    ghost Value = { Indexed };

    ghost view = { λ index. record { hashes = hashes_of index.slots.items index.len; slots = length index.slots.items } };

    ghost invariant = { λ index. IsValid index.slots.items index.len };
}

impl Index {
    /// An index of no items. It takes no memory.
    pub fn new(alloc: Global) -> Index
        ensures { result ≡ record { hashes = []; slots = 0 } }
    {
        Index {
            slots: Vec::new(alloc),
            len: 0,
        }
    }

    /// How many items there are.
    pub fn len(&self) -> usize
        ensures { result ≡ length self.now.hashes }
    {
        self.len
    }

    /// The place of an item that has the hash and of which `is` says so. It is asked only about items that have the
    /// hash, until it says so of one.
    pub fn find<F: Fn(usize) -> bool>(&self, hash: Fingerprint, is: F) -> Option<usize>
        requires { (i : ℕ) → i < length self.now.hashes → slice_index self.now.hashes i ≡ hash → F.pre is i }
        ensures found { IfSome result (λ i. (i < length self.now.hashes) × (slice_index self.now.hashes i ≡ hash) × F.post is i true) }
        ensures absent { IfNone result ((i : ℕ) → i < length self.now.hashes → slice_index self.now.hashes i ≡ hash → F.post is i false) }
    {
        find_place(self.slots.as_slice(), hash, is)
    }

    /// Makes room for one more item, where there is none: a quarter more slots, and no fewer than 8 and `fewest`. Indexes
    /// that begin with other numbers of slots grow at other numbers of items. An error is want of memory, or of slots,
    /// where that would be more than 2^25. Then nothing has changed.
    pub fn reserve(&mut self, fewest: usize) -> Result<(), AllocError>
        ensures hashes { self.new.hashes ≡ self.old.hashes }
        ensures room { OnOk result (HasRoom self.new) }
        ensures kept { HasRoom self.old → IsOk result × (self.new ≡ self.old) }
        ensures grown { OnOk result (¬ HasRoom self.old → self.new.slots ≡ max (max 8 fewest) (self.old.slots + self.old.slots / 4)) }
        ensures full { 2 ^ 25 < max fewest (self.old.slots + self.old.slots / 4) → ¬ HasRoom self.old → IsErr result }
        ensures err { OnErr result (self.new ≡ self.old) }
    {
        if self.has_room() {
            Ok(())
        } else {
            self.grow(fewest)
        }
    }

    // Whether one more item fits.
    fn has_room(&self) -> bool
        ensures { IsTrue result ↔ HasRoom self.now }
    {
        let count = self.slots.len();
        self.len < count - count / 8
    }

    // Moves all to a quarter more slots, and no fewer than 8 and `fewest`. A store has six indexes in which each of its
    // keys has a slot, so free slots cost: after a doubling some 7 of 16 would be taken, after a quarter some 7 of 10 are.
    fn grow(&mut self, fewest: usize) -> Result<(), AllocError>
        requires { ¬ HasRoom self.old }
        ensures hashes { self.new.hashes ≡ self.old.hashes }
        ensures room { OnOk result (HasRoom self.new) }
        ensures grown { OnOk result (self.new.slots ≡ max (max 8 fewest) (self.old.slots + self.old.slots / 4)) }
        ensures full { 2 ^ 25 < max fewest (self.old.slots + self.old.slots / 4) → IsErr result }
        ensures err { OnErr result (self.new ≡ self.old) }
    {
        let count = self.slots.len();
        let more = (count + count / 4).max(fewest.max(FEWEST_SLOTS));
        if more > MOST_SLOTS {
            return Err(AllocError);
        }
        let mut slots = vec![in *self.slots.allocator(); Slot::FREE; more]?;
        put_all(self.slots.as_slice(), slots.as_mut_slice());
        self.slots = slots;
        Ok(())
    }

    /// Adds an item at the end of the list, by its hash.
    pub fn push(&mut self, hash: Fingerprint)
        requires { HasRoom self.old }
        ensures hashes { self.new.hashes ≡ self.old.hashes ++ hash ∷ [] }
        ensures slots { self.new.slots ≡ self.old.slots }
    {
        self.len += 1;
        put(self.slots.as_mut_slice(), Slot::new(hash, self.len));
    }
}
