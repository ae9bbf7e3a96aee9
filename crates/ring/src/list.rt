//! Preference lists: the vnodes that hold the copies of a key.

ghost use Rattle.std.specs.Prelude.{◌≡◌, ◌==◌, ◌+◌, ◌<◌, ◌∷◌, filter, length, not};
ghost use Rattle.std.specs.List.{AllByRecursion, range_with_len};
ghost use Rattle.ring.specs.Places.{AreDifferent, copies_in, others, preferred, vnode_at};

use crate::placement::Placement;
use std::marker::Model;

/// The vnodes of a key's preference list, by their indexes: the one at the key's place first, no two of them alike.
#[derive(Drop)]
pub struct PreferenceList {
    vnodes: [usize; 3],
    copies: usize,
}

impl Model for PreferenceList {
    ghost use Rattle.std.specs.Prelude.{ℕ, List, take, ◌≤◌};

    ghost Value = { List ℕ };

    ghost view = { λ list. take list.copies list.vnodes };

    ghost invariant = { λ list. list.copies ≤ 3 };
}

impl PreferenceList {
    /// The vnodes, in order. The first coordinates the key's puts.
    pub fn as_slice(&self) -> &[usize]
        ensures { result.now ≡ self.now }
    {
        &self.vnodes[..self.copies]
    }
}

impl Placement {
    /// The preference list that begins at a place: the vnodes follow each other, past the last from 0, and there are as many as
    /// `copies` says. It takes no memory.
    pub fn preferred(&self, place: u32) -> PreferenceList
        requires { place < self.now.vnodes }
        ensures list { result ≡ preferred self.now place }
        ensures count { length result ≡ copies_in self.now }
        ensures within { AllByRecursion (λ vnode. vnode < self.now.vnodes) result }
        // As whoever calls the vnodes requires it of those that it is told.
        ensures different { AreDifferent result }
    {
        let copies = self.copies();
        PreferenceList {
            vnodes: [
                self.vnode_at(place, 0),
                self.vnode_at(place, 1),
                self.vnode_at(place, 2),
            ],
            copies: copies as usize,
        }
    }

    /// The same list without the vnode at an index, which coordinates. It takes no memory.
    pub fn others(&self, place: u32, at: u32) -> PreferenceList
        requires place { place < self.now.vnodes }
        requires index { at < copies_in self.now }
        ensures list { result ≡ others self.now place at }
        ensures count { length result + 1 ≡ copies_in self.now }
        // As a put requires it of its coordinator and the others.
        ensures different { AreDifferent (vnode_at place at self.now.vnodes ∷ result) }
    {
        let copies = self.copies();
        let [second, third] = other_indexes(at);
        PreferenceList {
            vnodes: [
                self.vnode_at(place, second),
                self.vnode_at(place, third),
                self.vnode_at(place, at),
            ],
            copies: copies as usize - 1,
        }
    }

    /// The vnode at an index of the preference list that begins at a place. It takes no memory.
    pub fn vnode_at(&self, place: u32, index: u32) -> usize
        requires { place < self.now.vnodes }
        ensures vnode { result ≡ vnode_at place index self.now.vnodes }
        ensures within { result < self.now.vnodes }
    {
        ((u64::from(place) + u64::from(index)) % u64::from(self.vnodes())) as usize
    }
}

// The other indexes of a list of three.
fn other_indexes(at: u32) -> [u32; 2]
    requires { at < 3 }
    ensures { result ≡ filter (λ index. not (index == at)) (range_with_len 0 3) }
{
    match at {
        0 => [1, 2],
        1 => [0, 2],
        _ => [0, 1],
    }
}
