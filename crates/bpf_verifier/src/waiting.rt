//! Rows that wait for the slots to which jumps lead.

ghost use Rattle.std.specs.Prelude.{◌≡◌, ◌<◌, ◌≤◌, ◌⊎◌, ℕ, IfOk, IfSome, IfNone, true, Some, None, length, replicate, slice_get, slice_set, vec_len};
ghost use Rattle.bpf_semantics.specs.declared.profile.Profile.{Profile};
ghost use Rattle.bpf_verifier.specs.Rows.{row_at, AreAlike, StartsZero};
ghost use Rattle.bpf_verifier.specs.Waiting.{owner_at, waiting, AreOwned, StartZero};
ghost use Rattle.bpf_verifier.specs.declared.waiting.Held.{Held};

use crate::kinds::copy_row;
use bpf_ranges::Kind;
use std::alloc::{AllocError, Global};

/// A row of kinds, and the slot for which it waits, if it still does.
#[derive(Drop)]
pub struct Held<const N: usize> {
    pub owner: Option<usize>,
    pub kinds: [Kind; N],
}

/// The rows that wait for slots. A slot's row is the one at its place, where that one waits for this slot: so two slots never share
/// one, whatever their places are. The places of rows that wait no more are used again, before a row is made.
#[derive(Drop)]
pub struct Waiting<const N: usize> {
    pub places: Vec<usize>,
    pub held: Vec<Held<N>>,
    /// The rows at all places before this one wait.
    pub free: usize,
    /// Behind the registers, the kinds of each row before this place are the zero with which cells begin, whether it waits or not.
    pub low: usize,
}

impl<const N: usize> Waiting<N> {
    /// Nothing waits, for any of so many slots.
    pub fn new(alloc: Global, slots: usize) -> Result<Waiting<N>, AllocError>
        ensures rows { IfOk result (λ rows. waiting rows ≡ replicate slots None) }
        ensures owned { IfOk result (λ rows. AreOwned rows.held.items rows.free) }
        ensures zeros { (profile : Profile) → IfOk result (λ rows. StartZero profile rows.low rows.held.items) }
        ensures low { IfOk result (λ rows. rows.low ≡ N) }
    {
        let places = vec![in alloc; 0; slots]?;
        Ok(Waiting {
            places,
            held: Vec::new(alloc),
            free: 0,
            low: N,
        })
    }

    /// The place of the row that waits for a slot, if one does.
    pub fn place_of(&self, slot: usize) -> Option<usize>
        requires { slot < length (waiting self.now) }
        ensures found { IfSome result (λ place. (slice_get self.now.places.items slot ≡ Some place) × (owner_at self.now.held.items place ≡ Some slot)) }
        ensures within { IfSome result (λ place. place < vec_len self.now.held) }
        ensures none { IfNone result (row_at (waiting self.now) slot ≡ None) }
    {
        let place = self.places[slot];
        match self.held.get(place) {
            Some(held) if held.owner == Some(slot) => Some(place),
            _ => None,
        }
    }

    /// The first of the places whose rows wait for no slot, if there is one.
    fn free_place(&self) -> Option<usize>
        requires { AreOwned self.now.held.items self.now.free }
        ensures free { IfSome result (λ place. owner_at self.now.held.items place ≡ None) }
        ensures within { IfSome result (λ place. place < vec_len self.now.held) }
        ensures before { IfSome result (λ place. AreOwned self.now.held.items place) }
        ensures none { IfNone result (AreOwned self.now.held.items (vec_len self.now.held)) }
    {
        for place in self.free..self.held.len() {
            if self.held[place].owner.is_none() {
                return Some(place);
            }
        }
        None
    }

    /// Has a copy of a row wait for a slot. A row is made for it only where each that there is waits; else the cells that are the zero
    /// in all of them aren't written again.
    pub fn wait(&mut self, slot: usize, row: &[Kind; N]) -> Result<(), AllocError>
        requires registers { 11 ≤ self.old.low }
        requires short { self.old.low ≤ N }
        requires alike { (place : ℕ) (held : Held N) → slice_get self.old.held.items place ≡ Some held → AreAlike self.old.low held.kinds row.now }
        requires within { slot < length (waiting self.old) }
        requires owned { AreOwned self.old.held.items self.old.free }
        ensures rows { IfOk result (λ _. waiting self.new ≡ slice_set (waiting self.old) slot (Some row.now)) }
        ensures owned { IfOk result (λ _. AreOwned self.new.held.items self.new.free) }
        ensures zeros { (profile : Profile) → StartZero profile self.old.low self.old.held.items → StartsZero profile self.old.low row.now → IfOk result (λ _. StartZero profile self.old.low self.new.held.items) }
        ensures low { self.new.low ≡ self.old.low }
        ensures few { IfOk result (λ _. (vec_len self.new.held ≡ vec_len self.old.held) ⊎ AreOwned self.old.held.items (vec_len self.old.held)) }
    {
        let low = self.low;
        match self.free_place() {
            Some(place) => {
                let held = &mut self.held[place];
                held.owner = Some(slot);
                copy_row(low, row, &mut held.kinds);
                self.places[slot] = place;
                self.free = place + 1;
            }
            None => {
                let place = self.held.len();
                self.held.push(Held {
                    owner: Some(slot),
                    kinds: *row,
                })?;
                self.places[slot] = place;
                self.free = place + 1;
            }
        }
        Ok(())
    }

    /// Has the row at a place, which is a slot's, wait no more.
    pub fn release(&mut self, slot: usize, place: usize)
        requires within { slot < length (waiting self.old) }
        requires place { slice_get self.old.places.items slot ≡ Some place }
        requires owner { owner_at self.old.held.items place ≡ Some slot }
        requires row { place < vec_len self.old.held }
        requires owned { AreOwned self.old.held.items self.old.free }
        ensures rows { waiting self.new ≡ slice_set (waiting self.old) slot None }
        ensures free { owner_at self.new.held.items place ≡ None }
        ensures owned { AreOwned self.new.held.items self.new.free }
        ensures zeros { (profile : Profile) → StartZero profile self.old.low self.old.held.items → StartZero profile self.old.low self.new.held.items }
        ensures low { self.new.low ≡ self.old.low }
    {
        self.held[place].owner = None;
        self.free = self.free.min(place);
    }
}
