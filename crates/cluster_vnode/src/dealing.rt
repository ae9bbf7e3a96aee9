//! Passes and vnodes are dealt from one card.

ghost use Rattle.std.specs.Prelude.{◌≡◌, ◌+◌, ◌≤◌, ◌^◌, [], vec_len, vec_capacity};
ghost use Rattle.std.specs.List.{All};
ghost use Rattle.cluster_stamps.specs.Rule.{fresh};
ghost use Rattle.cluster_vnode.specs.Calls.{pass_view, undealt};

use crate::locked::Locked;
use crate::pass::{Pass, Room};
use cluster_stamps::{Card, Size, Stamps};
use std::marker::PhantomData;
use std::sync::Mutex;
use vnode::{Hint, Seed, Vnode};

/// Takes a pass for each part of the card.
pub fn deal_passes<B: Room>(
    stamps: &Stamps,
    card: &mut Card,
    passes: &mut Vec<Pass<B>>,
    count: usize,
)
    requires table { (stamps.now.table.shared.table_id ≡ B.table) × (card.old.table_id ≡ B.table) }
    requires card { card.old.me ≡ (undealt count card.old.me.0.histories, []) }
    requires room { (count ≤ vec_capacity passes.old) × (passes.old.items ≡ []) }
    ensures table { card.new.table_id ≡ B.table }
    ensures card { card.new.me ≡ (undealt 0 card.old.me.0.histories, []) }
    ensures passes { (vec_len passes.new ≡ count) × All (λ p. p ≡ pass_view 0 []) passes.new.items }
{
    for _dealt in 0..count {
        let pass = stamps.take_part(card);
        passes.push_reserved(Pass {
            card: pass,
            drawn: 0,
            hint: Hint::none(),
            room: PhantomData,
        });
    }
}

/// Puts a new vnode under a lock for each history of the card: as many as the size says, numbered from its first identifier on.
pub fn deal_vnodes<B: Room>(
    seed: Seed,
    stamps: &Stamps,
    mut card: Card,
    locks: &mut Vec<Mutex<Locked<B>>>,
    size: &Size,
)
    requires table { (stamps.now.table.shared.table_id ≡ B.table) × (card.table_id ≡ B.table) }
    requires card { card.me ≡ (undealt 0 (fresh size.now.first size.now.vnodes), []) }
    requires few { size.now.first + size.now.vnodes ≤ 2 ^ 32 }
    requires room { (size.now.vnodes ≤ vec_capacity locks.old) × (vec_len locks.old ≡ 0) }
    ensures { vec_len locks.new ≡ size.now.vnodes }
{
    let alloc = *locks.allocator();
    for number in 0..size.vnodes {
        let rest = stamps.take_rest(&mut card);
        let vnode = Vnode::seeded(alloc, size.first + number as u32, seed);
        locks.push_reserved(Mutex::new(Locked::new(vnode, card)));
        card = rest;
    }
}
