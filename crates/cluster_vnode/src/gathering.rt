//! Passes and vnodes come together again.

ghost use Rattle.std.specs.Prelude.{◌≡◌, ℕ, ◌≤◌, [], length, map, vec_len, vec_capacity};
ghost use Rattle.std.specs.List.{flat_map, Contains};
ghost use Rattle.cluster_stamps.specs.declared.view.Told.{Told};
ghost use Rattle.cluster_stamps.specs.Rule.{nothing, times};
ghost use Rattle.cluster_vnode.specs.Gathers.{AreVnodes, IsGathered, AreCounted, Stands, Differ, journal_stamps};

use crate::locked::Locked;
use crate::pass::{Pass, Room};
use cluster_stamps::{Card, Stamps};
use std::sync::Mutex;
use vnode::Vnode;

// Joins what the passes know.
fn join_passes<B: Room>(stamps: &Stamps, all: &mut Card, passes: Vec<Pass<B>>)
    requires table { (stamps.now.table.shared.table_id ≡ B.table) × (all.old.table_id ≡ B.table) }
    requires none { (all.old.me.1 ≡ []) × (all.old.me.0 ≡ nothing) }
    ensures table { (all.new.table_id ≡ B.table) × (all.new.me.1 ≡ []) }
    ensures passes { (all.new.me.0.parts ≡ vec_len passes) × (all.new.me.0.told ≡ flat_map (λ p. p.told) passes.items) }
    ensures rest { (all.new.me.0.pending ≡ []) × (all.new.me.0.owed ≡ []) × (all.new.me.0.histories ≡ []) }
{
    for pass in passes {
        let Pass { card, .. } = pass;
        stamps.join(all, card);
    }
}

// Joins what the vnodes know, and takes them out of their locks.
fn join_vnodes<B: Room>(
    stamps: &Stamps,
    all: &mut Card,
    locks: Vec<Mutex<Locked<B>>>,
    vnodes: &mut Vec<Vnode>,
)
    requires table { (stamps.now.table.shared.table_id ≡ B.table) × (all.old.table_id ≡ B.table) × (all.old.me.1 ≡ []) }
    requires none { (all.old.me.0.pending ≡ []) × (all.old.me.0.owed ≡ []) × (all.old.me.0.histories ≡ []) × (vnodes.old.items ≡ []) }
    requires room { vec_len locks ≤ vec_capacity vnodes.old }
    ensures table { (all.new.table_id ≡ B.table) × (all.new.me.1 ≡ []) × (all.new.me.0.pending ≡ []) × (all.new.me.0.owed ≡ []) }
    ensures same { (all.new.me.0.parts ≡ all.old.me.0.parts) × (all.new.me.0.told ≡ all.old.me.0.told) }
    ensures vnodes { AreVnodes vnodes.new.items all.new.me.0.histories × (length all.new.me.0.histories ≡ vec_len locks) × (vec_len vnodes.new ≡ vec_len locks) }
{
    for lock in locks {
        let (vnode, card) = lock.into_inner().into_parts();
        stamps.join(all, card);
        vnodes.push_reserved(vnode);
    }
}

/// The vnodes, taken out of their locks, once all passes are back: whatever a pass was told stands in the journal of its vnode. The list
/// of them has room for each.
pub fn gathered<B: Room>(
    stamps: Stamps,
    locks: Vec<Mutex<Locked<B>>>,
    passes: Vec<Pass<B>>,
    mut vnodes: Vec<Vnode>,
) -> Vec<Vnode>
    requires table { stamps.table.shared.table_id ≡ B.table }
    requires all { (stamps.table.shared.key.passes ≤ vec_len passes) × (vec_len locks ≡ stamps.table.shared.key.vnodes) }
    requires room { (vec_len locks ≤ vec_capacity vnodes) × (vnodes.items ≡ []) }
    ensures gathered { IsGathered (flat_map (λ p. p.told) passes.items) result.items × (vec_len result ≡ vec_len locks) }
    ensures counted { AreCounted (flat_map (λ p. p.told) passes.items) result.items }
    ensures apart { (x : ℕ) → (times x (map (λ t. t.stamp) (flat_map (λ p. p.told) passes.items)) ≤ 1) × (times x (journal_stamps result.items) ≤ 1) }
    ensures stands { (t : Told) → Contains (flat_map (λ p. p.told) passes.items) t → Stands result.items t }
    ensures differ { Differ result.items }
{
    let mut all = stamps.blank();
    join_passes(&stamps, &mut all, passes);
    join_vnodes(&stamps, &mut all, locks, &mut vnodes);
    stamps.close(all);
    vnodes
}
