//! The states of a vnode's keys, in shards that grow one by one.

ghost use Rattle.std.specs.Prelude.{◌≡◌};
ghost use Rattle.std.specs.List.{All};
ghost use Rattle.ring.specs.Places.{ring_place};
ghost use Rattle.vnode.specs.Shards.{IsHashed};

use crate::hint::Hint;
use crate::key_blocks::KeyBlock;
use crate::seed::Seed;
use crate::shard::Shard;
use crate::spot::Spot;
use key_state::{Key, Stored};
use std::alloc::{AllocError, Global};
use std::hash::BuildHasher;
use vnode_index::Fingerprint;

/// In how many shards the states of a vnode lie: to move those of a million keys at once would hold calls up. A million
/// keys leave some thirty thousand to each, and a growth moves no others. Each look-up begins at what its shard is made of,
/// a few lines of memory: of many more shards they don't stay in the caches that are near the processor.
const SHARDS: usize = 32;

/// With so many slots at least the index of a shard begins.
const FIRST_SLOTS: usize = 32;

/// Of so many vnodes that follow one another each has a turn of its own: a ring keeps a key at three of them.
const TURNS: u32 = 3;

/// Where a state was found: in which shard, and at which place there.
#[derive(Clone, Copy)]
pub(crate) struct Found {
    shard: usize,
    place: usize,
}

/// Where a full block of a vnode's keys lies: in which shard, and which of those there it is.
#[derive(Clone, Copy)]
pub struct BlockSpot {
    shard: usize,
    number: usize,
}

/// The state of each key at which something is known. Each lies in the shard that the key's hash picks, and a shard grows
/// on its own: no growth moves the keys of another.
#[derive(Drop)]
pub(crate) struct States {
    alloc: Global,
    seed: Seed,
    /// By which its shards grow at other numbers of keys than those of the next vnodes.
    turn: u8,
    /// The hash that look-ups begin by.
    hint: Hint,
    // None of them before the first state is kept.
    pub(crate) shards: Vec<Shard>,
    ghost hashed: { All (IsHashed seed) shards.items },
}

impl States {
    ghost use Rattle.std.specs.Prelude.{◌<◌, ◌≤◌, ◌-◌, ◌^◌, false, None, Some, length, min, option_map, IfSome, IfNone, IfOk, IfErr, OnOk, OnErr};
    ghost use Rattle.std.specs.Option.{option_copied};
    ghost use Rattle.key_state.specs.declared.content.Key.{Key};
    ghost use Rattle.key_state.specs.State.{State, empty};
    ghost use Rattle.journal.specs.Keys.{same_key};
    ghost use Rattle.vnode.specs.Kept.{Shows};
    ghost use Rattle.vnode.specs.States.{AreInPlace, IsSomeKnown, LiesAt, all_known, found_at, shard_count, spot_of, state_at};

    /// No states yet, of a vnode by its identifier. Takes no memory.
    pub(crate) fn new(alloc: Global, vnode: u32, seed: Seed) -> States
        ensures none { (q : Key) → state_at result q ≡ empty }
        ensures placed { AreInPlace result }
    {
        States {
            alloc,
            seed,
            turn: (vnode % TURNS) as u8,
            hint: Hint::none(),
            shards: Vec::new(alloc),
        }
    }

    /// Has look-ups begin by that hash.
    pub(crate) fn expect(&mut self, hint: &Hint)
        ensures { self.new ≡ self.old }
    {
        self.hint = hint.copy();
    }

    // Where the state of a key is found, if it lies at a spot: there it may lie at a place.
    fn find(&self, spot: Spot, likely: Option<usize>, key: &Key) -> Option<Found>
        requires { AreInPlace self.now }
        ensures found { IfSome result (λ found. LiesAt self.now key.now found) }
        ensures absent { spot ≡ spot_of self.now key.now → IfNone result (found_at self.now key.now ≡ None) }
    {
        let place = self
            .shards
            .get(spot.shard)?
            .find(likely, Fingerprint::of(spot.hash), key)?;
        Some(Found {
            shard: spot.shard,
            place,
        })
    }

    /// Where the state of a key is found, or where it is to lie.
    pub(crate) fn look_up(&self, key: &Key) -> Result<Found, Spot>
        requires { AreInPlace self.now }
        ensures found { IfOk result (λ found. LiesAt self.now key.now found) }
        ensures absent { IfErr result (λ spot. (spot ≡ spot_of self.now key.now) × (spot.shard < shard_count) × (found_at self.now key.now ≡ None)) }
    {
        self.look_up_by(&self.hint, key)
    }

    // The same by what is remembered of a key.
    fn look_up_by(&self, hint: &Hint, key: &Key) -> Result<Found, Spot>
        requires { AreInPlace self.now }
        ensures found { IfOk result (λ found. LiesAt self.now key.now found) }
        ensures absent { IfErr result (λ spot. (spot ≡ spot_of self.now key.now) × (spot.shard < shard_count) × (found_at self.now key.now ≡ None)) }
    {
        let expected = hint.hash();
        if let Some(hash) = expected {
            if let Some(found) = self.find(Spot::of(hash), hint.place(), key) {
                return Ok(found);
            }
        }
        let hash = self.seed.hash_one(key);
        let spot = Spot::of(hash);
        if expected == Some(hash) {
            return Err(spot);
        }
        match self.find(spot, None, key) {
            Some(found) => Ok(found),
            None => Err(spot),
        }
    }

    /// The state that was found, with the key that is kept beside it.
    pub(crate) fn entry(&self, found: Found) -> (&Key, &Stored)
        requires { (k : Key) × LiesAt self.now k found }
        ensures key { (k : Key) → LiesAt self.now k found → result.0.now ≡ k }
        ensures state { (k : Key) → LiesAt self.now k found → Some result.1.now ≡ found_at self.now k }
    {
        self.shards[found.shard].entry(found.place)
    }

    /// The state that is kept under a key, with the key that is kept beside it.
    pub(crate) fn get_key_value(&self, key: &Key) -> Option<(&Key, &Stored)>
        requires { AreInPlace self.now }
        ensures key { IfSome result (λ found. found.0.now ≡ key.now) }
        ensures value { option_map (λ found. found.1.now) result ≡ found_at self.now key.now }
    {
        match self.look_up(key) {
            Ok(found) => Some(self.entry(found)),
            Err(_) => None,
        }
    }

    /// The state that is kept under a key.
    pub(crate) fn get(&self, key: &Key) -> Option<&Stored>
        requires { AreInPlace self.now }
        ensures value { option_copied result ≡ found_at self.now key.now }
    {
        match self.get_key_value(key) {
            Some((_, stored)) => Some(stored),
            None => None,
        }
    }

    /// Writes another state, at which something is known, where one was found.
    pub(crate) fn set(&mut self, found: Found, state: Stored)
        requires { (k : Key) × LiesAt self.old k found }
        ensures { (k : Key) → LiesAt self.old k found → Shows self.old self.new k state }
    {
        self.shards[found.shard].set(found.place, state);
    }

    /// How many states are kept, as far as a number reaches.
    pub(crate) fn len(&self) -> usize
        ensures { result ≡ min (length (all_known self.now)) (2 ^ 64 - 1) }
    {
        let mut count: usize = 0;
        for shard in &self.shards {
            count = count.saturating_add(shard.len());
        }
        count
    }

    // Makes the shards that lack.
    fn make_shards(&mut self) -> Result<(), AllocError>
        ensures same { (q : Key) → found_at self.new q ≡ found_at self.old q }
        ensures placed { AreInPlace self.old → AreInPlace self.new }
        ensures seed { self.new.seed ≡ self.old.seed }
        ensures all { OnOk result (shard_count ≤ length self.new.shards.items) }
    {
        self.shards
            .reserve_exact(SHARDS.saturating_sub(self.shards.len()))?;
        for shard in self.shards.len()..SHARDS {
            let slots = first_slots(self.turn, shard);
            self.shards.push(Shard::new(self.alloc, slots))?;
        }
        Ok(())
    }

    /// Keeps a state, at which something is known, as that of a key that has none, which lies at `spot`.
    pub(crate) fn insert(&mut self, spot: Spot, key: Key, state: Stored) -> Result<(), AllocError>
        requires spot { spot ≡ spot_of self.old key }
        requires within { spot.shard < shard_count }
        requires known { IsSomeKnown state }
        requires absent { found_at self.old key ≡ None }
        ensures here { OnOk result (state_at self.new key ≡ state) }
        ensures others { OnOk result ((q : Key) → same_key key q ≡ false → state_at self.new q ≡ state_at self.old q) }
        ensures err { OnErr result ((q : Key) → state_at self.new q ≡ state_at self.old q) }
        ensures placed { AreInPlace self.old → AreInPlace self.new }
    {
        self.make_shards()?;
        self.shards[spot.shard].push(Fingerprint::of(spot.hash), key, state)
    }

    /// The place of a key on a ring of three vnodes, where it was told. Where the key lies is remembered.
    pub(crate) fn ring_place(&self, hint: &mut Hint, key: &Key) -> Option<u32>
        requires { AreInPlace self.now }
        ensures { IfSome result (λ told. told ≡ ring_place key.now.bucket key.now.key) }
    {
        match self.look_up_by(hint, key) {
            Ok(found) => {
                hint.note(found.place);
                self.shards[found.shard].ring_place(found.place)
            }
            Err(_) => None,
        }
    }

    /// Keeps that place, where the key has a state and there is memory.
    pub(crate) fn learn_ring_place(&mut self, key: &Key, told: u32)
        requires placed { AreInPlace self.old }
        requires told { told ≡ ring_place key.now.bucket key.now.key }
        ensures { self.new ≡ self.old }
    {
        if let Ok(found) = self.look_up(key) {
            self.shards[found.shard].learn_ring_place(found.place, told);
        }
    }

    /// Where the first full block of keys lies that wasn't compared with another vnode's.
    pub(crate) fn uncompared(&self) -> Option<BlockSpot> {
        for shard in 0..self.shards.len() {
            if let Some(number) = self.shards[shard].uncompared() {
                return Some(BlockSpot { shard, number });
            }
        }
        None
    }

    /// A full block of keys, shared.
    pub(crate) fn key_block(&self, at: BlockSpot) -> Option<KeyBlock> {
        self.shards.get(at.shard)?.key_block(at.number)
    }

    /// Takes the memory of another vnode's block of keys in place of that of its own one there, where both are the same.
    pub(crate) fn share_keys(&mut self, at: BlockSpot, block: KeyBlock)
        ensures { self.new ≡ self.old }
    {
        if let Some(shard) = self.shards.get_mut(at.shard) {
            shard.share_keys(at.number, block);
        }
    }
}

/// With how many slots the index of a shard begins: with up to a quarter more than another's, by which each grows. So shards
/// grow at different numbers of keys, and so do those of vnodes that hear of the same ones: no write waits for three growths.
fn first_slots(turn: u8, shard: usize) -> usize {
    let steps_before = usize::from(turn) * SHARDS / TURNS as usize;
    let step = (shard % SHARDS + steps_before) % SHARDS;
    FIRST_SLOTS + FIRST_SLOTS * step / (4 * SHARDS)
}
