//! Seeds: by them alone it is decided which keys of a vnode share a shard.

use dvv::Clock;
use key_state::{Content, Key};
use std::alloc::Global;
use std::io;
use std::random::RandomSource;
use std::test::Fail;
use test_support::expect;
use vnode::{Seed, Vnode};

/// So many shards a vnode has.
const SHARDS: usize = 32;

/// A source that gives the same byte each time.
struct Constant(u8);

impl RandomSource for Constant {
    fn fill_bytes(&self, buf: &mut [u8]) -> io::Result<()> {
        buf.fill(self.0);
        Ok(())
    }
}

/// A hundred keys, as a vnode of a seed lists them to which they were written.
fn listed(alloc: Global, seed: Seed) -> Result<Vec<Key>, Fail> {
    let mut vnode = Vnode::seeded(alloc, 0, seed);
    for number in 0..100u8 {
        let key = Key::new(alloc, b"b", &[number])?;
        let seen = Clock::new(alloc);
        let _put = vnode.put_lent(u64::from(number), &key, &seen, &Content::Tombstone)?;
    }
    Ok(vnode.unsorted_keys()?.copies()?)
}

/// Whether keys stand shard by shard, as a seed puts them there.
fn is_by_shards(seed: Seed, keys: &[Key]) -> bool {
    keys.is_sorted_by(|one, next| seed.hint(one).one_of(SHARDS) <= seed.hint(next).one_of(SHARDS))
}

/// A vnode lists its keys shard by shard: in that order they stand by its own seed, and neither by another nor by the fixed one.
#[test]
fn keys_are_spread_by_the_seed(rt: HostRuntime) -> Result<(), Fail> {
    let one = Seed::random(&Constant(1))?;
    let other = Seed::random(&Constant(2))?;
    let keys = listed(rt.alloc(), one)?;
    let others = listed(rt.alloc(), other)?;
    expect(is_by_shards(one, &keys) && is_by_shards(other, &others), &1)?;
    expect(
        !is_by_shards(one, &others) && !is_by_shards(other, &keys),
        &2,
    )?;
    expect(!is_by_shards(Seed::fixed(), &keys), &3)
}
