//! Seeds: by the one with which a cluster is opened it is decided which keys of its vnodes share a shard.

ghost use Rattle.std.specs.Prelude.{◌≡◌, []};
ghost use Rattle.cluster_stamps.specs.Rule.{newcomer};

use crate::tests::building::{TWO_BY_ONE, key_of};
use crate::tests::running::gathered;
use cluster::{Cluster, Pass, Room};
use cluster_peers::ClusterPeers;
use cluster_stamps::{Card, Stamps};
use dvv::Clock;
use key_state::{Content, Key};
use peers::Peers;
use std::alloc::Global;
use std::io;
use std::marker::Brand;
use std::random::RandomSource;
use std::sync::Wait;
use std::test::Fail;
use test_support::expect;
use vnode::{Seed, Vnode};

/// So many shards a vnode has.
const SHARDS: usize = 32;

/// So many keys are written.
const KEYS: u8 = 100;

/// A source that gives the same byte each time.
struct Constant(u8);

impl RandomSource for Constant {
    fn fill_bytes(&self, buf: &mut [u8]) -> io::Result<()> {
        buf.fill(self.0);
        Ok(())
    }
}

/// Writes each key once at each of two vnodes, and hands the pass back.
fn write_all<B: Room, R: Wait>(
    rt: &R,
    alloc: Global,
    cluster: &Cluster<B>,
    pass: Pass<B>,
) -> Result<Pass<B>, Fail> {
    let mut peers = ClusterPeers::new(alloc, rt, cluster, pass);
    for number in 0..KEYS {
        let key = key_of(alloc, &[number])?;
        for vnode in 0..2 {
            let put = peers.put_at(vnode, &key, &Clock::new(alloc), &Content::Tombstone);
            expect(put.is_ok(), &number)?;
        }
    }
    Ok(peers.into_pass())
}

/// Whether keys stand shard by shard, as a seed puts them there.
fn is_by_shards(seed: Seed, keys: &[Key]) -> bool {
    keys.is_sorted_by(|one, next| seed.hint(one).one_of(SHARDS) <= seed.hint(next).one_of(SHARDS))
}

/// Each vnode lists its keys shard by shard: in that order they stand by the seed, and not by the fixed one.
fn are_seeded(seed: Seed, vnodes: &[Vnode]) -> Result<(), Fail> {
    for vnode in vnodes {
        let keys = vnode.unsorted_keys()?.copies()?;
        expect(keys.len() == usize::from(KEYS), &vnode.id())?;
        expect(is_by_shards(seed, &keys), &vnode.id())?;
        expect(!is_by_shards(Seed::fixed(), &keys), &vnode.id())?;
    }
    Ok(())
}

/// The vnodes of a cluster that was opened with a seed, once all keys were written at each.
fn written<B: Room, R: Wait>(
    rt: &R,
    alloc: Global,
    seed: Seed,
    stamps: Stamps,
    card: Card,
) -> Result<Vec<Vnode>, Fail>
    requires table { (stamps.table.shared.table_id ≡ B.table) × (card.table_id ≡ B.table) }
    requires size { stamps.table.shared.key ≡ record { first = 0; vnodes = 2; passes = 1 } }
    requires card { card.me ≡ (newcomer stamps.table.shared.key, []) }
{
    let (cluster, mut passes) = Cluster::<B>::open(alloc, seed, stamps, card, &TWO_BY_ONE)?;
    let Some(pass) = passes.pop() else {
        return Err(Fail::new("no pass"));
    };
    let pass = write_all(rt, alloc, &cluster, pass)?;
    passes.push(pass)?;
    gathered(cluster, passes)
}

/// The vnodes of a cluster that is opened with a seed are each made by it.
fn deals<B: Room, R: Wait>(rt: &R, alloc: Global, stamps: Stamps, card: Card) -> Result<(), Fail>
    requires table { (stamps.table.shared.table_id ≡ B.table) × (card.table_id ≡ B.table) }
    requires size { stamps.table.shared.key ≡ record { first = 0; vnodes = 2; passes = 1 } }
    requires card { card.me ≡ (newcomer stamps.table.shared.key, []) }
{
    let seed = Seed::random(&Constant(1))?;
    let vnodes = written::<B, R>(rt, alloc, seed, stamps, card)?;
    expect(vnodes.len() == 2, &vnodes.len())?;
    are_seeded(seed, &vnodes)
}

#[test]
fn a_cluster_deals_its_seed(rt: HostRuntime) -> Result<(), Fail> {
    let (stamps, card) = Stamps::new(rt.alloc(), &TWO_BY_ONE)?;
    deals::<Brand, _>(&rt, rt.alloc(), stamps, card)
}
