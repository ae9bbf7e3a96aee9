//! Keys that vnodes, and a vnode and its follower, hold once.

ghost use Rattle.std.specs.Prelude.{◌≡◌, ◌<◌, []};
ghost use Rattle.cluster_stamps.specs.Rule.{newcomer};

use crate::tests::blocks::take_all;
use crate::tests::building::{SIXTEEN, THREE_BY_ONE, key_of, value_of};
use audit_follower::{Follower, Start};
use cluster::{Cluster, Pass, Room};
use cluster_peers::ClusterPeers;
use cluster_stamps::{Card, Stamps};
use dvv::Clock;
use peers::Peers;
use std::alloc::Global;
use std::marker::Brand;
use std::sync::Wait;
use std::test::Fail;
use test_support::expect;
use vnode::{BlockSpot, Seed, Vnode};

/// How many keys are written: six blocks of a journal, and some 190 in each of the vnode's 32 shards, of which 128 fill a
/// block.
const KEYS: u64 = 6_144;

/// Writes each key once.
fn write_all(alloc: Global, vnode: &mut Vnode) -> Result<(), Fail> {
    let content = value_of(alloc, b"a")?;
    for stamp in 0..KEYS {
        let key = key_of(alloc, &stamp.to_be_bytes())?;
        vnode.put_lent(stamp, &key, &Clock::new(alloc), &content)?;
    }
    Ok(())
}

/// Has the follower take one more of the vnode's blocks of keys, if there is one that it hasn't compared. Then both hold its memory, and
/// whoever asks for it.
fn share_one(vnode: &Vnode, follower: &mut Follower) -> Result<bool, Fail> {
    if follower.count() == 0 {
        return Err(Fail::new("no vnode"));
    }
    let Some(at) = follower.uncompared(0) else {
        return Ok(false);
    };
    let Some(block) = vnode.key_block(at) else {
        return Err(Fail::new("no block"));
    };
    follower.share_keys(0, at, block);
    let owners = vnode.key_block(at).map(|block| block.owners());
    expect(owners == Some(3), &owners)?;
    Ok(true)
}

/// A follower that has followed a vnode takes each of its full blocks of keys, one of nearly each shard, and holds the vnode's memory of
/// it in place of its own.
#[test]
fn keys_are_held_once(rt: HostRuntime) -> Result<(), Fail> {
    let alloc = rt.alloc();
    let mut vnode = Vnode::new(alloc, 0);
    let mut follower = Follower::new(alloc, &[0], SIXTEEN, Start::empty(alloc))?;
    write_all(alloc, &mut vnode)?;
    take_all(&mut follower, 0, vnode.settle(&mut Vec::new(alloc)).0)?;
    follower.follow(KEYS)?;
    for shared in 0..64 {
        if !share_one(&vnode, &mut follower)? {
            return expect((20..=48).contains(&shared), &shared);
        }
    }
    Err(Fail::new("too many blocks"))
}

/// Writes each key once at three vnodes of a cluster: in the same order at two of them, and the other way round at the third.
fn write_all_there<B: Room, R: Wait>(
    rt: &R,
    alloc: Global,
    cluster: &Cluster<B>,
    pass: Pass<B>,
) -> Result<(), Fail> {
    let content = value_of(alloc, b"a")?;
    let mut peers = ClusterPeers::new(alloc, rt, cluster, pass);
    for number in 0..KEYS {
        let key = key_of(alloc, &number.to_be_bytes())?;
        let other = key_of(alloc, &(KEYS - 1 - number).to_be_bytes())?;
        for (i, key) in [(0, &key), (1, &key), (2, &other)] {
            let put = peers.put_at(i, key, &Clock::new(alloc), &content);
            expect(put.is_ok(), &number)?;
        }
    }
    Ok(())
}

/// How many hold the memory of a vnode's block of keys, the asker among them.
fn owners_of<B: Room, R: Wait>(
    rt: &R,
    cluster: &Cluster<B>,
    vnode: usize,
    at: BlockSpot,
) -> Option<usize>
    requires { vnode < cluster.now.vnodes }
{
    let block = cluster.key_block(rt, vnode, at)?;
    Some(block.owners())
}

/// Each of three vnodes is to share the first one's block of keys. The second does, which heard of them in the same order, and
/// the third doesn't.
fn second_shares<B: Room, R: Wait>(
    rt: &R,
    cluster: &Cluster<B>,
    at: BlockSpot,
) -> Result<(), Fail> {
    if cluster.count() != 3 {
        return Err(Fail::new("not three"));
    }
    for vnode in 0..3 {
        cluster.share_keys(rt, vnode, at);
    }
    let owners = (
        owners_of(rt, cluster, 0, at),
        owners_of(rt, cluster, 1, at),
        owners_of(rt, cluster, 2, at),
    );
    expect(owners == (Some(3), Some(3), Some(2)), &owners)
}

/// The same by the pass of a new cluster. Where its first full block of keys lies is where that of a vnode lies at which the same
/// was written.
fn by_one_pass<B: Room, R: Wait>(
    rt: &R,
    alloc: Global,
    stamps: Stamps,
    card: Card,
) -> Result<(), Fail>
    requires table { (stamps.table.shared.table_id ≡ B.table) × (card.table_id ≡ B.table) }
    requires size { stamps.table.shared.key ≡ record { first = 0; vnodes = 3; passes = 1 } }
    requires card { card.me ≡ (newcomer stamps.table.shared.key, []) }
{
    let mut vnode = Vnode::new(alloc, 0);
    write_all(alloc, &mut vnode)?;
    let Some(at) = vnode.uncompared() else {
        return Err(Fail::new("no block"));
    };
    let (cluster, mut passes) = Cluster::<B>::open(
        alloc,
        Seed::fixed(),
        stamps,
        card,
        &THREE_BY_ONE,
    )?;
    let Some(pass) = passes.pop() else {
        return Err(Fail::new("no pass"));
    };
    write_all_there(rt, alloc, &cluster, pass)?;
    second_shares(rt, &cluster, at)
}

#[test]
fn vnodes_hold_keys_once(rt: HostRuntime) -> Result<(), Fail> {
    let (stamps, card) = Stamps::new(rt.alloc(), &THREE_BY_ONE)?;
    by_one_pass::<Brand, _>(&rt, rt.alloc(), stamps, card)
}
