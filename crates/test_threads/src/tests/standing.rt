//! Where keys stand on a ring of three vnodes, as these are told it.

ghost use Rattle.std.specs.Prelude.{◌≡◌, []};
ghost use Rattle.cluster_stamps.specs.Rule.{newcomer};

use crate::tests::building::{THREE_BY_ONE, key_of};
use bpf_helpers::Table;
use cluster::{Cluster, Pass, Room};
use cluster_peers::ClusterPeers;
use cluster_stamps::{Card, Stamps};
use dvv::Clock;
use hook_registry::Registry;
use key_state::{Content, Key};
use quorum::Hooking;
use ring::{Placement, place};
use server_store::Store;
use std::alloc::Global;
use std::marker::Brand;
use std::sync::Wait;
use std::test::Fail;
use test_support::expect;
use vnode::{Hint, Seed, Vnode};

/// A key of bucket `b`, and its place on a ring of three vnodes.
type Standing = (&'static [u8], u32);

/// Computed by another program. They are asked for at each of the three vnodes.
const PLACES: &[Standing] = &[(b"k", 0), (b"cart", 2), (b"m", 0), (b"l", 1)];

/// Where a key stands, as one of three vnodes was told it. Who remembers another key asks the same vnode, or one that was told nothing.
fn standing_of<B: Room, R: Wait>(
    rt: &R,
    alloc: Global,
    cluster: &Cluster<B>,
    key: &Key,
) -> Result<Option<u32>, Fail> {
    let name = key.key();
    let mut own = cluster.hint(key);
    let told = cluster.ring_place(rt, &mut own, key);
    expect(cluster.ring_place(rt, &mut own, key) == told, &name)?;
    expect(
        cluster.ring_place(rt, &mut Hint::none(), key).is_none(),
        &name,
    )?;
    for (other, _) in PLACES {
        let mut others = cluster.hint(&key_of(alloc, *other)?);
        let by_others = cluster.ring_place(rt, &mut others, key);
        expect(by_others.is_none() || by_others == told, &name)?;
    }
    Ok(told)
}

/// A read of a key that no vnode holds tells none of them where it stands, and a write does: so the next needs no digest.
fn place_is_told<B: Room, R: Wait>(
    rt: &R,
    alloc: Global,
    cluster: &Cluster<B>,
    pass: Pass<B>,
    standing: Standing,
) -> Result<Pass<B>, Fail> {
    let (name, place) = standing;
    let key = key_of(alloc, name)?;
    if !key.is_within_limits() {
        return Err(Fail::new("past the limits"));
    }
    let peers = ClusterPeers::new(alloc, rt, cluster, pass);
    let hooking = Hooking::new(alloc, Registry::new(alloc), Table::new(alloc));
    let mut store = Store::new(alloc, peers, hooking, Placement::by_digest(3, 3));
    let read = store.get(&key, 2, 0);
    let unheld = standing_of(rt, alloc, cluster, &key)?;
    let put = store.put(&key, &Clock::new(alloc), &Content::Tombstone, 2, 0);
    let told = standing_of(rt, alloc, cluster, &key)?;
    let again = store.get(&key, 2, 0);
    expect(read.is_ok() && put.is_ok() && again.is_ok(), &name)?;
    expect((unheld, told) == (None, Some(place)), &name)?;
    let Store { peers, .. } = store;
    Ok(peers.into_pass())
}

/// The same of each of these keys.
fn all_are_told<B: Room, R: Wait>(
    rt: &R,
    alloc: Global,
    cluster: &Cluster<B>,
    mut pass: Pass<B>,
) -> Result<(), Fail> {
    for standing in PLACES {
        pass = place_is_told(rt, alloc, cluster, pass, *standing)?;
    }
    Ok(())
}

/// The same by the pass of a new cluster.
fn by_one_pass<B: Room, R: Wait>(
    rt: &R,
    alloc: Global,
    stamps: Stamps,
    card: Card,
) -> Result<(), Fail>
    requires table { (stamps.table.shared.table_id ≡ B.table) × (card.table_id ≡ B.table) }
    requires size { stamps.table.shared.key ≡ record { first = 0; vnodes = 3; passes = 1 } }
    requires card { card.me ≡ (newcomer stamps.table.shared.key, []) }
{
    let (cluster, mut passes) = Cluster::<B>::open(
        alloc,
        Seed::fixed(),
        stamps,
        card,
        &THREE_BY_ONE,
    )?;
    let Some(pass) = passes.pop() else {
        return Err(Fail::new("no pass"));
    };
    all_are_told(rt, alloc, &cluster, pass)
}

#[test]
fn places_are_told(rt: HostRuntime) -> Result<(), Fail> {
    let (stamps, card) = Stamps::new(rt.alloc(), &THREE_BY_ONE)?;
    by_one_pass::<Brand, _>(&rt, rt.alloc(), stamps, card)
}

/// A vnode gets a key, and is told where it stands.
fn tell_one(alloc: Global, vnode: &mut Vnode, stamp: u64, name: &[u8]) -> Result<(), Fail> {
    let key = key_of(alloc, name)?;
    if !key.is_within_limits() {
        return Err(Fail::new("past the limits"));
    }
    vnode.put_lent(stamp, &key, &Clock::new(alloc), &Content::Tombstone)?;
    vnode.learn_ring_place(&key, place(key.bucket(), key.key(), 3));
    Ok(())
}

/// A vnode tells where a key stands, whether the look-up begins by what is remembered of another key that it has, or by nothing.
fn is_found_by(alloc: Global, vnode: &Vnode, standing: Standing, other: &[u8]) -> Result<(), Fail> {
    let (name, place) = standing;
    let key = key_of(alloc, name)?;
    let other = key_of(alloc, other)?;
    let mut hint = Seed::fixed().hint(&other);
    let _ = vnode.ring_place(&mut hint, &other);
    let found = vnode.ring_place(&mut hint, &key);
    expect(found == Some(place), &name)?;
    let found = vnode.ring_place(&mut Hint::none(), &key);
    expect(found == Some(place), &name)
}

#[test]
fn places_are_found_by_any_hint(rt: HostRuntime) -> Result<(), Fail> {
    let alloc = rt.alloc();
    let mut vnode = Vnode::new(alloc, 0);
    for (name, place) in PLACES {
        tell_one(alloc, &mut vnode, u64::from(*place), *name)?;
    }
    for standing in PLACES {
        for (other, _) in PLACES {
            is_found_by(alloc, &vnode, *standing, *other)?;
        }
    }
    Ok(())
}
