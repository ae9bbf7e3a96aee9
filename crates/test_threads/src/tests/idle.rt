//! A vnode at which much happens, beside vnodes at which nothing does.

ghost use Rattle.std.specs.Prelude.{◌≡◌, []};
ghost use Rattle.cluster_stamps.specs.Rule.{newcomer};

use crate::tests::building::{THREE_BY_TWO, key_of};
use crate::tests::watching::Silent;
use audit_cluster::{Spot, Start, Watch, close_watched};
use cluster::{Cluster, Pass, Room};
use cluster_stamps::{Card, Request, Stamps};
use journal::BLOCK;
use std::alloc::Global;
use std::marker::Brand;
use std::sync::Wait;
use std::test::Fail;
use test_support::expect;
use vnode::Seed;

/// How many reads are made between two turns.
const READS: usize = 1_000;

/// How many turns are taken.
const TURNS: usize = 200;

/// So many entries may wait: those that may behind vnodes at which nothing happens, and a block at each vnode.
const MOST: usize = 8_192 + 3 * BLOCK;

/// Makes so many reads at the first vnode.
fn read_much<B: Room, R: Wait>(
    rt: &R,
    cluster: &Cluster<B>,
    pass: &mut Pass<B>,
    request: &Request,
) -> Result<(), Fail> {
    if cluster.count() == 0 {
        return Err(Fail::new("no vnode"));
    }
    for _ in 0..READS {
        if cluster.call(rt, pass, 0, request).is_err() {
            return Err(Fail::new("refused"));
        }
    }
    Ok(())
}

/// Makes 200,000 reads at the first vnode, as puts do that a hook refuses, and takes turns meanwhile: not many of them wait at any time.
fn keep_busy<B: Room + Spot, R: Wait>(
    rt: &R,
    alloc: Global,
    cluster: &Cluster<B>,
    pass: &mut Pass<B>,
    watch: &mut Watch<B>,
) -> Result<(), Fail>
    requires { cluster.now.first ≡ B.first }
{
    let request = Request::Read {
        key: key_of(alloc, b"k")?,
    };
    for turn in 0..TURNS {
        read_much(rt, cluster, pass, &request)?;
        watch.turn(rt, cluster, &Silent);
        expect(watch.can_go_on(MOST), &turn)?;
    }
    let followed = watch.followed(0);
    expect(followed > Some(READS * TURNS - MOST), &followed)
}

/// Three vnodes, one of which is busy.
fn busy_beside_idle<B: Room + Spot, R: Wait>(
    rt: &R,
    alloc: Global,
    stamps: Stamps,
    card: Card,
) -> Result<(), Fail>
    requires table { (stamps.table.shared.table_id ≡ B.table) × (card.table_id ≡ B.table) }
    requires size { stamps.table.shared.key ≡ record { first = 0; vnodes = 3; passes = 2 } }
    requires card { card.me ≡ (newcomer stamps.table.shared.key, []) }
    requires spot { 0 ≡ B.first }
{
    let (cluster, mut passes) = Cluster::<B>::open(
        alloc,
        Seed::fixed(),
        stamps,
        card,
        &THREE_BY_TWO,
    )?;
    let mut watch = Watch::new(alloc, &mut passes, 0, 3, Start::empty(alloc))?;
    if let Some(pass) = passes.first_mut() {
        keep_busy(rt, alloc, &cluster, pass, &mut watch)?;
    }
    let closed = close_watched(alloc, cluster, passes, watch, &[])?;
    let said = closed.said.said();
    expect(said == Ok(()), &said)
}

/// Vnodes at which nothing happens hold no others up.
#[test]
fn idle_vnodes(rt: HostRuntime) -> Result<(), Fail> {
    let (stamps, card) = Stamps::new(rt.alloc(), &THREE_BY_TWO)?;
    busy_beside_idle::<Brand, _>(&rt, rt.alloc(), stamps, card)
}
