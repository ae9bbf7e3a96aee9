//! Workers on threads, over vnodes that are watched meanwhile.

ghost use Rattle.std.specs.Prelude.{◌≡◌, []};
ghost use Rattle.cluster_stamps.specs.Rule.{newcomer};

use crate::tests::building::THREE_BY_FIVE;
use crate::tests::rounds::Rounders;
use crate::tests::running::{passes_of, workers_of};
use crate::tests::working::serve_all;
use audit_cluster::{Alarm, Notice, Spot, Start, Watch, close_watched};
use cluster::{Cluster, Pass, Room};
use cluster_stamps::{Card, Stamps};
use std::alloc::Global;
use std::marker::Brand;
use std::sync::{Mutex, Wait};
use std::test::Fail;
use std::thread;
use std::thread::Threads;
use test_support::expect;
use vnode::Seed;

/// How many rounds each worker goes. So each vnode gets fewer entries than answers are kept of, however long a worker is stopped.
const ROUNDS: usize = 3_000;

/// How many turns are taken meanwhile.
const TURNS: u64 = 400;

/// Hears nothing.
pub(super) struct Silent;

impl Alarm for Silent {
    fn raise(&self, _notice: Notice) {}
}

/// Takes so many turns.
fn watch_turns<B: Room + Spot, R: Wait>(rt: &R, cluster: &Cluster<B>, watch: &Mutex<Watch<B>>)
    requires { cluster.now.first ≡ B.first }
{
    for _ in 0..TURNS {
        watch.lock(rt).turn(rt, cluster, &Silent);
    }
}

/// Four workers, while a thread follows what they do.
fn work_and_watch<B: Room + Spot + Send + Sync, R: Threads + Wait + Sync>(
    rt: &R,
    alloc: Global,
    cluster: &Cluster<B>,
    passes: Vec<Pass<B>>,
    watch: &Mutex<Watch<B>>,
) -> Result<Vec<Pass<B>>, Fail>
    requires { cluster.now.first ≡ B.first }
{
    let workers = workers_of(alloc, passes, &Rounders(ROUNDS))?;
    let (_, done) = thread::join(
        rt,
        ||
            requires { cluster.now.first ≡ B.first }
        { watch_turns(rt, cluster, watch) },
        || serve_all(alloc, rt, cluster, workers),
    );
    passes_of(alloc, done?)
}

/// Three vnodes, of which four workers make 36,000 entries.
fn watched_meanwhile<B: Room + Spot + Send + Sync, R: Threads + Wait + Sync>(
    rt: &R,
    alloc: Global,
    stamps: Stamps,
    card: Card,
) -> Result<(), Fail>
    requires table { (stamps.table.shared.table_id ≡ B.table) × (card.table_id ≡ B.table) }
    requires size { stamps.table.shared.key ≡ record { first = 0; vnodes = 3; passes = 5 } }
    requires card { card.me ≡ (newcomer stamps.table.shared.key, []) }
    requires spot { 0 ≡ B.first }
{
    let (cluster, mut passes) = Cluster::<B>::open(
        alloc,
        Seed::fixed(),
        stamps,
        card,
        &THREE_BY_FIVE,
    )?;
    let watch = Mutex::new(Watch::new(alloc, &mut passes, 0, 3, Start::empty(alloc))?);
    let back = work_and_watch(rt, alloc, &cluster, passes, &watch)?;
    if back.len() < 4 {
        return Err(Fail::new("a pass is missing"));
    }
    let closed = close_watched(alloc, cluster, back, watch.into_inner(), &[])?;
    let said = closed.said.said();
    expect(said == Ok(()), &said)
}

/// What is followed while threads work is one run, with all that came after.
#[test]
fn a_follower_beside_workers(rt: HostRuntime) -> Result<(), Fail> {
    let (stamps, card) = Stamps::new(rt.alloc(), &THREE_BY_FIVE)?;
    watched_meanwhile::<Brand, _>(&rt, rt.alloc(), stamps, card)
}
