//! How the vnodes of a store take over what a folder held, while that is followed.

ghost use Rattle.std.specs.Prelude.{◌≡◌, ◌≤◌, IfOk, map, vec_len};
ghost use Rattle.kept_restore.specs.Beginnings.{HaveLoaded};

use crate::crew::Lookout;
use crate::crew::reporter::Aloud;
use crate::host::Host;
use crate::limits::{
    LOAD_AHEAD_ENTRIES, LOAD_LOOK_RECORDS, LOAD_NAP_MS, LOAD_PIECE_STAMPS, LOAD_REST_MS,
};
use audit_cluster::Spot;
use cluster::{Cluster, Room};
use kept_file::KeptFile;
use kept_restore::{Loader, Loading, Throttle, Unloaded};
use std::sync::Wait;
use std::sync::atomic::AtomicBool;
use std::sync::atomic::Ordering::SeqCst;
use std::thread;
use std::thread::{Parker, Threads};
use std::time::Duration;

/// What those who take records over and who follows them tell each other.
#[derive(Drop)]
pub struct Load<'a, R> {
    rt: &'a R,
    /// Whether so much waits to be followed that the others wait.
    is_behind: AtomicBool,
    /// Whether they have ended.
    is_over: AtomicBool,
}

impl<'a, R: Wait> Load<'a, R> {
    fn new(rt: &'a R) -> Load<'a, R> {
        Load {
            rt,
            is_behind: AtomicBool::new(false),
            is_over: AtomicBool::new(false),
        }
    }
}

impl<R: Wait> Throttle for Load<'_, R> {
    fn before(&self, _vnode: usize, place: usize) {
        if place % LOAD_LOOK_RECORDS == 0 && self.is_behind.load(SeqCst) {
            Parker::new().park_timeout(self.rt, Duration::from_millis(LOAD_REST_MS));
        }
    }
}

/// Has the vnodes of a cluster take over their records, side by side, while the follower follows them: so what they take for it is let go
/// again as they go on. They wait where they are too far ahead of it. What is left to be followed behind them is followed as the store
/// serves.
pub fn begin<B: Room + Spot + Send + Sync, R: Threads + Wait + Sync>(
    host: &Host<'_, R>,
    cluster: &Cluster<B>,
    loaders: Vec<Loader<B>>,
    files: &[KeptFile],
    lookout: &mut Lookout<B>,
) -> Result<Vec<Loader<B>>, Unloaded>
    requires vnodes { vec_len loaders ≤ cluster.now.vnodes }
    requires spot { cluster.now.first ≡ B.first }
    ensures loaded { IfOk result (λ back. HaveLoaded cluster.now.first 0 files.now (map (λ l. l.pass) loaders.items) (map (λ l. l.pass) back.items)) }
    ensures count { IfOk result (λ back. vec_len back ≡ vec_len loaders) }
{
    let load = Load::new(host.rt);
    let both = &load;
    let loading = Loading {
        alloc: host.alloc,
        rt: host.rt,
        cluster,
        throttle: both,
    };
    // Who follows is handed the new thread, or waits for its turn where none can be made: it ends only once the others have.
    let ((), loaded) = thread::join(
        host.rt,
        || -> ()
            requires { cluster.now.first ≡ B.first }
        { follow_load(cluster, lookout, both) },
        || -> Result<Vec<Loader<B>>, Unloaded>
            requires { vec_len loaders ≤ loading.cluster.now.vnodes }
            ensures { IfOk result (λ back. HaveLoaded loading.entry.cluster.now.first 0 files.entry.now (map (λ l. l.pass) loaders.items) (map (λ l. l.pass) back.items) × (vec_len back ≡ vec_len loaders)) }
        {
            let loaded = take_over(&loading, loaders, files);
            both.is_over.store(true, SeqCst);
            loaded
        },
    );
    loaded
}

/// Has vnodes take over their records.
fn take_over<B: Room + Send + Sync, R: Threads + Wait + Sync, T: Throttle + Sync>(
    loading: &Loading<'_, B, R, T>,
    mut loaders: Vec<Loader<B>>,
    files: &[KeptFile],
) -> Result<Vec<Loader<B>>, Unloaded>
    requires vnodes { vec_len loaders ≤ loading.now.cluster.now.vnodes }
    ensures loaded { IfOk result (λ back. HaveLoaded loading.now.cluster.now.first 0 files.now (map (λ l. l.pass) loaders.items) (map (λ l. l.pass) back.items)) }
    ensures count { IfOk result (λ back. vec_len back ≡ vec_len loaders) }
{
    loading.load_all(&mut loaders, files)?;
    Ok(loaders)
}

/// Follows what vnodes take over, until all of them have.
fn follow_load<B: Room + Spot, R: Wait>(
    cluster: &Cluster<B>,
    lookout: &mut Lookout<B>,
    load: &Load<'_, R>,
)
    requires spot { cluster.now.first ≡ B.first }
{
    let Lookout { watch, err, .. } = lookout;
    let alarm = Aloud(*err);
    let nap = Parker::new();
    for _ in load.rt.forever() {
        if load.is_over.load(SeqCst) {
            break;
        }
        watch.hear_each(load.rt, cluster);
        let is_more = watch.follow_some(LOAD_PIECE_STAMPS, &alarm);
        load.is_behind
            .store(!watch.can_go_on(LOAD_AHEAD_ENTRIES), SeqCst);
        if !is_more {
            nap.park_timeout(load.rt, Duration::from_millis(LOAD_NAP_MS));
        }
    }
}
