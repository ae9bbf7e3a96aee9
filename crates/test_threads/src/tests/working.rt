//! Workers on threads of their own, over the vnodes of a cluster.

use cluster::{Cluster, Pass, Room};
use cluster_peers::ClusterPeers;
use peers::Peers;
use std::alloc::{AllocError, Global};
use std::sync::Wait;
use std::thread;
use std::thread::Threads;

/// Work over any vnodes.
pub(super) trait Worker: Send {
    /// Does the work, by calls on the vnodes.
    fn run<P: Peers>(&mut self, peers: &mut P);
}

/// Has one worker work by its own pass.
fn serve_one<B: Room, W: Worker, R: Wait>(
    alloc: Global,
    rt: &R,
    cluster: &Cluster<B>,
    worker: (Pass<B>, W),
) -> (Pass<B>, W) {
    let (pass, mut work) = worker;
    let mut peers = ClusterPeers::new(alloc, rt, cluster, pass);
    work.run(&mut peers);
    (peers.into_pass(), work)
}

/// Has each worker work on a thread of its own, or on the caller's where no thread can be made. Returns when all have. There may be no
/// memory for their threads.
pub(super) fn serve_all<B: Room + Send + Sync, W: Worker + Drop, R: Threads + Wait + Sync>(
    alloc: Global,
    rt: &R,
    cluster: &Cluster<B>,
    workers: Vec<(Pass<B>, W)>,
) -> Result<Vec<(Pass<B>, W)>, AllocError> {
    thread::map_vec(
        rt,
        workers,
        &|worker: (Pass<B>, W)| -> (Pass<B>, W) { serve_one(alloc, rt, cluster, worker) },
    )
}
