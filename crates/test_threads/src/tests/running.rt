//! Workers on threads of their own, by the passes of a cluster.

ghost use Rattle.std.specs.Prelude.{◌≡◌, ◌+◌, ◌≤◌, ◌^◌, [], IfOk};
ghost use Rattle.cluster_vnode.specs.Gathers.{Differ};
ghost use Rattle.cluster_stamps.specs.Rule.{newcomer};

use crate::tests::working::{Worker, serve_all};
use audit_cluster::audit_vnodes;
use cluster::{Cluster, Pass, Room};
use cluster_stamps::{Card, Size, Stamps};
use std::alloc::{AllocError, Global};
use std::marker::Brand;
use std::sync::Wait;
use std::test::Fail;
use std::thread::Threads;
use test_support::expect;
use vnode::{Seed, Vnode};

/// The vnodes of a cluster whose passes are back.
pub(super) fn gathered<B: Room>(
    cluster: Cluster<B>,
    passes: Vec<Pass<B>>,
) -> Result<Vec<Vnode>, Fail>
    ensures { IfOk result (λ vnodes. Differ vnodes.items) }
{
    match cluster.gather(passes) {
        Ok(vnodes) => Ok(vnodes),
        Err(_) => Err(Fail::new("not gathered")),
    }
}

/// Work that keeps in mind what was answered.
pub(super) trait Answered: Worker {
    /// Whether each call was answered.
    fn is_answered(&self) -> bool;
}

/// Those who work.
pub(super) trait Staff {
    type Work: Answered + Drop;

    /// The work of one of them.
    fn work(&self, alloc: Global, number: usize) -> Result<Self::Work, AllocError>;
}

/// A work beside each pass.
pub(super) fn workers_of<B: Room, S: Staff>(
    alloc: Global,
    passes: Vec<Pass<B>>,
    staff: &S,
) -> Result<Vec<(Pass<B>, S::Work)>, AllocError> {
    let mut workers = Vec::with_capacity(alloc, passes.len())?;
    for pass in passes {
        let work = staff.work(alloc, workers.len())?;
        workers.push((pass, work))?;
    }
    Ok(workers)
}

/// The passes of workers who were all answered.
pub(super) fn passes_of<B: Room, W: Answered + Drop>(
    alloc: Global,
    workers: Vec<(Pass<B>, W)>,
) -> Result<Vec<Pass<B>>, Fail> {
    let mut passes = Vec::new(alloc);
    for (pass, work) in workers {
        expect(work.is_answered(), &passes.len())?;
        passes.push(pass)?;
    }
    Ok(passes)
}

/// Has a worker for each pass work, on a thread of its own.
fn serve<B: Room + Send + Sync, S: Staff, R: Threads + Wait + Sync>(
    rt: &R,
    alloc: Global,
    cluster: &Cluster<B>,
    passes: Vec<Pass<B>>,
    staff: &S,
) -> Result<Vec<Pass<B>>, Fail> {
    let workers = workers_of(alloc, passes, staff)?;
    let done = serve_all(alloc, rt, cluster, workers)?;
    passes_of(alloc, done)
}

/// The vnodes of a new cluster of this size, after each of a staff has worked.
pub(super) fn served<S: Staff, R: Threads + Wait + Sync>(
    rt: &R,
    alloc: Global,
    size: &Size,
    staff: &S,
) -> Result<Vec<Vnode>, Fail>
    requires passes { size.now.passes ≤ 64 }
    requires few { size.now.first + size.now.vnodes ≤ 2 ^ 32 }
    ensures { IfOk result (λ vnodes. Differ vnodes.items) }
{
    let (stamps, card) = Stamps::new(alloc, size)?;
    by_staff::<Brand, _, _>(rt, alloc, stamps, card, size, staff)
}

/// The vnodes of a cluster of this size over the word, after each of a staff has worked.
fn by_staff<B: Room + Send + Sync, S: Staff, R: Threads + Wait + Sync>(
    rt: &R,
    alloc: Global,
    stamps: Stamps,
    card: Card,
    size: &Size,
    staff: &S,
) -> Result<Vec<Vnode>, Fail>
    requires table { (stamps.table.shared.table_id ≡ B.table) × (card.table_id ≡ B.table) }
    requires size { stamps.table.shared.key ≡ size.now }
    requires few { size.now.first + size.now.vnodes ≤ 2 ^ 32 }
    requires card { card.me ≡ (newcomer stamps.table.shared.key, []) }
    ensures { IfOk result (λ vnodes. Differ vnodes.items) }
{
    let (cluster, passes) = Cluster::<B>::open(alloc, Seed::fixed(), stamps, card, size)?;
    let back = serve(rt, alloc, &cluster, passes, staff)?;
    gathered(cluster, back)
}

/// How many entries a journal has, at least and at most.
pub(super) type Length = (usize, usize);

/// Whether so many entries are as many as there are to be.
fn is_within(entries: usize, (least, most): Length) -> bool {
    least <= entries && entries <= most
}

/// Three journals have these lengths, and are one run.
pub(super) fn are_one_run(
    alloc: Global,
    vnodes: &[Vnode],
    lengths: &[Length; 3],
) -> Result<(), Fail>
    requires { Differ vnodes.now }
{
    expect(vnodes.len() == lengths.len(), &vnodes.len())?;
    for (vnode, length) in vnodes.iter().zip(lengths) {
        expect(is_within(vnode.journal().len(), *length), length)?;
    }
    let end = audit_vnodes(alloc, vnodes);
    expect(end == Ok(()), &end)
}
