//! Workers, each with hooks of its own over a registry that they share.

use crate::tests::parts::{BEFORE, Change, RESOLVER, Row, is_bound, kind_of, make_changes};
use bpf_image::ImageKind;
use hook_registry::{HookChanges, HookFault, Hooks};
use hook_sharing::{HookReader, Installer, Rack, WorkerHooks};
use shared_prefix::Naming;
use std::alloc::{AllocError, Global};
use std::sync::{Mutex, Wait};
use std::test::Fail;
use std::thread;
use std::thread::Threads;
use test_support::expect;

/// How many workers there are.
pub(super) const WORKERS: usize = 4;

/// Whether a hook is installed and bound, seen at once under its name, and what isn't allowed is refused.
fn is_seen_at_once<H: Hooks + HookChanges>(
    alloc: Global,
    hooks: &mut H,
    rows: &[Row],
    kind: ImageKind,
    text: &[u8],
) -> bool {
    make_changes(alloc, hooks, rows)
        && kind_of(hooks, kind) == Some(Some(kind))
        && is_bound(alloc, hooks, kind, text)
}

/// What the first worker does.
const FIRST: &[Row] = &[
    (Change::Install(b"no", BEFORE), Ok(())),
    (
        Change::Bind(&[(RESOLVER, b"no")]),
        Err(HookFault::KindDiffers),
    ),
    (Change::Bind(&[(BEFORE, b"no")]), Ok(())),
    (Change::Remove(b"on"), Err(HookFault::NameUnknown)),
];

/// What the second worker does.
const SECOND: &[Row] = &[
    (Change::Install(b"old", RESOLVER), Ok(())),
    (Change::Remove(b"old"), Ok(())),
    (Change::Install(b"take", RESOLVER), Ok(())),
    (Change::Bind(&[(RESOLVER, b"take")]), Ok(())),
];

/// Whether the worker of a place does what it should: the first two bind a hook each, and the others look for one that may not be there
/// yet.
fn works<H: Hooks + HookChanges>(alloc: Global, hooks: &mut H, place: usize) -> bool {
    match place {
        0 => is_seen_at_once(alloc, hooks, FIRST, BEFORE, b"no"),
        1 => is_seen_at_once(alloc, hooks, SECOND, RESOLVER, b"take"),
        _ => {
            let seen = kind_of(hooks, BEFORE);
            seen == Some(None) || seen == Some(Some(BEFORE))
        }
    }
}

/// Each worker does it on a thread of its own.
fn all_work<H: Hooks + HookChanges + Send, R: Threads + Wait + Sync>(
    alloc: Global,
    rt: &R,
    workers: &mut [(H, bool)],
) {
    thread::for_each_mut(
        rt,
        workers,
        WORKERS,
        &|place, worker| { worker.1 = works(alloc, &mut worker.0, place) },
    );
}

/// All workers did what they should, and see both hooks once all are done.
fn all_worked<H: Hooks>(workers: &mut [(H, bool)]) -> Result<(), Fail> {
    for (place, (hooks, worked)) in workers.iter_mut().enumerate() {
        let seen = (kind_of(hooks, BEFORE), kind_of(hooks, RESOLVER));
        let both = (Some(Some(BEFORE)), Some(Some(RESOLVER)));
        expect(*worked && seen == both, &place)?;
    }
    Ok(())
}

/// A worker for each reader, which did nothing yet.
fn workers_of<'a, J: Naming, T: Rack<J> + Drop, R: Wait + Drop>(
    alloc: Global,
    rt: &'a R,
    installer: &'a Mutex<Installer<J, T, R>>,
    readers: Vec<HookReader<J, T>>,
) -> Result<Vec<(WorkerHooks<'a, J, T, R>, bool)>, AllocError> {
    let mut workers = Vec::with_capacity(alloc, WORKERS)?;
    for reader in readers {
        workers.push((WorkerHooks::new(reader, installer, rt), false))?;
    }
    Ok(workers)
}

/// Workers on threads, each with one of the readers.
pub(super) fn four_workers<
    'r,
    J: Naming + Send + Sync,
    T: Rack<J> + Drop + Send + Sync,
    R: Threads + Wait + Sync,
>(
    alloc: Global,
    rt: &'r R,
    installer: &Mutex<Installer<J, T, &'r R>>,
    readers: Vec<HookReader<J, T>>,
) -> Result<(), Fail> {
    let mut workers = workers_of(alloc, &rt, installer, readers)?;
    all_work(alloc, rt, workers.as_mut_slice());
    all_worked(workers.as_mut_slice())
}
