//! Which calls are made at the same time: calls at two vnodes are, and two calls at one vnode are not.

ghost use Rattle.std.specs.Prelude.{◌≡◌, ◌<◌, []};
ghost use Rattle.cluster_stamps.specs.Rule.{newcomer};

use crate::tests::building::TWO_BY_ONE;
use cluster::{Cluster, Pass, Room};
use cluster_stamps::{Card, Prepared, Stamps};
use std::alloc::Global;
use std::marker::Brand;
use std::sync::Wait;
use std::sync::atomic::AtomicBool;
use std::sync::atomic::Ordering::SeqCst;
use std::test::Fail;
use std::thread;
use std::thread::Threads;
use test_support::expect;
use vnode::Seed;

/// How often a sign is looked for before who looks gives up.
const LOOKS: u64 = 1 << 32;

/// How often a sign is looked for that mustn't be given.
const LOOKS_IN_VAIN: u64 = 1 << 20;

/// What who holds a vnode and who calls one tell each other.
#[derive(Drop)]
struct Signs {
    /// The vnode is held.
    held: AtomicBool,
    /// The call is about to be made.
    begun: AtomicBool,
    /// The call was answered.
    answered: AtomicBool,
}

impl Signs {
    /// None was given.
    fn new() -> Signs {
        Signs {
            held: AtomicBool::new(false),
            begun: AtomicBool::new(false),
            answered: AtomicBool::new(false),
        }
    }
}

/// Whether a sign is given before so many looks are over.
fn is_given(sign: &AtomicBool, looks: u64) -> bool {
    for _ in 0..looks {
        if sign.load(SeqCst) {
            return true;
        }
    }
    false
}

/// Holds vnode 0 until the call is answered, which must be meanwhile. Where that is of the same vnode it mustn't be: then the vnode is held
/// for some looks behind the call's begin. Whether it was as it must be.
fn hold<B: Room, R: Wait>(rt: &R, cluster: &Cluster<B>, signs: &Signs, is_same: bool) -> bool
    requires { 0 < cluster.now.vnodes }
{
    let _guard = cluster.lock(rt, 0);
    signs.held.store(true, SeqCst);
    if is_same {
        is_given(&signs.begun, LOOKS) && !is_given(&signs.answered, LOOKS_IN_VAIN)
    } else {
        is_given(&signs.answered, LOOKS)
    }
}

/// Makes two calls at a vnode under one guard, once vnode 0 is held. Whether both were answered.
fn call<B: Room, R: Wait>(
    rt: &R,
    cluster: &Cluster<B>,
    pass: &mut Pass<B>,
    signs: &Signs,
    vnode: usize,
) -> bool
    requires { vnode < cluster.now.vnodes }
{
    if !is_given(&signs.held, LOOKS) {
        return false;
    }
    signs.begun.store(true, SeqCst);
    let mut guard = cluster.lock(rt, vnode);
    let first = guard.call(pass, Prepared::Restart).is_ok();
    let second = guard.call(pass, Prepared::Restart).is_ok();
    signs.answered.store(true, SeqCst);
    first && second
}

/// Calls a vnode while a thread holds vnode 0. Whether the call was answered, and only when it must be.
fn held_and_called<B: Room + Send + Sync, R: Threads + Wait + Sync>(
    rt: &R,
    cluster: &Cluster<B>,
    pass: &mut Pass<B>,
    vnode: usize,
) -> bool
    requires { (vnode < cluster.now.vnodes) × (0 < cluster.now.vnodes) }
{
    let signs = Signs::new();
    let signs = &signs;
    let is_same = vnode == 0;
    let (held, called) = thread::join(
        rt,
        || -> bool
            requires { 0 < cluster.now.vnodes }
        { hold(rt, cluster, signs, is_same) },
        || -> bool
            requires { vnode < cluster.now.vnodes }
        { call(rt, cluster, pass, signs, vnode) },
    );
    held && called
}

/// The same by the pass of a new cluster.
fn by_one_pass<B: Room + Send + Sync, R: Threads + Wait + Sync>(
    rt: &R,
    alloc: Global,
    stamps: Stamps,
    card: Card,
    vnode: usize,
) -> Result<(), Fail>
    requires table { (stamps.table.shared.table_id ≡ B.table) × (card.table_id ≡ B.table) }
    requires size { stamps.table.shared.key ≡ record { first = 0; vnodes = 2; passes = 1 } }
    requires card { card.me ≡ (newcomer stamps.table.shared.key, []) }
    requires vnode { vnode < 2 }
{
    let (cluster, mut passes) = Cluster::<B>::open(
        alloc,
        Seed::fixed(),
        stamps,
        card,
        &TWO_BY_ONE,
    )?;
    let Some(pass) = passes.first_mut() else {
        return Err(Fail::new("no pass"));
    };
    expect(held_and_called(rt, &cluster, pass, vnode), &vnode)
}

/// A call at a vnode is answered while another vnode is held.
#[test]
fn gate_two_vnodes(rt: HostRuntime) -> Result<(), Fail> {
    let (stamps, card) = Stamps::new(rt.alloc(), &TWO_BY_ONE)?;
    by_one_pass::<Brand, _>(&rt, rt.alloc(), stamps, card, 1)
}

/// A call at a vnode that is held is answered once it is held no more.
#[test]
fn gate_same_vnode(rt: HostRuntime) -> Result<(), Fail> {
    let (stamps, card) = Stamps::new(rt.alloc(), &TWO_BY_ONE)?;
    by_one_pass::<Brand, _>(&rt, rt.alloc(), stamps, card, 0)
}
